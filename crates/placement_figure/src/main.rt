// The task of document 004's figure 2: six blocks with their times, the cost of each region, and a
// limit of 12 on a region's time and cost together.
#![tactic(auto)]

ghost use Rattle.std.specs.Prelude.{◌<◌, ◌≤◌};
ghost use Rattle.placement.specs.Rows.{Rising};

use placement::Choice;
use std::io;

const LIMIT: u64 = 12;

const TIMES: [u8; 6] = [3, 2, 2, 3, 3, 3];

// The costs of the regions from edge a: at b that of the region to edge b + 1.
fn costs_from(a: usize) -> [u8; 6] {
    match a {
        0 => [1, 2, 4, 4, 3, 2],
        1 => [0, 3, 5, 6, 4, 3],
        2 => [0, 0, 8, 7, 5, 4],
        3 => [0, 0, 0, 8, 7, 6],
        4 => [0, 0, 0, 0, 6, 7],
        _ => [0, 0, 0, 0, 0, 8],
    }
}

fn wide(x: u8) -> u64
    ensures { result < 256 }
{
    x as u64
}

// The choice at edge a; the regions' tallies are their times.
fn choose(costs: &[u64; 65], times: &[u64; 65], a: usize) -> Choice
    requires { a < 6 }
    ensures { (a < result.next) × (result.next ≤ 6) }
{
    let row = costs_from(a);
    let mut choice = Choice::untried(6);
    let mut time = 0;
    for b in a..6 {
        time += wide(TIMES[b]);
        let cost = wide(row[b]);
        if time + cost <= LIMIT {
            choice = choice.with(costs, times, 6, b + 1, cost, time);
        }
    }
    choice
}

// The points that the choices lead along, with their cost alone and with the times.
fn print_placement(rt: &impl Print, cost: u64, time: u64, nexts: &[usize; 65]) -> io::Result<()>
    requires { Rising nexts.now 6 }
{
    if cost == placement::NONE {
        return println!(rt; "none");
    }
    let list = placement::follow(nexts, 6);
    let points = list.points;
    let both = cost.wrapping_add(time);
    print!(rt; "points")?;
    desk::print_points(rt, desk::first(&points, list.count))?;
    println!(rt; " cost {cost} with times {both}")
}

fn main(rt: HostRuntime) -> io::Result<()> {
    let mut costs = [0u64; 65];
    let mut nexts = [0usize; 65];
    let mut times = [0u64; 65];
    for a in (0..6).rev() {
        let choice = choose(&costs, &times, a);
        costs[a] = choice.cost;
        nexts[a] = choice.next;
        times[a] = choice.tally;
    }
    print_placement(&rt, costs[0], times[0], &nexts)
}

// The plan of an accepted file: that of given points, or the first of least cost.
#![tactic(auto)]

ghost use Rattle.std.specs.Prelude.{◌≡◌, drop, replicate, ◌-◌, ◌<◌, ◌≤◌};
ghost use Rattle.model.specs.Task.{block_count};
ghost use Rattle.model.specs.Planning.{chosen, Planned};
ghost use Rattle.taskfile.specs.File.{IsAccepted, task_of};
ghost use Rattle.reuse.specs.Counts.{NewLines};
ghost use Rattle.planning.specs.Choices.{ChoiceAt, Choices};
ghost use Rattle.planning.specs.Plans.{points_planned, plan_with};

use model::{Plan, Refusal};
use placement::Choice;
use pricing::Price;
use regions::CountedRegion;

// The plan of the points that a plan holds.
pub fn price_points(file: &[u8], first: Plan) -> Result<Plan, Refusal>
    requires accepted { IsAccepted file.now }
    requires count_bound { (first.count ≤ 63) × (drop first.count first.points ≡ replicate (64 - first.count) 0) }
    ensures { result ≡ points_planned (task_of file.now) (chosen first) }
{
    let points = first.points;
    let count = first.count as usize;
    let price = pricing::price_of(file, &points[..count])?;
    Ok(plan_of(file, count, points, price))
}

// The plan of the first points, with their price; N and id are the file's.
fn plan_of(file: &[u8], count: usize, points: [u16; 64], price: Price) -> Plan
    requires { IsAccepted file.now × (count ≤ 63) × (price.lines < 65536) }
    ensures { result ≡ plan_with (task_of file.now) count points price }
{
    let blocks = taskfile::block_count(file) as u16;
    let header = taskfile::header(file);
    let count = count as u16;
    let lines = price.lines as u16;
    Plan {
        blocks,
        id: header.id,
        count,
        lines,
        cost: price.cost,
        points,
    }
}

// The plan of the first of the fitting lists that cost least.
pub fn least_plan(file: &[u8]) -> Result<Plan, Refusal>
    requires { IsAccepted file.now }
    ensures { Planned (task_of file.now) result }
{
    let mut counts = [0u8; 4096];
    reuse::count_new_lines(file, &mut counts);
    plan_by_counts(file, &counts)
}

// The same, from the counts of new lines: the choice at each edge, from the last to the first.
fn plan_by_counts(file: &[u8], counts: &[u8; 4096]) -> Result<Plan, Refusal>
    requires { NewLines file.now counts.now }
    ensures { Planned (task_of file.now) result }
{
    let mut costs = [0u64; 65];
    let mut nexts = [0usize; 65];
    let mut lines = [0u64; 65];
    for a in (0..taskfile::block_count(file)).rev() {
        let choice = choose(file, counts, &costs, &lines, a);
        costs[a] = choice.cost;
        nexts[a] = choice.next;
        lines[a] = choice.tally;
    }
    plan_along(file, &costs, &nexts, &lines)
}

// The choice at edge a, among the regions from it. The first that does not fit ends the row: no longer one does.
fn choose(
    file: &[u8],
    counts: &[u8; 4096],
    costs: &[u64; 65],
    lines: &[u64; 65],
    a: usize,
) -> Choice
    requires { NewLines file.now counts.now × (a < block_count (task_of file.now)) }
    ensures { ChoiceAt (task_of file.now) costs.now lines.now a result }
{
    let n = taskfile::block_count(file);
    let header = taskfile::header(file);
    let mut region = CountedRegion::at(header, a);
    let mut choice = Choice::untried(n);
    // The region says where it ends: no index is counted beside it.
    while region.to < n {
        region = region.longer(file, counts);
        let weighed = region.weigh(header);
        if !weighed.fits {
            return choice;
        }
        choice = choice.with(
            costs,
            lines,
            n,
            region.to,
            weighed.cost,
            region.lines as u64,
        );
    }
    choice
}

// The plan of the list that the choices lead along.
fn plan_along(
    file: &[u8],
    costs: &[u64; 65],
    nexts: &[usize; 65],
    lines: &[u64; 65],
) -> Result<Plan, Refusal>
    requires { IsAccepted file.now × Choices (task_of file.now) costs.now nexts.now lines.now }
    ensures { Planned (task_of file.now) result }
{
    let cost = costs[0];
    if cost == placement::NONE {
        return Err(Refusal::NoPlacement);
    }
    let list = placement::follow(nexts, taskfile::block_count(file));
    let price = Price {
        lines: lines[0],
        cost,
    };
    let points = list.points;
    Ok(plan_of(file, list.count, points, price))
}

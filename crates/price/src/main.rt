// Prices the points that the arguments give, for the task file on standard input: what `plan` prints of its own list, and what each preempter is
// charged; or the refusal.
#![tactic(auto)]

ghost use Rattle.std.specs.Prelude.{◌≡◌};
ghost use Rattle.model.specs.Task.{block_count};
ghost use Rattle.model.specs.Lists.{wrong_point};
ghost use Rattle.taskfile.specs.File.{IsAccepted, task_of};

use pricing::ChargedPrice;
use report::Summary;
use std::io;

// The price of a well-formed list.
fn print_price(rt: &impl Print, file: &[u8], points: &[u16], price: ChargedPrice) -> io::Result<()>
    requires { IsAccepted file.now × (wrong_point (block_count (task_of file.now)) points.now ≡ None) }
{
    let summary = Summary {
        id: taskfile::header(file).id,
        blocks: taskfile::block_count(file),
        points: points.len(),
        lines: price.lines,
        cost: price.cost,
    };
    report::print_list(rt, file, points, summary)?;
    report::print_charges(rt, file, price.charges)
}

fn print_answer(rt: &impl Print, file: &[u8], points: &[u16]) -> io::Result<()> {
    match planner::price(file, points) {
        Ok(price) => print_price(rt, file, points, price),
        Err(refusal) => println!(rt; "{refusal}"),
    }
}

fn main(rt: HostRuntime) -> io::Result<()> {
    let mut room = [0u16; 64];
    let Some(points) = desk::read_points(&rt, &mut room) else {
        return desk::print_usage(
            &rt,
            b"price POINT.. < FILE   POINT: an edge, 1 to N - 1, each above the one before; FILE: a task file of N basic blocks",
        );
    };
    let mut file = [0u8; 65536];
    let n = desk::read_input(&rt, &mut file)?;
    print_answer(&rt, &file[..n], points)
}

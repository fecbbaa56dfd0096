// Plans the task file on standard input: the plan and its regions, or the refusal.
#![tactic(auto)]

ghost use Rattle.std.specs.Prelude.{◌≡◌};
ghost use Rattle.model.specs.Task.{block_count};
ghost use Rattle.model.specs.Lists.{wrong_point};
ghost use Rattle.model.specs.Planning.{chosen};
ghost use Rattle.taskfile.specs.File.{IsAccepted, task_of};

use model::Plan;
use report::Summary;
use std::io;

fn print_plan(rt: &impl Print, file: &[u8], plan: Plan) -> io::Result<()>
    requires { IsAccepted file.now × (wrong_point (block_count (task_of file.now)) (chosen plan) ≡ None) }
{
    let points = plan.points;
    let listed = desk::first(&points, plan.count as usize);
    report::print_list(rt, file, listed, Summary::from(plan))
}

fn print_answer(rt: &impl Print, file: &[u8]) -> io::Result<()> {
    match planner::plan(file) {
        Ok(found) => print_plan(rt, file, found.plan),
        Err(refusal) => println!(rt; "{refusal}"),
    }
}

fn main(rt: HostRuntime) -> io::Result<()> {
    if 0 < desk::argument_count(&rt) {
        return desk::print_usage(&rt, b"plan < FILE   FILE: a task file");
    }
    let mut file = [0u8; 65536];
    let n = desk::read_input(&rt, &mut file)?;
    print_answer(&rt, &file[..n])
}

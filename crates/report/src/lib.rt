// The lines that `plan` and `price` print of a list of points, and those that `price` prints of the preempters.
#![tactic(auto)]

ghost use Rattle.std.specs.Prelude.{◌≡◌};
ghost use Rattle.model.specs.Task.{block_count};
ghost use Rattle.model.specs.Lists.{wrong_point};
ghost use Rattle.taskfile.specs.File.{IsAccepted, task_of};

use model::Plan;
use std::{fmt, io};

// What is said of a list of points in one line: its task's id and N, how many points it has, its lines and its cost.
#[derive(Clone, Copy)]
pub struct Summary {
    pub id: u32,
    pub blocks: usize,
    pub points: usize,
    pub lines: u64,
    pub cost: u64,
}

impl From<Plan> for Summary {
    fn from(plan: Plan) -> Summary {
        Summary {
            id: plan.id,
            blocks: plan.blocks as usize,
            points: plan.count as usize,
            lines: plan.lines as u64,
            cost: plan.cost,
        }
    }
}

impl fmt::Display for Summary {
    fn fmt<W: fmt::Write>(&self, f: &mut fmt::Formatter<W>) -> fmt::Result {
        let Summary {
            id,
            blocks,
            points,
            lines,
            cost,
        } = *self;
        write!(
            f,
            "task {id} blocks {blocks} points {points} lines {lines} cost {cost}"
        )
    }
}

// The regions that points cut an accepted file's task into.
fn print_regions(rt: &impl Print, file: &[u8], points: &[u16]) -> io::Result<()>
    requires { IsAccepted file.now × (wrong_point (block_count (task_of file.now)) points.now ≡ None) }
{
    let n = taskfile::block_count(file);
    let mut lines = [0u32; 64];
    pricing::count_lines(file, points, &mut lines);
    let mut a = 0;
    for i in 0..points.len() + 1 {
        let b = pricing::edge_after(points, i, n);
        let length = regions::weigh_between(file, a, b, lines[i]).length;
        println!(rt; "region {a} {b} length {length}")?;
        a = b;
    }
    Ok(())
}

// A well-formed list of points of an accepted file: what is said of it, and each of its regions.
pub fn print_list(rt: &impl Print, file: &[u8], points: &[u16], summary: Summary) -> io::Result<()>
    requires { IsAccepted file.now × (wrong_point (block_count (task_of file.now)) points.now ≡ None) }
{
    println!(rt; "{summary}")?;
    print_regions(rt, file, points)
}

// The charges of an accepted file's preempters.
pub fn print_charges(rt: &impl Print, file: &[u8], charges: [u32; 32]) -> io::Result<()>
    requires { IsAccepted file.now }
{
    for i in 0..taskfile::preempter_count(file) {
        let id = taskfile::preempter_id(file, i);
        let lines = charges[i];
        println!(rt; "preempter {i} id {id} lines {lines}")?;
    }
    Ok(())
}

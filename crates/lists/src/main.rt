// Prints every fitting list of the task file on standard input, in the order of their numbers: the
// number and the cost of each; or the refusal.
#![tactic(auto)]

ghost use Rattle.std.specs.Prelude.{◌≡◌, ◌≤◌};
ghost use Rattle.model.specs.Answers.{accept};
ghost use Rattle.enumerating.specs.Table.{Small};
ghost use Rattle.listing.specs.Calls.{list_verdict};

use desk::Page;
use enumerating::Table;
use std::io;
use std::io::Write;

// What the call finds from 0, and then from one above the last number.
fn print_all(rt: &impl Print, table: &Table, blocks: usize) -> io::Result<()>
    requires { (1 ≤ blocks) × (blocks ≤ 16) × Small table.now }
{
    let mut page = Page::new(rt);
    let mut start = 0;
    while let Some(list) = enumerating::next_fitting(table, blocks, start) {
        let number = list.number;
        let cost = list.cost;
        writeln!(page, "{number} {cost}")?;
        start = number + 1;
    }
    page.flush()
}

fn print_lists(rt: &impl Print, file: &[u8]) -> io::Result<()>
    requires { list_verdict file.now ≡ accept }
{
    let table = enumerating::evaluate_regions(file);
    print_all(rt, &table, taskfile::block_count(file))
}

fn print_answer(rt: &impl Print, file: &[u8]) -> io::Result<()> {
    match listing::check(file) {
        Ok(()) => print_lists(rt, file),
        Err(refusal) => println!(rt; "{refusal}"),
    }
}

fn main(rt: HostRuntime) -> io::Result<()> {
    if 0 < desk::argument_count(&rt) {
        return desk::print_usage(
            &rt,
            b"lists < FILE   FILE: a task file of at most 16 basic blocks",
        );
    }
    let mut file = [0u8; 65536];
    let n = desk::read_input(&rt, &mut file)?;
    print_answer(&rt, &file[..n])
}

// Prints the useful lines at an edge of the task file on standard input, or the refusal.
#![tactic(auto)]

use lineset::LineSet;
use std::io;

fn print_useful(rt: &impl Print, lines: LineSet) -> io::Result<()> {
    print!(rt; "lines")?;
    desk::print_lines(rt, lines)?;
    println!(rt)
}

fn print_answer(rt: &impl Print, file: &[u8], k: usize) -> io::Result<()> {
    match planner::useful(file, k) {
        Ok(lines) => print_useful(rt, lines),
        Err(refusal) => println!(rt; "{refusal}"),
    }
}

fn main(rt: HostRuntime) -> io::Result<()> {
    let Some(given) = desk::arguments::<usize, 1>(&rt) else {
        return desk::print_usage(
            &rt,
            b"useful K < FILE   K: an edge, 0 to N; FILE: a task file of N basic blocks",
        );
    };
    let mut file = [0u8; 65536];
    let n = desk::read_input(&rt, &mut file)?;
    print_answer(&rt, &file[..n], given[0])
}

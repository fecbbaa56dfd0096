// Looks for the next read of a line after a block, in the task file on standard input: its number and how many reads were looked at, or the
// refusal.
#![tactic(auto)]

use reuse::Search;
use std::io;

fn print_found(rt: &impl Print, found: Search) -> io::Result<()> {
    let looked = found.looked;
    match found.next {
        Some(number) => println!(rt; "read {number} looked {looked}"),
        None => println!(rt; "none looked {looked}"),
    }
}

fn print_answer(rt: &impl Print, file: &[u8], line: usize, k: usize) -> io::Result<()> {
    match planner::next_read(file, line, k) {
        Ok(found) => print_found(rt, found),
        Err(refusal) => println!(rt; "{refusal}"),
    }
}

fn main(rt: HostRuntime) -> io::Result<()> {
    let Some(given) = desk::arguments::<usize, 2>(&rt) else {
        return desk::print_usage(
            &rt,
            b"next_read LINE K < FILE   LINE: a cache line, from 0; K: an edge, 0 to N; FILE: a task file of N basic blocks",
        );
    };
    let mut file = [0u8; 65536];
    let n = desk::read_input(&rt, &mut file)?;
    print_answer(&rt, &file[..n], given[0], given[1])
}

// The answer to each task file that the arguments name: accepted, or refused with the number and the place.
#![tactic(auto)]

use std::io;
use std::rt::{Env, Files};

// The name and the answer of the file that argument i names.
fn print_case(rt: &(impl Env + Files + Print + Eprint), i: usize) -> io::Result<()> {
    let mut file = [0u8; 65536];
    if let Some(n) = desk::read_named(rt, i, &mut file)? {
        desk::print_argument(rt, i)?;
        print!(rt; " ")?;
        desk::print_verdict(rt, taskfile::check(&file[..n]))?;
    }
    Ok(())
}

fn main(rt: HostRuntime) -> io::Result<()> {
    for i in 0..desk::argument_count(&rt) {
        print_case(&rt, i + 1)?;
    }
    Ok(())
}

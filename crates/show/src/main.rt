// Prints the text of the task file on standard input, or the refusal.
#![tactic(auto)]

use std::io;

fn main(rt: HostRuntime) -> io::Result<()> {
    if 0 < desk::argument_count(&rt) {
        return desk::print_usage(
            &rt,
            b"show < FILE > TEXT   FILE: a task file; TEXT: the text of its task",
        );
    }
    let mut file = [0u8; 65536];
    let n = desk::read_input(&rt, &mut file)?;
    let mut text = [0u8; 135168];
    match showing::show(&file[..n], &mut text) {
        Ok(length) => rt.write_all(desk::first(&text, length)),
        Err(refusal) => println!(rt; "{refusal}"),
    }
}

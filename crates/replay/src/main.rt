// Replays the reads of the task file on standard input: how many of them miss alone, and how many with the points that the arguments give, or
// the refusal.
#![tactic(auto)]

use replaying::Misses;
use std::io;

// The line of both counts.
fn print_misses(rt: &impl Print, misses: Misses) -> io::Result<()> {
    let alone = misses.alone;
    let preempted = misses.preempted;
    println!(rt; "misses {alone} with points {preempted}")
}

fn print_answer(rt: &impl Print, file: &[u8], points: &[u16]) -> io::Result<()> {
    match replaying::replay(file, points) {
        Ok(misses) => print_misses(rt, misses),
        Err(refusal) => println!(rt; "{refusal}"),
    }
}

fn main(rt: HostRuntime) -> io::Result<()> {
    let mut room = [0u16; 64];
    let Some(points) = desk::read_points(&rt, &mut room) else {
        return desk::print_usage(
            &rt,
            b"replay POINT.. < FILE   POINT: an edge, 1 to N - 1, each above the one before; FILE: a task file of N basic blocks",
        );
    };
    let mut file = [0u8; 65536];
    let n = desk::read_input(&rt, &mut file)?;
    print_answer(&rt, &file[..n], points)
}

// Writes the file that two task files join to, which the arguments name, to standard output; a refusal goes to standard error.
#![tactic(auto)]

ghost use Rattle.std.specs.Prelude.{◌≤◌};

use std::cmp::min;
use std::io;

// The bytes of the joined file: both, with one header. Where they are more than the largest buffer has, joining refuses all the same.
fn joined_length(first: usize, second: usize) -> usize
    requires { (first ≤ 65536) × (second ≤ 65536) }
    ensures { result ≤ 65536 }
{
    min((first + second).saturating_sub(512), 65536)
}

// Writes the joined file, or says why there is none.
fn write_joined(
    rt: &(impl Print + Eprint),
    first: &[u8],
    second: &[u8],
    out: &mut [u8],
) -> io::Result<()> {
    match joining::join(first, second, out) {
        Ok(()) => rt.write_all(out),
        Err(refused) => eprintln!(rt; "{refused}"),
    }
}

fn main(rt: HostRuntime) -> io::Result<()> {
    if desk::argument_count(&rt) != 2 {
        return desk::print_usage(
            &rt,
            b"join FIRST SECOND > FILE   FIRST, SECOND: names of two task files; FILE: the task file of both",
        );
    }
    let mut first = [0u8; 65536];
    let read = desk::read_named(&rt, 1, &mut first)?;
    let mut second = [0u8; 65536];
    let other = desk::read_named(&rt, 2, &mut second)?;
    let (Some(a), Some(b)) = (read, other) else {
        return Ok(());
    };
    let mut out = [0u8; 65536];
    let n = joined_length(a, b);
    write_joined(&rt, &first[..a], &second[..b], &mut out[..n])
}

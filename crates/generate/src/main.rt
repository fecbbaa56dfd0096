// Writes the task file of a seed, N, M, S, Q and R, which the arguments give, to standard output; a refusal goes to standard error.
#![tactic(auto)]

ghost use Rattle.std.specs.Prelude.{◌≤◌};

use std::cmp::min;
use std::io;

// The bytes of a file with so many blocks, or of the largest buffer where there are more than that has room for.
fn file_length(blocks: u32, preempters: u32) -> usize
    ensures { result ≤ 65536 }
{
    min(512 * (1 + blocks as usize + preempters as usize), 65536)
}

// Writes the file, or says why there is none.
fn write_file(rt: &(impl Print + Eprint), given: [u32; 6], file: &mut [u8]) -> io::Result<()> {
    let [seed, blocks, preempters, line_count, limit, reload] = given;
    match testload::generate(seed, blocks, preempters, line_count, limit, reload, file) {
        Ok(()) => rt.write_all(file),
        Err(refusal) => eprintln!(rt; "{refusal}"),
    }
}

fn main(rt: HostRuntime) -> io::Result<()> {
    let Some(given) = desk::arguments(&rt) else {
        return desk::print_usage(
            &rt,
            b"generate SEED N M S Q R > FILE   SEED: a number, the id too; N: basic blocks, 1 to 64; M: preempters, 0 to 32; S: cache lines, 1 to 512; Q: the limit in ticks; R: ticks of a reload; FILE: a task file; all below 4294967296",
        );
    };
    let mut file = [0u8; 65536];
    let n = file_length(given[1], given[2]);
    write_file(&rt, given, &mut file[..n])
}

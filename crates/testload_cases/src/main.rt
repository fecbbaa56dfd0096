// Files from a seed: for each case its numbers and the buffer's length, and then the FNV-1a hash of the file, or the refusal.
#![tactic(auto)]

ghost use Rattle.std.specs.Prelude.{◌≤◌};

use std::io;

// The answer to one case, in a buffer of its length.
fn print_answer(rt: &impl Print, numbers: [u32; 6], out: &mut [u8]) -> io::Result<()> {
    let [seed, blocks, preempters, lines, limit, reload] = numbers;
    match testload::generate(seed, blocks, preempters, lines, limit, reload, out) {
        Ok(()) => {
            let hash = fnv::hash(out);
            println!(rt; "{hash:08x}")
        }
        Err(refusal) => println!(rt; "{refusal}"),
    }
}

fn print_case(rt: &impl Print, numbers: [u32; 6], length: usize) -> io::Result<()>
    requires { length ≤ 65536 }
{
    let [seed, blocks, preempters, lines, limit, reload] = numbers;
    print!(rt;
        "seed {seed} blocks {blocks} preempters {preempters} lines {lines} limit {limit} reload {reload} bytes {length}: "
    )?;
    let mut out = [0u8; 65536];
    print_answer(rt, numbers, &mut out[..length])
}

fn main(rt: HostRuntime) -> io::Result<()> {
    print_case(&rt, [0, 1, 0, 1, 0, 0], 1024)?;
    print_case(&rt, [1, 4, 1, 4, 1000, 10], 3072)?;
    print_case(&rt, [7, 16, 3, 256, 20000, 25], 10240)?;
    print_case(
        &rt,
        [4294967295, 64, 32, 512, 4294967295, 4294967295],
        49664,
    )?;
    print_case(&rt, [1, 4, 1, 4, 1000, 10], 0)?;
    print_case(&rt, [1, 4, 1, 4, 1000, 10], 3071)?;
    print_case(&rt, [1, 4, 1, 4, 1000, 10], 3584)?;
    print_case(&rt, [1, 0, 1, 4, 1000, 10], 1024)?;
    print_case(&rt, [1, 65, 1, 4, 1000, 10], 34304)?;
    print_case(&rt, [1, 65, 1, 4, 1000, 10], 3072)?;
    print_case(&rt, [1, 4, 33, 4, 1000, 10], 19456)?;
    print_case(&rt, [1, 4, 1, 0, 1000, 10], 3072)?;
    print_case(&rt, [1, 4, 1, 513, 1000, 10], 3072)?;
    print_case(&rt, [1, 65537, 1, 4, 1000, 10], 3072)
}

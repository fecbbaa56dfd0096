// Published vectors of 32-bit FNV-1a: each text in quotes, and its hash in hexadecimal.
#![tactic(auto)]

use std::io;

fn print_vector(rt: &impl Print, text: &str) -> io::Result<()> {
    let hash = fnv::hash(text.as_bytes());
    println!(rt; "\"{text}\" {hash:08x}")
}

fn main(rt: HostRuntime) -> io::Result<()> {
    for text in ["", "a", "b", "c", "foobar"] {
        print_vector(&rt, text)?;
    }
    Ok(())
}

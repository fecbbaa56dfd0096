// Writes the task file of the text on standard input to standard output; a refusal goes to standard error.
#![tactic(auto)]

ghost use Rattle.std.specs.Prelude.{◌≡◌, length};

use std::io;

// The longest text that is read.
const MOST_BYTES: usize = 262144;

// Room for it and a byte more.
fn text_buffer() -> [u8; 262145]
    ensures { 262145 ≡ length result }
{
    [0; 262145]
}

fn print_file(rt: &(impl Print + Eprint), text: &[u8]) -> io::Result<()> {
    let mut file = [0u8; 49664];
    match assembling::assemble(text, &mut file) {
        Ok(length) => rt.write_all(desk::first(&file, length)),
        Err(refusal) => eprintln!(rt; "{refusal}"),
    }
}

fn print_usage(rt: &impl Eprint) -> io::Result<()> {
    desk::print_usage(
        rt,
        b"assemble < TEXT > FILE   TEXT: the text of a task, at most 262144 bytes; FILE: its task file",
    )
}

fn main(rt: HostRuntime) -> io::Result<()> {
    if 0 < desk::argument_count(&rt) {
        return print_usage(&rt);
    }
    let mut text = text_buffer();
    let n = desk::read_input(&rt, &mut text)?;
    if MOST_BYTES < n {
        return print_usage(&rt);
    }
    print_file(&rt, &text[..n])
}

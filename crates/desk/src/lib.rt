// What the programs share: numbers and files that the arguments name, and the lines that are printed. Where the system refuses to read or write, the
// call answers its error, and what was read or printed before stays so.
#![tactic(auto)]

ghost use Rattle.std.specs.Prelude.{◌≡◌, ◌+◌, ◌<◌, ◌≤◌, ℕ, true, [], length, get_or, take, IfOk, Some, IfSome};
ghost use Rattle.std.specs.Io.{ReadsAtMost};
ghost use Rattle.decimals.specs.Decimals.{AtMost};

use arrayvec::ArrayVec;
use lineset::LineSet;
use model::Refusal;
use std::cmp::min;
use std::env::FillError;
use std::io::{Error, ErrorKind, Read, Write};
use std::rt::{Env, Files};
use std::{fs, io, str};

// Puts argument i at the start of a text, and answers how long it is; 0 where it is missing or longer than the text.
fn fill_argument(rt: &impl Env, i: usize, text: &mut [u8]) -> usize
    ensures { result ≤ length text.new }
{
    rt.arg(i, text).unwrap_or(0)
}

// Argument i as a number, or the bound where it is more.
pub fn capped_argument(rt: &impl Env, i: usize, most: u32) -> Option<u64>
    ensures { AtMost most result }
{
    let mut text = [0u8; 4096];
    let n = fill_argument(rt, i, &mut text);
    decimals::capped_decimal(&text[..n], most)
}

// Argument i as a number of at most so much; an argument that is missing or longer than 4,096 bytes says nothing.
pub fn argument(rt: &impl Env, i: usize, most: u64) -> Option<u64>
    ensures { AtMost most result }
{
    let mut text = [0u8; 4096];
    let n = fill_argument(rt, i, &mut text);
    decimals::decimal_of(&text[..n]).filter(|number| *number <= most)
}

// The numbers that the arguments give, if they are as many as asked for, and each is one of the type.
pub fn arguments<T: TryFrom<u64> + Default + Copy, const N: usize>(rt: &impl Env) -> Option<[T; N]>
where
    T::Error: Drop,
{
    let mut numbers = [T::default(); N];
    for (i, number) in numbers.iter_mut().enumerate() {
        *number = T::try_from(argument(rt, i + 1, u64::MAX)?).ok()?;
    }
    if argument_count(rt) == N {
        Some(numbers)
    } else {
        None
    }
}

// Fills a list with the arguments. Answers whether there are as many as the list holds, each a
// number of at most `most`. For a count or a bound known only at run time; else use `arguments`.
pub fn fill_arguments(rt: &impl Env, numbers: &mut [u64], most: u64) -> bool
    ensures kept { length numbers.new ≡ length numbers.old }
    ensures at_most { result ≡ true → (i : ℕ) → i < length numbers.new → get_or numbers.new i 0 ≤ most }
{
    for i in 0..numbers.len() {
        let Some(given) = argument(rt, i + 1, most) else {
            return false;
        };
        numbers[i] = given;
    }
    argument_count(rt) == numbers.len()
}

// How many arguments the program was given.
pub fn argument_count(rt: &impl Env) -> usize {
    let mut text = [0u8; 1];
    (1..usize::MAX)
        .position(|i| matches!(rt.arg(i, &mut text), Err(FillError::NotPresent)))
        .unwrap_or(usize::MAX)
}

// Puts the points that the arguments give into a list, and answers those; nothing where an argument is no number of two bytes. A well-formed list has
// at most 63 points, so the first 64 decide at which of them a longer list is refused.
pub fn read_points<'a>(rt: &impl Env, points: &'a mut [u16; 64]) -> Option<&'a [u16]>
    ensures { IfSome result (λ listed. AtMost 64 (Some (length listed.now))) }
{
    let count = argument_count(rt);
    for i in 0..count {
        let point = argument(rt, i + 1, 65535)?;
        if i < 64 {
            points[i] = point as u16;
        }
    }
    Some(&points[..min(count, 64)])
}

// The first items of a list; all where it has no more.
pub fn first<T>(items: &[T], count: usize) -> &[T]
    ensures { result.now ≡ take count items.now }
{
    items.get(..count).unwrap_or(items)
}

// Reads until a buffer is full or the input ends, and answers how many bytes stand in it then. std's `read_to_end` would need the heap.
fn read_full<R: Read>(input: &mut R, buffer: &mut [u8]) -> io::Result<usize>
    ensures read { ReadsAtMost result buffer.new }
    ensures kept { length buffer.new ≡ length buffer.old }
{
    let mut done = 0;
    while done < buffer.len() {
        let count = input.read(&mut buffer[done..])?;
        if count == 0 {
            break;
        }
        done += count;
    }
    Ok(done)
}

// Reads what stands on standard input into a buffer, and answers how many bytes. An error leaves the buffer as long as it was, and in it what was read
// before.
pub fn read_input(rt: &impl Input, buffer: &mut [u8]) -> io::Result<usize>
    ensures read { ReadsAtMost result buffer.new }
    ensures kept { length buffer.new ≡ length buffer.old }
{
    let mut input = rt.reader();
    read_full(&mut input, buffer)
}

// Reads the file of a name, which is text, into a buffer, and answers how many bytes.
fn read_file(rt: &impl Files, name: &[u8], buffer: &mut [u8]) -> io::Result<usize>
    ensures read { ReadsAtMost result buffer.new }
    ensures kept { length buffer.new ≡ length buffer.old }
{
    let Ok(path) = str::from_utf8(name) else {
        return Err(Error::from(ErrorKind::InvalidFilename));
    };
    let mut file = fs::open(rt, path)?;
    read_full(&mut file, buffer)
}

// Reads the file that argument i names into a buffer, and answers how many bytes; or says on standard error why it is not read, and answers nothing. The
// error is that of standard error.
pub fn read_named(
    rt: &(impl Env + Files + Eprint),
    i: usize,
    buffer: &mut [u8],
) -> io::Result<Option<usize>>
    ensures in_bounds { IfOk result (λ read. IfSome read (λ count. count ≤ length buffer.new)) }
    ensures prefix { IfOk result (λ read. IfSome read (λ count. count ≡ length (take count buffer.new))) }
    ensures kept { length buffer.new ≡ length buffer.old }
{
    let mut name = [0u8; 4096];
    let n = fill_argument(rt, i, &mut name);
    match read_file(rt, &name[..n], buffer) {
        Ok(count) => Ok(Some(count)),
        Err(error) => {
            report(rt, &name[..n])?;
            eprintln!(rt; ": {error}")?;
            Ok(None)
        }
    }
}

// Bytes on standard error; where they are no text, those that are no letters or signs are escaped.
fn report(rt: &impl Eprint, bytes: &[u8]) -> io::Result<()> {
    match str::from_utf8(bytes) {
        Ok(text) => rt.eprint(text),
        Err(_) => rt.eprint(bytes.escape_ascii()),
    }
}

pub fn print_argument(rt: &(impl Env + Print), i: usize) -> io::Result<()> {
    let mut text = [0u8; 4096];
    let n = fill_argument(rt, i, &mut text);
    rt.write_all(&text[..n])
}

// Text that is collected before it is written: in pieces of at most so many bytes, but for text that is longer than that and is written by itself.
// std's `BufWriter` would need the heap.
#[derive(Drop)]
pub struct Page<'a, P> {
    out: &'a P,
    text: ArrayVec<u8, 4096>,
}

impl<'a, P: Print> Page<'a, P> {
    pub fn new(out: &'a P) -> Page<'a, P>
        ensures { result.text.items ≡ [] }
    {
        Page {
            out,
            text: ArrayVec::new(),
        }
    }
}

impl<P: Print> Write for Page<'_, P> {
    fn write(&mut self, text: &[u8]) -> io::Result<usize> {
        self.write_all(text)?;
        Ok(text.len())
    }

    fn flush(&mut self) -> io::Result<()> {
        self.out.write_all(self.text.as_slice())?;
        self.text.clear();
        Ok(())
    }

    fn write_all(&mut self, text: &[u8]) -> io::Result<()> {
        if self.text.try_extend_from_slice(text).is_ok() {
            return Ok(());
        }
        self.flush()?;
        if self.text.try_extend_from_slice(text).is_ok() {
            return Ok(());
        }
        self.out.write_all(text)
    }
}

// Points, each after a space.
pub fn print_points(rt: &impl Print, points: &[u16]) -> io::Result<()> {
    for point in points {
        print!(rt; " {point}")?;
    }
    Ok(())
}

// The lines of a set, rising, each after a space.
pub fn print_lines(rt: &impl Print, set: LineSet) -> io::Result<()> {
    for line in (0..512).filter(|line| set.contains(*line)) {
        print!(rt; " {line}")?;
    }
    Ok(())
}

// The line of a verdict that has no value beside it. `Result` is not ours, so it can't print itself.
pub fn print_verdict(rt: &impl Print, verdict: Result<(), Refusal>) -> io::Result<()> {
    match verdict {
        Ok(()) => println!(rt; "accepted"),
        Err(refusal) => println!(rt; "{refusal}"),
    }
}

// The line of a program that was started in another way than it takes.
pub fn print_usage(rt: &impl Eprint, usage: &[u8]) -> io::Result<()> {
    rt.eprint("usage: ")?;
    report(rt, usage)?;
    rt.eprint("\n")
}

// Prints whether the tasks of a set meet their deadlines up to a horizon, which the argument gives, or the refusal. Standard input has a line for each
// task: its execution time, period, deadline and longest region, decimal numbers with one space between.
#![tactic(auto)]

use demand::TaskSet;
use model::Refusal;
use std::io;

// A number above every range, which stands for all that are too large.
const TOO_LARGE: u32 = 16777216;

// The number that a field says, or one that is too large in its place.
fn field_number(field: &[u8]) -> Option<u32> {
    let number = decimals::capped_decimal(field, TOO_LARGE)?;
    Some(number as u32)
}

// The four numbers of a line, with one space between.
fn read_line(line: &[u8]) -> Option<[u32; 4]> {
    let mut fields = line.split(|byte| *byte == b' ');
    let mut numbers = [0u32; 4];
    for number in numbers.iter_mut() {
        *number = field_number(fields.next()?)?;
    }
    match fields.next() {
        None => Some(numbers),
        Some(_) => None,
    }
}

// The set with the task that a line's numbers give.
fn with_line(set: TaskSet, numbers: [u32; 4]) -> TaskSet {
    demand::with_task(set, numbers[0], numbers[1], numbers[2], numbers[3])
}

// The set of a text, if all its lines have four numbers; the line feed of the last line may be missing.
fn read_set(text: &[u8]) -> Option<TaskSet> {
    let mut set = demand::no_tasks();
    for line in text.split_inclusive(|byte| *byte == b'\n') {
        let numbers = read_line(line.strip_suffix(b"\n").unwrap_or(line))?;
        set = with_line(set, numbers);
    }
    Some(set)
}

fn print_answer(rt: &impl Print, answer: Result<Option<u32>, Refusal>) -> io::Result<()> {
    match answer {
        Ok(None) => println!(rt; "yes"),
        Ok(Some(t)) => println!(rt; "no at {t}"),
        Err(refusal) => println!(rt; "{refusal}"),
    }
}

fn print_usage(rt: &impl Eprint) -> io::Result<()> {
    desk::print_usage(
        rt,
        b"deadlines HORIZON < SET   HORIZON: ticks, 0 to 16777215; SET: a line of four numbers for each of 1 to 16 tasks, its execution time, period, deadline and longest region, in ticks; less than 65536 bytes",
    )
}

// A text that fills the buffer may go on behind it, and is not looked at.
fn main(rt: HostRuntime) -> io::Result<()> {
    let Some(horizon) = desk::capped_argument(&rt, 1, TOO_LARGE) else {
        return print_usage(&rt);
    };
    if desk::argument_count(&rt) != 1 {
        return print_usage(&rt);
    }
    let mut text = [0u8; 65536];
    let n = desk::read_input(&rt, &mut text)?;
    let Some(set) = read_set(&text[..n]) else {
        return print_usage(&rt);
    };
    if n == 65536 {
        return print_usage(&rt);
    }
    print_answer(&rt, demand::test_set(set, horizon as u32))
}

// What the planner's calls answer of each task file that the arguments name: its plan, and for a task of at most four blocks the useful
// lines of each edge, the loaded lines and length of each region, and the price of some lists with each preempter's charge.
#![tactic(auto)]

ghost use Rattle.std.specs.Prelude.{◌≤◌};

use lineset::LineSet;
use model::Plan;
use planner::RegionLines;
use pricing::ChargedPrice;
use std::io;
use std::rt::{Env, Files};

// Points, or none.
fn print_points(rt: &impl Print, points: &[u16]) -> io::Result<()> {
    if points.is_empty() {
        print!(rt; " none")?;
    }
    desk::print_points(rt, points)
}

// The lines of a set, or none.
fn print_lines(rt: &impl Print, set: LineSet) -> io::Result<()> {
    print!(rt; " lines")?;
    if set.size() == 0 {
        print!(rt; " none")?;
    }
    desk::print_lines(rt, set)
}

// The price of a list, and the charges of a file's m preempters.
fn print_price(rt: &impl Print, price: ChargedPrice, m: usize) -> io::Result<()> {
    let lines = price.lines;
    let cost = price.cost;
    let charges = price.charges;
    print!(rt; " lines {lines} cost {cost} charges")?;
    if m == 0 {
        print!(rt; " none")?;
    }
    for charge in desk::first(&charges, m) {
        print!(rt; " {charge}")?;
    }
    println!(rt)
}

fn print_plan(rt: &impl Print, plan: Plan) -> io::Result<()> {
    let points = plan.points;
    let lines = plan.lines;
    let cost = plan.cost;
    print!(rt; " points")?;
    print_points(rt, desk::first(&points, plan.count as usize))?;
    println!(rt; " lines {lines} cost {cost}")
}

fn show_plan(rt: &impl Print, file: &[u8]) -> io::Result<()> {
    print!(rt; "plan")?;
    match planner::plan(file) {
        Ok(found) => print_plan(rt, found.plan),
        Err(refusal) => println!(rt; " {refusal}"),
    }
}

fn print_useful(rt: &impl Print, lines: LineSet) -> io::Result<()> {
    print_lines(rt, lines)?;
    println!(rt)
}

fn show_useful(rt: &impl Print, file: &[u8], k: usize) -> io::Result<()> {
    print!(rt; "useful {k}")?;
    match planner::useful(file, k) {
        Ok(lines) => print_useful(rt, lines),
        Err(refusal) => println!(rt; " {refusal}"),
    }
}

fn print_region(rt: &impl Print, found: RegionLines) -> io::Result<()> {
    let length = found.length;
    print_lines(rt, found.loaded)?;
    println!(rt; " length {length}")
}

fn show_region(rt: &impl Print, file: &[u8], a: usize, b: usize) -> io::Result<()> {
    print!(rt; "region {a} {b}")?;
    match planner::region(file, a, b) {
        Ok(found) => print_region(rt, found),
        Err(refusal) => println!(rt; " {refusal}"),
    }
}

fn show_price(rt: &impl Print, file: &[u8], m: usize, points: &[u16]) -> io::Result<()> {
    print!(rt; "list")?;
    print_points(rt, points)?;
    match planner::price(file, points) {
        Ok(price) => print_price(rt, price, m),
        Err(refusal) => println!(rt; " {refusal}"),
    }
}

// The edges of a task of n blocks, and one beyond.
fn show_all_useful(rt: &impl Print, file: &[u8], n: usize) -> io::Result<()>
    requires { n ≤ 4 }
{
    for k in 0..n + 2 {
        show_useful(rt, file, k)?;
    }
    Ok(())
}

// The regions that begin at edge a.
fn show_regions_from(rt: &impl Print, file: &[u8], a: usize, n: usize) -> io::Result<()>
    requires { (a ≤ n) × (n ≤ 4) }
{
    for b in a + 1..n + 1 {
        show_region(rt, file, a, b)?;
    }
    Ok(())
}

// All regions, and three pairs that are none.
fn show_all_regions(rt: &impl Print, file: &[u8], n: usize) -> io::Result<()>
    requires { n ≤ 4 }
{
    for a in 0..n {
        show_regions_from(rt, file, a, n)?;
    }
    show_region(rt, file, 1, 1)?;
    show_region(rt, file, 2, 1)?;
    show_region(rt, file, 0, n + 1)
}

// Every list of points up to 3, and four that are not well formed in a task of four blocks.
fn show_prices(rt: &impl Print, file: &[u8], m: usize) -> io::Result<()> {
    let lists: [&[u16]; 12] = [
        &[],
        &[1],
        &[2],
        &[1, 2],
        &[3],
        &[1, 3],
        &[2, 3],
        &[1, 2, 3],
        &[2, 2],
        &[0],
        &[4],
        &[3, 1],
    ];
    for points in lists {
        show_price(rt, file, m, points)?;
    }
    Ok(())
}

fn show_small(rt: &impl Print, file: &[u8], n: usize, m: usize) -> io::Result<()> {
    if n <= 4 {
        show_all_useful(rt, file, n)?;
        show_all_regions(rt, file, n)?;
        show_prices(rt, file, m)?;
    }
    Ok(())
}

fn show_task(rt: &impl Print, file: &[u8]) -> io::Result<()> {
    show_plan(rt, file)?;
    match taskfile::check(file) {
        Ok(()) => show_small(
            rt,
            file,
            taskfile::block_count(file),
            taskfile::preempter_count(file),
        ),
        Err(_) => Ok(()),
    }
}

// The name of the file that argument i names, and what is answered of it.
fn show_case(rt: &(impl Env + Files + Print + Eprint), i: usize) -> io::Result<()> {
    let mut file = [0u8; 65536];
    if let Some(n) = desk::read_named(rt, i, &mut file)? {
        print!(rt; "file ")?;
        desk::print_argument(rt, i)?;
        println!(rt)?;
        show_task(rt, &file[..n])?;
    }
    Ok(())
}

fn main(rt: HostRuntime) -> io::Result<()> {
    for i in 0..desk::argument_count(&rt) {
        show_case(&rt, i + 1)?;
    }
    Ok(())
}

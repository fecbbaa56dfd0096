// Draws the plan of the task file on standard input, as an SVG picture: a bar for each region, of its blocks' times, its reloads and its switch, and the
// limits; or the refusal in words.
#![tactic(auto)]

ghost use Rattle.std.specs.Prelude.{◌≡◌, ◌∷◌, ◌≤◌, ◌<◌, length, get_or};
ghost use Rattle.model.specs.Task.{block_count};
ghost use Rattle.model.specs.Lists.{wrong_point};
ghost use Rattle.model.specs.Planning.{chosen};
ghost use Rattle.taskfile.specs.File.{IsAccepted, task_of};
ghost use Rattle.pricing.specs.Prices.{Loads};

mod drawing;

use desk::Page;
use drawing::{Block, Limits};
use model::{Header, Plan, Refusal};
use report::Summary;
use std::io;
use std::io::Write;

// A region of the plan: its edges, its length, and what of it are reloads and the switch.
#[derive(Clone, Copy)]
struct Region {
    from: usize,
    to: usize,
    length: u64,
    cost: u64,
}

// The edge at which region i of a list starts.
fn edge_before(points: &[u16], i: usize, n: usize) -> usize
    ensures { result ≡ get_or (0 ∷ points.now) i n }
{
    if i == 0 {
        0
    } else {
        pricing::edge_after(points, i - 1, n)
    }
}

// Region i of a well-formed list.
fn region_at(file: &[u8], points: &[u16], lines: &[u32; 64], i: usize) -> Region
    requires { IsAccepted file.now × (wrong_point (block_count (task_of file.now)) points.now ≡ None) × Loads (task_of file.now) points.now lines.now × (i ≤ length points.now) }
    ensures { (result.from < result.to) × (result.to ≤ block_count (task_of file.now)) }
{
    let n = taskfile::block_count(file);
    let from = edge_before(points, i, n);
    let to = pricing::edge_after(points, i, n);
    let weighed = regions::weigh_between(file, from, to, lines[i]);
    Region {
        from,
        to,
        length: weighed.length,
        cost: weighed.cost,
    }
}

// The length of the longest region.
fn longest(file: &[u8], points: &[u16], lines: &[u32; 64]) -> u64
    requires { IsAccepted file.now × (wrong_point (block_count (task_of file.now)) points.now ≡ None) × Loads (task_of file.now) points.now lines.now }
{
    let lengths = (0..points.len() + 1).map(|i| region_at(file, points, lines, i).length);
    lengths.max().unwrap_or(0)
}

// The second limit, if the sampler is armed in one of the blocks after edge a up to edge b.
fn second_between(file: &[u8], header: Header, a: usize, b: usize) -> Option<u64>
    requires { IsAccepted file.now × (b ≤ block_count (task_of file.now)) }
{
    let armed = (a..b).any(|i| taskfile::armed(file, i + 1));
    armed.then_some(header.second_limit as u64)
}

// The shade of the next block: another, unless this one has no ticks and is not seen.
fn shade_after(dark: bool, ticks: u64) -> bool {
    if ticks == 0 { dark } else { !dark }
}

// The blocks after edge a up to edge b.
fn collect_blocks(
    page: &mut impl Write,
    file: &[u8],
    a: usize,
    b: usize,
    span: u64,
) -> io::Result<()>
    requires { IsAccepted file.now × (b ≤ block_count (task_of file.now)) }
{
    let mut dark = false;
    let mut from = 0u64;
    for i in a..b {
        let number = i + 1;
        let ticks = taskfile::time(file, number) as u64;
        let block = Block {
            number,
            armed: taskfile::armed(file, number),
            dark,
            from,
            ticks,
        };
        drawing::collect_block(page, block, span)?;
        dark = shade_after(dark, ticks);
        from += ticks;
    }
    Ok(())
}

// The ticks of the switch at the start of a region.
fn switch_at(header: Header, edge: usize) -> u64 {
    if edge == 0 { 0 } else { header.switch as u64 }
}

// A region in row i.
fn collect_region(
    page: &mut impl Write,
    file: &[u8],
    header: Header,
    region: Region,
    i: usize,
    span: u64,
) -> io::Result<()>
    requires { IsAccepted file.now × (region.to ≤ block_count (task_of file.now)) }
{
    let from = region.from;
    let to = region.to;
    let length = region.length;
    let switch = switch_at(header, from);
    let reloads = region.cost.saturating_sub(switch);
    let reloaded = length.saturating_sub(switch);
    drawing::begin_row(page, i, from, to, length)?;
    collect_blocks(page, file, from, to, span)?;
    drawing::collect_cost(
        page,
        "reloads",
        reloaded.saturating_sub(reloads),
        reloads,
        span,
    )?;
    drawing::collect_cost(page, "switch", reloaded, switch, span)?;
    if let Some(second) = second_between(file, header, from, to) {
        drawing::collect_second(page, second, span)?;
    }
    drawing::end_row(page)
}

// The regions of a well-formed list.
fn collect_regions(
    page: &mut impl Write,
    file: &[u8],
    points: &[u16],
    lines: &[u32; 64],
    span: u64,
) -> io::Result<()>
    requires { IsAccepted file.now × (wrong_point (block_count (task_of file.now)) points.now ≡ None) × Loads (task_of file.now) points.now lines.now }
{
    let header = taskfile::header(file);
    for i in 0..points.len() + 1 {
        let region = region_at(file, points, lines, i);
        collect_region(page, file, header, region, i, span)?;
    }
    Ok(())
}

// What stands above the bars: the title, for a browser's own use, and the same line to read.
fn collect_head(page: &mut impl Write, summary: Summary, rows: u64) -> io::Result<()> {
    drawing::begin_picture(page, rows)?;
    writeln!(page, "<title>{summary}</title>")?;
    drawing::collect_style(page)?;
    writeln!(page, r#"<text class="task" x="80" y="30">{summary}</text>"#)?;
    drawing::collect_legend(page)
}

// The picture of a plan with a well-formed list.
fn collect_plan(page: &mut impl Write, file: &[u8], plan: Plan, points: &[u16]) -> io::Result<()>
    requires { IsAccepted file.now × (wrong_point (block_count (task_of file.now)) points.now ≡ None) }
{
    let header = taskfile::header(file);
    let limits = Limits {
        first: header.limit as u64,
        second: second_between(file, header, 0, taskfile::block_count(file)),
    };
    let rows = plan.count as u64 + 1;
    let mut lines = [0u32; 64];
    pricing::count_lines(file, points, &mut lines);
    let span = drawing::span_of(longest(file, points, &lines), limits);
    collect_head(page, Summary::from(plan), rows)?;
    drawing::collect_scale(page, span, rows)?;
    collect_regions(page, file, points, &lines, span)?;
    drawing::collect_limits(page, limits, span, rows)?;
    drawing::end_picture(page)
}

fn draw_plan(rt: &impl Print, file: &[u8], plan: Plan) -> io::Result<()>
    requires { IsAccepted file.now × (wrong_point (block_count (task_of file.now)) (chosen plan) ≡ None) }
{
    let points = plan.points;
    let mut page = Page::new(rt);
    collect_plan(
        &mut page,
        file,
        plan,
        desk::first(&points, plan.count as usize),
    )?;
    page.flush()
}

fn draw_refusal(rt: &impl Print, refusal: Refusal) -> io::Result<()> {
    println!(rt;
        r#"<svg xmlns="http://www.w3.org/2000/svg" width="300" height="40" font-family="sans-serif">"#
    )?;
    println!(rt; r##"<rect width="100%" height="100%" fill="#fff"/>"##)?;
    println!(rt; r#"<text x="20" y="26">{refusal}</text>"#)?;
    println!(rt; "</svg>")
}

fn draw_answer(rt: &impl Print, file: &[u8]) -> io::Result<()> {
    match planner::least_plan(file) {
        Ok(plan) => draw_plan(rt, file, plan),
        Err(refusal) => draw_refusal(rt, refusal),
    }
}

fn main(rt: HostRuntime) -> io::Result<()> {
    if 0 < desk::argument_count(&rt) {
        return desk::print_usage(
            &rt,
            b"picture < FILE > PICTURE   FILE: a task file; PICTURE: its plan as an SVG file",
        );
    }
    let mut file = [0u8; 65536];
    let n = desk::read_input(&rt, &mut file)?;
    draw_answer(&rt, &file[..n])
}

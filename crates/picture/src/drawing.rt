// Bars on a scale of ticks, as the text of an SVG picture: a row for each region, with its edges on the left and its length on the right, and the limits.
// The text is written to a page. Places on the scale are in hundredths of a pixel, from 0 to its width.
ghost use Rattle.std.specs.Prelude.{◌≤◌, max};

use std::cmp::{max, min};
use std::io::Write;
use std::{fmt, io};

// The width of the scale.
const WIDTH: u64 = 80000;

// A part is at least a pixel wide, and the mark of an armed block three.
const PIXEL: u64 = 100;

const MARK: u64 = 300;

// A block that is at least so wide has its number on it.
const LABELLED: u64 = 1300;

// No region has more ticks, and no picture more rows.
const MOST_TICKS: u64 = 4398046511104;

const MOST_ROWS: u64 = 64;

// A place or a width on the scale, which is printed in pixels with two decimals.
#[derive(Clone, Copy)]
struct Place(u64);

impl fmt::Display for Place {
    fn fmt<W: fmt::Write>(&self, f: &mut fmt::Formatter<W>) -> fmt::Result {
        write!(f, "{}.{:02}", self.0 / 100, self.0 % 100)
    }
}

// Where a part of a bar begins, and how wide it is.
#[derive(Clone, Copy)]
struct Extent {
    left: u64,
    width: u64,
}

impl fmt::Display for Extent {
    fn fmt<W: fmt::Write>(&self, f: &mut fmt::Formatter<W>) -> fmt::Result {
        write!(
            f,
            r#"x="{}" width="{}""#,
            Place(self.left),
            Place(self.width)
        )
    }
}

// Block `number`, of so many ticks after others.
#[derive(Clone, Copy)]
pub struct Block {
    pub number: usize,
    pub armed: bool,
    pub dark: bool,
    pub from: u64,
    pub ticks: u64,
}

// The limit of a region, and that of a region with an armed block, if the task has one.
#[derive(Clone, Copy)]
pub struct Limits {
    pub first: u64,
    pub second: Option<u64>,
}

// So many ticks more, in numbers that fit.
fn after(ticks: u64, more: u64) -> u64 {
    min(ticks, MOST_TICKS) + min(more, MOST_TICKS)
}

// The ticks of the whole scale: the longest region, or a limit that is more, but no limit that is more than twice as long.
pub fn span_of(longest: u64, limits: Limits) -> u64 {
    let least = max(min(longest, MOST_TICKS), 1);
    let far = least * 2;
    let span = reaching(least, limits.first, far);
    match limits.second {
        Some(second) => reaching(span, second, far),
        None => span,
    }
}

// A scale with a limit on it, unless the limit is too far.
fn reaching(span: u64, limit: u64, far: u64) -> u64 {
    if far < limit { span } else { max(span, limit) }
}

// The place of so many ticks.
fn place_of(ticks: u64, span: u64) -> u64
    ensures { result ≤ 80000 }
{
    min(min(ticks, MOST_TICKS) * WIDTH / max(span, 1), WIDTH)
}

// Where a part begins that has so many ticks before it: those are drawn too, if only as a pixel.
fn start_of(from: u64, span: u64) -> u64 {
    if from == 0 {
        return 0;
    }
    max(place_of(from, span), PIXEL)
}

// Where a part of so many ticks is drawn. One that would be narrower than a pixel begins sooner, so that the part behind it leaves it visible.
fn extent_of(from: u64, ticks: u64, span: u64) -> Extent
    ensures { (result.left ≤ 80000) × (result.width ≤ 80000) }
{
    if ticks == 0 {
        return Extent {
            left: place_of(from, span),
            width: 0,
        };
    }
    let end = max(place_of(after(from, ticks), span), PIXEL);
    let left = min(start_of(from, span), end - PIXEL);
    Extent {
        left,
        width: end - left,
    }
}

// Where row i begins.
fn row_top(i: u64) -> u64
    ensures { result ≤ 1393 }
{
    113 + 20 * min(i, MOST_ROWS)
}

// The height of all rows.
fn rows_height(rows: u64) -> u64
    ensures { result ≤ 1280 }
{
    20 * min(rows, MOST_ROWS)
}

// A picture of so many rows; its title is to follow.
pub fn begin_picture(page: &mut impl Write, rows: u64) -> io::Result<()> {
    let height = row_top(rows) + 30;
    writeln!(
        page,
        r#"<svg xmlns="http://www.w3.org/2000/svg" width="1000" height="{height}" viewBox="0 0 1000 {height}" font-family="sans-serif" font-size="13">"#
    )
}

// The colours. Those of blocks, reloads and switches are told apart by their brightness too.
pub fn collect_style(page: &mut impl Write) -> io::Result<()> {
    page.write_all(
        br##"<style>
.light{fill:#b9d9f0}.dark{fill:#6aa7d6}.reloads{fill:#c2410c}.switch{fill:#222}.armed{fill:#7a0177}
.track{fill-opacity:.06}.tick{stroke:#000;stroke-opacity:.2}.Q{stroke:#000;stroke-width:2}
.Q2{stroke:#7a0177;stroke-width:5;stroke-dasharray:3 3}.task{font-size:18px;font-weight:bold}
.small{font-size:11px}.number{font-size:10px;text-anchor:middle}.middle{text-anchor:middle}.end{text-anchor:end}
.name{paint-order:stroke;stroke:#fff;stroke-width:3px}
</style>
<rect width="100%" height="100%" fill="#fff"/>
"##,
    )
}

// What the colours are, and what stands on the left and on the right.
pub fn collect_legend(page: &mut impl Write) -> io::Result<()> {
    page.write_all(
        br#"<g class="small legend" transform="translate(80,44)">
<rect class="light" width="18" height="14"/><rect class="dark" x="18" width="18" height="14"/><text x="42" y="11">blocks</text>
<rect class="light" x="100" width="18" height="14"/><rect class="armed" x="100" y="-3" width="18" height="3"/><text x="124" y="11">armed block</text>
<rect class="reloads" x="210" width="18" height="14"/><text x="234" y="11">reloads</text>
<rect class="switch" x="300" width="18" height="14"/><text x="324" y="11">switch</text>
</g>
<text class="small end" x="72" y="108">edges</text><text class="small end" x="980" y="108">length</text>
"#,
    )
}

// The greatest power of ten that is no more; 1 for no ticks.
fn power_of_ten(ticks: u64) -> u64
    ensures { (1 ≤ result) × (result ≤ max ticks 1) }
{
    match ticks.checked_ilog10() {
        Some(digits) => 10u64.pow(digits),
        None => 1,
    }
}

// The ticks from one number of the scale to the next: 1, 2 or 5 times a power of ten, so that there are few numbers and not too few.
fn step_of(span: u64) -> u64
    ensures { (1 ≤ result) × (result ≤ 8796093022208) }
{
    let ticks = min(span, MOST_TICKS);
    let power = power_of_ten(ticks);
    match ticks / power {
        0 | 1 => max(power / 5, 1),
        2 | 3 => max(power / 2, 1),
        4..=7 => power,
        _ => power * 2,
    }
}

// A number of the scale and its line.
fn collect_tick(page: &mut impl Write, tick: u64, span: u64, bottom: u64) -> io::Result<()>
    requires { bottom ≤ 1280 }
{
    let place = Place(place_of(tick, span));
    let below = bottom + 14;
    writeln!(
        page,
        r#"<line class="tick" x1="{place}" x2="{place}" y2="{bottom}"/><text class="small middle" x="{place}" y="{below}">{tick}</text>"#
    )
}

// The numbers of the scale from 0 to the last, so many ticks apart.
fn collect_ticks(
    page: &mut impl Write,
    last: u64,
    step: u64,
    span: u64,
    bottom: u64,
) -> io::Result<()>
    requires { (last ≤ 4398046511104) × (1 ≤ step) × (step ≤ 8796093022208) × (bottom ≤ 1280) }
{
    for tick in (0..last + 1).step_by(step as usize) {
        collect_tick(page, tick, span, bottom)?;
    }
    Ok(())
}

// The scale, its lines behind the bars and its numbers below them.
pub fn collect_scale(page: &mut impl Write, span: u64, rows: u64) -> io::Result<()> {
    let bottom = rows_height(rows);
    let last = min(span, MOST_TICKS);
    let below = bottom + 14;
    writeln!(page, r#"<g class="scale" transform="translate(80,113)">"#)?;
    collect_ticks(page, last, step_of(span), span, bottom)?;
    writeln!(
        page,
        r#"<text class="small" x="840" y="{below}">ticks</text>"#
    )?;
    writeln!(page, "</g>")
}

// Row i: the region from edge a to edge b, with its edges on the left and its length on the right. Its parts are to follow.
pub fn begin_row(
    page: &mut impl Write,
    i: usize,
    a: usize,
    b: usize,
    length: u64,
) -> io::Result<()> {
    let top = row_top(i as u64) + 3;
    writeln!(
        page,
        r#"<g class="region" transform="translate(80,{top})"><title>region {a} {b} length {length}</title>"#
    )?;
    writeln!(page, r#"<rect class="track" width="800" height="14"/>"#)?;
    writeln!(
        page,
        r#"<text class="edges end" x="-8" y="12">{a}&#8211;{b}</text><text class="length end" x="900" y="12">{length}</text>"#
    )
}

pub fn end_row(page: &mut impl Write) -> io::Result<()> {
    writeln!(page, "</g>")
}

// The rectangle of a part of a bar, which shows its name and ticks when it is pointed at.
fn collect_part(
    page: &mut impl Write,
    class: &str,
    extent: Extent,
    name: impl fmt::Display + Drop,
    ticks: u64,
) -> io::Result<()> {
    write!(
        page,
        r#"<rect class="{class}" {extent} height="14"><title>{name}: {ticks} ticks</title></rect>"#
    )
}

// The mark of an armed block, above the bar; a block without ticks has one too.
fn collect_mark(page: &mut impl Write, extent: Extent) -> io::Result<()> {
    let mark = Extent {
        left: extent.left,
        width: max(extent.width, MARK),
    };
    write!(page, r#"<rect class="armed" {mark} y="-3" height="3"/>"#)
}

// A block's number, if there is room for it.
fn collect_label(page: &mut impl Write, k: usize, extent: Extent) -> io::Result<()>
    requires { (extent.left ≤ 80000) × (extent.width ≤ 80000) }
{
    if extent.width < LABELLED {
        return Ok(());
    }
    let middle = Place(extent.left + extent.width / 2);
    write!(
        page,
        r#"<text class="number" x="{middle}" y="12">{k}</text>"#
    )
}

pub fn collect_block(page: &mut impl Write, block: Block, span: u64) -> io::Result<()> {
    let extent = extent_of(block.from, block.ticks, span);
    let class = if block.dark { "dark" } else { "light" };
    let k = block.number;
    collect_part(page, class, extent, format_args!("block {k}"), block.ticks)?;
    if block.armed {
        collect_mark(page, extent)?;
    }
    collect_label(page, k, extent)?;
    writeln!(page)
}

// The reloads or the switch, of so many ticks after others.
pub fn collect_cost(
    page: &mut impl Write,
    name: &str,
    from: u64,
    ticks: u64,
    span: u64,
) -> io::Result<()> {
    if ticks == 0 {
        return Ok(());
    }
    collect_part(page, name, extent_of(from, ticks, span), name, ticks)?;
    writeln!(page)
}

// The line of the second limit across the row of a region with an armed block, if it is on the scale.
pub fn collect_second(page: &mut impl Write, limit: u64, span: u64) -> io::Result<()> {
    if span < limit {
        return Ok(());
    }
    let place = Place(place_of(limit, span));
    writeln!(
        page,
        r#"<line class="Q2" x1="{place}" x2="{place}" y1="-3" y2="17"/>"#
    )
}

// A limit's name and number: beside its line, or where the scale ends if the limit is beyond, and then it says so.
fn collect_name(page: &mut impl Write, name: &str, limit: u64, span: u64) -> io::Result<()> {
    let place = place_of(limit, span);
    if place < WIDTH / 2 {
        let beside = Place(place + 4 * PIXEL);
        write!(page, r#"" x="{beside}">limit {name} {limit}"#)?;
    } else {
        let beside = Place(place - 4 * PIXEL);
        write!(page, r#" end" x="{beside}">limit {name} {limit}"#)?;
    }
    if span < limit {
        write!(page, " beyond &#8594;")?;
    }
    writeln!(page, "</text>")
}

// The line of the limit across all rows.
fn collect_line(page: &mut impl Write, limit: u64, span: u64, rows: u64) -> io::Result<()> {
    if span < limit {
        return Ok(());
    }
    let place = Place(place_of(limit, span));
    let bottom = rows_height(rows);
    writeln!(
        page,
        r#"<line class="Q" x1="{place}" x2="{place}" y1="-20" y2="{bottom}"/>"#
    )
}

// The limit's line and the names of both.
pub fn collect_limits(
    page: &mut impl Write,
    limits: Limits,
    span: u64,
    rows: u64,
) -> io::Result<()> {
    writeln!(page, r#"<g class="limits" transform="translate(80,113)">"#)?;
    collect_line(page, limits.first, span, rows)?;
    write!(page, r#"<text y="-24" class="small name"#)?;
    collect_name(page, "Q", limits.first, span)?;
    if let Some(second) = limits.second {
        write!(page, r#"<text y="-8" class="small name armed"#)?;
        collect_name(page, "Q2", second, span)?;
    }
    writeln!(page, "</g>")
}

pub fn end_picture(page: &mut impl Write) -> io::Result<()> {
    writeln!(page, "</svg>")
}

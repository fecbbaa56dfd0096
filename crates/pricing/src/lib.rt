// For an accepted file: the price of a list of points, and what each preempter is charged of it.
#![tactic(auto)]

ghost use Rattle.std.specs.Prelude.{◌&&◌, ◌≡◌, ◌≤◌, length, get_or};
ghost use Rattle.model.specs.Sets.{bit};
ghost use Rattle.model.specs.Task.{block_count};
ghost use Rattle.model.specs.Lines.{same_block};
ghost use Rattle.model.specs.Lists.{wrong_point};
ghost use Rattle.model.specs.Charges as Charges;
ghost use Rattle.model.specs.Charges.{no_charges};
ghost use Rattle.taskfile.specs.File.{IsAccepted, task_of};
ghost use Rattle.pricing.specs.Prices.{price_of, charged_price_of, Loads, RestStays};

use model::{Line, Refusal};

// What a list of points costs: its lines and its cost.
#[derive(Clone, Copy)]
pub struct Price {
    pub lines: u64,
    pub cost: u64,
}

// The same with each preempter's charge, from 0.
#[derive(Clone, Copy)]
pub struct ChargedPrice {
    pub lines: u64,
    pub cost: u64,
    pub charges: [u32; 32],
}

// The price of a list of points: 7 at its lowest wrong point, then 8 at its lowest region that does not fit.
pub fn price_of(file: &[u8], points: &[u16]) -> Result<Price, Refusal>
    requires { IsAccepted file.now }
    ensures { result ≡ price_of (task_of file.now) points.now }
{
    if let Some(i) = pointlist::wrong_point(points, taskfile::block_count(file)) {
        return Err(Refusal::Argument(i));
    }
    let mut lines = [0u32; 64];
    count_lines(file, points, &mut lines);
    price_regions(file, points, &lines)
}

// The same with charges.
pub fn charged_price_of(file: &[u8], points: &[u16]) -> Result<ChargedPrice, Refusal>
    requires { IsAccepted file.now }
    ensures { result ≡ charged_price_of (task_of file.now) points.now }
{
    if let Some(i) = pointlist::wrong_point(points, taskfile::block_count(file)) {
        return Err(Refusal::Argument(i));
    }
    let mut lines = [0u32; 64];
    let mut charges = [0u32; 32];
    charge_lines(file, points, &mut lines, &mut charges);
    let price = price_regions(file, points, &lines)?;
    Ok(ChargedPrice {
        lines: price.lines,
        cost: price.cost,
        charges,
    })
}

// The charges of a well-formed list.
pub fn charges_of(file: &[u8], points: &[u16]) -> [u32; 32]
    requires { IsAccepted file.now × (wrong_point (block_count (task_of file.now)) points.now ≡ None) }
    ensures { result ≡ Charges.charges (task_of file.now) points.now }
{
    let mut lines = [0u32; 64];
    let mut charges = [0u32; 32];
    charge_lines(file, points, &mut lines, &mut charges);
    charges
}

// The lines of each region of a well-formed list, in one walk over the reads: what each line holds,
// and the region that read it last, from 1 on. A read loads its line if the line is of H, holds the
// number, and was read last in an earlier region. Entries past the list's regions stay as they are.
// Document 01 names the array of lines, so the regions that read them last are in an array beside it.
pub fn count_lines(file: &[u8], points: &[u16], lines: &mut [u32; 64])
    requires { IsAccepted file.now × (wrong_point (block_count (task_of file.now)) points.now ≡ None) × (length lines.old ≡ 64) }
    ensures loads { Loads (task_of file.now) points.now lines.new }
    ensures rest_stays { RestStays points.now lines.old lines.new }
{
    let cache = cacheline::geometry_of(file);
    let blocks = taskfile::block_count(file);
    let whole = cache.caches_all();
    let mut evicted = [false; 512];
    reuse::mark_evicted(&mut evicted, file, cache);
    let mut held = [Line::Empty; 512];
    let mut since = [0u8; 512];
    let mut region = 0;
    let mut count = 0u32;
    for i in 0..blocks {
        if edge_after(points, region, blocks) == i {
            region += 1;
            count = 0;
        }
        let here = (region + 1) as u8;
        let k = i + 1;
        let reads = taskfile::read_count(file, k);
        for j in 0..reads {
            let number = taskfile::read(file, k, j);
            let slot = cache.slot_of(number);
            let c = slot.line;
            let line = held[c];
            let last = since[c];
            count += loads(line, number, evicted[c] & slot.cached, last < here);
            since[c] = reuse::if_cached(slot.cached, here, last);
            if whole {
                held[c] = Line::Held(number);
            } else {
                held[c] = reuse::if_cached(slot.cached, Line::Held(number), line);
            }
        }
        lines[region] = count;
    }
}

// The same walk with charges: each line's mark is the first preempter that touches it, and a read
// that loads the line adds one to that preempter's charge. The charges are lent as zeros.
fn charge_lines(file: &[u8], points: &[u16], lines: &mut [u32; 64], charges: &mut [u32; 32])
    requires { IsAccepted file.now × (wrong_point (block_count (task_of file.now)) points.now ≡ None) × (length lines.old ≡ 64) × (charges.old ≡ no_charges) }
    ensures { Loads (task_of file.now) points.now lines.new × (charges.new ≡ Charges.charges (task_of file.now) points.now) }
{
    let cache = cacheline::geometry_of(file);
    let blocks = taskfile::block_count(file);
    let whole = cache.caches_all();
    let mut first = [32u8; 512];
    reuse::mark_first(&mut first, file, cache);
    let mut held = [Line::Empty; 512];
    let mut since = [0u8; 512];
    let mut region = 0;
    let mut count = 0u32;
    for i in 0..blocks {
        if edge_after(points, region, blocks) == i {
            region += 1;
            count = 0;
        }
        let here = (region + 1) as u8;
        let k = i + 1;
        let reads = taskfile::read_count(file, k);
        for j in 0..reads {
            let number = taskfile::read(file, k, j);
            let slot = cache.slot_of(number);
            let c = slot.line;
            let line = held[c];
            let last = since[c];
            let mark = first[c];
            let loaded = loads(line, number, (mark < 32) & slot.cached, last < here);
            let owner = (mark % 32) as usize;
            count += loaded;
            charges[owner] += loaded;
            since[c] = reuse::if_cached(slot.cached, here, last);
            if whole {
                held[c] = Line::Held(number);
            } else {
                held[c] = reuse::if_cached(slot.cached, Line::Held(number), line);
            }
        }
        lines[region] = count;
    }
}

// 1 for a read that loads its line: the line is of H, holds the number, and was read last in an earlier region.
fn loads(line: Line, number: u32, evicted: bool, earlier: bool) -> u32
    ensures { (result ≡ bit (evicted && same_block line (Line.Held number) && earlier)) × (result ≤ 1) }
{
    (evicted & (line == Line::Held(number)) & earlier) as u32
}

// The price of a well-formed list, from the lines of its regions.
fn price_regions(file: &[u8], points: &[u16], lines: &[u32; 64]) -> Result<Price, Refusal>
    requires { IsAccepted file.now × (wrong_point (block_count (task_of file.now)) points.now ≡ None) × Loads (task_of file.now) points.now lines.now }
    ensures { result ≡ price_of (task_of file.now) points.now }
{
    let n = taskfile::block_count(file);
    let mut total = 0u64;
    let mut cost = 0u64;
    let mut a = 0;
    for i in 0..points.len() + 1 {
        let b = edge_after(points, i, n);
        let region = regions::weigh_between(file, a, b, lines[i]);
        if !region.fits {
            return Err(Refusal::AboveLimit(i));
        }
        total += lines[i] as u64;
        cost += region.cost;
        a = b;
    }
    Ok(Price { lines: total, cost })
}

// The edge at the end of region i: a point, or n after the last.
pub fn edge_after(points: &[u16], i: usize, n: usize) -> usize
    ensures { result ≡ get_or points.now i n }
{
    match points.get(i) {
        Some(point) => *point as usize,
        None => n,
    }
}

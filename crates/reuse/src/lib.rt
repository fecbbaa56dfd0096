// For an accepted file: the next read of a line, the lines that are useful at each edge, those that each block reads, those that the
// preempters evict and which of them first, and how many lines each region loads first in each of its blocks.
#![tactic(auto)]

ghost use Rattle.std.specs.Prelude.{false, not, cond, ◌&&◌, ◌||◌, ◌≡◌, ◌⊎◌, ℕ, ◌+◌, ◌-◌, ◌*◌, ◌<◌, ◌≤◌, eqb, ltb, length, get_or, take, drop, replicate};
ghost use Rattle.model.specs.Sets.{bit};
ghost use Rattle.model.specs.Task.{block_count};
ghost use Rattle.model.specs.Lines.{is_line, on_line, first_read, looked_at, any_read, same_block, reads_of, next_read, reads_looked_at, as_next, accessed, evicted};
ghost use Rattle.model.specs.Lines as Lines;
ghost use Rattle.model.specs.Regions.{union_after};
ghost use Rattle.lineset.specs.Members.{members};
ghost use Rattle.taskfile.specs.File.{IsAccepted, counts, task_of, entry_reads};
ghost use Rattle.cacheline.specs.Geometries.{GeometryOf, WithinCache};
ghost use Rattle.reuse.specs.Counts.{NewLines, Rereads, row_sum, SummedRow, SummedRows, OthersStay};
ghost use Rattle.reuse.specs.States.{HeldAfter, MarkedBy, FirstMarks, edge_before, FirstBy, NotedTo, Settled};
ghost use Rattle.reuse.specs.FirstReads.{is_read, Noted};

use cacheline::Geometry;
use lineset::LineSet;
use model::Line;

// What a search for the next read of a line finds, and how many reads it looked at.
#[derive(Clone, Copy)]
pub struct Search {
    pub next: Option<u32>,
    pub looked: usize,
}

// U(a), and the union of T(a + 1) to T(b).
#[derive(Clone, Copy)]
pub struct Between {
    pub useful: LineSet,
    pub accessed: LineSet,
}

// The next read of line c after block k.
pub fn next_read(file: &[u8], k: usize, c: usize) -> Search
    requires { IsAccepted file.now × (k ≤ block_count (task_of file.now)) }
    ensures next_value { result.next ≡ as_next (next_read (task_of file.now) k c) }
    ensures looked_value { result.looked ≡ reads_looked_at (task_of file.now) k c }
{
    search_from(file, cacheline::geometry_of(file), k, c)
}

// The same with the geometry at hand, block after block; it ends at the first read that lies on the line.
fn search_from(file: &[u8], cache: Geometry, k: usize, c: usize) -> Search
    requires { IsAccepted file.now × (k ≤ block_count (task_of file.now)) × GeometryOf (task_of file.now) cache }
    ensures next_value { result.next ≡ as_next (next_read (task_of file.now) k c) }
    ensures looked_value { result.looked ≡ reads_looked_at (task_of file.now) k c }
{
    let blocks = taskfile::block_count(file);
    let mut looked = 0;
    for i in k..blocks {
        let found = search_block(file, cache, i + 1, c);
        looked += found.looked;
        if let Some(number) = found.next {
            return Search {
                next: Some(number),
                looked,
            };
        }
    }
    Search { next: None, looked }
}

// The first read of line c in block k of the file. Each turn looks at two reads: with one a search took 1.1 to 1.3
// of the time.
fn search_block(file: &[u8], cache: Geometry, k: usize, c: usize) -> Search
    requires accepted { IsAccepted file.now × (1 ≤ k) × (k ≤ (counts file.now).blocks + (counts file.now).preempters) }
    requires geometry_of { GeometryOf (task_of file.now) cache }
    ensures next_value { result.next ≡ as_next (first_read (on_line (task_of file.now) c) (entry_reads file.now k)) }
    ensures looked_value { (result.looked ≡ looked_at (on_line (task_of file.now) c) (entry_reads file.now k)) × (result.looked ≤ 124) }
{
    let reads = taskfile::read_count(file, k);
    for i in 0..reads / 2 {
        let at = 2 * i;
        let number = taskfile::read(file, k, at);
        if cache.lies_on(number, c) {
            let looked = at + 1;
            return Search {
                next: Some(number),
                looked,
            };
        }
        let second = taskfile::read(file, k, at + 1);
        if cache.lies_on(second, c) {
            let looked = at + 2;
            return Search {
                next: Some(second),
                looked,
            };
        }
    }
    if reads % 2 == 1 {
        let last = taskfile::read(file, k, reads - 1);
        if cache.lies_on(last, c) {
            return Search {
                next: Some(last),
                looked: reads,
            };
        }
    }
    Search {
        next: None,
        looked: reads,
    }
}

// U(k): what each line holds after block k, and one search for each line that holds something. The
// search starts at the edge before the first block after k that reads the line, its first reader.
// First readers are noted on the way, only as far as a line needs it.
pub fn useful_lines(file: &[u8], k: usize) -> LineSet
    requires { IsAccepted file.now × (k ≤ block_count (task_of file.now)) }
    ensures { (c : ℕ) → members result c ≡ Lines.useful (task_of file.now) k c }
{
    let cache = cacheline::geometry_of(file);
    let blocks = taskfile::block_count(file);
    let held = held_after(file, cache, k);
    // A byte for each line, and 0 for no block, since blocks count from 1: an option would be two bytes.
    let mut readers = [0u8; 512];
    let mut lines = LineSet::empty();
    let mut b = k;
    for c in 0..cache.line_count as usize {
        match held[c] {
            Line::Empty => {}
            Line::Held(number) => {
                b = note_until(&mut readers, file, cache, b, c);
                let edge = edge_before(readers[c], blocks);
                lines = with_marked(lines, c, is_next(file, cache, edge, c, number));
            }
        }
    }
    lines
}

// Notes first readers behind block b, block after block, until line c has one or no block is left; answers the last block that was noted.
fn note_until(readers: &mut [u8; 512], file: &[u8], cache: Geometry, b: usize, c: usize) -> usize
    requires readers_len { (length readers.old ≡ 512) × (c < 512) }
    requires accepted { IsAccepted file.now × (b ≤ block_count (task_of file.now)) × GeometryOf (task_of file.now) cache }
    ensures noted_to { NotedTo (task_of file.now) b result readers.old readers.new }
    ensures settled { Settled (task_of file.now) result readers.new c }
{
    let blocks = taskfile::block_count(file);
    for i in b..blocks {
        if readers[c] != 0 {
            return i;
        }
        note_block(readers, file, cache, i + 1);
    }
    blocks
}

// Notes block k of the file as the first reader of the lines that it reads and that have none.
fn note_block(readers: &mut [u8; 512], file: &[u8], cache: Geometry, k: usize)
    requires readers_len { length readers.old ≡ 512 }
    requires accepted { IsAccepted file.now × (1 ≤ k) × (k ≤ (counts file.now).blocks) }
    requires geometry_of { GeometryOf (task_of file.now) cache }
    ensures readers_len_2 { length readers.new ≡ 512 }
    ensures first_by { FirstBy (λ d. any_read (on_line (task_of file.now) d) (entry_reads file.now k)) k readers.old readers.new }
{
    let reads = taskfile::read_count(file, k);
    for j in 0..reads {
        let mapping = cache.line_of(taskfile::read(file, k, j));
        note_reader(readers, mapping, k as u8);
    }
}

// Notes a block as the first reader of a line, if there is one and it has none.
fn note_reader(readers: &mut [u8; 512], mapping: Option<usize>, by: u8)
    requires { (length readers.old ≡ 512) × WithinCache mapping }
    ensures readers_len { length readers.new ≡ 512 }
    ensures first_by { FirstBy (λ d. is_line d mapping) by readers.old readers.new }
{
    if let Some(c) = mapping {
        readers[c] = first_reader(readers[c], by);
    }
}

// The reader that is noted, or this one if none is.
fn first_reader(noted: u8, by: u8) -> u8
    ensures { result ≡ cond (eqb noted 0) by noted }
{
    if noted == 0 { by } else { noted }
}

// U(a), and the union of T(a + 1) to T(b): what each line holds after block a, and what is read on it first behind that edge.
pub fn lines_between(file: &[u8], a: usize, b: usize) -> Between
    requires { IsAccepted file.now × (a ≤ b) × (b ≤ block_count (task_of file.now)) }
    ensures by_index { (c : ℕ) → members result.useful c ≡ Lines.useful (task_of file.now) a c }
    ensures by_index_2 { (c : ℕ) → members result.accessed c ≡ union_after (accessed (task_of file.now)) a (b - a) c }
{
    let cache = cacheline::geometry_of(file);
    let held = held_after(file, cache, a);
    let mut first = [Line::Empty; 512];
    let accessed = first_lines(&mut first, file, cache, a, b);
    first_lines(&mut first, file, cache, b, taskfile::block_count(file));
    Between {
        useful: reread_lines(&held, &first, cache.line_count as usize),
        accessed,
    }
}

// The lines that blocks a + 1 to b read and that were not read before, block after block.
fn first_lines(first: &mut [Line; 512], file: &[u8], cache: Geometry, a: usize, b: usize) -> LineSet
    requires first_len { length first.old ≡ 512 }
    requires accepted { IsAccepted file.now × (a ≤ b) × (b ≤ block_count (task_of file.now)) × GeometryOf (task_of file.now) cache }
    ensures { Noted (task_of file.now) (reads_of (take (b - a) (drop a (task_of file.now).blocks))) first.old first.new (members result) }
{
    let mut lines = LineSet::empty();
    for k in a..b {
        lines = lines.union(first_lines_in(first, file, cache, k + 1));
    }
    lines
}

// The lines that block k reads and that were not read before, each added once.
fn first_lines_in(first: &mut [Line; 512], file: &[u8], cache: Geometry, k: usize) -> LineSet
    requires first_len { length first.old ≡ 512 }
    requires accepted { IsAccepted file.now × (1 ≤ k) × (k ≤ (counts file.now).blocks + (counts file.now).preempters) }
    requires geometry_of { GeometryOf (task_of file.now) cache }
    ensures { Noted (task_of file.now) (entry_reads file.now k) first.old first.new (members result) }
{
    let reads = taskfile::read_count(file, k);
    let mut lines = LineSet::empty();
    for j in 0..reads {
        let number = taskfile::read(file, k, j);
        lines = note(first, lines, cache.line_of(number), number);
    }
    lines
}

// Notes the read of a number on a line, if there is one and it was not read before, and adds the line to the set.
fn note(first: &mut [Line; 512], lines: LineSet, mapping: Option<usize>, number: u32) -> LineSet
    requires { (length first.old ≡ 512) × WithinCache mapping }
    ensures first_len { length first.new ≡ 512 }
    ensures by_index { (c : ℕ) → get_or first.new c Line.Empty ≡ cond (not (is_read (get_or first.old c Line.Empty)) && is_line c mapping) (Line.Held number) (get_or first.old c Line.Empty) }
    ensures by_index_2 { (c : ℕ) → members result c ≡ (members lines c || not (is_read (get_or first.old c Line.Empty)) && is_line c mapping) }
{
    let Some(c) = mapping else {
        return lines;
    };
    if first[c] != Line::Empty {
        return lines;
    }
    first[c] = Line::Held(number);
    lines.with(c)
}

// The lines below count that hold the number that was read on them first.
fn reread_lines(held: &[Line; 512], first: &[Line; 512], count: usize) -> LineSet
    requires { (length held.now ≡ 512) × (length first.now ≡ 512) × (count ≤ 512) }
    ensures { (c : ℕ) → members result c ≡ (ltb c count && same_block (get_or held.now c Line.Empty) (get_or first.now c Line.Empty)) }
{
    let mut lines = LineSet::empty();
    for c in 0..count {
        lines = with_marked(lines, c, same_block(held[c], first[c]));
    }
    lines
}

// Whether two lines hold the same memory block; an empty line holds none.
fn same_block(a: Line, b: Line) -> bool
    ensures { result ≡ same_block a b }
{
    (a != Line::Empty) & (a == b)
}

// What each line holds after basic blocks 1 to k.
fn held_after(file: &[u8], cache: Geometry, k: usize) -> [Line; 512]
    requires { IsAccepted file.now × (k ≤ block_count (task_of file.now)) × GeometryOf (task_of file.now) cache }
    ensures { HeldAfter (task_of file.now) k result }
{
    let mut held = [Line::Empty; 512];
    for i in 0..k {
        let b = i + 1;
        let reads = taskfile::read_count(file, b);
        for j in 0..reads {
            let number = taskfile::read(file, b, j);
            if let Some(c) = cache.line_of(number) {
                held[c] = Line::Held(number);
            }
        }
    }
    held
}

// The edge before a line's first reader, or the last edge if no block reads the line.
fn edge_before(reader: u8, blocks: usize) -> usize
    ensures { result ≡ edge_before blocks reader }
{
    if reader == 0 {
        blocks
    } else {
        reader as usize - 1
    }
}

// Whether the next read of line c after edge k is of this memory block.
fn is_next(file: &[u8], cache: Geometry, k: usize, c: usize, number: u32) -> bool
    requires { IsAccepted file.now × (k ≤ block_count (task_of file.now)) × GeometryOf (task_of file.now) cache }
    ensures { result ≡ same_block (Line.Held number) (next_read (task_of file.now) k c) }
{
    search_from(file, cache, k, c).next == Some(number)
}

// H: the lines that the preempters evict. They are marked first, and each is then added to the set once.
pub fn evicted_lines(file: &[u8]) -> LineSet
    requires { IsAccepted file.now }
    ensures { (c : ℕ) → members result c ≡ evicted (task_of file.now) c }
{
    let cache = cacheline::geometry_of(file);
    let mut marks = [false; 512];
    mark_evicted(&mut marks, file, cache);
    marked_lines(&marks, cache.line_count as usize)
}

// Marks the lines of H; the array is lent with no mark.
pub fn mark_evicted(marks: &mut [bool; 512], file: &[u8], cache: Geometry)
    requires { (marks.old ≡ replicate 512 false) × IsAccepted file.now × GeometryOf (task_of file.now) cache }
    ensures marks_len { length marks.new ≡ 512 }
    ensures by_index { (d : ℕ) → get_or marks.new d false ≡ evicted (task_of file.now) d }
{
    let first = taskfile::block_count(file) + 1;
    let end = first + taskfile::preempter_count(file);
    for k in first..end {
        mark_reads(marks, file, cache, k, true);
    }
}

// Marks the lines that block k of the file reads with this mark.
fn mark_reads<T: Copy>(marks: &mut [T; 512], file: &[u8], cache: Geometry, k: usize, mark: T)
    requires marks_len { length marks.old ≡ 512 }
    requires accepted { IsAccepted file.now × (1 ≤ k) × (k ≤ (counts file.now).blocks + (counts file.now).preempters) }
    requires geometry_of { GeometryOf (task_of file.now) cache }
    ensures marks_len_2 { length marks.new ≡ 512 }
    ensures marked_by { MarkedBy (λ d. any_read (on_line (task_of file.now) d) (entry_reads file.now k)) mark marks.old marks.new }
{
    let whole = cache.caches_all();
    let reads = taskfile::read_count(file, k);
    for j in 0..reads {
        let slot = cache.slot_of(taskfile::read(file, k, j));
        let c = slot.line;
        if whole {
            marks[c] = mark;
        } else {
            marks[c] = if_cached(slot.cached, mark, marks[c]);
        }
    }
}

// Marks each line with the first preempter that touches it, from 0; the array is lent with 32 everywhere, which stays where there is none. The
// preempters come last to first, so that each overwrites those after it.
// A mark is one byte a line, and its remainder by 32 is an index at once; an option would be two bytes.
pub fn mark_first(marks: &mut [u8; 512], file: &[u8], cache: Geometry)
    requires { (marks.old ≡ replicate 512 32) × IsAccepted file.now × GeometryOf (task_of file.now) cache }
    ensures { FirstMarks (task_of file.now) marks.new }
{
    let start = taskfile::block_count(file) + 1;
    for i in (0..taskfile::preempter_count(file)).rev() {
        mark_reads(marks, file, cache, start + i, i as u8);
    }
}

// The set of the lines below count that are marked.
fn marked_lines(marks: &[bool; 512], count: usize) -> LineSet
    requires { (length marks.now ≡ 512) × (count ≤ 512) }
    ensures { (d : ℕ) → members result d ≡ (ltb d count && get_or marks.now d false) }
{
    let mut set = LineSet::empty();
    for c in 0..count {
        set = with_marked(set, c, marks[c]);
    }
    set
}

// A set with line c, if it is marked.
fn with_marked(lines: LineSet, c: usize, marked: bool) -> LineSet
    requires { c < 512 }
    ensures { (d : ℕ) → members result d ≡ (members lines d || eqb d c && marked) }
{
    if marked { lines.with(c) } else { lines }
}

// Counts the lines that each region loads first in each of its blocks; the array is lent with zeros everywhere.
pub fn count_new_lines(file: &[u8], counts: &mut [u8; 4096])
    requires { IsAccepted file.now × (counts.old ≡ replicate 4096 0) }
    ensures { NewLines file.now counts.new }
{
    let cache = cacheline::geometry_of(file);
    let mut evicted = [false; 512];
    mark_evicted(&mut evicted, file, cache);
    count_rereads(file, cache, &evicted, counts);
    sum_rows(counts, taskfile::block_count(file));
}

// One walk over the reads: what each line holds, and the block, from 0, that read it last. A read
// of the number that a line of H holds is counted in the row of its own block, at the column of
// that block. With a scratch range each new entry is chosen; without one it is stored as it is.
// Document 01 names the array of lines, so the blocks that read them last are in an array beside it.
fn count_rereads(file: &[u8], cache: Geometry, evicted: &[bool; 512], counts: &mut [u8; 4096])
    requires accepted { IsAccepted file.now × GeometryOf (task_of file.now) cache }
    requires evicted_len { (length evicted.now ≡ 512) × ((d : ℕ) → get_or evicted.now d false ≡ Lines.evicted (task_of file.now) d) }
    requires counts_value { counts.old ≡ replicate 4096 0 }
    ensures { Rereads file.now counts.new }
{
    let blocks = taskfile::block_count(file);
    let whole = cache.caches_all();
    let mut held = [Line::Empty; 512];
    let mut since = [0u8; 512];
    for i in 0..blocks {
        let b = i + 1;
        let reads = taskfile::read_count(file, b);
        for j in 0..reads {
            let number = taskfile::read(file, b, j);
            let slot = cache.slot_of(number);
            let c = slot.line;
            let line = held[c];
            let last = since[c];
            let at = 64 * i + last as usize;
            counts[at] += reread(line, number, evicted[c] & slot.cached);
            since[c] = if_cached(slot.cached, i as u8, last);
            if whole {
                held[c] = Line::Held(number);
            } else {
                held[c] = if_cached(slot.cached, Line::Held(number), line);
            }
        }
    }
}

// 1 if the line is of H and holds the number that is read, otherwise 0.
fn reread(line: Line, number: u32, evicted: bool) -> u8
    ensures { (result ≡ bit (evicted && same_block line (Line.Held number))) × (result ≤ 1) }
{
    (evicted & (line == Line::Held(number))) as u8
}

// Puts at each column of a row, up to the row's own number, the sum of those before it.
fn sum_rows(counts: &mut [u8; 4096], rows: usize)
    requires { (length counts.old ≡ 4096) × (rows ≤ 64) × ((i : ℕ) → i < rows → row_sum counts.old i 64 ≤ 124) }
    ensures counts_len { length counts.new ≡ 4096 }
    ensures summed_rows { SummedRows rows counts.old counts.new }
{
    for i in 0..rows {
        sum_row(counts, i);
    }
}

// The same for row i.
fn sum_row(counts: &mut [u8; 4096], i: usize)
    requires { (length counts.old ≡ 4096) × (i < 64) × (row_sum counts.old i 64 ≤ 124) }
    ensures counts_len { length counts.new ≡ 4096 }
    ensures summed_row { SummedRow i counts.old counts.new }
    ensures others_stay { OthersStay i counts.old counts.new }
{
    let mut sum = 0u8;
    for a in 0..i + 1 {
        let at = 64 * i + a;
        let here = counts[at];
        counts[at] = sum;
        sum += here;
    }
}

// The new entry of a line after a read, if the number is cached, and otherwise the old one.
pub fn if_cached<T: Copy>(cached: bool, new: T, old: T) -> T
    ensures { result ≡ cond cached new old }
{
    if cached { new } else { old }
}

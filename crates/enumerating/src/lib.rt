// The next fitting list of an accepted file of at most 16 basic blocks, by a table of its regions.
#![tactic(auto)]

ghost use Rattle.std.specs.Prelude.{◌≡◌, ◌&&◌, ◌+◌, ◌*◌, ◌^◌, ◌≤◌, ◌<◌};
ghost use Rattle.model.specs.Task.{block_count};
ghost use Rattle.taskfile.specs.File.{IsAccepted, task_of};
ghost use Rattle.reuse.specs.Counts.{NewLines};
ghost use Rattle.enumerating.specs.Search.{next_found, next_in, if_fitting};
ghost use Rattle.enumerating.specs.Table.{fit_in, lines_in, cost_in, Small, TableBefore, RegionTable};

use regions::CountedRegion;

// A fitting list: its number, its lines and its cost.
#[derive(Clone, Copy)]
pub struct FittingList {
    pub number: u64,
    pub lines: u32,
    pub cost: u64,
}

// The table of a file's regions: whether each fits, its lines and its cost. The region from edge a to edge b stands at place 17 a + b; at the other places
// there are zeros. Of the three arrays the search reads one after the other: with one array of regions it took up to 1.4 times as long.
#[derive(Clone, Copy)]
pub struct Table {
    pub fits: [bool; 272],
    pub lines: [u32; 272],
    pub costs: [u64; 272],
}

// The regions of a list up to an edge: whether all fit, where the next region starts, their lines
// and their cost. The walk goes on past a region that does not fit, which costs no branch.
#[derive(Clone, Copy)]
struct Walk {
    fits: bool,
    from: usize,
    lines: u32,
    cost: u64,
}

// The fitting list of the lowest number at or above the start.
pub fn find_next(file: &[u8], start: u64) -> Option<FittingList>
    requires { IsAccepted file.now × (block_count (task_of file.now) ≤ 16) }
    ensures { result ≡ next_in (task_of file.now) start }
{
    let table = evaluate_regions(file);
    next_fitting(&table, taskfile::block_count(file), start)
}

// The table of a file's regions.
pub fn evaluate_regions(file: &[u8]) -> Table
    requires { IsAccepted file.now × (block_count (task_of file.now) ≤ 16) }
    ensures { RegionTable (task_of file.now) result }
{
    let mut counts = [0u8; 4096];
    reuse::count_new_lines(file, &mut counts);
    let mut table = Table {
        fits: [false; 272],
        lines: [0; 272],
        costs: [0; 272],
    };
    let n = taskfile::block_count(file);
    for a in 0..n {
        evaluate_row(file, &counts, &mut table, a);
    }
    table
}

// The regions from edge a.
fn evaluate_row(file: &[u8], counts: &[u8; 4096], table: &mut Table, a: usize)
    requires new_lines { NewLines file.now counts.now × (block_count (task_of file.now) ≤ 16) × (a < block_count (task_of file.now)) }
    requires table_before { TableBefore (17 * a) (task_of file.now) table.old }
    ensures { TableBefore (17 * a + 17) (task_of file.now) table.new }
{
    let n = taskfile::block_count(file);
    let header = taskfile::header(file);
    let mut region = CountedRegion::at(header, a);
    // The region says where it ends: no index is counted beside it.
    while region.to < n {
        region = region.longer(file, counts);
        let weighed = region.weigh(header);
        let at = 17 * a + region.to;
        table.fits[at] = weighed.fits;
        table.lines[at] = region.lines;
        table.costs[at] = weighed.cost;
    }
}

// The same search by the table: each number is looked at once.
pub fn next_fitting(table: &Table, blocks: usize, start: u64) -> Option<FittingList>
    requires { (1 ≤ blocks) × (blocks ≤ 16) × Small table.now }
    ensures { result ≡ next_found (fit_in table.now) (lines_in table.now) (cost_in table.now) blocks start }
{
    let end = 1u64 << (blocks - 1);
    for number in start..end {
        if let Some(list) = if_fitting(table, blocks, number) {
            return Some(list);
        }
    }
    None
}

// The list of a number if it fits: a walk along the bits, which ends a region at each point.
fn if_fitting(table: &Table, blocks: usize, number: u64) -> Option<FittingList>
    requires { (1 ≤ blocks) × (blocks ≤ 16) × Small table.now }
    ensures { result ≡ if_fitting (fit_in table.now) (lines_in table.now) (cost_in table.now) blocks number }
{
    let mut walk = Walk {
        fits: true,
        from: 0,
        lines: 0,
        cost: 0,
    };
    let mut rest = number;
    for to in 1..blocks {
        if rest % 2 == 1 {
            walk = walk.ended(table, to);
        }
        rest = rest / 2;
    }
    let whole = walk.ended(table, blocks);
    if whole.fits {
        Some(FittingList {
            number,
            lines: whole.lines,
            cost: whole.cost,
        })
    } else {
        None
    }
}

impl Walk {
    // Ends the next region at an edge.
    fn ended(self, table: &Table, to: usize) -> Self
        requires small { Small table.now × (self.from < to) × (to ≤ 16) }
        requires lines_bound { (self.lines ≤ 512 * self.from) × (self.cost ≤ 2 ^ 48 * self.from) }
        ensures fits_value { result.fits ≡ (self.fits && fit_in table.now self.from to) }
        ensures from_value { result.from ≡ to }
        ensures lines_value { result.lines ≡ self.lines + lines_in table.now self.from to }
        ensures cost_value { result.cost ≡ self.cost + cost_in table.now self.from to }
    {
        let at = 17 * self.from + to;
        Walk {
            fits: self.fits & table.fits[at],
            from: to,
            lines: self.lines + table.lines[at],
            cost: self.cost + table.costs[at],
        }
    }
}

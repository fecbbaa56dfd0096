// The regions of an accepted file: the loaded lines, the length, the cost and the fit of one; and those of one edge, each from the one before it.
#![tactic(auto)]

ghost use Rattle.std.specs.Prelude.{cond, ◌≡◌, min, ◌+◌, ◌*◌, ◌^◌, ◌≤◌, ◌<◌, eqb};
ghost use Rattle.model.specs.Task.{Task, block_count};
ghost use Rattle.model.specs.Regions.{region_lines};
ghost use Rattle.taskfile.specs.File.{IsAccepted, task_of};
ghost use Rattle.reuse.specs.Counts.{NewLines};
ghost use Rattle.regions.specs.Measures.{Measures, RunBetween, Weighs, WeighsRegion, Counted};

use lineset::LineSet;
use model::Header;
use std::cmp::min;

// A region's loaded lines and their number, its length, its cost and whether it fits.
#[derive(Clone, Copy)]
pub struct MeasuredRegion {
    pub loaded: LineSet,
    pub lines: u32,
    pub length: u64,
    pub cost: u64,
    pub fits: bool,
}

// The sum of the times of some blocks, and the limit that counts for them.
#[derive(Clone, Copy)]
pub struct Run {
    pub time: u64,
    pub limit: u32,
}

// A region whose lines are counted, block by block, and the run of its blocks.
#[derive(Clone, Copy)]
pub struct CountedRegion {
    pub from: usize,
    pub to: usize,
    pub lines: u32,
    pub run: Run,
}

// What follows from a region's times and lines: its length, its cost and whether it fits.
// Length and cost count where it does not fit, too, so `fits` is a field and no option.
#[derive(Clone, Copy)]
pub struct Weighed {
    pub length: u64,
    pub cost: u64,
    pub fits: bool,
}

// The region from edge a to edge b.
pub fn measure(file: &[u8], a: usize, b: usize) -> MeasuredRegion
    requires { IsAccepted file.now × (a < b) × (b ≤ block_count (task_of file.now)) }
    ensures { Measures (task_of file.now) a b result }
{
    let between = reuse::lines_between(file, a, b);
    let lost = between.useful.common(reuse::evicted_lines(file));
    let loaded = lost.common(between.accessed);
    let lines = loaded.size();
    let weighed = weigh_between(file, a, b, lines);
    MeasuredRegion {
        loaded,
        lines,
        length: weighed.length,
        cost: weighed.cost,
        fits: weighed.fits,
    }
}

// The length, the cost and the fit of the region from edge a to edge b, which loads so many lines.
pub fn weigh_between(file: &[u8], a: usize, b: usize, lines: u32) -> Weighed
    requires { IsAccepted file.now × (a ≤ b) × (b ≤ block_count (task_of file.now)) × (lines ≡ region_lines (task_of file.now) a b) }
    ensures { WeighsRegion (task_of file.now) a b result }
{
    let region = CountedRegion {
        from: a,
        to: b,
        lines,
        run: run_between(file, a, b),
    };
    region.weigh(taskfile::header(file))
}

// Blocks a + 1 to b.
fn run_between(file: &[u8], a: usize, b: usize) -> Run
    requires { IsAccepted file.now × (a ≤ b) × (b ≤ block_count (task_of file.now)) }
    ensures { RunBetween (task_of file.now) a b result }
{
    let header = taskfile::header(file);
    let mut run = Run::none(header);
    for i in a..b {
        run = run.longer(
            header,
            taskfile::time(file, i + 1),
            taskfile::armed(file, i + 1),
        );
    }
    run
}

impl Run {
    // No basic blocks.
    fn none(header: Header) -> Self
        ensures { result ≡ record { time = 0; limit = header.limit } }
    {
        Run {
            time: 0,
            limit: header.limit,
        }
    }

    // One basic block more, with its time, and the limit that counts where the sampler is armed in it: the smaller of Q and Q2.
    fn longer(self, header: Header, time: u32, armed: bool) -> Self
        requires { self.time ≤ 64 * 4294967295 }
        ensures { (result.time ≡ self.time + time) × (result.limit ≡ cond armed (min header.limit header.second_limit) self.limit) }
    {
        Run {
            time: self.time + time as u64,
            limit: if armed {
                min(header.limit, header.second_limit)
            } else {
                self.limit
            },
        }
    }
}

impl CountedRegion {
    // No basic blocks, at edge a.
    pub fn at(header: Header, a: usize) -> Self
        ensures { ((t : Task) → header ≡ t.header → a ≤ block_count t → Counted t result) × (result.from ≡ a) × (result.to ≡ a) }
    {
        CountedRegion {
            from: a,
            to: a,
            lines: 0,
            run: Run::none(header),
        }
    }

    // One basic block more, with its time, the lines that the region loads first in it, and the limit that counts where the sampler is armed in it.
    pub fn longer(self, file: &[u8], counts: &[u8; 4096]) -> Self
        requires { NewLines file.now counts.now × Counted (task_of file.now) self × (self.to < block_count (task_of file.now)) }
        ensures { Counted (task_of file.now) result × (result.from ≡ self.from) × (result.to ≡ self.to + 1) }
    {
        let from = self.from;
        let to = self.to;
        let next = to + 1;
        let new = counts[64 * to + from];
        let run = self.run.longer(
            taskfile::header(file),
            taskfile::time(file, next),
            taskfile::armed(file, next),
        );
        CountedRegion {
            from,
            to: next,
            lines: self.lines + new as u32,
            run,
        }
    }

    // The region's length, its cost and whether it fits.
    pub fn weigh(self, header: Header) -> Weighed
        requires { (self.run.time ≤ 64 * 4294967295) × (self.lines ≤ 512) }
        ensures { Weighs header self result }
    {
        let time = self.run.time;
        let reloads = header.reload as u64 * self.lines as u64;
        let cost = reloads + switch_at(header, self.from) as u64;
        let length = time + cost;
        Weighed {
            length,
            cost,
            fits: length <= self.run.limit as u64,
        }
    }
}

// The ticks of the switch at an edge: those of the header at a point, and none where the task starts.
fn switch_at(header: Header, edge: usize) -> u32
    ensures { result ≡ cond (eqb edge 0) 0 header.switch }
{
    if edge == 0 { 0 } else { header.switch }
}

// Replay of a file's reads, with a list of points and alone: how many of the reads miss.
#![tactic(auto)]

ghost use Rattle.std.specs.Prelude.{not, cond, ◌&&◌, ◌≡◌, ◌+◌, ◌≤◌, eqb, leb, get_or};
ghost use Rattle.model.specs.Answers.{answered};
ghost use Rattle.model.specs.Sets.{bit};
ghost use Rattle.model.specs.Task.{block_count};
ghost use Rattle.model.specs.Lines.{same_block};
ghost use Rattle.model.specs.Lists.{wrong_point};
ghost use Rattle.model.specs.Replay.{misses_alone, misses_with};
ghost use Rattle.taskfile.specs.File.{IsAccepted, task_of};
ghost use Rattle.replaying.specs.Calls.{replay_verdict, misses_alone_of, misses_with_of};

use model::{Line, Refusal};

// How many reads miss alone, and how many with the points.
#[derive(Clone, Copy)]
pub struct Misses {
    pub alone: u32,
    pub preempted: u32,
}

// The points passed: the index of the next one, and the last of them, 0 before the first.
#[derive(Clone, Copy)]
struct Passed {
    next: usize,
    last: usize,
}

// The misses of a file's reads.
#[tactic(auto, unfolding(crate::specs::Calls::replay_verdict, crate::specs::Calls::misses_alone_of, crate::specs::Calls::misses_with_of))]
pub fn replay(file: &[u8], points: &[u16]) -> Result<Misses, Refusal>
    ensures { result ≡ answered (replay_verdict file.now points.now) (record { alone = misses_alone_of file.now points.now; preempted = misses_with_of file.now points.now }) }
{
    taskfile::check(file)?;
    if let Some(i) = pointlist::wrong_point(points, taskfile::block_count(file)) {
        return Err(Refusal::Argument(i));
    }
    Ok(count_misses(file, points))
}

// Both counts in one walk over the reads: what each line holds alone, and the block that read it last. With the points a line of H has lost
// what it holds if no block has read it since the last point.
fn count_misses(file: &[u8], points: &[u16]) -> Misses
    requires { IsAccepted file.now × (wrong_point (block_count (task_of file.now)) points.now ≡ None) }
    ensures { result ≡ record { alone = misses_alone (task_of file.now); preempted = misses_with (task_of file.now) points.now } }
{
    let cache = cacheline::geometry_of(file);
    let blocks = taskfile::block_count(file);
    let mut evicted = [false; 512];
    reuse::mark_evicted(&mut evicted, file, cache);
    let mut held = [Line::Empty; 512];
    let mut since = [0u8; 512];
    let mut alone = 0u32;
    let mut preempted = 0u32;
    let mut passed = Passed { next: 0, last: 0 };
    for i in 0..blocks {
        let k = i + 1;
        let reads = taskfile::read_count(file, k);
        let last = passed.last;
        for j in 0..reads {
            let number = taskfile::read(file, k, j);
            if let Some(c) = cache.line_of(number) {
                let line = held[c];
                let lost = is_lost(evicted[c], since[c], last);
                alone += missed(line, number, false);
                preempted += missed(line, number, lost);
                held[c] = Line::Held(number);
                since[c] = k as u8;
            }
        }
        passed = pass(passed, points, k);
    }
    Misses { alone, preempted }
}

// Whether a line is of H and was not read since the last point.
fn is_lost(evicted: bool, since: u8, last: usize) -> bool
    ensures { result ≡ (evicted && leb since last) }
{
    evicted & (since as usize <= last)
}

// 1 for a miss and 0 for a hit: a read of this number on a line, which is empty if it is lost.
fn missed(line: Line, number: u32, lost: bool) -> u32
    ensures { (result ≡ bit (not (same_block (cond lost Line.Empty line) (Line.Held number)))) × (result ≤ 1) }
{
    (lost | (line != Line::Held(number))) as u32
}

// The points passed with edge k, which comes after those before.
fn pass(passed: Passed, points: &[u16], k: usize) -> Passed
    requires { 1 ≤ k }
    ensures { result ≡ cond (eqb (get_or points.now passed.next 0) k) (record { next = passed.next + 1; last = k }) passed }
{
    match points.get(passed.next) {
        Some(point) if *point as usize == k => Passed {
            next: passed.next + 1,
            last: k,
        },
        _ => passed,
    }
}

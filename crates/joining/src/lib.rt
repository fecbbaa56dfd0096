// Two task files joined into one: the basic blocks of the first and then of the second, and the preempters likewise.
#![tactic(auto)]

ghost use Rattle.std.specs.Prelude.{◌≡◌, ◌+◌, ◌*◌, ◌≤◌, length};
ghost use Rattle.model.specs.Task.{block_count};
ghost use Rattle.model.specs.Answers.{on_accepted};
ghost use Rattle.answers.specs.Places.{placed};
ghost use Rattle.taskfile.specs.File.{task_of, file_of, IsAccepted};
ghost use Rattle.joining.specs.Joining.{joined, agree, Totals};
ghost use Rattle.joining.specs.Calls.{agree_row, totals_row, join_rows, join_verdict, join_place, join_left};

use answers::Refused;
use model::{Header, Refusal};
use std::cmp::min;

// Whether two accepted files have the same S, R, scratch range and G. Their limits and ids are free, so no `==` of headers.
fn same_board(first: &[u8], second: &[u8]) -> bool
    requires { IsAccepted first.now × IsAccepted second.now }
    ensures { result ≡ agree (task_of first.now) (task_of second.now) }
{
    let a = taskfile::header(first);
    let b = taskfile::header(second);
    (a.line_count == b.line_count)
        & (a.reload == b.reload)
        & (a.scratch == b.scratch)
        & (a.switch == b.switch)
}

// Refuses accepted files of different caches or switches.
fn check_agree(first: &[u8], second: &[u8]) -> Result<(), Refusal>
    requires { IsAccepted first.now × IsAccepted second.now }
    ensures { result ≡ agree_row (task_of first.now) (task_of second.now) }
{
    if same_board(first, second) {
        Ok(())
    } else {
        Err(Refusal::Mismatch)
    }
}

// Refuses more basic blocks or preempters than a file has room for.
#[tactic(auto, unfolding(crate::specs::Calls::totals_row, crate::specs::Joining::counts_fit))]
fn check_totals(blocks: usize, preempters: usize) -> Result<(), Refusal>
    ensures { result ≡ totals_row blocks preempters }
{
    if (blocks <= 64) & (preempters <= 32) {
        Ok(())
    } else {
        Err(Refusal::TooManyBlocks)
    }
}

// The header of the joined task: the first's, with the smaller limits.
fn joined_header(first: &[u8], second: &[u8]) -> Header
    requires { IsAccepted first.now × IsAccepted second.now }
    ensures { result ≡ (joined (task_of first.now) (task_of second.now)).header }
{
    let header = taskfile::header(first);
    let other = taskfile::header(second);
    Header {
        limit: min(header.limit, other.limit),
        second_limit: min(header.second_limit, other.second_limit),
        ..header
    }
}

// Stores the joined file, which has so many basic blocks and preempters, in a buffer of its length.
fn put_joined(out: &mut [u8], first: &[u8], second: &[u8], blocks: usize, preempters: usize)
    requires accepted { IsAccepted first.now × IsAccepted second.now }
    requires totals { Totals (joined (task_of first.now) (task_of second.now)) blocks preempters }
    requires out_len { length out.old ≡ 512 * (1 + blocks + preempters) }
    ensures { out.new ≡ file_of (joined (task_of first.now) (task_of second.now)) }
{
    let header = joined_header(first, second);
    writer::copy_both(
        out,
        0,
        taskfile::basic_blocks(first),
        taskfile::basic_blocks(second),
    );
    writer::copy_both(
        out,
        blocks,
        taskfile::preempter_blocks(first),
        taskfile::preempter_blocks(second),
    );
    writer::close_file(out, blocks as u16, preempters as u16, header);
}

// N of the joined task.
fn joined_blocks(first: &[u8], second: &[u8]) -> usize
    requires { IsAccepted first.now × IsAccepted second.now }
    ensures { (result ≡ block_count (joined (task_of first.now) (task_of second.now))) × (result ≤ 128) }
{
    taskfile::block_count(first) + taskfile::block_count(second)
}

// M of the joined task.
fn joined_preempters(first: &[u8], second: &[u8]) -> usize
    requires { IsAccepted first.now × IsAccepted second.now }
    ensures { (result ≡ length (joined (task_of first.now) (task_of second.now)).preempters) × (result ≤ 64) }
{
    taskfile::preempter_count(first) + taskfile::preempter_count(second)
}

// Joins accepted files.
#[tactic(auto, unfolding(crate::specs::Calls::join_rows))]
fn join_accepted(out: &mut [u8], first: &[u8], second: &[u8]) -> Result<(), Refusal>
    requires { IsAccepted first.now × IsAccepted second.now }
    ensures value { result ≡ join_rows (task_of first.now) (task_of second.now) (length out.old) }
    ensures out_after { out.new ≡ on_accepted result (file_of (joined (task_of first.now) (task_of second.now))) out.old }
{
    let blocks = joined_blocks(first, second);
    let preempters = joined_preempters(first, second);
    check_agree(first, second)?;
    check_totals(blocks, preempters)?;
    answers::check_output(
        writer::file_size(blocks as u32, preempters as u32),
        out.len(),
    )?;
    put_joined(out, first, second, blocks, preempters);
    Ok(())
}

// Joins two files into a buffer: the first file's refusals, the second's, 11 and 12 for the two tasks, and then 9 for the buffer's length. On a
// refusal the buffer stays what it was.
pub fn join(first: &[u8], second: &[u8], out: &mut [u8]) -> Result<(), Refused>
    ensures value { result ≡ placed (join_verdict first.now second.now out.old) (join_place first.now second.now out.old) (tt {0}) }
    ensures out_after { out.new ≡ join_left first.now second.now out.old }
{
    taskfile::check(first)?;
    taskfile::check(second).map_err(answers::of_second)?;
    join_accepted(out, first, second)?;
    Ok(())
}

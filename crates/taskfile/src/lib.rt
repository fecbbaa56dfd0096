// Task files: the answer to any bytes, and the numbers of an accepted file.
#![tactic(auto)]

ghost use Rattle.std.specs.Prelude.{◌≡◌, ◌+◌, ◌-◌, ◌*◌, ◌^◌, ◌<◌, ◌≤◌, length, get_or};
ghost use Rattle.model.specs.Answers.{and_then};
ghost use Rattle.model.specs.Sets.{bit};
ghost use Rattle.model.specs.Task.{block_count, preempter_count, no_preempter};
ghost use Rattle.model.specs.Lines.{block_at};
ghost use Rattle.taskfile.specs.File.{block_in, counts, basic_of, entry_reads, header_of, task_of, basic_blocks, preempter_blocks, length_right, counts_in_range, scratch_in_range, header_in_range, header_right, entry_right, block_right, checksum_row, header_row, count_row, block_row, IsAccepted, verdict};
ghost use Rattle.taskfile.specs.Steps.{four_right, LeftToTest};

use model::{Header, Refusal, Scratch};

// Where the header's named bytes end.
pub const HEADER_END: usize = 36;

// The answer to any bytes.
#[tactic(auto, unfolding(crate::specs::File::verdict, crate::specs::File::length_row))]
pub fn check(file: &[u8]) -> Result<(), Refusal>
    ensures { result ≡ verdict file.now }
{
    if !length_right(file.len()) {
        return Err(Refusal::Length);
    }
    check_checksums(file)?;
    check_header(file)?;
    check_blocks(file)
}

// Whole blocks, from 1 to 97.
fn length_right(n: usize) -> bool
    ensures { result ≡ length_right n }
{
    if n == 0 {
        return false;
    }
    if n % 512 != 0 {
        return false;
    }
    n <= 49664
}

// Block k of a file.
fn block_at(file: &[u8], k: usize) -> &[u8]
    requires { k * 512 + 512 ≤ length file.now }
    ensures { result.now ≡ block_in file.now k }
{
    let start = k * 512;
    let end = start + 512;
    &file[start..end]
}

// Whether the checksums of the four blocks from block k on are right.
fn four_right(file: &[u8], k: usize) -> bool
    requires { k * 512 + 2048 ≤ length file.now }
    ensures { result ≡ four_right file.now k }
{
    block::four_checksums_right(
        block_at(file, k),
        block_at(file, k + 1),
        block_at(file, k + 2),
        block_at(file, k + 3),
    )
}

// How many blocks are left past the first, if its checksum is right.
fn left_after_first(file: &[u8]) -> usize
    requires { 512 ≤ length file.now }
    ensures { LeftToTest file.now result }
{
    let count = file.len() / 512;
    if block::checksum_right(block_at(file, 0)) {
        return count - 1;
    }
    count
}

// How many blocks are left past the first few, in whole fours, if the checksums of these are right. A header that is left over alone is tested alone, since
// most of its bytes are zeros; otherwise a block of the first four may be among those left, and is tested again.
fn left_after_few(file: &[u8]) -> usize
    ensures { LeftToTest file.now result }
{
    let count = file.len() / 512;
    if count % 4 == 1 {
        return left_after_first(file);
    }
    if count < 4 {
        return count;
    }
    if !four_right(file, 0) {
        return count;
    }
    (count - 1) / 4 * 4
}

// How many blocks are left past the fours of right checksums behind them.
fn left_after_fours(file: &[u8]) -> usize
    ensures { LeftToTest file.now result }
{
    let count = file.len() / 512;
    let mut left = left_after_few(file);
    // No index is counted: what is left falls in fours, and what is then below four is the answer.
    while left >= 4 {
        if !four_right(file, count - left) {
            return left;
        }
        left -= 4;
    }
    left
}

// Refuses at the lowest block whose checksum is wrong.
fn check_checksums(file: &[u8]) -> Result<(), Refusal>
    ensures { result ≡ checksum_row file.now }
{
    let count = file.len() / 512;
    let start = count - left_after_fours(file);
    for k in start..count {
        if !block::checksum_right(block_at(file, k)) {
            return Err(Refusal::Checksum(k));
        }
    }
    Ok(())
}

// Refuses a wrong header.
fn check_header(file: &[u8]) -> Result<(), Refusal>
    requires { 512 ≤ length file.now }
    ensures { result ≡ header_row file.now }
{
    if header_right(file) {
        Ok(())
    } else {
        Err(Refusal::WrongHeader)
    }
}

// Whether a file's first block is a right header.
fn header_right(file: &[u8]) -> bool
    requires { 512 ≤ length file.now }
    ensures { result ≡ header_right file.now }
{
    if !header_in_range(file) {
        return false;
    }
    block::body_right(block_at(file, 0), 0, 1, 0, HEADER_END)
}

// The numbers of a header but N and M.
fn read_header(file: &[u8]) -> Header
    requires { 512 ≤ length file.now }
    ensures { result ≡ header_of file.now }
{
    Header {
        line_count: block::u16_at(file, 6),
        limit: block::u32_at(file, 8),
        reload: block::u32_at(file, 12),
        id: block::u32_at(file, 16),
        scratch: Scratch {
            first: block::u32_at(file, 20),
            count: block::u32_at(file, 24),
        },
        second_limit: block::u32_at(file, 28),
        switch: block::u32_at(file, 32),
    }
}

// Whether a header's numbers are in their ranges.
fn header_in_range(file: &[u8]) -> bool
    requires { 512 ≤ length file.now }
    ensures { result ≡ header_in_range (task_of file.now) }
{
    let header = read_header(file);
    if !counts_in_range(
        block::u16_at(file, 2) as u32,
        block::u16_at(file, 4) as u32,
        header.line_count as u32,
    ) {
        return false;
    }
    scratch_in_range(header.scratch)
}

// Whether a range of memory blocks has none of 2^32 or more.
fn scratch_in_range(range: Scratch) -> bool
    ensures { result ≡ scratch_in_range range }
{
    range.first as u64 + range.count as u64 <= 4294967296
}

// Whether N, M and S are in their ranges.
pub fn counts_in_range(blocks: u32, preempters: u32, line_count: u32) -> bool
    ensures { result ≡ counts_in_range blocks preempters line_count }
{
    if blocks < 1 {
        return false;
    }
    if blocks > 64 {
        return false;
    }
    if preempters > 32 {
        return false;
    }
    if line_count < 1 {
        return false;
    }
    line_count <= 512
}

// Refuses a file that has not the blocks that its header counts, or else at its lowest wrong block.
fn check_blocks(file: &[u8]) -> Result<(), Refusal>
    requires { 512 ≤ length file.now }
    ensures { result ≡ and_then (count_row file.now) (block_row file.now) }
{
    let blocks = block::u16_at(file, 2);
    let preempters = block::u16_at(file, 4);
    let count = blocks as usize + preempters as usize;
    if file.len() / 512 != 1 + count {
        return Err(Refusal::BlockCount);
    }
    check_entries(file, blocks, count)
}

// Refuses at the lowest wrong block after the header.
fn check_entries(file: &[u8], blocks: u16, count: usize) -> Result<(), Refusal>
    requires blocks_value { (blocks ≡ (counts file.now).blocks) × (count ≡ (counts file.now).blocks + (counts file.now).preempters) }
    requires count_in_bounds { (count * 512 + 512 ≤ length file.now) × (count < 2 ^ 32) }
    ensures { result ≡ block_row file.now }
{
    for k in 1..count + 1 {
        if !block_right(file, blocks, k) {
            return Err(Refusal::WrongBlock(k));
        }
    }
    Ok(())
}

// Whether block k is right: the basic blocks come first, and their byte 1 is 0 or 1.
fn block_right(file: &[u8], blocks: u16, k: usize) -> bool
    requires { (blocks ≡ (counts file.now).blocks) × (k * 512 + 512 ≤ length file.now) × (k < 2 ^ 32) }
    ensures { result ≡ block_right file.now k }
{
    let block = block_at(file, k);
    if k <= blocks as usize {
        entry_right(block, k, 2, armed_byte(block))
    } else {
        entry_right(block, k, 3, 0)
    }
}

// What byte 1 of a basic block is to be, by whether the sampler is armed in it.
fn armed_byte(block: &[u8]) -> u8
    requires { length block.now ≡ 512 }
    ensures { result ≡ bit (basic_of block.now).armed }
{
    (block[1] == 1) as u8
}

// Whether a block has this number, kind and byte 1, and at most 124 reads. The kind is the byte that `block::body_right` takes.
fn entry_right(block: &[u8], number: usize, kind: u8, byte_1: u8) -> bool
    requires { (length block.now ≡ 512) × (number < 2 ^ 32) }
    ensures { result ≡ entry_right number kind byte_1 block.now }
{
    let count = block::u16_at(block, 2) as usize;
    if count > 124 {
        return false;
    }
    block::body_right(block, number as u32, kind, byte_1, 8 + 4 * count)
}

// N, the number of basic blocks.
pub fn block_count(file: &[u8]) -> usize
    requires { IsAccepted file.now }
    ensures { (result ≡ block_count (task_of file.now)) × (1 ≤ result) × (result ≤ 64) }
{
    block::u16_at(file, 2) as usize
}

// M, the number of preempter blocks.
pub fn preempter_count(file: &[u8]) -> usize
    requires { IsAccepted file.now }
    ensures { (result ≡ length (task_of file.now).preempters) × (result ≤ 32) }
{
    block::u16_at(file, 4) as usize
}

// The numbers of the header but N and M.
pub fn header(file: &[u8]) -> Header
    requires { IsAccepted file.now }
    ensures { (result ≡ (task_of file.now).header) × (1 ≤ result.line_count) × (result.line_count ≤ 512) }
{
    read_header(file)
}

// The part of a file that is its basic blocks.
pub fn basic_blocks(file: &[u8]) -> &[u8]
    requires { IsAccepted file.now }
    ensures { result.now ≡ basic_blocks (task_of file.now) }
{
    let end = 512 + 512 * block_count(file);
    &file[512..end]
}

// The part of a file that is its preempter blocks.
pub fn preempter_blocks(file: &[u8]) -> &[u8]
    requires { IsAccepted file.now }
    ensures { result.now ≡ preempter_blocks (task_of file.now) }
{
    let start = 512 + 512 * block_count(file);
    &file[start..]
}

// The functions below count the blocks of the file: block 0 is its header, and the basic blocks are blocks 1 to N.

// The id of preempter i, from 0.
pub fn preempter_id(file: &[u8], i: usize) -> u32
    requires { IsAccepted file.now × (i < preempter_count (task_of file.now)) }
    ensures { result ≡ (get_or (task_of file.now).preempters i no_preempter).id }
{
    let k = block_count(file) + 1 + i;
    block::u32_at(file, k * 512 + 4)
}

// The time of basic block k.
pub fn time(file: &[u8], k: usize) -> u32
    requires { IsAccepted file.now × (1 ≤ k) × (k ≤ block_count (task_of file.now)) }
    ensures { result ≡ (block_at (task_of file.now) (k - 1)).time }
{
    block::u32_at(file, k * 512 + 4)
}

// Whether the sampler is armed in basic block k.
pub fn armed(file: &[u8], k: usize) -> bool
    requires { IsAccepted file.now × (1 ≤ k) × (k ≤ block_count (task_of file.now)) }
    ensures { result ≡ (block_at (task_of file.now) (k - 1)).armed }
{
    file[k * 512 + 1] == 1
}

// How many numbers block k of the file reads.
pub fn read_count(file: &[u8], k: usize) -> usize
    requires { IsAccepted file.now × (1 ≤ k) × (k ≤ (counts file.now).blocks + (counts file.now).preempters) }
    ensures { (result ≡ length (entry_reads file.now k)) × (result ≤ 124) }
{
    block::u16_at(file, k * 512 + 2) as usize
}

// Number j that block k of the file reads.
pub fn read(file: &[u8], k: usize, j: usize) -> u32
    requires accepted { IsAccepted file.now × (1 ≤ k) × (k ≤ (counts file.now).blocks + (counts file.now).preempters) }
    requires j_in_bounds { j < length (entry_reads file.now k) }
    ensures { result ≡ get_or (entry_reads file.now k) j 0 }
{
    block::u32_at(file, k * 512 + 8 + 4 * j)
}

// Task files, written block by block, all but the header and the checksums. Once all blocks stand the file is closed, so that the checksums of
// four blocks are computed side by side.
#![tactic(auto)]

ghost use Rattle.std.specs.Prelude.{◌≡◌, [], ◌∷◌, ◌++◌, ◌+◌, ◌*◌, ◌%◌, ◌<◌, ◌≤◌, length, take};
ghost use Rattle.block.specs.Bytes.{packed};
ghost use Rattle.block.specs.Blocks.{numbered};
ghost use Rattle.taskfile.specs.File.{header_numbers, entry_bytes, basic_bytes, preempter_bytes};
ghost use Rattle.writer.specs.Writing.{file_size, stored_reads, Appended, closed_file, copies};

use model::Header;

// The bytes of a file of so many basic blocks and preempters.
pub fn file_size(blocks: u32, preempters: u32) -> usize
    ensures { result ≡ file_size blocks preempters }
{
    512 * (1 + blocks as usize + preempters as usize)
}

// Stores the header of a file with N basic blocks and M preempter blocks. The first two bytes are the kind, 1, and a zero.
fn put_header(block: &mut [u8], blocks: u16, preempters: u16, header: Header)
    requires { length block.old ≡ 512 }
    ensures { take 508 block.new ≡ numbered 0 (packed (header_numbers blocks preempters header)) }
{
    let numbers = [
        header.limit,
        header.reload,
        header.id,
        header.scratch.first,
        header.scratch.count,
        header.second_limit,
        header.switch,
    ];
    block::put_u16(block, 0, 1);
    block::put_u16(block, 2, blocks);
    block::put_u16(block, 4, preempters);
    block::put_u16(block, 6, header.line_count);
    block::put_u32s(block, 8, &numbers);
    block::close_body(block, taskfile::HEADER_END, 0);
}

// Stores number j that a basic block or a preempter block reads, behind those before it.
pub fn put_read(block: &mut [u8], j: usize, m: u32)
    requires block_len { length block.old ≡ 512 }
    requires j_bound { j < 124 }
    ensures { stored_reads block.new (j + 1) ≡ stored_reads block.old j ++ (m ∷ []) }
{
    block::put_u32(block, 8 + 4 * j, m);
}

// Stores what else stands in a block whose numbers are stored. The kind is the byte that is stored.
fn close_entry(block: &mut [u8], number: u32, kind: u8, byte_1: u8, x: u32, count: usize)
    requires block_len { length block.old ≡ 512 }
    requires count_bound { count ≤ 124 }
    ensures { take 508 block.new ≡ numbered number (entry_bytes kind byte_1 x (stored_reads block.old count)) }
{
    block::put_u8(block, 0, kind);
    block::put_u8(block, 1, byte_1);
    block::put_u16(block, 2, count as u16);
    block::put_u32(block, 4, x);
    block::close_body(block, 8 + 4 * count, number);
}

// Stores what else stands in a basic block whose numbers are stored.
pub fn close_basic(block: &mut [u8], number: u32, time: u32, armed: bool, count: usize)
    requires block_len { length block.old ≡ 512 }
    requires count_bound { count ≤ 124 }
    ensures { take 508 block.new ≡ numbered number (basic_bytes (record { time = time; armed = armed; reads = stored_reads block.old count })) }
{
    close_entry(block, number, 2, armed as u8, time, count);
}

// Stores what else stands in a preempter block whose numbers are stored.
pub fn close_preempter(block: &mut [u8], number: u32, id: u32, count: usize)
    requires block_len { length block.old ≡ 512 }
    requires count_bound { count ≤ 124 }
    ensures { take 508 block.new ≡ numbered number (preempter_bytes (record { id = id; reads = stored_reads block.old count })) }
{
    close_entry(block, number, 3, 0, id, count);
}

// Stores a copy of a block with another number, all but its checksum.
fn copy_block(block: &mut [u8], source: &[u8], number: u32)
    requires { (length block.old ≡ 512) × (length source.now ≡ 512) }
    ensures { take 508 block.new ≡ numbered number (take 504 source.now) }
{
    block[..504].copy_from_slice(&source[..504]);
    block::close_body(block, 504, number);
}

// Stores copies of whole blocks behind block k of a file, numbered on from there, all but their checksums.
fn copy_blocks(out: &mut [u8], k: usize, source: &[u8])
    requires { (length source.now % 512 ≡ 0) × (512 * (1 + k) + length source.now ≤ length out.old) × (length out.old ≤ 49664) }
    ensures { Appended k (copies source.now) out.old out.new }
{
    for i in 0..source.len() / 512 {
        let from = i * 512;
        let to = from + 512;
        let number = 1 + k + i;
        let start = number * 512;
        let end = start + 512;
        copy_block(&mut out[start..end], &source[from..to], number as u32);
    }
}

// Stores copies of the blocks of one source and then of another behind block k of a file, all but their checksums.
pub fn copy_both(out: &mut [u8], k: usize, source: &[u8], other: &[u8])
    requires source_len { (length source.now % 512 ≡ 0) × (length other.now % 512 ≡ 0) }
    requires other_in_bounds { (512 * (1 + k) + (length source.now + length other.now) ≤ length out.old) × (length out.old ≤ 49664) }
    ensures { Appended k (copies source.now ++ copies other.now) out.old out.new }
{
    copy_blocks(out, k, source);
    copy_blocks(out, k + source.len() / 512, other);
}

// Closes a file whose blocks are stored: its header, and the checksums of all blocks.
pub fn close_file(out: &mut [u8], blocks: u16, preempters: u16, header: Header)
    requires { length out.old ≡ 512 * (1 + blocks + preempters) }
    ensures { out.new ≡ closed_file blocks preempters header out.old }
{
    put_header(&mut out[..512], blocks, preempters, header);
    block::seal_blocks(out, 1 + blocks as usize + preempters as usize);
}

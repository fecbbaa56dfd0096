// Task files from a seed: times, counts and numbers are drawn one after another by a linear congruential generator.
#![tactic(auto)]

ghost use Rattle.std.specs.Prelude.{ℕ, List, ◌≡◌, ◌+◌, ◌*◌, ◌≤◌, length, take};
ghost use Rattle.block.specs.Blocks.{numbered};
ghost use Rattle.taskfile.specs.File.{basic_bytes, preempter_bytes};
ghost use Rattle.writer.specs.Writing.{stored_reads, Appended};
ghost use Rattle.testload.specs.Draws as Draws;
ghost use Rattle.testload.specs.Draws.{next, after, drawn_list, drawn_number, after_reads, drawn_block, after_block, drawn_preempter};
ghost use Rattle.testload.specs.Calls.{counts_row, generate_verdict, generated};

use model::{Header, Refusal, Scratch};

// A linear congruential generator.
#[derive(Clone, Copy)]
struct Generator {
    state: u32,
}

impl Generator {
    // Draws a number.
    fn draw(&mut self) -> u32
        ensures { (result ≡ Draws.draw self.old.state) × (self.new.state ≡ next self.old.state) }
    {
        let new = ((self.state as u64 * 1664525 + 1013904223) % 4294967296) as u32;
        self.state = new;
        new / 65536
    }

    // Draws so many numbers into a block.
    fn put_numbers(&mut self, block: &mut [u8], count: usize)
        requires { (length block.old ≡ 512) × (count ≤ 124) }
        ensures count_after { stored_reads block.new count ≡ drawn_list drawn_number next 0 count self.old.state }
        ensures state_after { self.new.state ≡ after next count self.old.state }
    {
        for j in 0..count {
            writer::put_read(block, j, self.draw() % 4096);
        }
    }

    // Draws so many blocks into a file, behind its block k, all but their checksums.
    fn put_blocks<B: Drawn>(&mut self, out: &mut [u8], k: usize, count: usize)
        requires { (512 * (1 + k + count) ≤ length out.old) × (k + count ≤ 96) }
        ensures out_after { Appended k (drawn_list B.bytes B.after_one 0 count self.old.state) out.old out.new }
        ensures state_after { self.new.state ≡ after B.after_one count self.old.state }
    {
        for i in 0..count {
            let number = 1 + k + i;
            let start = number * 512;
            let end = start + 512;
            B::put(self, &mut out[start..end], number as u32, i as u32);
        }
    }
}

// A kind of blocks that are drawn.
trait Drawn {
    // The named bytes of a block of this index, by the state before it, and the state after it.
    ghost bytes: { ℕ → ℕ → List ℕ };

    ghost after_one: { ℕ → ℕ };

    // Draws a block, all but its checksum.
    fn put(generator: &mut Generator, block: &mut [u8], number: u32, index: u32)
        requires { length block.old ≡ 512 }
        ensures block_after { take 508 block.new ≡ numbered number (bytes index generator.old.state) }
        ensures state_after { generator.new.state ≡ after_one generator.old.state };
}

struct Basic;

impl Drawn for Basic {
    ghost bytes = { λ i s. basic_bytes (drawn_block i s) };

    ghost after_one = { after_block };

    fn put(generator: &mut Generator, block: &mut [u8], number: u32, _index: u32) {
        let time = generator.draw();
        let count = generator.draw();
        let reads = (count % 125) as usize;
        generator.put_numbers(block, reads);
        writer::close_basic(block, number, 1 + time % 1000, false, reads);
    }
}

struct Preempter;

impl Drawn for Preempter {
    ghost bytes = { λ i s. preempter_bytes (drawn_preempter i s) };

    ghost after_one = { after_reads };

    fn put(generator: &mut Generator, block: &mut [u8], number: u32, index: u32) {
        let reads = (generator.draw() % 125) as usize;
        generator.put_numbers(block, reads);
        writer::close_preempter(block, number, index, reads);
    }
}

// Refuses N, M or S out of its range.
fn check_counts(blocks: u32, preempters: u32, line_count: u32) -> Result<(), Refusal>
    ensures { result ≡ counts_row blocks preempters line_count }
{
    if taskfile::counts_in_range(blocks, preempters, line_count) {
        Ok(())
    } else {
        Err(Refusal::OutOfRange)
    }
}

// Fills a buffer with the task file of a seed: 10 for N, M and S, then 9 for the buffer's length. On a refusal the buffer stays what it was.
#[tactic(auto, unfolding(crate::specs::Calls::generate_verdict, crate::specs::Calls::generated))]
pub fn generate(
    seed: u32,
    blocks: u32,
    preempters: u32,
    line_count: u32,
    limit: u32,
    reload: u32,
    out: &mut [u8],
) -> Result<(), Refusal>
    ensures value { result ≡ generate_verdict blocks preempters line_count out.old }
    ensures out_after { out.new ≡ generated seed blocks preempters line_count limit reload out.old }
{
    check_counts(blocks, preempters, line_count)?;
    answers::check_output(writer::file_size(blocks, preempters), out.len())?;
    let header = Header {
        line_count: line_count as u16,
        limit,
        reload,
        id: seed,
        scratch: Scratch { first: 0, count: 0 },
        second_limit: 0,
        switch: 0,
    };
    let mut generator = Generator { state: seed };
    generator.put_blocks::<Basic>(out, 0, blocks as usize);
    generator.put_blocks::<Preempter>(out, blocks as usize, preempters as usize);
    writer::close_file(out, blocks as u16, preempters as u16, header);
    Ok(())
}

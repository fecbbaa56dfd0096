// The text of a task, that people read, made of a task file.
#![tactic(auto)]

ghost use Rattle.std.specs.Prelude.{◌≡◌, [], ◌∷◌, ◌++◌, ◌+◌, ◌<◌, ◌≤◌, leb, length, get_or};
ghost use Rattle.model.specs.Task.{block_count, preempter_count, no_preempter};
ghost use Rattle.model.specs.Lines.{block_at};
ghost use Rattle.model.specs.Answers.{and_then};
ghost use Rattle.decimals.specs.Decimals.{spelled};
ghost use Rattle.taskfile.specs.File.{IsAccepted, counts, entry_reads, task_of, verdict};
ghost use Rattle.showing.specs.Text.{space, scratch_word, spaced, line_text, header_text, block_text, blocks_text, preempter_text, preempters_text};
ghost use Rattle.showing.specs.Puts.{Room, Put, limits_text};
ghost use Rattle.showing.specs.Calls.{shown_text, room_row, show_answer, show_output};

use model::{Header, Refusal, Scratch};

// Puts a byte into an output at a place, if it goes so far, and answers the place after it.
fn put_byte(out: &mut [u8], at: usize, byte: u8) -> usize
    requires { Room at (byte ∷ []) }
    ensures { Put out.old at (byte ∷ []) out.new result }
{
    if at < out.len() {
        out[at] = byte;
    }
    at + 1
}

// Puts a number in digits.
fn put_number(out: &mut [u8], at: usize, n: u32) -> usize
    requires { Room at (spelled n) }
    ensures { Put out.old at (spelled n) out.new result }
{
    if n < 10 {
        return put_byte(out, at, b'0' + n as u8);
    }
    let next = put_number(out, at, n / 10);
    put_byte(out, next, b'0' + (n % 10) as u8)
}

// An output, and the place after the text that is put into it so far.
#[derive(Drop)]
struct Page<'a> {
    out: &'a mut [u8],
    at: usize,
}

// Each function puts a text at the place, as far as the output goes; the place is then after it.
impl Page<'_> {
    fn put_byte(&mut self, byte: u8)
        requires { Room self.old.at (byte ∷ []) }
        ensures same { self.new.out.ghost_name ≡ self.old.out.ghost_name }
        ensures put { Put self.old.out.now self.old.at (byte ∷ []) self.new.out.now self.new.at }
    {
        self.at = put_byte(self.out, self.at, byte);
    }

    fn put_word(&mut self, word: &[u8])
        requires { Room self.old.at word.now }
        ensures same { self.new.out.ghost_name ≡ self.old.out.ghost_name }
        ensures put { Put self.old.out.now self.old.at word.now self.new.out.now self.new.at }
    {
        for byte in word {
            self.put_byte(*byte);
        }
    }

    // A number in digits. The function above holds the place in a register; a recursion over the page took a sixth longer for a whole text.
    fn put_number(&mut self, n: u32)
        requires { Room self.old.at (spelled n) }
        ensures same { self.new.out.ghost_name ≡ self.old.out.ghost_name }
        ensures put { Put self.old.out.now self.old.at (spelled n) self.new.out.now self.new.at }
    {
        self.at = put_number(self.out, self.at, n);
    }

    // A number behind a space.
    fn put_spaced(&mut self, n: u32)
        requires { Room self.old.at (space ∷ spelled n) }
        ensures same { self.new.out.ghost_name ≡ self.old.out.ghost_name }
        ensures put { Put self.old.out.now self.old.at (space ∷ spelled n) self.new.out.now self.new.at }
    {
        self.put_byte(b' ');
        self.put_number(n);
    }

    // A word and a number, with which every line begins.
    fn put_named(&mut self, word: &[u8], n: u32)
        requires { Room self.old.at (word.now ++ (space ∷ spelled n)) }
        ensures same { self.new.out.ghost_name ≡ self.old.out.ghost_name }
        ensures put { Put self.old.out.now self.old.at (word.now ++ (space ∷ spelled n)) self.new.out.now self.new.at }
    {
        self.put_word(word);
        self.put_spaced(n);
    }

    // A line with one number.
    fn put_setting(&mut self, word: &[u8], n: u32)
        requires { Room self.old.at (line_text word.now (n ∷ [])) }
        ensures same { self.new.out.ghost_name ≡ self.old.out.ghost_name }
        ensures put { Put self.old.out.now self.old.at (line_text word.now (n ∷ [])) self.new.out.now self.new.at }
    {
        self.put_named(word, n);
        self.put_byte(b'\n');
    }

    // The line of a range of memory blocks.
    fn put_scratch(&mut self, range: Scratch)
        requires { Room self.old.at (line_text scratch_word (range.first ∷ range.count ∷ [])) }
        ensures same { self.new.out.ghost_name ≡ self.old.out.ghost_name }
        ensures put { Put self.old.out.now self.old.at (line_text scratch_word (range.first ∷ range.count ∷ [])) self.new.out.now self.new.at }
    {
        self.put_named(b"scratch", range.first);
        self.put_spaced(range.count);
        self.put_byte(b'\n');
    }

    // What block k of a file reads.
    fn put_reads(&mut self, file: &[u8], k: usize)
        requires accepted { IsAccepted file.now × (1 ≤ k) × (k ≤ (counts file.now).blocks + (counts file.now).preempters) }
        requires room { Room self.old.at (spaced (entry_reads file.now k)) }
        ensures same { self.new.out.ghost_name ≡ self.old.out.ghost_name }
        ensures put { Put self.old.out.now self.old.at (spaced (entry_reads file.now k)) self.new.out.now self.new.at }
    {
        let count = taskfile::read_count(file, k);
        for j in 0..count {
            self.put_spaced(taskfile::read(file, k, j));
        }
    }

    // The line of block k of a file: a word, a number, and what the block reads.
    fn put_entry(&mut self, word: &[u8], n: u32, file: &[u8], k: usize)
        requires accepted { IsAccepted file.now × (1 ≤ k) × (k ≤ (counts file.now).blocks + (counts file.now).preempters) }
        requires room { Room self.old.at (line_text word.now (n ∷ entry_reads file.now k)) }
        ensures same { self.new.out.ghost_name ≡ self.old.out.ghost_name }
        ensures put { Put self.old.out.now self.old.at (line_text word.now (n ∷ entry_reads file.now k)) self.new.out.now self.new.at }
    {
        self.put_named(word, n);
        self.put_reads(file, k);
        self.put_byte(b'\n');
    }

    // The first four lines of a header.
    fn put_limits(&mut self, header: Header)
        requires { Room self.old.at (limits_text header) }
        ensures same { self.new.out.ghost_name ≡ self.old.out.ghost_name }
        ensures put { Put self.old.out.now self.old.at (limits_text header) self.new.out.now self.new.at }
    {
        self.put_setting(b"task", header.id);
        self.put_setting(b"lines", header.line_count as u32);
        self.put_setting(b"limit", header.limit);
        self.put_setting(b"sampler", header.second_limit);
    }

    fn put_header(&mut self, header: Header)
        requires { Room self.old.at (header_text header) }
        ensures same { self.new.out.ghost_name ≡ self.old.out.ghost_name }
        ensures put { Put self.old.out.now self.old.at (header_text header) self.new.out.now self.new.at }
    {
        self.put_limits(header);
        self.put_setting(b"reload", header.reload);
        self.put_setting(b"switch", header.switch);
        self.put_scratch(header.scratch);
    }

    // Basic block i of a file, from 0.
    fn put_block(&mut self, file: &[u8], i: usize)
        requires accepted { IsAccepted file.now × (i < block_count (task_of file.now)) }
        requires room { Room self.old.at (block_text (block_at (task_of file.now) i)) }
        ensures same { self.new.out.ghost_name ≡ self.old.out.ghost_name }
        ensures put { Put self.old.out.now self.old.at (block_text (block_at (task_of file.now) i)) self.new.out.now self.new.at }
    {
        let k = i + 1;
        let time = taskfile::time(file, k);
        if taskfile::armed(file, k) {
            self.put_entry(b"armed", time, file, k);
        } else {
            self.put_entry(b"block", time, file, k);
        }
    }

    fn put_blocks(&mut self, file: &[u8])
        requires accepted { IsAccepted file.now }
        requires room { Room self.old.at (blocks_text (task_of file.now).blocks) }
        ensures same { self.new.out.ghost_name ≡ self.old.out.ghost_name }
        ensures put { Put self.old.out.now self.old.at (blocks_text (task_of file.now).blocks) self.new.out.now self.new.at }
    {
        let count = taskfile::block_count(file);
        for i in 0..count {
            self.put_block(file, i);
        }
    }

    // Preempter i of a file, from 0.
    fn put_preempter(&mut self, file: &[u8], i: usize)
        requires accepted { IsAccepted file.now × (i < preempter_count (task_of file.now)) }
        requires room { Room self.old.at (preempter_text (get_or (task_of file.now).preempters i no_preempter)) }
        ensures same { self.new.out.ghost_name ≡ self.old.out.ghost_name }
        ensures put { Put self.old.out.now self.old.at (preempter_text (get_or (task_of file.now).preempters i no_preempter)) self.new.out.now self.new.at }
    {
        let id = taskfile::preempter_id(file, i);
        let k = 1 + taskfile::block_count(file) + i;
        self.put_entry(b"preempter", id, file, k);
    }

    fn put_preempters(&mut self, file: &[u8])
        requires accepted { IsAccepted file.now }
        requires room { Room self.old.at (preempters_text (task_of file.now).preempters) }
        ensures same { self.new.out.ghost_name ≡ self.old.out.ghost_name }
        ensures put { Put self.old.out.now self.old.at (preempters_text (task_of file.now).preempters) self.new.out.now self.new.at }
    {
        let count = taskfile::preempter_count(file);
        for i in 0..count {
            self.put_preempter(file, i);
        }
    }
}

// Puts the text of an accepted file's task into an output, from its beginning on as far as it goes, and answers the text's length.
fn put_text(out: &mut [u8], file: &[u8]) -> usize
    requires { IsAccepted file.now }
    ensures { Put out.old 0 (shown_text file.now) out.new result }
{
    let mut page = Page { out, at: 0 };
    page.put_header(taskfile::header(file));
    page.put_blocks(file);
    page.put_preempters(file);
    page.at
}

// The length of that text.
fn text_length(file: &[u8]) -> usize
    requires { IsAccepted file.now }
    ensures { result ≡ length (shown_text file.now) }
{
    let mut none = [0u8; 0];
    put_text(&mut none, file)
}

// Whether the text of a file fits into so many bytes. No text is longer than 133,184, so that it is measured only where there is less room.
fn has_room(file: &[u8], room: usize) -> bool
    requires { IsAccepted file.now }
    ensures { result ≡ leb (length (shown_text file.now)) room }
{
    if 133184 <= room {
        return true;
    }
    text_length(file) <= room
}

// Refuses a file, or an output of this length: 1 to 5, and 9.
fn check(file: &[u8], room: usize) -> Result<(), Refusal>
    ensures { result ≡ and_then (verdict file.now) (room_row (length (shown_text file.now)) room) }
{
    taskfile::check(file)?;
    if has_room(file, room) {
        Ok(())
    } else {
        Err(Refusal::Output)
    }
}

// Writes the text of a file's task into the output and answers its length, or refuses it: 1 to 5 for the file, and then 9 where the output is
// shorter than the text. The output begins with the text, and its bytes past that are as they were; on a refusal all are.
pub fn show(file: &[u8], out: &mut [u8]) -> Result<usize, Refusal>
    ensures value { result ≡ show_answer file.now out.old }
    ensures out_after { out.new ≡ show_output file.now out.old }
{
    check(file, out.len())?;
    Ok(put_text(out, file))
}

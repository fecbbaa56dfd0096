// Task files from traces in din form. A text is scanned byte by byte, and the addresses of its records are kept; once it has ended,
// the refusals are decided, and the file is written.
#![tactic(auto)]

ghost use Rattle.std.specs.Prelude.{◌≡◌, true, map, ◌++◌, ◌+◌, ◌*◌, ◌/◌, ◌<◌, ◌≤◌, length, take, drop};
ghost use Rattle.model.specs.Answers.{and_then};
ghost use Rattle.block.specs.Blocks.{numbered};
ghost use Rattle.taskfile.specs.File.{basic_bytes, file_of};
ghost use Rattle.writer.specs.Writing.{stored_reads, Appended};
ghost use Rattle.tracing.specs.Din.{is_label, is_hex, digit_of};
ghost use Rattle.tracing.specs.Traces.{blocks_for, traced_block, traced_blocks, traced_task};
ghost use Rattle.tracing.specs.Scans.{started, stopped, ends_at, line_ended, byte_added};
ghost use Rattle.tracing.specs.Scans.{after, kept_after, scanned, kept, Ahead, scan_place};
ghost use Rattle.tracing.specs.Calls.{output_size, settings_in_range, settings_row, records_row, line_row, Traceable};
ghost use Rattle.tracing.specs.Calls.{made_answer, made_output, scan_answer, scan_output, trace_answer, trace_output};

use model::{Header, Refusal, Scratch};
use std::cmp::min;

// The addresses that a room holds at least: those of the largest file, 64 basic blocks of 124
// records, and one more. So a trace of too many records keeps too many addresses and is refused.
// `Scan::finish` refuses a smaller room with 9.
pub const ROOM: usize = 7937;

// How a trace becomes a task: a memory block's bytes, records for each basic block, ticks for each record, and the header's S, Q, R and id.
#[derive(Clone, Copy)]
pub struct Settings {
    pub size: u32,
    pub group: u32,
    pub ticks: u32,
    pub line_count: u32,
    pub limit: u32,
    pub reload: u32,
    pub id: u32,
}

// What is known of a text so far: how many bytes of its last line there are, or 11 where a line is malformed; the address that the digits
// of that line say; the records before it. The fields are public, so a malformed line stays a column.
#[derive(Clone, Copy)]
pub struct Scan {
    pub column: u32,
    pub address: u32,
    pub records: usize,
}

// Which of the bytes from `0` to `f` are hexadecimal digits, a bit for each. With std's `is_ascii_hexdigit` in place of it,
// a whole trace took 1.7 to 2.1 times as long.
const HEX: u64 = 0x7e_0000_007e_03ff;

// Whether a byte is a hexadecimal digit.
fn is_hex(byte: u8) -> bool
    ensures { result ≡ is_hex byte }
{
    match byte {
        b'0'..=b'f' => (HEX >> (byte - b'0')) % 2 == 1,
        _ => false,
    }
}

// What a hexadecimal digit counts, without a branch between digits and letters.
fn digit_of(byte: u8) -> u32
    requires { is_hex byte ≡ true }
    ensures { result ≡ digit_of byte }
{
    let number = byte as u32;
    number % 16 + number / 64 * 9
}

// Whether a byte is a label.
fn is_label(byte: u8) -> bool
    ensures { result ≡ is_label byte }
{
    b'0' <= byte && byte <= b'2'
}

// Whether a line feed is right at a column: behind 1 to 8 digits.
fn ends_at(column: u32) -> bool
    ensures { result ≡ ends_at column }
{
    3 <= column && column <= 10
}

// N: the basic blocks that some records take, the last of which may have fewer than the others.
fn blocks_for(records: usize, group: usize) -> usize
    requires { (1 ≤ group) × (group ≤ 124) × (records ≤ 7936) }
    ensures { result ≡ blocks_for records group }
{
    (records + group - 1) / group
}

// Whether S, the size and g are in their ranges.
fn settings_in_range(settings: Settings) -> bool
    ensures { result ≡ settings_in_range settings }
{
    1 <= settings.line_count
        && settings.line_count <= 512
        && 1 <= settings.size
        && 1 <= settings.group
        && settings.group <= 124
}

// Refuses S, the size or g out of its range.
fn check_settings(settings: Settings) -> Result<(), Refusal>
    ensures { result ≡ settings_row settings }
{
    if settings_in_range(settings) {
        Ok(())
    } else {
        Err(Refusal::OutOfRange)
    }
}

// Refuses no record, too many of them, or a time above 4294967295: the longest block has g records, or all where there are fewer.
fn check_records(settings: Settings, addresses: &[u32]) -> Result<(), Refusal>
    ensures { result ≡ records_row settings addresses.now }
{
    let count = addresses.len();
    let group = settings.group as usize;
    if count == 0 {
        return Err(Refusal::WrongTrace);
    }
    if 64 * group < count {
        return Err(Refusal::WrongTrace);
    }
    let longest = min(count, group);
    if 4294967295 < longest as u64 * settings.ticks as u64 {
        return Err(Refusal::WrongTrace);
    }
    Ok(())
}

// The memory block that an address lies in.
fn number_of(address: u32, size: u32) -> u32
    requires { 1 ≤ size }
    ensures { result ≡ address / size }
{
    address / size
}

// Stores the numbers that a block reads.
fn put_numbers(block: &mut [u8], addresses: &[u32], size: u32)
    requires { (length block.old ≡ 512) × (length addresses.now ≤ 124) × (1 ≤ size) }
    ensures { stored_reads block.new (length addresses.now) ≡ map (λ a. a / size) addresses.now }
{
    for (j, address) in addresses.iter().enumerate() {
        writer::put_read(block, j, number_of(*address, size));
    }
}

// Stores a basic block of some records, all but its checksum.
fn put_block(block: &mut [u8], number: u32, addresses: &[u32], settings: Settings)
    requires block_len { (length block.old ≡ 512) × (length addresses.now ≤ 124) × (1 ≤ settings.size) }
    requires ticks_len_bound { length addresses.now * settings.ticks ≤ 4294967295 }
    ensures { take 508 block.new ≡ numbered number (basic_bytes (traced_block settings addresses.now)) }
{
    let count = addresses.len();
    put_numbers(block, addresses, settings.size);
    writer::close_basic(block, number, count as u32 * settings.ticks, false, count);
}

// Stores the basic blocks of a trace, all but their checksums.
fn put_blocks(out: &mut [u8], addresses: &[u32], settings: Settings, blocks: usize)
    requires traceable { Traceable settings addresses.now × (blocks ≡ blocks_for (length addresses.now) settings.group) }
    requires out_len { length out.old ≡ 512 * (1 + blocks) }
    ensures { Appended 0 (map basic_bytes (traced_blocks settings addresses.now)) out.old out.new }
{
    let group = settings.group as usize;
    for i in 0..blocks {
        let from = i * group;
        let to = min(from + group, addresses.len());
        let start = (1 + i) * 512;
        let end = start + 512;
        put_block(
            &mut out[start..end],
            1 + i as u32,
            &addresses[from..to],
            settings,
        );
    }
}

// Stores the file of a trace in a buffer of its length.
fn put_task(out: &mut [u8], addresses: &[u32], settings: Settings, blocks: usize)
    requires traceable { Traceable settings addresses.now × (blocks ≡ blocks_for (length addresses.now) settings.group) }
    requires out_len { length out.old ≡ 512 * (1 + blocks) }
    ensures { out.new ≡ file_of (traced_task settings addresses.now) }
{
    let header = Header {
        line_count: settings.line_count as u16,
        limit: settings.limit,
        reload: settings.reload,
        id: settings.id,
        scratch: Scratch { first: 0, count: 0 },
        second_limit: 0,
        switch: 0,
    };
    put_blocks(out, addresses, settings, blocks);
    writer::close_file(out, blocks as u16, 0, header);
}

// Stores the file of a trace at the beginning of the output, and answers its length.
fn put_file(out: &mut [u8], addresses: &[u32], settings: Settings) -> usize
    requires { Traceable settings addresses.now × (length out.old ≡ output_size) }
    ensures value { result ≡ length (file_of (traced_task settings addresses.now)) }
    ensures out_after { out.new ≡ file_of (traced_task settings addresses.now) ++ drop result out.old }
{
    let blocks = blocks_for(addresses.len(), settings.group as usize);
    let size = 512 * (1 + blocks);
    put_task(&mut out[..size], addresses, settings, blocks);
    size
}

impl Scan {
    // Before any byte.
    pub fn start() -> Scan
        ensures { result ≡ started }
    {
        Scan {
            column: 0,
            address: 0,
            records: 0,
        }
    }

    // The line is malformed.
    fn stop(&mut self)
        ensures { self.new ≡ stopped self.old }
    {
        self.column = 11;
    }

    // Reads a line feed.
    fn end_line(&mut self)
        ensures { self.new ≡ line_ended self.old }
    {
        if ends_at(self.column) {
            self.column = 0;
            self.address = 0;
            self.records = self.records.saturating_add(1);
        } else {
            self.stop();
        }
    }

    // Reads a digit of an address, of which 32 bits are kept.
    fn add_digit(&mut self, digit: u8)
        requires { (1 < self.old.column) × (self.old.column ≤ 9) × (is_hex digit ≡ true) }
        ensures { self.new ≡ byte_added self.old digit }
    {
        self.column += 1;
        self.address = self.address % 268435456 * 16 + digit_of(digit);
    }

    // Reads any other byte.
    fn add_byte(&mut self, byte: u8)
        ensures { self.new ≡ byte_added self.old byte }
    {
        match self.column {
            0 if is_label(byte) => self.column = 1,
            1 if byte == b' ' => self.column = 2,
            2..=9 if is_hex(byte) => self.add_digit(byte),
            _ => self.stop(),
        }
    }

    // Reads one byte.
    fn step(&mut self, byte: u8)
        ensures { self.new ≡ after self.old byte }
    {
        if byte == b'\n' {
            self.end_line();
        } else {
            self.add_byte(byte);
        }
    }

    // Keeps the address of the record that a byte ends, if there is room for it.
    fn keep(&self, byte: u8, addresses: &mut [u32])
        ensures { addresses.new ≡ kept_after self.now byte addresses.old }
    {
        if byte == b'\n' && ends_at(self.column) && self.records < addresses.len() {
            addresses[self.records] = self.address;
        }
    }

    // Reads a label and its space at once, if a line begins with them. Like the next two functions, it
    // answers the bytes that are left.
    fn begin<'a>(&mut self, rest: &'a [u8]) -> &'a [u8]
        ensures { Ahead self.old rest.now self.new result.now }
    {
        if self.column == 0 && 2 <= rest.len() && is_label(rest[0]) && rest[1] == b' ' {
            self.column = 2;
            &rest[2..]
        } else {
            rest
        }
    }

    // Reads the digits that follow, as many as the line has columns for.
    fn read_digits<'a>(&mut self, rest: &'a [u8]) -> &'a [u8]
        ensures { Ahead self.old rest.now self.new result.now }
    {
        let column = self.column as usize;
        if column < 2 || 9 < column {
            return rest;
        }
        let most = min(rest.len(), 10 - column);
        for i in 0..most {
            if !is_hex(rest[i]) {
                return &rest[i..];
            }
            self.add_digit(rest[i]);
        }
        &rest[most..]
    }

    // Reads what a line begins with, in whichever column it is.
    fn read_line<'a>(&mut self, rest: &'a [u8]) -> &'a [u8]
        ensures { Ahead self.old rest.now self.new result.now }
    {
        let digits = self.begin(rest);
        self.read_digits(digits)
    }

    // Behind a piece of the text: a line is read up to its digits at once, and then one byte more.
    pub fn over(mut self, piece: &[u8], addresses: &mut [u32]) -> Scan
        ensures value { result ≡ scanned self piece.now }
        ensures addresses_after { addresses.new ≡ kept self piece.now addresses.old }
    {
        let mut rest = piece;
        while let Some((byte, left)) = self.read_line(rest).split_first() {
            self.keep(*byte, addresses);
            self.step(*byte);
            rest = left;
        }
        self
    }

    // Refuses a malformed line, of a text that ends here.
    fn check_line(self) -> Result<(), Refusal>
        ensures { result ≡ line_row (scan_place self) }
    {
        if self.column == 0 {
            Ok(())
        } else {
            Err(Refusal::WrongTraceLine(self.records))
        }
    }

    // Refuses settings, a line or a trace, of a text that ends here and has these addresses.
    fn check(self, addresses: &[u32], settings: Settings) -> Result<(), Refusal>
        ensures { result ≡ and_then (settings_row settings) (and_then (line_row (scan_place self)) (records_row settings addresses.now)) }
    {
        check_settings(settings)?;
        self.check_line()?;
        check_records(settings, addresses)
    }

    // Writes the file of a text that ends here and has these addresses, and answers its length, or refuses it.
    fn write(self, addresses: &[u32], settings: Settings, out: &mut [u8]) -> Result<usize, Refusal>
        ensures value { result ≡ made_answer settings (scan_place self) addresses.now out.old }
        ensures out_after { out.new ≡ made_output settings (scan_place self) addresses.now out.old }
    {
        answers::check_output(33280, out.len())?;
        self.check(addresses, settings)?;
        Ok(put_file(out, addresses, settings))
    }

    // Writes the file of a text that ends here into the output and answers its length, or refuses it.
    // `addresses` is the room that `over` was lent. 9 for a room of fewer than ROOM addresses or for the
    // output's length, then 10, 13 and 14. On a refusal the output stays what it was.
    pub fn finish(
        self,
        addresses: &[u32],
        settings: Settings,
        out: &mut [u8],
    ) -> Result<usize, Refusal>
        ensures value { result ≡ scan_answer settings self addresses.now out.old }
        ensures out_after { out.new ≡ scan_output settings self addresses.now out.old }
    {
        if addresses.len() < ROOM {
            return Err(Refusal::Output);
        }
        let count = min(self.records, addresses.len());
        self.write(&addresses[..count], settings, out)
    }
}

// Makes a task file of a trace in din form and answers its length: 9 for the output's length, 10 for
// S, the size and g, 13 at the lowest malformed line, 14 for the records and the times. The output begins with the file, and its bytes past that are as they were; on a refusal all are.
pub fn trace(text: &[u8], settings: Settings, out: &mut [u8]) -> Result<usize, Refusal>
    ensures value { result ≡ trace_answer settings text.now out.old }
    ensures out_after { out.new ≡ trace_output settings text.now out.old }
{
    let mut addresses = [0u32; ROOM];
    let scan = Scan::start().over(text, &mut addresses);
    scan.finish(&addresses, settings, out)
}

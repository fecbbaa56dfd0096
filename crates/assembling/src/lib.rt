// The task file of a text, which people write.
#![tactic(auto)]

ghost use Rattle.std.specs.Prelude.{◌≡◌, true, List, [], ◌++◌, ℕ, ◌≤◌, ◌<◌, length, get_or, take, drop, is_some, IfSome, IfOk, MatchOption};
ghost use Rattle.assembling.specs.Words.{is_blank, is_word_byte, is_line_byte, words_of};
ghost use Rattle.assembling.specs.Drafts.{header_word, header_right, kind_of, room_for, takes_header, takes_entry};
ghost use Rattle.assembling.specs.Drafts.{Draft, with_numbers, with_entry, with_kind, whole, wrong_in, draft_in, header_from, task_from};
ghost use Rattle.assembling.specs.Steps.{Splits, FirstWord, number_in, NumbersRead, Knows, entry_named, Stored, TakesLine, refusal_of};
ghost use Rattle.model.specs.Answers.{accept, refused_at};
ghost use Rattle.model.specs.declared.Refusal.TheVariants.{WrongText};
ghost use Rattle.assembling.specs.Limits.{Drafted};
ghost use Rattle.taskfile.specs.File.{file_of};
ghost use Rattle.assembling.specs.Calls.{assemble_answer, assemble_output};
ghost use Rattle.block.specs.Blocks.{numbered};
ghost use Rattle.writer.specs.Writing.{stored_reads};

use model::{Header, Refusal, Scratch};

// What a line behind the header's says.
#[derive(Clone, Copy)]
enum Kind {
    Basic,
    Armed,
    Preempting,
}

// What is known of a text: so many of the header's numbers, in the order of the text, and so many blocks.
#[derive(Clone, Copy)]
struct Known {
    given: usize,
    header: [u32; 8],
    blocks: usize,
    preempters: usize,
}

fn is_blank(byte: u8) -> bool
    ensures { result ≡ is_blank byte }
{
    (byte == b' ') | (byte == b'\t') | (byte == b'\r')
}

fn is_word_byte(byte: u8) -> bool
    ensures { result ≡ is_word_byte byte }
{
    !is_blank(byte) & (byte != b'#')
}

fn is_line_byte(byte: u8) -> bool
    ensures { result ≡ is_line_byte byte }
{
    byte != b'\n'
}

// The bytes up to the first that is not of a kind, and the rest.
fn split_run<'a, F: Fn(u8) -> bool>(bytes: &'a [u8], is_in: F) -> (&'a [u8], &'a [u8])
    requires { F.IsAlwaysCallable is_in }
    ensures { Splits (F.post is_in) bytes.now result.0.now result.1.now }
{
    for (i, byte) in bytes.iter().enumerate() {
        if !is_in(*byte) {
            return bytes.split_at(i);
        }
    }
    bytes.split_at(bytes.len())
}

// The first word of a line, and what follows it.
fn next_word(line: &[u8]) -> Option<(&[u8], &[u8])>
    ensures { MatchOption result (words_of line.now ≡ []) (λ w. FirstWord line.now w.0.now w.1.now) }
{
    let (_, rest) = split_run(line, is_blank);
    let (word, left) = split_run(rest, is_word_byte);
    if word.is_empty() {
        None
    } else {
        Some((word, left))
    }
}

// The number that a word says, if it is one: digits alone, at most 4294967295.
#[tactic(auto, using(crate::proofs::Reading::number_is))]
fn number_of(word: &[u8]) -> Option<u32>
    ensures { result ≡ number_in word.now }
{
    let n = decimals::decimal_of(word)?;
    if 4294967295 < n {
        return None;
    }
    Some(n as u32)
}

// Reads the words of a line into an array, and answers how many there are, if all are numbers and
// no more than there is room for. An array, since the libraries have no heap.
fn read_numbers(line: &[u8], numbers: &mut [u32; 125]) -> Option<usize>
    requires { length numbers.old ≡ 125 }
    ensures { NumbersRead (words_of line.now) numbers.new result }
{
    let mut rest = line;
    let mut count = 0;
    while let Some((word, left)) = next_word(rest) {
        let n = number_of(word)?;
        if count == 125 {
            return None;
        }
        numbers[count] = n;
        count += 1;
        rest = left;
    }
    Some(count)
}

// The word of the header line that comes where so many numbers are known; none where all are.
fn header_word(given: usize) -> &'static [u8]
    ensures { result.now ≡ header_word given }
{
    match given {
        0 => b"task",
        1 => b"lines",
        2 => b"limit",
        3 => b"sampler",
        4 => b"reload",
        5 => b"switch",
        6 => b"scratch",
        _ => b"",
    }
}

// Whether these are the numbers of that line.
fn header_right(given: usize, numbers: &[u32]) -> bool
    ensures { result ≡ header_right given numbers.now }
{
    match given {
        6 => numbers.len() == 2 && numbers[0] as u64 + numbers[1] as u64 <= 4294967296,
        1 => numbers.len() == 1 && (1..=512).contains(&numbers[0]),
        _ => numbers.len() == 1,
    }
}

// What a line behind the header's says.
fn kind_of(word: &[u8]) -> Option<Kind>
    ensures { result ≡ kind_of word.now }
{
    if word == b"block".as_slice() {
        Some(Kind::Basic)
    } else if word == b"armed".as_slice() {
        Some(Kind::Armed)
    } else if word == b"preempter".as_slice() {
        Some(Kind::Preempting)
    } else {
        None
    }
}

// Whether a file has room for one more of a kind.
fn room_for(kind: Kind, blocks: usize, preempters: usize) -> bool
    ensures { result ≡ room_for kind blocks preempters }
{
    match kind {
        Kind::Basic | Kind::Armed => preempters == 0 && blocks < 64,
        Kind::Preempting => 0 < blocks && preempters < 32,
    }
}

// With the numbers of the next header line.
fn with_numbers(mut known: Known, numbers: &[u32]) -> Known
    requires { (header_right known.given numbers.now ≡ true) × (known.given < 8) × (length known.header ≡ 8) }
    ensures { ((d : Draft) → Knows d known → Knows (with_numbers d numbers.now) result) × (result.blocks ≡ known.blocks) × (result.preempters ≡ known.preempters) }
{
    known.header[known.given] = numbers[0];
    if known.given == 6 {
        known.header[7] = numbers[1];
    }
    known.given += numbers.len();
    known
}

// Stores the numbers that a block reads.
fn put_reads(block: &mut [u8], numbers: &[u32])
    requires { (length block.old ≡ 512) × (length numbers.now ≤ 124) }
    ensures { stored_reads block.new (length numbers.now) ≡ numbers.now }
{
    for (j, number) in numbers.iter().enumerate() {
        writer::put_read(block, j, *number);
    }
}

// Stores the block that a line says, all but its checksum.
fn put_block(block: &mut [u8], number: u32, kind: Kind, numbers: &[u32])
    requires { (length block.old ≡ 512) × (1 ≤ length numbers.now) × (length numbers.now ≤ 125) }
    ensures { take 508 block.new ≡ numbered number (entry_named kind numbers.now) }
{
    let first = numbers[0];
    let count = numbers.len() - 1;
    put_reads(block, &numbers[1..]);
    match kind {
        Kind::Basic => writer::close_basic(block, number, first, false, count),
        Kind::Armed => writer::close_basic(block, number, first, true, count),
        Kind::Preempting => writer::close_preempter(block, number, first, count),
    }
}

// With one more of a kind.
fn counted(mut known: Known, kind: Kind) -> Known
    requires { (room_for kind known.blocks known.preempters ≡ true) × (known.blocks ≤ 64) × (known.preempters ≤ 32) }
    ensures { ((d : Draft) (ns : List ℕ) → Knows d known → Knows (with_entry d kind ns) result) × (result.blocks ≤ 64) × (result.preempters ≤ 32) }
{
    match kind {
        Kind::Basic | Kind::Armed => known.blocks += 1,
        Kind::Preempting => known.preempters += 1,
    }
    known
}

// With the block that a line says, stored in the file.
fn with_entry(file: &mut [u8], known: Known, kind: Kind, numbers: &[u32]) -> Known
    requires file_len { (length file.old ≡ 49664) × (1 ≤ length numbers.now) × (length numbers.now ≤ 125) }
    requires preempters_value { (room_for kind known.blocks known.preempters ≡ true) × (known.blocks ≤ 64) × (known.preempters ≤ 32) }
    ensures knows { (d : Draft) → Knows d known → Stored d file.old → Knows (with_entry d kind numbers.now) result × Stored (with_entry d kind numbers.now) file.new }
    ensures blocks_bound { (result.blocks ≤ 64) × (result.preempters ≤ 32) }
{
    let number = 1 + known.blocks + known.preempters;
    let start = number * 512;
    let end = start + 512;
    put_block(&mut file[start..end], number as u32, kind, numbers);
    counted(known, kind)
}

// What is known after a line of the header, if the text can go on with it.
fn take_header(known: Known, word: &[u8], numbers: &[u32]) -> Option<Known>
    requires { (known.given < 8) × (length known.header ≡ 8) }
    ensures right_value { is_some result ≡ takes_header known.given word.now numbers.now }
    ensures knows { IfSome result (λ k. ((d : Draft) → Knows d known → Knows (with_numbers d numbers.now) k) × (k.blocks ≡ known.blocks) × (k.preempters ≡ known.preempters)) }
{
    if word == header_word(known.given) && header_right(known.given, numbers) {
        Some(with_numbers(known, numbers))
    } else {
        None
    }
}

// What is known after a line of a block, which is stored in the file, if the text can go on with it.
fn take_entry(file: &mut [u8], known: Known, word: &[u8], numbers: &[u32]) -> Option<Known>
    requires { (length file.old ≡ 49664) × (known.blocks ≤ 64) × (known.preempters ≤ 32) }
    ensures right_value { is_some result ≡ takes_entry known.blocks known.preempters (kind_of word.now) numbers.now }
    ensures knows { IfSome result (λ k. (d : Draft) → Knows d known → Stored d file.old → Knows (with_kind d (kind_of word.now) numbers.now) k × Stored (with_kind d (kind_of word.now) numbers.now) file.new) }
    ensures blocks_bound { IfSome result (λ k. (k.blocks ≤ 64) × (k.preempters ≤ 32)) }
{
    let kind = kind_of(word)?;
    let count = numbers.len();
    if 1 <= count && count <= 125 && room_for(kind, known.blocks, known.preempters) {
        Some(with_entry(file, known, kind, numbers))
    } else {
        None
    }
}

// What is known after a line, if the text can go on with it: its first word says what the others are.
fn take_line(file: &mut [u8], known: Known, line: &[u8]) -> Option<Known>
    requires { (length file.old ≡ 49664) × (length known.header ≡ 8) × (known.blocks ≤ 64) × (known.preempters ≤ 32) }
    ensures takes_line { (d : Draft) → Knows d known → Stored d file.old → TakesLine d (words_of line.now) result file.new }
    ensures blocks_bound { IfSome result (λ k. (k.blocks ≤ 64) × (k.preempters ≤ 32)) }
{
    let Some((word, rest)) = next_word(line) else {
        return Some(known);
    };
    let mut numbers = [0u32; 125];
    let count = read_numbers(rest, &mut numbers)?;
    if known.given < 8 {
        take_header(known, word, &numbers[..count])
    } else {
        take_entry(file, known, word, &numbers[..count])
    }
}

// Whether a text may end here.
fn is_whole(known: Known) -> bool
    ensures { (d : Draft) → Knows d known → result ≡ whole d }
{
    (8 <= known.given) & (0 < known.blocks)
}

// Reads a text line by line, and answers what is known after its last line, or 17 at its lowest wrong line; each block is stored in the file.
fn read_lines(file: &mut [u8], text: &[u8]) -> Result<Known, Refusal>
    requires { length file.old ≡ 49664 }
    ensures refusal { refusal_of result ≡ refused_at (wrong_in text.now) WrongText accept }
    ensures knows { IfOk result (λ k. Knows (draft_in text.now) k × Stored (draft_in text.now) file.new) }
    ensures blocks_bound { IfOk result (λ k. (k.blocks ≤ 64) × (k.preempters ≤ 32)) }
{
    let mut known = Known {
        given: 0,
        header: [0; 8],
        blocks: 0,
        preempters: 0,
    };
    let mut line = 0;
    let mut rest = text;
    while !rest.is_empty() {
        let (first, left) = split_run(rest, is_line_byte);
        known = take_line(file, known, first).ok_or(Refusal::WrongText(line))?;
        line += 1;
        rest = match left.split_first() {
            Some((_, behind)) => behind,
            None => left,
        };
    }
    if is_whole(known) {
        Ok(known)
    } else {
        Err(Refusal::WrongText(line))
    }
}

// The header that the numbers of a text say.
fn header_of(numbers: [u32; 8]) -> Header
    requires { (length numbers ≡ 8) × (get_or numbers 1 0 ≤ 512) }
    ensures { result ≡ header_from numbers }
{
    Header {
        line_count: numbers[1] as u16,
        limit: numbers[2],
        reload: numbers[4],
        id: numbers[0],
        scratch: Scratch {
            first: numbers[6],
            count: numbers[7],
        },
        second_limit: numbers[3],
        switch: numbers[5],
    }
}

// Closes the file of a whole text, whose blocks are stored, and answers its length.
fn close(file: &mut [u8], known: Known) -> usize
    requires { (length file.old ≡ 49664) × (known.blocks ≤ 64) × (known.preempters ≤ 32) × (length known.header ≡ 8) × (get_or known.header 1 0 ≤ 512) }
    ensures value { (d : Draft) → Knows d known → Drafted d → Stored d file.old → (result ≡ length (file_of (task_from d))) × (take result file.new ≡ file_of (task_from d)) }
    ensures upper_bound { result ≤ 49664 }
{
    let blocks = known.blocks;
    let preempters = known.preempters;
    let size = 512 * (1 + blocks + preempters);
    let numbers = known.header;
    let header = header_of(numbers);
    writer::close_file(&mut file[..size], blocks as u16, preempters as u16, header);
    size
}

// The length of the task file of a text, which is at the beginning of an output of 49,664 bytes, or the refusal: 9 for the output, and then 17 at the
// lowest wrong line. Bytes past the file stay as they were, and on a refusal all do: the file is made aside, and copied once the whole text is right.
pub fn assemble(text: &[u8], out: &mut [u8]) -> Result<usize, Refusal>
    ensures value { result ≡ assemble_answer text.now out.old }
    ensures out_after { out.new ≡ assemble_output text.now out.old }
{
    answers::check_output(49664, out.len())?;
    let mut file = [0u8; 49664];
    let known = read_lines(&mut file, text)?;
    Ok(make(&mut file, known, out))
}

// Closes the file of a whole text and copies it to the output; answers its length.
fn make(file: &mut [u8], known: Known, out: &mut [u8]) -> usize
    requires { (length file.old ≡ 49664) × (length out.old ≡ 49664) × (known.blocks ≤ 64) × (known.preempters ≤ 32) × (length known.header ≡ 8) × (get_or known.header 1 0 ≤ 512) }
    ensures { (d : Draft) → Knows d known → Drafted d → Stored d file.old → (result ≡ length (file_of (task_from d))) × (out.new ≡ file_of (task_from d) ++ drop (length (file_of (task_from d))) out.old) }
{
    let size = close(file, known);
    out[..size].copy_from_slice(&file[..size]);
    size
}

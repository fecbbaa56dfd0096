// Numbers in bytes, their lowest byte first, and the frame of a block of 512 bytes.
#![tactic(auto)]

ghost use Rattle.std.specs.Prelude.{◌≡◌, ◌==◌, ◌&&◌, ◌++◌, ◌+◌, ◌-◌, ◌*◌, ◌%◌, ◌≤◌, eqb, length, take, drop, replicate};
ghost use Rattle.std.specs.List.{list_all};
ghost use Rattle.fnv.specs.Fnv.{fnv1a};
ghost use Rattle.block.specs.Bytes.{le, les, field, zeros_between};
ghost use Rattle.block.specs.Blocks.{numbered, sealed, sealed_blocks, checksum_right, body_right, framed};
ghost use Rattle.block.specs.Steps.{HashesOf, SealedSoFar};

// Readers and writers of three widths, each a line over the library's arrays of that length: other crates call them by
// these names, and a function over all widths would be longer than the three.

// The number in two bytes.
pub fn u16_at(bytes: &[u8], at: usize) -> u16
    requires { at + 2 ≤ length bytes.now }
    ensures { result ≡ field bytes.now at 2 }
{
    u16::from_le_bytes([bytes[at], bytes[at + 1]])
}

// The number in four bytes.
pub fn u32_at(bytes: &[u8], at: usize) -> u32
    requires { at + 4 ≤ length bytes.now }
    ensures { result ≡ field bytes.now at 4 }
{
    u32::from_le_bytes([bytes[at], bytes[at + 1], bytes[at + 2], bytes[at + 3]])
}

// The number in eight bytes.
pub fn u64_at(bytes: &[u8], at: usize) -> u64
    requires { at + 8 ≤ length bytes.now }
    ensures { result ≡ field bytes.now at 8 }
{
    u64::from_le_bytes([
        bytes[at],
        bytes[at + 1],
        bytes[at + 2],
        bytes[at + 3],
        bytes[at + 4],
        bytes[at + 5],
        bytes[at + 6],
        bytes[at + 7],
    ])
}

// The or of words of eight bytes, one behind another from start on: zero just where all their bytes are.
fn any_of_words(bytes: &[u8], start: usize, count: usize) -> u64
    requires { start + 8 * count ≤ length bytes.now }
    ensures { eqb result 0 ≡ zeros_between bytes.now start (start + 8 * count) }
{
    let mut any = 0;
    for i in 0..count {
        any |= u64_at(bytes, start + 8 * i);
    }
    any
}

// Whether bytes are all zero.
fn all_zero(bytes: &[u8]) -> bool
    ensures { result ≡ list_all (λ byte. byte == 0) bytes.now }
{
    bytes.iter().all(|byte| *byte == 0)
}

// Whether the bytes from start up to end are all zero; the byte at end is not looked at.
pub fn zero_between(bytes: &[u8], start: usize, end: usize) -> bool
    requires { end ≤ length bytes.now }
    ensures { result ≡ zeros_between bytes.now start end }
{
    if end < start {
        return true;
    }
    let words = (end - start) / 8;
    let rest = start + 8 * words;
    any_of_words(bytes, start, words) == 0 && all_zero(&bytes[rest..end])
}

// Whether a block's last four bytes are this hash of the others.
fn checksum_is(block: &[u8], hash: u32) -> bool
    requires { (length block.now ≡ 512) × (hash ≡ fnv1a (take 508 block.now)) }
    ensures { result ≡ checksum_right block.now }
{
    u32_at(block, 508) == hash
}

// Whether a block's checksum is right.
pub fn checksum_right(block: &[u8]) -> bool
    requires { length block.now ≡ 512 }
    ensures { result ≡ checksum_right block.now }
{
    checksum_is(block, fnv::hash(&block[..508]))
}

// Whether the checksums of four blocks are all right.
pub fn four_checksums_right(a: &[u8], b: &[u8], c: &[u8], d: &[u8]) -> bool
    requires { (length a.now ≡ 512) × (length b.now ≡ 512) × (length c.now ≡ 512) × (length d.now ≡ 512) }
    ensures { result ≡ (checksum_right a.now && checksum_right b.now && checksum_right c.now && checksum_right d.now) }
{
    let hashes = fnv::hash_four(&a[..508], &b[..508], &c[..508], &d[..508]);
    checksum_is(a, hashes[0])
        && checksum_is(b, hashes[1])
        && checksum_is(c, hashes[2])
        && checksum_is(d, hashes[3])
}

// Whether a block has this number, kind and byte 1, and zeros from end on; the bytes from 2 up to end are free.
// The kind is a byte of the format: any is compared, and an enum would ask more of callers.
pub fn body_right(block: &[u8], number: u32, kind: u8, byte_1: u8, end: usize) -> bool
    requires block_len { length block.now ≡ 512 }
    requires le_end { (2 ≤ end) × (end ≤ 504) }
    ensures { result ≡ body_right number (framed kind byte_1 end block.now) block.now }
{
    block[0] == kind
        && block[1] == byte_1
        && zero_between(block, end, 504)
        && u32_at(block, 504) == number
}

// Stores a byte.
pub fn put_u8(bytes: &mut [u8], at: usize, v: u8)
    requires { at + 1 ≤ length bytes.old }
    ensures { bytes.new ≡ take at bytes.old ++ le 1 v ++ drop (at + 1) bytes.old }
{
    bytes[at] = v;
}

// Stores a number in two bytes.
pub fn put_u16(bytes: &mut [u8], at: usize, v: u16)
    requires { at + 2 ≤ length bytes.old }
    ensures { bytes.new ≡ take at bytes.old ++ le 2 v ++ drop (at + 2) bytes.old }
{
    bytes[at..at + 2].copy_from_slice(&v.to_le_bytes());
}

// Stores a number in four bytes.
pub fn put_u32(bytes: &mut [u8], at: usize, v: u32)
    requires { at + 4 ≤ length bytes.old }
    ensures { bytes.new ≡ take at bytes.old ++ le 4 v ++ drop (at + 4) bytes.old }
{
    bytes[at..at + 4].copy_from_slice(&v.to_le_bytes());
}

// Stores a number in eight bytes.
pub fn put_u64(bytes: &mut [u8], at: usize, v: u64)
    requires { at + 8 ≤ length bytes.old }
    ensures { bytes.new ≡ take at bytes.old ++ le 8 v ++ drop (at + 8) bytes.old }
{
    bytes[at..at + 8].copy_from_slice(&v.to_le_bytes());
}

// Stores numbers in four bytes each, one behind another.
pub fn put_u32s(bytes: &mut [u8], at: usize, values: &[u32])
    requires { at + 4 * length values.now ≤ length bytes.old }
    ensures { bytes.new ≡ take at bytes.old ++ les 4 values.now ++ drop (at + 4 * length values.now) bytes.old }
{
    for (i, value) in values.iter().enumerate() {
        put_u32(bytes, at + 4 * i, *value);
    }
}

// Stores zeros from start up to end; the byte at end stays what it was.
fn clear_between(bytes: &mut [u8], start: usize, end: usize)
    requires { (start ≤ end) × (end ≤ length bytes.old) }
    ensures { bytes.new ≡ take start bytes.old ++ replicate (end - start) 0 ++ drop end bytes.old }
{
    bytes[start..end].fill(0);
}

// Stores what follows a block's named bytes, which end before end: zeros and its number.
pub fn close_body(block: &mut [u8], end: usize, number: u32)
    requires block_len { length block.old ≡ 512 }
    requires end_bound { end ≤ 504 }
    ensures { take 508 block.new ≡ numbered number (take end block.old) }
{
    clear_between(block, end, 504);
    put_u32(block, 504, number);
}

// Stores a block's checksum.
pub fn seal(block: &mut [u8])
    requires { length block.old ≡ 512 }
    ensures { block.new ≡ sealed (take 508 block.old) }
{
    let hash = fnv::hash(&block[..508]);
    put_u32(block, 508, hash);
}

// The hashes of four blocks, up to their checksums.
fn hash_blocks(blocks: &[u8]) -> [u32; 4]
    requires { length blocks.now ≡ 2048 }
    ensures { HashesOf blocks.now result }
{
    fnv::hash_four(
        &blocks[..508],
        &blocks[512..1020],
        &blocks[1024..1532],
        &blocks[1536..2044],
    )
}

// Stores the checksums of four blocks.
fn seal_four(blocks: &mut [u8])
    requires { length blocks.old ≡ 2048 }
    ensures { blocks.new ≡ sealed_blocks 4 blocks.old }
{
    let hashes = hash_blocks(blocks);
    for (k, hash) in hashes.iter().enumerate() {
        put_u32(blocks, 512 * k + 508, *hash);
    }
}

// Stores the checksums of the first blocks, one by one, as many as are left over from fours, and answers how many those are.
fn seal_few(file: &mut [u8], count: usize) -> usize
    requires { 512 * count ≤ length file.old }
    ensures { SealedSoFar file.old count file.new result × (result ≡ count % 4) }
{
    let few = count % 4;
    for k in 0..few {
        let start = k * 512;
        let end = start + 512;
        seal(&mut file[start..end]);
    }
    few
}

// Stores the checksums of the first blocks, four at a time behind a few: the header is among those, and most of its bytes are zeros.
pub fn seal_blocks(file: &mut [u8], count: usize)
    requires { 512 * count ≤ length file.old }
    ensures { file.new ≡ sealed_blocks count file.old ++ drop (512 * count) file.old }
{
    let few = seal_few(file, count);
    for i in 0..count / 4 {
        let start = (few + 4 * i) * 512;
        let end = start + 2048;
        seal_four(&mut file[start..end]);
    }
}

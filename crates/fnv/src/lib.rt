// 32-bit FNV-1a. Eight or sixteen zeros at once are one product, and most bytes of a block are zeros.
#![tactic(auto)]

ghost use Rattle.std.specs.Prelude.{◌≡◌, true, ◌+◌, ◌*◌, ◌%◌, ◌^◌, ◌<◌, ◌≤◌, length, replicate, slice_index};
ghost use Rattle.fnv.specs.Fnv.{step, hash_from, fnv1a};
ghost use Rattle.fnv.specs.Steps.{ZeroIf, Reached, OneLength, HashedOn, AllReached};

// The low 32 bits of a product.
pub fn wrapping_mul(a: u32, b: u32) -> u32
    ensures { result ≡ a * b % 2 ^ 32 }
{
    (a as u64 * b as u64 % 4294967296) as u32
}

// The state after one more byte.
pub fn mixed(state: u32, byte: u8) -> u32
    ensures { result ≡ step state byte }
{
    wrapping_mul(state ^ byte as u32, 16777619)
}

// The state after all of bytes.
fn mixed_all(from: u32, bytes: &[u8]) -> u32
    ensures { result ≡ hash_from from bytes.now }
{
    bytes.iter().fold(from, |state, byte| mixed(state, *byte))
}

// The low 32 bits of 16777619^8 and of 16777619^16.
const EIGHT_ZEROS: u32 = 1566662433;

const SIXTEEN_ZEROS: u32 = 878412353;

// The state after N zeros, which are one product with that power of 16777619.
fn mixed_zeros<const N: usize>(state: u32, power: u32) -> u32
    requires { power ≡ 16777619 ^ N % 2 ^ 32 }
    ensures { result ≡ hash_from state (replicate N 0) }
{
    wrapping_mul(state, power)
}

// The number that eight bytes make. It is a function of its own for the compiler, which makes one load of it.
fn eight_at(bytes: &[u8], at: usize) -> u64
    requires { at + 8 ≤ length bytes.now }
    ensures { ZeroIf 8 bytes.now at result }
{
    u64::from_le_bytes([
        bytes[at],
        bytes[at + 1],
        bytes[at + 2],
        bytes[at + 3],
        bytes[at + 4],
        bytes[at + 5],
        bytes[at + 6],
        bytes[at + 7],
    ])
}

// Whether eight bytes are zeros: the number that they make is.
fn is_zero_word(word: &[u8]) -> bool
    requires { length word.now ≡ 8 }
    ensures { result ≡ true → word.now ≡ replicate 8 0 }
{
    eight_at(word, 0) == 0
}

// The state after eight bytes.
fn mixed_word(state: u32, word: &[u8]) -> u32
    requires { length word.now ≡ 8 }
    ensures { result ≡ hash_from state word.now }
{
    if is_zero_word(word) {
        return mixed_zeros::<8>(state, EIGHT_ZEROS);
    }
    mixed_all(state, word)
}

// A hash that has come up to a place.
#[derive(Clone, Copy)]
struct Part {
    state: u32,
    at: usize,
}

// The bits that are set in either of two words.
fn pair_at(bytes: &[u8], at: usize) -> u64
    requires { at + 16 ≤ length bytes.now }
    ensures { ZeroIf 16 bytes.now at result }
{
    eight_at(bytes, at) | eight_at(bytes, at + 8)
}

// The hash past the pairs of words from here on that are zeros: of a block that is hashed alone each product waits for the one before it, so they are to be few.
fn past_pairs(from: Part, bytes: &[u8]) -> Part
    requires { Reached 2166136261 bytes.now from.at from.state }
    ensures { Reached 2166136261 bytes.now result.at result.state × (from.at ≤ result.at) }
{
    let mut state = from.state;
    // The place is handed on, and an iterator over pairs would leave it to be computed.
    let mut at = from.at;
    while 16 <= bytes.len() - at {
        if pair_at(bytes, at) != 0 {
            return Part { state, at };
        }
        state = mixed_zeros::<16>(state, SIXTEEN_ZEROS);
        at += 16;
    }
    Part { state, at }
}

// The hash past one word, and past the zeros behind it.
fn next_word(from: Part, bytes: &[u8]) -> Part
    requires { Reached 2166136261 bytes.now from.at from.state × (from.at + 8 ≤ length bytes.now) }
    ensures { Reached 2166136261 bytes.now result.at result.state × (from.at < result.at) }
{
    let at = from.at;
    let end = at + 8;
    let state = mixed_word(from.state, &bytes[at..end]);
    past_pairs(Part { state, at: end }, bytes)
}

// The hash of bytes up to the end of their last word.
fn hash_words(bytes: &[u8]) -> Part
    ensures { Reached 2166136261 bytes.now result.at result.state }
{
    let mut part = Part {
        state: 2166136261,
        at: 0,
    };
    // A step is one word and the zeros behind it: no two are equally long.
    while 8 <= bytes.len() - part.at {
        part = next_word(part, bytes);
    }
    part
}

// The hash of all of bytes.
pub fn hash(bytes: &[u8]) -> u32
    ensures { result ≡ fnv1a bytes.now }
{
    let part = hash_words(bytes);
    let at = part.at;
    mixed_all(part.state, &bytes[at..])
}

// The states after all of four slices of one length, side by side: no product waits for that of another slice. Any number N of slices would
// include the one of mixed_all, but the check covers no array of references whose length is a parameter.
fn mixed_four(from: [u32; 4], a: &[u8], b: &[u8], c: &[u8], d: &[u8]) -> [u32; 4]
    requires { OneLength a.now b.now c.now d.now }
    ensures { HashedOn from a.now b.now c.now d.now result }
{
    let [mut state_a, mut state_b, mut state_c, mut state_d] = from;
    for i in 0..a.len() {
        state_a = mixed(state_a, a[i]);
        state_b = mixed(state_b, b[i]);
        state_c = mixed(state_c, c[i]);
        state_d = mixed(state_d, d[i]);
    }
    [state_a, state_b, state_c, state_d]
}

// The states after eight zeros in each of four slices.
fn four_zeros(from: [u32; 4]) -> [u32; 4]
    ensures { HashedOn from (replicate 8 0) (replicate 8 0) (replicate 8 0) (replicate 8 0) result }
{
    from.map(|state| mixed_zeros::<8>(state, EIGHT_ZEROS))
}

// The bits that are set in any of four words, so that one comparison tests them all.
fn any_at(a: &[u8], b: &[u8], c: &[u8], d: &[u8], at: usize) -> u64
    requires { OneLength a.now b.now c.now d.now × (at + 8 ≤ length a.now) }
    ensures { ZeroIf 8 a.now at result × ZeroIf 8 b.now at result × ZeroIf 8 c.now at result × ZeroIf 8 d.now at result }
{
    eight_at(a, at) | eight_at(b, at) | eight_at(c, at) | eight_at(d, at)
}

// Four hashes that have come up to a place.
#[derive(Clone, Copy)]
struct FourParts {
    states: [u32; 4],
    at: usize,
}

// The hashes past the words from here on that are zeros in all four slices. The first slice's word is tested alone before the loop: where it is
// not zero, the others need no test.
fn past_zeros(from: FourParts, a: &[u8], b: &[u8], c: &[u8], d: &[u8]) -> FourParts
    requires one_length { OneLength a.now b.now c.now d.now × (from.at + 8 ≤ length a.now) }
    requires all_reached { AllReached a.now b.now c.now d.now from.at from.states }
    ensures { AllReached a.now b.now c.now d.now result.at result.states × (from.at ≤ result.at) }
{
    let mut states = from.states;
    // The place is that of four slices at once, and it is handed on.
    let mut at = from.at;
    if eight_at(a, at) != 0 {
        return from;
    }
    while 8 <= a.len() - at {
        if any_at(a, b, c, d, at) != 0 {
            return FourParts { states, at };
        }
        let mixed = four_zeros(states);
        states = mixed;
        at += 8;
    }
    FourParts { states, at }
}

// The hashes past zeros, if there are any, and past one word more.
fn next_words(from: FourParts, a: &[u8], b: &[u8], c: &[u8], d: &[u8]) -> FourParts
    requires one_length { OneLength a.now b.now c.now d.now × (from.at + 8 ≤ length a.now) }
    requires all_reached { AllReached a.now b.now c.now d.now from.at from.states }
    ensures { AllReached a.now b.now c.now d.now result.at result.states × (from.at < result.at) }
{
    let parts = past_zeros(from, a, b, c, d);
    let at = parts.at;
    if a.len() - at < 8 {
        return parts;
    }
    let end = at + 8;
    let states = mixed_four(
        parts.states,
        &a[at..end],
        &b[at..end],
        &c[at..end],
        &d[at..end],
    );
    FourParts { states, at: end }
}

// The hashes of four slices of one length up to the end of their last word.
fn hash_four_words(a: &[u8], b: &[u8], c: &[u8], d: &[u8]) -> FourParts
    requires { OneLength a.now b.now c.now d.now }
    ensures { AllReached a.now b.now c.now d.now result.at result.states }
{
    let mut parts = FourParts {
        states: [2166136261; 4],
        at: 0,
    };
    // A step is as many words as are zeros, and one more.
    while 8 <= a.len() - parts.at {
        parts = next_words(parts, a, b, c, d);
    }
    parts
}

// The hashes of four slices of one length.
pub fn hash_four(a: &[u8], b: &[u8], c: &[u8], d: &[u8]) -> [u32; 4]
    requires { (length b.now ≡ length a.now) × (length c.now ≡ length a.now) × (length d.now ≡ length a.now) }
    ensures { (slice_index result 0 ≡ fnv1a a.now) × (slice_index result 1 ≡ fnv1a b.now) × (slice_index result 2 ≡ fnv1a c.now) × (slice_index result 3 ≡ fnv1a d.now) }
{
    let parts = hash_four_words(a, b, c, d);
    let at = parts.at;
    mixed_four(parts.states, &a[at..], &b[at..], &c[at..], &d[at..])
}

// A set of cache lines in eight words of 64 bits, line 0 in the lowest bit of the first.
#![tactic(auto)]

ghost use Rattle.std.specs.Prelude.{false, cond, ◌&&◌, ◌||◌, ◌≡◌, ℕ, eqb, ltb};
ghost use Rattle.model.specs.Sets.{size};
ghost use Rattle.lineset.specs.Members.{members};

#[derive(Clone, Copy)]
pub struct LineSet {
    pub words: [u64; 8],
}

impl LineSet {
    pub fn empty() -> Self
        ensures { (d : ℕ) → members result d ≡ false }
    {
        LineSet { words: [0; 8] }
    }

    // The set with a line added; a line of 512 or more leaves it as it is.
    pub fn with(mut self, line: usize) -> Self
        ensures { (d : ℕ) → members result d ≡ (members self d || ltb line 512 && eqb d line) }
    {
        let bit = 1 << (line & 63);
        let word = line >> 6;
        for (w, own) in self.words.iter_mut().enumerate() {
            *own |= bit_in(w, word, bit);
        }
        self
    }

    // This and the next differ in their operator alone; to pass it as a closure would take more lines than the loop.
    pub fn union(mut self, other: LineSet) -> Self
        ensures { (d : ℕ) → members result d ≡ (members self d || members other d) }
    {
        for (w, word) in self.words.iter_mut().enumerate() {
            *word |= other.words[w];
        }
        self
    }

    pub fn common(mut self, other: LineSet) -> Self
        ensures { (d : ℕ) → members result d ≡ (members self d && members other d) }
    {
        for (w, word) in self.words.iter_mut().enumerate() {
            *word &= other.words[w];
        }
        self
    }

    pub fn contains(self, line: usize) -> bool
        ensures { result ≡ members self line }
    {
        if line < 512 {
            let word = self.words[line >> 6];
            word >> (line & 63) & 1 == 1
        } else {
            false
        }
    }

    pub fn size(self) -> u32
        ensures { result ≡ size (members self) }
    {
        self.words.iter().map(|word| word.count_ones()).sum()
    }
}

// What is joined with word w: the bit, if it is one of this word.
fn bit_in(w: usize, word: usize, bit: u64) -> u64
    ensures { result ≡ cond (eqb w word) bit 0 }
{
    if w == word { bit } else { 0 }
}

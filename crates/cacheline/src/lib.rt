// The geometry of an accepted file's cache, and the line of a memory block in it.
#![tactic(auto)]

ghost use Rattle.std.specs.Prelude.{◌≡◌, ◌%◌, ◌≤◌, ◌<◌, eqb};
ghost use Rattle.model.specs.Task.{Task};
ghost use Rattle.model.specs.Lines.{line_of, on_line};
ghost use Rattle.model.specs.Lines as Lines;
ghost use Rattle.taskfile.specs.File.{IsAccepted, task_of};
ghost use Rattle.cacheline.specs.Geometries.{Divides, Masks, PowerFor, Sound, GeometryOf, WithinCache, SlotOf};

// Three numbers that divide by a count: the quotient of any 32-bit number is (number * factor + addend) >> shift.
#[derive(Clone, Copy)]
pub struct Divider {
    pub factor: u64,
    pub addend: u64,
    pub shift: u32,
}

// The number of lines, what divides by it, which spares a division for each read, and a mask in its place, 0 where there is none; and the memory blocks that bypass the cache, so many from
// the first on.
#[derive(Clone, Copy)]
pub struct Geometry {
    pub line_count: u32,
    pub divider: Divider,
    pub mask: u32,
    pub first: u32,
    pub bypassing: u32,
}

// Where a memory block goes: its remainder by the line count, and whether it is cached there. A
// memory block of the scratch range is not. This is no Option, for speed: the walks look at the line's
// entries either way and choose by the flag what they store, without a branch.
#[derive(Clone, Copy)]
pub struct Slot {
    pub line: usize,
    pub cached: bool,
}

// The geometry of a file's cache.
pub fn geometry_of(file: &[u8]) -> Geometry
    requires { IsAccepted file.now }
    ensures { GeometryOf (task_of file.now) result }
{
    let header = taskfile::header(file);
    let line_count = header.line_count as u32;
    let lines = line_count as u64;
    let power = power_for(lines);
    Geometry {
        line_count,
        divider: divider_by(lines, power),
        mask: mask_by(line_count),
        first: header.scratch.first,
        bypassing: header.scratch.count,
    }
}

// The divider by a count of lines: the power's quotient, or one more, whichever is near enough. Below the power's own quotient it needs the addend.
fn divider_by(lines: u64, power: Power) -> Divider
    requires { (1 ≤ lines) × (lines ≤ 512) × PowerFor lines power }
    ensures { Divides lines result }
{
    let whole = power.value;
    let shift = power.shift;
    let factor = whole / lines;
    let rest = whole - factor * lines;
    if rest == 0 {
        return Divider {
            factor,
            addend: 0,
            shift,
        };
    }
    if rest * 4294967296 <= whole {
        return Divider {
            factor,
            addend: factor,
            shift,
        };
    }
    Divider {
        factor: factor + 1,
        addend: 0,
        shift,
    }
}

// The mask of a count of lines that is a power of two.
fn mask_by(lines: u32) -> u32
    requires { 1 ≤ lines }
    ensures { Masks lines result }
{
    if lines.is_power_of_two() {
        lines - 1
    } else {
        0
    }
}

// A power of two.
#[derive(Clone, Copy)]
struct Power {
    value: u64,
    shift: u32,
}

// The greatest power of two that is at most 2^32 times a count.
fn power_for(lines: u64) -> Power
    requires { (1 ≤ lines) × (lines ≤ 512) }
    ensures { PowerFor lines result }
{
    let shift = 32 + lines.ilog2();
    Power {
        value: 1 << shift,
        shift,
    }
}

impl Geometry {
    // The line of a memory block, or none.
    pub fn line_of(self, number: u32) -> Option<usize>
        requires { Sound self }
        ensures { ((t : Task) → GeometryOf t self → result ≡ line_of t number) × WithinCache result }
    {
        if self.bypasses(number) {
            None
        } else {
            Some(self.remainder(number))
        }
    }

    // The slot of a memory block.
    pub fn slot_of(self, number: u32) -> Slot
        requires { Sound self }
        ensures { ((t : Task) → GeometryOf t self → SlotOf t number result) × (result.line < 512) }
    {
        Slot {
            line: self.remainder(number),
            cached: !self.bypasses(number),
        }
    }

    // Whether the file has no scratch range, so that every memory block is cached.
    pub fn caches_all(self) -> bool
        ensures { (t : Task) → GeometryOf t self → result ≡ eqb t.header.scratch.count 0 }
    {
        self.bypassing == 0
    }

    // Whether a memory block lies on line c.
    pub fn lies_on(self, number: u32, c: usize) -> bool
        requires { Sound self }
        ensures { (t : Task) → GeometryOf t self → result ≡ on_line t c number }
    {
        c == self.remainder(number) && !self.bypasses(number)
    }

    // Whether a memory block is in the scratch range: so far behind its first, modulo 2^32.
    fn bypasses(self, number: u32) -> bool
        ensures { (t : Task) → GeometryOf t self → result ≡ Lines.bypasses t number }
    {
        if self.bypassing == 0 {
            return false;
        }
        number.wrapping_sub(self.first) < self.bypassing
    }

    // A number's remainder by the line count.
    fn remainder(self, number: u32) -> usize
        requires { Sound self }
        ensures { (result ≡ number % self.line_count) × (result < 512) }
    {
        if self.mask != 0 {
            return (number & self.mask) as usize;
        }
        let divider = self.divider;
        let number = number as u64;
        let quotient = (number * divider.factor + divider.addend) >> divider.shift;
        (number - quotient * self.line_count as u64) as usize
    }
}

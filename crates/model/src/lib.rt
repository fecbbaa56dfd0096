// The types that the planner's answers and a task's header are made of. What they mean is in specs/.
#![tactic(auto)]

ghost use Rattle.std.specs.Prelude.{◌≡◌};
ghost use Rattle.model.specs.Answers.{number, place};

use std::fmt;

// One line of the cache: it is empty or holds one memory block. Document 01 names this enum.
#[derive(Clone, Copy, PartialEq, Eq)]
pub enum Line {
    Empty,
    Held(u32),
}

// Why a call refuses, with the place that the refusal names.
#[derive(Clone, Copy, PartialEq, Eq)]
pub enum Refusal {
    Length,
    Checksum(usize),
    WrongHeader,
    BlockCount,
    WrongBlock(usize),
    NoPlacement,
    Argument(usize),
    AboveLimit(usize),
    Output,
    OutOfRange,
    Mismatch,
    TooManyBlocks,
    WrongTraceLine(usize),
    WrongTrace,
    LongTask,
    WrongText(usize),
    WrongTaskSet,
}

impl Refusal {
    // Its number: 1 to 9 of document 01, 10 to 16 of document 02. 17, for the text of a task, is ours and in no document.
    pub fn number(self) -> u32
        ensures { result ≡ number self }
    {
        match self {
            Refusal::Length => 1,
            Refusal::Checksum(_) => 2,
            Refusal::WrongHeader => 3,
            Refusal::BlockCount => 4,
            Refusal::WrongBlock(_) => 5,
            Refusal::NoPlacement => 6,
            Refusal::Argument(_) => 7,
            Refusal::AboveLimit(_) => 8,
            Refusal::Output => 9,
            Refusal::OutOfRange => 10,
            Refusal::Mismatch => 11,
            Refusal::TooManyBlocks => 12,
            Refusal::WrongTraceLine(_) => 13,
            Refusal::WrongTrace => 14,
            Refusal::LongTask => 15,
            Refusal::WrongTaskSet => 16,
            Refusal::WrongText(_) => 17,
        }
    }

    // The place that it names, 0 where it names none.
    pub fn place(self) -> usize
        ensures { result ≡ place self }
    {
        match self {
            Refusal::Checksum(block) | Refusal::WrongBlock(block) => block,
            Refusal::Argument(index) => index,
            Refusal::AboveLimit(region) => region,
            Refusal::WrongTraceLine(line) | Refusal::WrongText(line) => line,
            _ => 0,
        }
    }
}

// What a program prints of a refusal.
impl fmt::Display for Refusal {
    fn fmt<W: fmt::Write>(&self, f: &mut fmt::Formatter<W>) -> fmt::Result {
        write!(f, "refused {} at {}", self.number(), self.place())
    }
}

// A plan, each field as wide as in a plan block; the points beyond the count are zero.
#[derive(Clone, Copy)]
pub struct Plan {
    pub blocks: u16,
    pub id: u32,
    pub count: u16,
    pub lines: u16,
    pub cost: u64,
    pub points: [u16; 64],
}

// The memory blocks that bypass the cache: so many from the first on.
#[derive(Clone, Copy, PartialEq, Eq)]
pub struct Scratch {
    pub first: u32,
    pub count: u32,
}

// The numbers of a task file's header but N and M, each as wide as it stands there: S, Q, R, the task's id, the scratch range, Q2 and G.
#[derive(Clone, Copy)]
pub struct Header {
    pub line_count: u16,
    pub limit: u32,
    pub reload: u32,
    pub id: u32,
    pub scratch: Scratch,
    pub second_limit: u32,
    pub switch: u32,
}

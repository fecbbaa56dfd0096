// The answers of calls: a refusal of one of two inputs, with the place that it then has, and the refusal of an output's length.
#![tactic(auto)]

ghost use Rattle.std.specs.Prelude.{◌≡◌};
ghost use Rattle.model.specs.Answers.{place, verdict_number, verdict_place, output_row};
ghost use Rattle.answers.specs.Places.{second_place};

use model::Refusal;
use std::fmt;

// The blocks of the largest file.
const MOST_BLOCKS: usize = 97;

// A refusal of a call with two inputs: the places of the second input come after those of the first.
#[derive(Clone, Copy, PartialEq, Eq)]
pub struct Refused {
    pub refusal: Refusal,
    pub place: usize,
}

// A refusal of the first input, or of both, keeps its place.
impl From<Refusal> for Refused {
    ghost from_gives = { λ r refused. (refused.refusal ≡ r) × (refused.place ≡ place r) };

    fn from(refusal: Refusal) -> Refused {
        Refused {
            refusal,
            place: refusal.place(),
        }
    }
}

// A refusal of the second input.
pub fn of_second(refusal: Refusal) -> Refused
    ensures { (result.refusal ≡ refusal) × (result.place ≡ second_place (place refusal)) }
{
    Refused {
        refusal,
        place: refusal.place().saturating_add(MOST_BLOCKS),
    }
}

// What a program prints of a refusal of one of two inputs.
impl fmt::Display for Refused {
    fn fmt<W: fmt::Write>(&self, f: &mut fmt::Formatter<W>) -> fmt::Result {
        write!(f, "refused {} at {}", self.refusal.number(), self.place)
    }
}

// A verdict's number, 0 where it accepts, for calls from C.
pub fn verdict_number(verdict: Result<(), Refusal>) -> u32
    ensures { result ≡ verdict_number verdict }
{
    match verdict {
        Ok(()) => 0,
        Err(refusal) => refusal.number(),
    }
}

// A verdict's place, 0 where it accepts, for calls from C.
pub fn verdict_place(verdict: Result<(), Refusal>) -> usize
    ensures { result ≡ verdict_place verdict }
{
    match verdict {
        Ok(()) => 0,
        Err(refusal) => refusal.place(),
    }
}

// Refuses an output that is not of this size.
pub fn check_output(size: usize, length: usize) -> Result<(), Refusal>
    ensures { result ≡ output_row size length }
{
    if length == size {
        Ok(())
    } else {
        Err(Refusal::Output)
    }
}

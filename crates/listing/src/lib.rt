// The fitting lists of a task of at most 16 basic blocks, in the order of their numbers.
#![tactic(auto)]

ghost use Rattle.std.specs.Prelude.{◌≡◌, ◌≤◌, length};
ghost use Rattle.enumerating.specs.Numbers.{list_of};
ghost use Rattle.listing.specs.Calls.{list_verdict, next_answer, in_array};

use enumerating::FittingList;
use model::Refusal;

// The most basic blocks of a task whose lists are numbered.
const MOST_BLOCKS: usize = 16;

// The points of a list; those beyond the count are zero. An array, since the libraries have no heap.
#[derive(Clone, Copy)]
pub struct Points {
    pub count: usize,
    pub points: [u16; 16],
}

// A fitting list, and its points.
#[derive(Clone, Copy)]
pub struct NextList {
    pub list: FittingList,
    pub points: Points,
}

// The fitting list of the lowest number at or above the start, if there is one.
pub fn next_list(file: &[u8], start: u64) -> Result<Option<NextList>, Refusal>
    ensures { result ≡ next_answer file.now start }
{
    check(file)?;
    let Some(list) = enumerating::find_next(file, start) else {
        return Ok(None);
    };
    let points = points_of(list.number, taskfile::block_count(file));
    Ok(Some(NextList { list, points }))
}

// Whether the lists of a file are numbered: the file's refusal, or 15 for N above 16.
pub fn check(file: &[u8]) -> Result<(), Refusal>
    ensures { result ≡ list_verdict file.now }
{
    taskfile::check(file)?;
    if MOST_BLOCKS < taskfile::block_count(file) {
        return Err(Refusal::LongTask);
    }
    Ok(())
}

// The points that the bits of a number say.
fn points_of(number: u64, blocks: usize) -> Points
    requires { (1 ≤ blocks) × (blocks ≤ 16) }
    ensures { (result.count ≡ length (list_of blocks number)) × (result.points ≡ in_array (list_of blocks number)) }
{
    let mut points = [0u16; 16];
    let mut count = 0;
    let mut bits = number;
    for to in 1..blocks {
        if bits % 2 == 1 {
            points[count] = to as u16;
            count += 1;
        }
        bits = bits / 2;
    }
    Points { count, points }
}

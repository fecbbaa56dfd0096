// Lists of points as they are handed in.
#![tactic(auto)]

ghost use Rattle.std.specs.Prelude.{◌≡◌};
ghost use Rattle.model.specs.Lists.{wrong_point};

// The lowest index at which a list of points of a task of n blocks is wrong.
pub fn wrong_point(points: &[u16], n: usize) -> Option<usize>
    ensures { result ≡ wrong_point n points.now }
{
    let mut last = 0;
    for (i, point) in points.iter().enumerate() {
        let point = *point as usize;
        if point <= last || n <= point {
            return Some(i);
        }
        last = point;
    }
    None
}

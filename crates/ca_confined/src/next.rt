//! The next place that is in two sets.

ghost use Rattle.std.specs.Prelude.{◌≤◌, ◌^◌};
ghost use Rattle.ca_confined.specs.code.Next.{IsNextIn};

use ca_places::PlaceSet;

/// The first place from one on and before `end` that both sets have.
pub(crate) fn next_in(set: &PlaceSet, other: &PlaceSet, from: usize, end: usize) -> Option<usize>
    requires { end ≤ 2 ^ 33 }
    ensures { IsNextIn set.now other.now from end result }
{
    let mut place = from;
    while place < end {
        let both = set.window(place) & other.window(place);
        if both != 0 {
            return Some(place + both.trailing_zeros() as usize);
        }
        place += 64;
    }
    None
}

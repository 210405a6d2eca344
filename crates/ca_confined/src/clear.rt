//! Sets are emptied.

ghost use Rattle.std.specs.Prelude.{ℕ, ◌≡◌, ◌≤◌, ◌<◌, ◌^◌};
ghost use Rattle.ca_places.specs.PlaceSet.{Has, HoldsUpTo};
ghost use Rattle.ca_confined.specs.code.Clear.{AreBelow, IsEmptied};

use ca_places::PlaceSet;

/// Takes all places out of a set of places below a bound.
pub(crate) fn clear(set: &mut PlaceSet, end: usize)
    requires room { HoldsUpTo set.old end }
    requires below { AreBelow set.old end }
    ensures { IsEmptied set.old set.new }
{
    let mut from = 0;
    while let Some(place) = set.next(from) {
        set.remove(place);
        from = place + 1;
    }
}

//! Sets of places: all below an end, and changes of them.
ghost use Rattle.std.specs.Prelude.{ℕ, ◌↔◌, ◌<◌, ◌≤◌, ◌+◌, Some, IfOk};
ghost use Rattle.ca_places.specs.PlaceSet.{Has, HasRoomFor, IsAsRoomy};
ghost use Rattle.ca_credit.specs.code.Round.{IsPartOf};

use ca_base::NoMemory;
use ca_places::PlaceSet;
use std::alloc::Global;

// The set of the first `count` places.
pub(crate) fn all_places(alloc: Global, count: usize) -> Result<PlaceSet, NoMemory>
    ensures all { IfOk result (λ set. (place : ℕ) → Has set place ↔ (place < count)) }
    ensures room { IfOk result (λ set. HasRoomFor set count) }
{
    let mut set = PlaceSet::reserve(alloc, count)?;
    for place in 0..count {
        set.insert(place);
    }
    Ok(set)
}

// Takes all places out of a set, which are below an end.
pub(crate) fn clear(set: &mut PlaceSet, end: usize)
    requires { (place : ℕ) → Has set.old place → place < end }
    ensures none { (place : ℕ) → ¬ (Has set.new place) }
    ensures room { IsAsRoomy set.new set.old }
{
    let mut from = 0;
    'places: while let Some(place) = set.next(from) {
        set.remove(place);
        from = place + 1;
    }
}

// Takes the places before one out of a set.
pub(crate) fn remove_before(set: &mut PlaceSet, start: usize)
    ensures rest { (place : ℕ) → Has set.new place ↔ (Has set.old place × (start ≤ place)) }
    ensures room { IsAsRoomy set.new set.old }
{
    let mut from = 0;
    'places: while let Some(place) = set.next(from) {
        if place >= start {
            return;
        }
        set.remove(place);
        from = place + 1;
    }
}

// Puts the places of a set from one on up to an end into one that has none.
pub(crate) fn insert_between(into: &mut PlaceSet, set: &PlaceSet, start: usize, end: usize)
    requires start { start ≤ end }
    requires none { (place : ℕ) → ¬ (Has into.old place) }
    requires room { IsAsRoomy into.old set.now }
    ensures part { IsPartOf into.new set.now start end }
    ensures room { IsAsRoomy into.new into.old }
{
    let mut from = start;
    'places: while let Some(place) = set.next(from) {
        if place >= end {
            return;
        }
        into.insert(place);
        from = place + 1;
    }
}

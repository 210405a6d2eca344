//! Sets of places, a bit for each: for who passes over many places that aren't in the set.
#![tactic(auto)]

mod place_set;

pub use place_set::PlaceSet;

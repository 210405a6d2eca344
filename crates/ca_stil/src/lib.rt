//! The patterns of a chip as a text of STIL: its signals and scan chains, its pairs of vectors, and the
//! values that are expected under each.
#![tactic(auto)]

mod chip;
mod fits;
mod frame;
mod groups;
mod pair;
mod patterns;
mod room;
mod shift;
mod statement;
mod words;
mod write;

pub use chip::{End, Signal, StilChain, StilChip};
pub use fits::{are_of, have_bits, have_values};
pub use patterns::{ExpectedValues, PatternBits};
pub use write::write_stil;

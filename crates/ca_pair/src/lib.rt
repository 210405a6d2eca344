//! Pairs of vectors of a chip, as the bits of a pattern.
#![tactic(auto)]

mod pair;

pub use pair::{Pair, Pairs};

//! Networks as texts, for people and for other tools.
#![tactic(auto)]

mod writing;

pub use writing::write_flat;

//! The list of the defects of a linked chip.
#![tactic(auto)]

mod listing;

pub use listing::{ChipDefects, chip_defects};

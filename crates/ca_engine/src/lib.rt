//! The engine of test generation on a linked chip: the bench and the work, over one view.
#![tactic(auto)]

mod chip_bench;
mod finders;
mod flip_bench;
mod generate;
mod no_attempts;
mod outputs;
mod pair_bits;
mod search_end;
mod untestable;

pub use ca_chip_defects::{ChipDefects, chip_defects};
pub use chip_bench::ChipBench;
pub use finders::{reserve_finder, reserve_laned};
pub use generate::{generate_chip, generate_over};
pub use no_attempts::NoAttempts;

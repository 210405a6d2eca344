//! What may stand at a partial pair of a chip, and what a pair detects, seen in the waves of its nets.
#![tactic(auto)]

mod checking;
mod chip_examiner;
mod detect;
mod detections;
mod flip_sim;
mod leave;
mod marks;
mod open_nets;
mod order;
mod pair_bits;
mod pins;
mod rows;
mod standing;
mod support;
mod sweep;

pub use checking::check_linked;
pub use chip_examiner::ChipExaminer;

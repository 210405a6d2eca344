//! The command `grade`: what it finds in its files.
#![tactic(auto)]

mod grading;
mod laws;

pub use grading::{GradedChip, find_grades};
pub use laws::stil_limit;

//! The report of a run: a CSV text with the verdict on each defect, or on each pin bridge.
#![tactic(auto)]

mod fits;
mod rows;
mod verdict;
mod write;

pub use fits::are_of;
pub use rows::{ReportRow, ReportRows};
pub use verdict::Verdict;
pub use write::{write_bridges, write_report};

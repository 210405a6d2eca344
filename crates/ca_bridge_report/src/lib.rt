//! The report of verdicts on pin bridges, and the line that sums them up.
#![tactic(auto)]

mod laws;
mod report;
mod rows;
mod summary;

pub use laws::good_bridges_are_reported;
pub use report::write_bridges_report;
pub use summary::bridges_line;

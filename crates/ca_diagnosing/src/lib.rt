//! The command `diagnose`: what it finds in its files.
#![tactic(auto)]

mod diagnosing;
mod laws;
mod logged;
mod logs;

pub use diagnosing::{DiagnosedChip, find_candidates};
pub use laws::log_limit;
pub use logs::MAX_LOG;

//! The verdicts on pin bridges and what is promised of them, and the laws by which verdicts on the shorts of
//! merged chips are verdicts on the bridges for which they stand.
#![tactic(auto)]

mod laws;
mod verdict;

pub use laws::{bridges_are_targets, good_targets_are_bridges};
pub use verdict::{BridgeVerdict, BridgeVerdicts};

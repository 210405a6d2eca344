//! The bridges of a chip as targets: shorts of merged chips, where bridges that have one cluster share its
//! chip.
#![tactic(auto)]

mod clusters;
mod laws;
mod listing;
mod target;

pub use laws::{library_defects_are_placed, one_cluster};
pub use listing::targets;
pub use target::{BridgeTargets, Cluster, ShortList, Target, TargetList};

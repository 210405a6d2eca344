//! The command `bridges`: what it finds in its files.
#![tactic(auto)]

mod bridging;
mod tests;

pub use bridging::{BridgedChip, find_bridges};
pub use tests::{BridgeTests, bridge_tests};

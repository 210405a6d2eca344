//! Generated chips link: the laws that they keep the rules of linking and have no scan chains, and each chip,
//! linked.
#![tactic(auto)]

mod chips;
mod laws;

pub use chips::made_chip;
pub use laws::{chip_has_no_chains, chip_keeps_rules};

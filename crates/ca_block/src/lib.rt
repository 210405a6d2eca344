//! The three limits of a network in 64 lanes at once. All memory is taken beforehand.
#![tactic(auto)]

mod groups;
mod limits;
mod spread;
mod start;
mod touched;
mod turns;
mod work;

pub use limits::{settle_block, settle_firsts};
pub use work::BlockWork;

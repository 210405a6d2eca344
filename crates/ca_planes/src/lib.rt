//! Planes, one bit for each of 64 lanes: their operations with the laws of each lane, and the values of the
//! nodes of a network in 64 lanes at once.
#![tactic(auto)]

mod block;
mod plane;
mod trits;

pub use block::Block;
pub use plane::{
    ALL_LANES, LANES, both, differ, either, except, has, is_none, is_one, is_zero, not_one,
    with_lane,
};
pub use trits::Trits;

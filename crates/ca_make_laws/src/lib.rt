//! Generated chips are read: the laws by which their texts have a reading, and which; and both texts, read.
#![tactic(auto)]

mod laws;
mod reading;

pub use laws::{library_is_read, netlist_is_read};
pub use reading::{made_library, made_netlist};

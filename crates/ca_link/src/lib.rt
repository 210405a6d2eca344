//! Linking: the chip that a gate netlist, a library and a table of scan cells give, or the first rule that
//! they break.
#![tactic(auto)]

mod controls;
mod limits;
mod linking;
mod names;
mod telling;

pub use linking::{link, link_instances};

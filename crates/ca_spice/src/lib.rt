//! Cell netlists: the library that a text reads as, or its first faulty line, and the text of a cell.
#![tactic(auto)]

mod card;
mod device;
mod fault;
mod laws;
mod library;
mod mos;
mod names;
mod open_cell;
mod opening;
mod pin;
mod pin_info;
mod reading;
mod subcircuit;
mod writing;

pub use fault::{SpiceFault, SpiceKind};
pub use laws::{first_faulty_line, found_cell, plain_names};
pub use library::read_library;
pub use writing::write_cell;

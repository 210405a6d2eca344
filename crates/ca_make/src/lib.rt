//! Generated chips as texts: the library of their cells, and the netlist of the chip of a number.
#![tactic(auto)]

mod cells;
mod draw;
mod gate;
mod loads;
mod writing;

pub use cells::library;
pub use gate::MOST_GATES;
pub use writing::netlist;

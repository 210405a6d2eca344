//! Linking: the chip that a gate netlist, a library and a table of scan cells give, or the first rule that
//! they break.
#![tactic(auto)]

mod fault;
mod joined;
mod judged;
mod laws;
mod numbers;
mod pins;
mod scan_row;
mod spans;
mod wires;

pub use ca_linked::{Chip, InstanceId, InstanceList, NetId, ScanPin};
pub use fault::{
    ChipFault, Driver, MOST_CHIP_DEFECTS, MOST_CHIP_INPUTS, MOST_CHIP_OUTPUTS, MOST_INSTANCES,
};
pub use joined::Join;
pub use judged::{cells_of, judge_instances, row_of};
pub use laws::drivers_are_the_wirings;
pub use numbers::{NetTable, number_nets};
pub use pins::{bit_on, wire_of};
pub use scan_row::{ScanRow, ScanTable};
pub use spans::earliest_wires;
pub use wires::{input_wire, library_inputs};

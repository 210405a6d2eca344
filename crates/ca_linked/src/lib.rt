//! Chips whose nets are numbered: one driver for each net, the scan path, and an order of the library
//! instances in which each comes after those that drive its inputs.
#![tactic(auto)]

mod cells;
mod chip;
mod controls;
mod draft;
mod drivers;
mod ends;
mod feeding;
mod instances;
mod laws;
mod marks;
mod order;
mod parts;
mod paths;
mod pins;
mod readers;
mod ready;
mod used;
mod wiring;

pub use chip::Chip;
pub use controls::Misused;
pub use draft::Draft;
pub use drivers::Sources;
pub use instances::{InstanceId, InstanceList};
pub use laws::order_has_no_loop;
pub use marks::NetMarks;
pub use parts::{Body, NetId, NetList, Part, PortBit, ScanNets, Source};
pub use pins::ScanPin;
pub use ready::wire_draft;
pub use wiring::{Judged, WireFault, judge, wire};

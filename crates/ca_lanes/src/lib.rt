//! The plain two-frame values of the nets under 256 pairs at once, and which pairs are suspect for a defect.
#![tactic(auto)]

mod alike;
mod constants;
mod evaluate;
mod frame;
mod gather;
mod good_rows;
mod inputs;
mod laws;
mod load;
mod masks;
mod netlist;
mod plane;
mod planes;
mod screen;
mod sweep;
mod values;

pub use constants::Constant;
pub use good_rows::GoodRows;
pub use laws::{
    bare_rows_are_unknown, clear_bit_means_no_detection, defects_are_screenable,
    netlists_are_readable, plain_in_lane_is_never_opposite, set_bit_is_allowed,
    waves_are_below_lane,
};
pub use netlist::{Instance, Netlist};
pub use plane::{LANES, Plane};
pub use planes::Planes;

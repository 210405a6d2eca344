//! The place of a fault: the names of the cells, pins, nets and instances that a fault of linking carries, as
//! they stand in the netlists.
#![tactic(auto)]

mod bits;
mod cells;
mod instances;
mod nets;
mod places;
mod touched;

pub use cells::rule_place;
pub use places::{place_of, refused_place};

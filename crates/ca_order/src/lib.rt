//! The order file: what is done to a flat network between two vectors, line by line.
#![tactic(auto)]

mod event;
mod laws;
mod line;
mod node;
mod order;
mod place;
mod read;

pub use event::{Event, OrderFault, Place};
pub use laws::read_events_are_allowed;
pub use order::{read_order, read_order_for};
pub use place::places;

//! The flat network of a linked chip: its cells' transistors and all its nets, good or with a defect.
#![tactic(auto)]

mod devices;
mod gates;
mod laws;
mod network;
mod nodes;
mod sizes;
mod spots;

pub use laws::{flat_has_lines, flat_is_well_formed};
pub use network::{flatten, judge_size};
pub use spots::cell_at;

//! The STIL text of a linked chip reads as its chains, pairs and expected values: the laws. There is no code.
#![tactic(auto)]

mod laws;
mod names;

pub use laws::{chip_text_is_read, chip_values_are_allowed};
pub use names::ports_are_named;

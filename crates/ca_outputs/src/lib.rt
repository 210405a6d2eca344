//! The names of the observed outputs of a linked chip.
#![tactic(auto)]

mod laws;
mod names;

pub use laws::outputs_are_named;
pub use names::output_names;

//! One run of a linked chip between two vectors, event by event.
#![tactic(auto)]

mod chip_run;
mod input_nodes;
mod vectors;

pub use chip_run::ChipRun;

//! One pair on a linked chip: what each observed output settles to, without a defect and with one, and what
//! it ends with in one run.
#![tactic(auto)]

mod letters;
mod one_run;
mod simulation;

pub use one_run::replay;
pub use simulation::{OutputEnds, simulate};

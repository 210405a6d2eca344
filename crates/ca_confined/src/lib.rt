//! The waves of a chip where they matter to an instance: those that lead to an observed output which the
//! instance reaches.
#![tactic(auto)]

mod clear;
mod confined;
mod drivers;
mod next;
mod scope;
mod settle;

pub use confined::Confined;

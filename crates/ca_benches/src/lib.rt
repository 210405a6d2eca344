//! One bench made of several, each for some of the defects of a task.
#![tactic(auto)]

mod benches;
mod parts;
mod station;

pub use benches::Benches;
pub use station::{Station, Stations};

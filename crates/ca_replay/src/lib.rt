//! One run of a network between two vectors, event by event.
#![tactic(auto)]

mod events;
mod laws;
mod rounds;
mod run;
mod start;
mod values;

pub use laws::{replay_is_pair_run, replay_is_unique};
pub use run::replay;

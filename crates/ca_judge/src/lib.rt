//! The simulator and the guide as one: the judge that a search asks.
#![tactic(auto)]

mod attempt;
mod attempt_waves;
mod attempts;
mod chip_judge;
mod exchange;
mod further;
mod guide_waves;
mod outputs;
mod shorten;
mod standing;

pub use attempt::Aimed;
pub use attempts::{Attempts, ScopedChoice};
pub use ca_flat::ExposingRows;
pub use chip_judge::ChipJudge;

//! What is promised of verdicts on pin bridges, and how verdicts on the shorts of merged chips give them.
#![tactic(auto)]

mod generation;
mod judged;
mod laws;
mod numbers;
mod parts;
mod put;

pub use judged::{Judged, judge};
pub use laws::shorts_judge_bridges;
pub use numbers::{Numbered, aims_at, number_shorts};
pub use put::put_verdicts;

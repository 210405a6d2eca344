//! Diagnosis: which defects a log of failing outputs leaves, and how much of it each of them explains.
#![tactic(auto)]

mod candidate;
mod diagnosed;
mod failing;
mod judge;
mod laws;
mod pass;
mod predict;
mod screen;

pub use candidate::{Candidate, Candidates};
pub use diagnosed::diagnose;
pub use laws::{candidates_are_one, cause_is_candidate};

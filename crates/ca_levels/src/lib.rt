//! The responses of all nodes in 64 lanes at once, level by level of strengths from the strongest: which
//! nodes paths of at least that strength reach. All memory is taken beforehand.
#![tactic(auto)]

mod advance;
mod close;
mod levels;
mod response;

pub use levels::Levels;
pub use response::respond;

//! The branching search for a partial pair that shows a defect, over a simulator and a guide.
#![tactic(auto)]

mod judge;
mod laws;
mod search;
mod trail;
mod walk;

pub use ca_code::{Code, MOST_PATTERN_BITS};
pub use judge::{Judge, Standing};
pub use laws::{free_way_is_front, outcome_is_search};
pub use search::Search;
pub use trail::Outcome;

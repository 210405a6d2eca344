//! Which pair detects which defect: verdicts, and the table in which they are gathered.
#![tactic(auto)]

mod by_lasts;
mod credit;
mod credits;
mod lanes;
mod laws;
mod limit;
mod place_sets;
mod round;
mod simulator;
mod verdict;
mod verdicts;

pub use by_lasts::ByLasts;
pub use credits::{BLOCK, Credits};
pub use lanes::{LANES, keep_pairs, keep_pairs_from};
pub use laws::{
    ample_is_never_aborted, pattern_bits_are_never_aborted, suspect_is_allowed_by_rows,
    unexposable_is_undetected,
};
pub use limit::MOST_PAIRS;
pub use simulator::Simulator;
pub use verdict::Verdict;
pub use verdicts::Verdicts;

//! What a good chip ends with under listed pairs.
#![tactic(auto)]

mod laws;
mod values;
mod wrong;

pub use laws::aimed_pairs_are_whole;
pub use values::{Expected, expected};
pub use wrong::{WrongValue, first_wrong, wrong_output};

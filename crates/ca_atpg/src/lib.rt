//! Test generation on a linked chip, with the texts that report it: the patterns, the report and the summary.
#![tactic(auto)]

mod generation;
mod texts;

pub use generation::{Tested, atpg, stil_over};
pub use texts::summary_text;

//! The commands `atpg` and `make`: what each finds, in its files or with none.
#![tactic(auto)]

mod making;
mod tests;

pub use making::{MAKE_BUDGET, MadeChip, find_made};
pub use tests::{TestedChip, find_tests};

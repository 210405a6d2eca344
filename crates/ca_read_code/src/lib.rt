//! Whether a code that is claimed is whole or spent, read without recursion.
#![tactic(auto)]

mod examiner;
mod laws;
mod read;
mod walk;

pub use examiner::Examiner;
pub use laws::claimed_codes_are_codes;
pub use read::{is_spent, is_whole};

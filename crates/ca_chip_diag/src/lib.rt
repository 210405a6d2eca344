//! Diagnosis of a linked chip: its log read, its candidates found, and their text.
#![tactic(auto)]

mod diagnosed;
mod laws;
mod read;
mod texts;
mod write;

pub use diagnosed::diagnose_chip;
pub use laws::logged_can_be_diagnosed;
pub use read::read_chip_log;
pub use texts::{Texts, texts_of};
pub use write::write_candidates;

//! The pairs of a linked chip that a STIL text has, with the values that are expected under each.
#![tactic(auto)]

mod laws;
mod read;

pub use laws::{chains_cover, text_of_linked_chip_is_file, written_chip_is_read_back};
pub use read::read_chip_stil;

//! The pairs of a chip that a STIL text has, with the values that are expected under each, or why it has
//! none.
#![tactic(auto)]

mod chip;
mod file;
mod laws;
mod order;
mod places;
mod read;

pub use file::StilFile;
pub use laws::{text_is_one_file, text_of_chip_is_file, written_is_read_back};
pub use read::{StilFault, read_stil};

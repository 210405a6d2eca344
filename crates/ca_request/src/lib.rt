//! What the words of a command name of a linked chip: vectors, and a defect of a library instance.
#![tactic(auto)]

mod defects;
mod vectors;

pub use defects::{find_defect, find_named};
pub use vectors::{Vectors, find_vectors, letters_of, trit};

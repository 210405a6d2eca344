//! The check of a certificate for a linked chip.
#![tactic(auto)]

mod checking;
mod outputs;

pub use checking::{check_chip, check_over};

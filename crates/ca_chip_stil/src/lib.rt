//! The pairs of a linked chip as a STIL text: what the text needs of the chip and of its scan chains.
#![tactic(auto)]

mod build;
mod chains;
mod fits;
mod laws;
mod names;
mod ports;
mod write;

pub use build::stil_chip;
pub use fits::are_of_chip;
pub use laws::sites_are_ends;
pub use write::write_chip_stil;

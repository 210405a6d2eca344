//! The table of scan cells, and the scan chains of a chip.
#![tactic(auto)]

mod fault;
mod fields;
mod follow;
mod joints;
mod laws;
mod pins;
mod table;
mod takers;
mod tally;
mod whole;

pub use ca_wiring::{ScanRow, ScanTable};
pub use fault::{ChainFault, ScanFault};
pub use laws::{chains_are_one, chips_have_one_answer, runs_are_short};
pub use table::read_table;
pub use whole::{Chains, MOST_CHAINS, trace};

//! The commands on one cell: what each finds in its file, and the lines that report it.
#![tactic(auto)]

mod inputs;
mod lines;
mod listing;
mod outputs;
mod pin_values;
mod tables;
mod values;

pub use lines::{lines_of_names, summary};
pub use listing::find_names;
pub use pin_values::{PinValue, PinValues, lines_of_values};
pub use tables::find_matrix;
pub use values::find_values;

//! What the output pins of a cell end with in 64 rows at once, with a defect or without. All memory is taken
//! beforehand.
#![tactic(auto)]

mod digits;
mod load;
mod room;
mod settle;

pub use room::RowRoom;
pub use settle::{row_ends, settle_rows};

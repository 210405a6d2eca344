//! For each defect of a linked chip the rows that expose it, found once for each library cell that it uses.
#![tactic(auto)]

mod cell_rows;
mod cells;
mod chip_rows;

pub use ca_flat::ExposableDefects;
pub use cell_rows::CellRows;
pub use chip_rows::ChipRows;

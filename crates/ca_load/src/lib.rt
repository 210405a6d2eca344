//! What all commands on a chip begin with: the library, the netlist and the table of scan cells are read from
//! their files, linked, and the chains are traced.
#![tactic(auto)]

mod cells;
mod files;
mod linking;
mod loading;
mod netlists;
mod reading;
mod strengths;
mod tables;

pub use cells::{CellNames, MAX_CELLS, TypedCells, open_library, typed_cells};
pub use files::read_input;
pub use loading::{FileNames, Loaded, load};
pub use netlists::MAX_NETLIST;
pub use strengths::MAX_STRENGTHS;
pub use tables::MAX_SCAN;

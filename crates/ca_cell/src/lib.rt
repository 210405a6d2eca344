//! Library cells: subcircuits as they were read, the rules that a used cell keeps, the networks of the cells
//! that keep them, and the defects of a cell: their list and names, the network of a cell with a defect,
//! which borrows the cell, and in specs/ which pairs of vectors expose a defect.
#![tactic(auto)]

mod cell;
mod check;
mod defect;
mod defect_laws;
mod laws;
mod library;
mod list;
mod listing;
mod names;
mod overlay;
mod raw;
mod row;
mod rule;
mod search;
mod strength;

pub use cell::Cell;
pub use defect::{Defect, changed_device};
pub use defect_laws::{defect_names_differ, lists_defects};
pub use laws::limits;
pub use library::{Entry, Library, LibraryFault, MOST_CELLS};
pub use list::DefectList;
pub use listing::defects;
pub use names::{defect_name, defect_names};
pub use overlay::Overlay;
pub use raw::{RawCell, RawDevice, RawDevices, RawPin, RawPins, Role, has_gate};
pub use row::{Row, Rows};
pub use rule::{CellFault, CellRule, MOST_DEVICES, MOST_INPUTS, MOST_NODES, MOST_OUTPUTS};
pub use search::parse_defect;
pub use strength::{Ratio, StrengthTable};

//! Whether a cell is static: whether each definite vector alone, whatever came before, says what it ends
//! with; and what that is.
#![tactic(auto)]

mod last_table;
mod statics;

pub use last_table::LastTable;
pub use statics::is_static;

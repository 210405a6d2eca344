//! What every crate shares: lists, the error of a call that fails only when out of memory, and in specs/ the
//! word for "the first that".
#![tactic(auto)]

mod list;
mod no_memory;

pub use list::List;
pub use no_memory::NoMemory;

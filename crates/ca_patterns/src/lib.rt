//! The patterns of a chip in a named file, read after the chip was linked and traced.
#![tactic(auto)]

mod loading;
mod patterns;
mod values;

pub use loading::{PatternedChip, load_patterns};
pub use patterns::{MAX_STIL, open_patterns};
pub use values::value_fault;

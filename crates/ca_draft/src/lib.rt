//! From a gate netlist whose instances keep their rules to a draft, whose nets have numbers.
#![tactic(auto)]

mod draft;
mod header;
mod instances;
mod marks;
mod pins;
mod renumber;
mod touched;

pub use draft::draft_of;
pub use header::{DeclaredBits, bit_name, bits_of, range_width};
pub use touched::{is_joined, push_constant};

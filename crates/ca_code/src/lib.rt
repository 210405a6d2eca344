//! Codes: those that are kept, a token in two bytes, and those that the rules of a search allow.
#![tactic(auto)]

mod code;
mod laws;
mod token;

pub use code::Code;
pub use laws::{filled_is_shown, search_codes_are_checked, search_codes_are_codes};
pub use token::{MOST_PATTERN_BITS, packed, unpacked};

//! A report reads as the records that were written. There is no code.
#![tactic(auto)]

mod laws;

pub use laws::report_is_read_back;

//! Strength tables: the five ratios that a text is, or its first record that breaks the form.
#![tactic(auto)]

mod fault;
mod number;
mod ratios;
mod read;

pub use fault::StrengthFault;
pub use number::MOST_NUMBER;
pub use read::read_strengths;

//! The texts of STIL that have this project's form, as a grammar, and the laws by which they read.
#![tactic(auto)]

mod laws;

pub use laws::{
    chip_text_is_of_the_form, named_values_are_allowed, stil_is_read_back, stil_reading,
};

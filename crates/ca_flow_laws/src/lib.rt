//! What the causes of faults and the answers of commands imply: laws. There is no code.
#![tactic(auto)]

mod laws;
mod patterns;

pub use laws::{
    answerable_has_no_cause, cause_is_reported, limits, names_mean_one_defect,
    never_neither_on_chip, one_cause, some_cause_or_answer,
};
pub use patterns::atpg_text_is_read;

//! A grade for each defect of a chip: the first of the given pairs that detects it, or none.
#![tactic(auto)]

mod grade;
mod judged;
mod marks;

pub use grade::{Grade, Grades};
pub use judged::{GradeFault, grade_judged};

//! Given pairs of a linked chip, judged and graded, with the texts that report it.
#![tactic(auto)]

mod grade;
mod judge;
mod texts;

pub use grade::grade_chip;
pub use judge::judge_chip;
pub use texts::{grade_report, grades_line};

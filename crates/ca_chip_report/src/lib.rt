//! The reports of a linked chip's verdicts and grades, and the lines that sum them up.
#![tactic(auto)]

mod fits;
mod grade_summary;
mod grades;
mod laws;
mod rows;
mod summary;
mod write;

pub use fits::are_reported;
pub use grade_summary::{GradeSummary, grade_line, summary_of_grades};
pub use grades::write_grades;
pub use laws::{counts_are_all, good_is_reported, graded_is_reported, ranked_is_library};
pub use rows::{cell_of, instance_of, name_of};
pub use summary::{Summary, add_count, one_if, summary_line, summary_of};
pub use write::write_chip_report;

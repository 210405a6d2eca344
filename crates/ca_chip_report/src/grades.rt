//! The report of a linked chip's grades.

ghost use Rattle.std.specs.Prelude.{◌≡◌, IfOk};
ghost use Rattle.ca_outputs.specs.Outputs.{output_names};
ghost use Rattle.ca_report.specs.Report.{report_text};
ghost use Rattle.ca_chip_report.specs.Grades.{grade_rows, AreGradesOf};

use crate::rows::{ChipRows, Found};
use ca_base::NoMemory;
use ca_flat::ChipDefect;
use ca_grade::Grades;
use ca_lex::Text;
use ca_linked::Chip;
use ca_outputs::output_names;
use ca_report::write_report;
use std::alloc::Global;

/// The report of a chip's grades: for each of these defects its instance, its cell, its name and its grade.
pub fn write_grades(
    alloc: Global,
    chip: &Chip,
    defects: &[ChipDefect],
    grades: &Grades,
) -> Result<Text, NoMemory>
    requires { AreGradesOf chip.now defects.now grades.now }
    ensures exact { IfOk result (λ text. text ≡ report_text (output_names chip.now)
        (grade_rows chip.now defects.now grades.now)) }
{
    let outputs = output_names(alloc, chip)?;
    let rows = ChipRows {
        chip,
        defects,
        found: Found::Grades(grades),
    };
    write_report(alloc, &outputs, &rows)
}

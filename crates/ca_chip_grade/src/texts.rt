//! The texts that report grades.

ghost use Rattle.std.specs.Prelude.{◌≡◌, IfOk};
ghost use Rattle.ca_engine.specs.ChipTask.{task_of};
ghost use Rattle.ca_grade.specs.Graded.{AreGraded};
ghost use Rattle.ca_chip_grade.specs.Texts.{grades_text, grades_line};

use ca_base::NoMemory;
use ca_chip_report::{grade_line, graded_is_reported, summary_of_grades, write_grades};
use ca_engine::chip_defects;
use ca_grade::Grades;
use ca_lex::Text;
use ca_linked::Chip;
use ca_pair::Pairs;
use ca_view::View;
use std::alloc::Global;

// The report over the chip's view.
#[tactic(auto, using(crate::proofs::TextLemmas::are_grades_of, crate::proofs::TextLemmas::is_report))]
fn report_over(
    alloc: Global,
    view: &View<'_>,
    pairs: &Pairs,
    grades: &Grades,
) -> Result<Text, NoMemory>
    requires { AreGraded (task_of view.now.chip 0) pairs.now grades.now }
    ensures { IfOk result (λ text. text ≡ grades_text view.now.chip grades.now) }
{
    let _ = pairs;
    graded_is_reported();
    view.viewed();
    let defects = chip_defects(alloc, view)?;
    write_grades(alloc, view.chip(), defects.as_slice(), grades)
}

/// The report of the grades of a linked chip's defects by these pairs.
pub fn grade_report(
    alloc: Global,
    chip: &Chip,
    pairs: &Pairs,
    grades: &Grades,
) -> Result<Text, NoMemory>
    requires { AreGraded (task_of chip.now 0) pairs.now grades.now }
    ensures { IfOk result (λ text. text ≡ grades_text chip.now grades.now) }
{
    let view = View::new(alloc, chip)?;
    let text = report_over(alloc, &view, pairs, grades);
    drop(view);
    text
}

/// The line that says how many defects have which grade, and how many pairs there are.
pub fn grades_line(alloc: Global, grades: &Grades, pairs: usize) -> Result<Text, NoMemory>
    ensures { IfOk result (λ text. text ≡ grades_line grades.now pairs) }
{
    grade_line(alloc, &summary_of_grades(grades, pairs))
}

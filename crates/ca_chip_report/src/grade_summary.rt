//! How many defects of a chip have which grade.

ghost use Rattle.std.specs.Prelude.{◌≡◌, IfOk};
ghost use Rattle.ca_chip_report.specs.GradeSummary.{is_grade_kind, grade_count, summary_of_grades};
ghost use Rattle.ca_chip_report.specs.GradeSummary.{grade_line};

use crate::summary::{add_count, one_if};
use ca_base::NoMemory;
use ca_grade::{Grade, Grades};
use ca_lex::Text;
use std::alloc::Global;

// A kind of grade.
#[derive(Clone, Copy)]
enum GradeKind {
    Credited,
    Unexposable,
    Uncredited,
}

/// How many defects there are, how many of them have each grade, and how many pairs are listed.
#[derive(Clone, Copy, Debug, PartialEq, Eq)]
pub struct GradeSummary {
    pub defects: usize,
    pub credited: usize,
    pub unexposable: usize,
    pub uncredited: usize,
    pub pairs: usize,
}

// Whether a grade is of a kind.
fn is_grade_kind(grade: Grade, kind: GradeKind) -> bool
    ensures { result ≡ is_grade_kind kind grade }
{
    match (kind, grade) {
        (GradeKind::Credited, Grade::Credited { .. }) => true,
        (GradeKind::Unexposable, Grade::Unexposable) => true,
        (GradeKind::Uncredited, Grade::Uncredited) => true,
        _ => false,
    }
}

// The number of grades of a kind.
fn grade_count(grades: &Grades, kind: GradeKind) -> usize
    ensures { result ≡ grade_count kind grades.now }
{
    let mut count = 0;
    for k in 0..grades.len() {
        count += one_if(is_grade_kind(grades.get(k), kind));
    }
    count
}

/// The summary of a chip's grades by `pairs` pairs. It looks at each grade once for each of the three kinds.
pub fn summary_of_grades(grades: &Grades, pairs: usize) -> GradeSummary
    ensures { result ≡ summary_of_grades grades.now pairs }
{
    GradeSummary {
        defects: grades.len(),
        credited: grade_count(grades, GradeKind::Credited),
        unexposable: grade_count(grades, GradeKind::Unexposable),
        uncredited: grade_count(grades, GradeKind::Uncredited),
        pairs,
    }
}

/// The line of a summary of grades.
pub fn grade_line(alloc: Global, summary: &GradeSummary) -> Result<Text, NoMemory>
    ensures { IfOk result (λ text. text ≡ grade_line summary.now) }
{
    let mut text = Text::new(alloc);
    add_count(&mut text, b"defects ", summary.defects)?;
    add_count(&mut text, b", credited ", summary.credited)?;
    add_count(&mut text, b", unexposable ", summary.unexposable)?;
    add_count(&mut text, b", uncredited ", summary.uncredited)?;
    add_count(&mut text, b", pairs ", summary.pairs)?;
    text.append(b"\n")?;
    Ok(text)
}

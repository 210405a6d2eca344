//! What is said of a defect by given pairs.

ghost use Rattle.std.specs.Prelude.{◌≡◌, ◌<◌, ◌+◌, length, map, IfOk};
ghost use Rattle.std.specs.Option.{option_copied};
ghost use Rattle.ca_grade.specs.code.Table.{grade_of};

use ca_base::{List, NoMemory};
use ca_credit::{Credits, Verdict};
use std::alloc::Global;

/// The grade of a defect of a chip.
#[derive(Clone, Copy, Debug, PartialEq, Eq)]
pub enum Grade {
    /// The first of the pairs that detects the defect, and the first observed output at which it does.
    Credited { pair: u32, output: u32 },
    /// No pair of vectors exposes the defect in its cell.
    Unexposable,
    /// Some pair of vectors exposes the defect in its cell, and none of the pairs detects it.
    Uncredited,
}

/// A grade for each defect, in order.
pub type Grades = List<Grade>;

// The grade of a defect with this verdict.
fn grade_of(verdict: Option<&Verdict>) -> Grade
    ensures { result ≡ grade_of (option_copied verdict.entry) }
{
    match verdict {
        None => Grade::Uncredited,
        Some(Verdict::Credited { pair, output }) => Grade::Credited {
            pair: *pair,
            output: *output,
        },
        Some(Verdict::Unexposable) => Grade::Unexposable,
        Some(Verdict::Untestable) => Grade::Uncredited,
        Some(Verdict::Aborted { code: _ }) => Grade::Uncredited,
    }
}

/// The grades of the defects with these verdicts.
pub(crate) fn grades_of(alloc: Global, credits: &Credits, count: usize) -> Result<Grades, NoMemory>
    requires { count ≡ length credits.now }
    ensures { IfOk result (λ grades. grades ≡ map grade_of credits.now) }
{
    let mut grades = List::with_room(alloc, count)?;
    for place in 0..count {
        grades.push(grade_of(credits.verdict(place)))?;
    }
    Ok(grades)
}

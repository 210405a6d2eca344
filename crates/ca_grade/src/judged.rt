//! Grades by pairs whose expected values are right.

ghost use Rattle.std.specs.Prelude.{◌≡◌, ◌<◌, ◌^◌, length, IfOk, IfErr, IsNone, MatchOption};
ghost use Rattle.std.specs.List.{All};
ghost use Rattle.ca_flat.specs.Pair.{bit_count};
ghost use Rattle.ca_expected.specs.Expected.{AreExpected};
ghost use Rattle.ca_expected.specs.Wrong.{IsFirstWrong};
ghost use Rattle.ca_grade.specs.GradeFault.{IsCause};
ghost use Rattle.ca_grade.specs.code.Table.{AreVerdictsAfter};
ghost use Rattle.ca_grade.specs.Graded.{AreGraded};
ghost use Rattle.ca_grade.specs.declared.judged.GradeFault.TheVariants as fault;

use crate::grade::{Grades, grades_of};
use crate::marks::marked;
use ca_base::{List, NoMemory};
use ca_credit::{Credits, keep_pairs};
use ca_expected::{WrongValue, wrong_output};
use ca_generate::{Bench, Watch};
use ca_net::Trit;
use ca_pair::Pair;
use std::alloc::Global;

/// Why pairs aren't graded: an expected value isn't what the good chip ends with, the first such one.
#[derive(Clone, Copy, Debug, PartialEq, Eq)]
pub enum GradeFault {
    Expected(WrongValue),
    NoMemory,
}

impl From<NoMemory> for GradeFault {
    ghost from_gives = { λ _ e. e ≡ fault.NoMemory };

    fn from(_: NoMemory) -> Self {
        GradeFault::NoMemory
    }
}

// Credits the pairs one after another: when one is loaded its expected values are judged too, and the first
// wrong one ends it. Before the first of each 64 these are kept in lanes.
fn credit_judged<B: Bench, T: Watch>(
    credits: &mut Credits,
    bench: &mut B,
    pairs: &[Pair],
    expected: &[List<Trit>],
    watch: &mut T,
) -> Option<WrongValue>
    requires few { length (B.task bench.old).defects < 2 ^ 32 }
    requires numbers { length pairs.now < 2 ^ 32 }
    requires bits { All (λ pair. length pair ≡ bit_count (B.task bench.old).chip) pairs.now }
    requires counted { length pairs.now ≡ length expected.now }
    requires values { All (λ values. length values ≡ length (B.task bench.old).chip.outputs) expected.now }
    requires before { AreVerdictsAfter (B.task bench.old) pairs.now 0 credits.old }
    ensures first { MatchOption result (AreExpected (B.task bench.old).chip pairs.now expected.now)
        (IsFirstWrong (B.task bench.old).chip pairs.now expected.now) }
    ensures after { IsNone result
        → AreVerdictsAfter (B.task bench.old) pairs.now (length pairs.now) credits.new }
    ensures task { B.task bench.new ≡ B.task bench.old }
{
    for place in 0..pairs.len() {
        keep_pairs(bench, pairs, place);
        credits.credit_pair(bench, &pairs[place], place as u32);
        if let Some(output) = wrong_output(bench, &expected[place]) {
            return Some(WrongValue {
                pair: place,
                output,
            });
        }
        watch.reported(place + 1, pairs.len());
    }
    None
}

/// A grade for each defect by the pairs, where all expected values are right. The watch is notified after
/// each pair.
pub fn grade_judged<B: Bench, T: Watch>(
    alloc: Global,
    bench: &mut B,
    pairs: &[Pair],
    expected: &[List<Trit>],
    watch: &mut T,
) -> Result<Grades, GradeFault>
    requires few { length (B.task bench.old).defects < 2 ^ 32 }
    requires numbers { length pairs.now < 2 ^ 32 }
    requires bits { All (λ pair. length pair ≡ bit_count (B.task bench.old).chip) pairs.now }
    requires counted { length pairs.now ≡ length expected.now }
    requires values { All (λ values. length values ≡ length (B.task bench.old).chip.outputs) expected.now }
    ensures graded { IfOk result (AreGraded (B.task bench.old) pairs.now) }
    ensures expected { IfOk result (λ grades. AreExpected (B.task bench.old).chip pairs.now expected.now) }
    ensures cause { IfErr result (IsCause (B.task bench.old).chip pairs.now expected.now) }
{
    let mut credits = marked(alloc, bench)?;
    let wrong = credit_judged(&mut credits, bench, pairs, expected, watch);
    let grades = match wrong {
        Some(wrong) => return Err(GradeFault::Expected(wrong)),
        None => grades_of(alloc, &credits, bench.defect_count())?,
    };
    Ok(grades)
}

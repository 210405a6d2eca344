//! Whether verdicts are on a list of defects.

ghost use Rattle.std.specs.Prelude.{◌≡◌, ◌<◌, ◌↔◌, IsSomeAnd, IsTrue, length, slice_get};
ghost use Rattle.std.specs.List.{All};
ghost use Rattle.ca_chip_report.specs.ChipReport.{IsVerdictWithin, IsGateDefect, AreReported};

use ca_credit::{Verdict, Verdicts};
use ca_flat::ChipDefect;
use ca_linked::Chip;

// Whether the output that a verdict credits, if it does, is one of `outputs` outputs.
fn is_within(verdict: &Verdict, outputs: usize) -> bool
    ensures { IsTrue result ↔ IsVerdictWithin outputs verdict.now }
{
    match verdict {
        Verdict::Credited { output, .. } => (*output as usize) < outputs,
        Verdict::Unexposable | Verdict::Untestable | Verdict::Aborted { .. } => true,
    }
}

// Whether this holds of the verdict at a place.
fn is_within_at(verdicts: &Verdicts, k: usize, outputs: usize) -> bool
    requires { k < length verdicts.now }
    ensures { IsTrue result ↔ IsSomeAnd (slice_get verdicts.now k) (IsVerdictWithin outputs) }
{
    is_within(verdicts.get(k), outputs)
}

// Whether it holds of all verdicts.
#[tactic(auto, using(ca_report::proofs::RowLemmas::all_here))]
fn are_within(verdicts: &Verdicts, outputs: usize) -> bool
    ensures { IsTrue result ↔ All (IsVerdictWithin outputs) verdicts.now }
{
    for k in 0..verdicts.len() {
        if !is_within_at(verdicts, k, outputs) {
            return false;
        }
    }
    true
}

/// Whether there is a verdict for each defect, and each output that is credited is an observed one: what a
/// report is asked of.
pub fn are_reported(chip: &Chip, defects: &[ChipDefect], verdicts: &Verdicts) -> bool
    requires { All (IsGateDefect chip.now) defects.now }
    ensures { IsTrue result ↔ AreReported chip.now defects.now verdicts.now }
{
    verdicts.len() == defects.len() && are_within(verdicts, chip.outputs())
}

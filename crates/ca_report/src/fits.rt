//! Whether verdicts are of a chip.

ghost use Rattle.std.specs.Prelude.{◌<◌, ◌↔◌, IsSomeAnd, IsTrue, length, slice_get};
ghost use Rattle.std.specs.List.{All};
ghost use Rattle.ca_report.specs.Report.{IsVerdictOf, IsRowOf};

use crate::rows::ReportRows;
use crate::verdict::Verdict;
use ca_lex::Names;

fn is_verdict_of(verdict: Verdict, outputs: usize) -> bool
    ensures { IsTrue result ↔ IsVerdictOf outputs verdict }
{
    match verdict {
        Verdict::Credited { output, .. } => (output as usize) < outputs,
        Verdict::Unexposable
        | Verdict::Untestable
        | Verdict::Aborted
        | Verdict::Uncredited
        | Verdict::Port
        | Verdict::Wide => true,
    }
}

fn is_row_of<R: ReportRows>(outputs: &Names, rows: &R, k: usize) -> bool
    requires { k < length (R.rows rows.now) }
    ensures { IsTrue result ↔ IsSomeAnd (slice_get (R.rows rows.now) k) (IsRowOf (length outputs.now)) }
{
    is_verdict_of(rows.verdict(k), outputs.len())
}

/// Whether each output that is credited is one of the observed outputs, of which these are the names: what
/// the report is asked of.
#[tactic(auto, using(crate::proofs::RowLemmas::all_here))]
pub fn are_of<R: ReportRows>(outputs: &Names, rows: &R) -> bool
    ensures { IsTrue result ↔ All (IsRowOf (length outputs.now)) (R.rows rows.now) }
{
    for k in 0..rows.len() {
        if !is_row_of(outputs, rows, k) {
            return false;
        }
    }
    true
}

//! Aborted defects of which it is known afterwards that no pair detects them.

ghost use Rattle.std.specs.Prelude.{◌≡◌, ◌<◌, ℕ, Bool, List, length, true};
ghost use Rattle.ca_flat.specs.declared.token.Token.{Token};
ghost use Rattle.ca_credit.specs.declared.verdict.Verdict.TheVariants.{Aborted};
ghost use Rattle.ca_credit.specs.Defects.{Task};
ghost use Rattle.ca_credit.specs.Good.{IsGood};
ghost use Rattle.ca_generate.specs.Known.{AreUntestable};

use crate::marks::is_marked;
use ca_credit::{Verdict, Verdicts};

/// Makes the aborted defects untestable whose places are marked, since no pair of the chip detects them.
/// There may be fewer marks than defects.
pub fn rule_out(verdicts: &mut Verdicts, untestable: &[bool])
    ensures { (task : Task) (pairs : List (List Bool)) (aims : List ℕ) → AreUntestable task untestable.now
        → IsGood task pairs aims verdicts.old → IsGood task pairs aims verdicts.new }
{
    for place in 0..verdicts.len() {
        rule_out_at(verdicts, untestable, place);
    }
}

// Makes the defect at a place untestable where it is aborted and the place is marked.
fn rule_out_at(verdicts: &mut Verdicts, untestable: &[bool], place: usize)
    requires { place < length verdicts.old }
    ensures good { (task : Task) (pairs : List (List Bool)) (aims : List ℕ)
        → AreUntestable task untestable.now
        → IsGood task pairs aims verdicts.old → IsGood task pairs aims verdicts.new }
    ensures as_many { length verdicts.new ≡ length verdicts.old }
{
    if is_marked(untestable, place) && is_aborted(verdicts.get(place)) {
        verdicts.rule_out(place);
    }
}

// Whether the search for the defect ended with its budget.
fn is_aborted(verdict: &Verdict) -> bool
    ensures { result ≡ true → (code : List Token) × (verdict.now ≡ Aborted code) }
{
    match verdict {
        Verdict::Aborted { code: _ } => true,
        _ => false,
    }
}

//! What the defect that is aimed at predicts.

ghost use Rattle.std.specs.Prelude.{◌≡◌, ◌<◌, ◌≤◌, ◌^◌, ◌↔◌, [], ◌∷◌, length, IsTrue, Some};
ghost use Rattle.std.specs.List.{All};
ghost use Rattle.ca_flat.specs.declared.chip_defect.ChipDefect.{ChipDefect};
ghost use Rattle.ca_diag.specs.Candidates.{AreSoMany};
ghost use Rattle.ca_diag.specs.code.Failing.{AreMarked};
ghost use Rattle.ca_diag.specs.code.Judged.{prediction_of, IsPrediction, IsAgainstAt, IsAgainstSome, FailsAt};

use crate::failing::Failing;
use ca_credit::Simulator;
use ca_net::Trit;

/// What a defect predicts at a place; nothing, where one of the chips ends with no value that is certain.
#[derive(Clone, Copy)]
pub(crate) enum Prediction {
    Fail,
    Pass,
    Unknown,
}

// What the values with which the good and the faulty chip end say.
fn prediction_of(good: Trit, faulty: Trit) -> Prediction
    ensures { result ≡ prediction_of good faulty }
{
    match (good, faulty) {
        (Trit::Zero, Trit::Zero) | (Trit::One, Trit::One) => Prediction::Pass,
        (Trit::Zero, Trit::One) | (Trit::One, Trit::Zero) => Prediction::Fail,
        (Trit::X, _) | (_, Trit::X) => Prediction::Unknown,
    }
}

// What the defect predicts at an observed output, under the bits that are set.
fn predicted<S: Simulator>(sim: &S, output: u32) -> Prediction
    requires within { output < length (S.task sim.now).chip.outputs }
    requires own { S.aimed_in sim.now ≡ (S.task sim.now).chip }
    ensures { (defect : ChipDefect) → S.aimed sim.now ≡ Some defect
        → IsPrediction (S.task sim.now).chip defect (S.bits sim.now) output result }
{
    prediction_of(sim.good_end(output), sim.faulty_end(output))
}

// Whether this is against the defect.
fn is_against<S: Simulator>(sim: &S, failing: &Failing<'_>, output: u32) -> bool
    requires within { output < length (S.task sim.now).chip.outputs }
    requires own { S.aimed_in sim.now ≡ (S.task sim.now).chip }
    requires room { length failing.now.marks.now ≡ length (S.task sim.now).chip.outputs }
    requires marked { AreMarked failing.now.outputs.now failing.now.marks.now }
    ensures { (defect : ChipDefect) → S.aimed sim.now ≡ Some defect → IsTrue result
        ↔ IsAgainstAt (S.task sim.now).chip (S.bits sim.now) failing.now.outputs.now defect output }
{
    match predicted(sim, output) {
        Prediction::Fail => !failing.marks[output as usize],
        Prediction::Pass => failing.marks[output as usize],
        Prediction::Unknown => false,
    }
}

/// Whether some observed output is against the defect.
pub(crate) fn is_contradicted<S: Simulator>(sim: &S, failing: &Failing<'_>) -> bool
    requires own { S.aimed_in sim.now ≡ (S.task sim.now).chip }
    requires room { length failing.now.marks.now ≡ length (S.task sim.now).chip.outputs }
    requires marked { AreMarked failing.now.outputs.now failing.now.marks.now }
    ensures { (defect : ChipDefect) → S.aimed sim.now ≡ Some defect → IsTrue result
        ↔ IsAgainstSome (S.task sim.now).chip (S.bits sim.now) failing.now.outputs.now defect }
{
    for output in 0..sim.output_count() {
        if is_against(sim, failing, output) {
            return true;
        }
    }
    false
}

// One where the defect predicts a fail.
fn one_if_fail<S: Simulator>(sim: &S, output: u32) -> u32
    requires within { output < length (S.task sim.now).chip.outputs }
    requires own { S.aimed_in sim.now ≡ (S.task sim.now).chip }
    ensures one { (defect : ChipDefect) → S.aimed sim.now ≡ Some defect
        → AreSoMany (FailsAt (S.task sim.now).chip defect (S.bits sim.now)) (output ∷ []) result }
    ensures few { result ≤ 1 }
{
    match predicted(sim, output) {
        Prediction::Fail => 1,
        Prediction::Pass | Prediction::Unknown => 0,
    }
}

/// At how many of the outputs that were logged the defect predicts a fail.
pub(crate) fn explained<S: Simulator>(sim: &S, failing: &Failing<'_>) -> u32
    requires few { length failing.now.outputs.now < 2 ^ 32 }
    requires within { All (λ output. output < length (S.task sim.now).chip.outputs) failing.now.outputs.now }
    requires own { S.aimed_in sim.now ≡ (S.task sim.now).chip }
    ensures { (defect : ChipDefect) → S.aimed sim.now ≡ Some defect
        → AreSoMany (FailsAt (S.task sim.now).chip defect (S.bits sim.now)) failing.now.outputs.now result }
{
    let mut count = 0;
    for k in 0..failing.outputs.len() {
        count += one_if_fail(sim, failing.outputs.get(k));
    }
    count
}

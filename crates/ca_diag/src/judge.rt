//! Whether a pair is against a defect, and what the defect explains of its records.

ghost use Rattle.std.specs.Prelude.{◌≡◌, ◌<◌, ◌^◌, length};
ghost use Rattle.std.specs.List.{All};
ghost use Rattle.ca_flat.specs.declared.chip_defect.ChipDefect.{ChipDefect};
ghost use Rattle.ca_credit.specs.Defects.{IsDefectAt, IsOfOneChip};
ghost use Rattle.ca_diag.specs.code.Failing.{AreMarked};
ghost use Rattle.ca_diag.specs.code.Judged.{IsJudged};

use crate::failing::Failing;
use crate::predict::{explained, is_contradicted};
use crate::screen::{Screen, screened};
use ca_credit::Simulator;

// The same by waves alone.
fn judge_by_waves<S: Simulator>(sim: &mut S, failing: &Failing<'_>, place: usize) -> Option<u32>
    requires within { place < length (S.task sim.old).defects }
    requires one_chip { IsOfOneChip (S.task sim.old) }
    requires few { length failing.now.outputs.now < 2 ^ 32 }
    requires outputs { All (λ output. output < length (S.task sim.old).chip.outputs) failing.now.outputs.now }
    requires room { length failing.now.marks.now ≡ length (S.task sim.old).chip.outputs }
    requires marked { AreMarked failing.now.outputs.now failing.now.marks.now }
    ensures judged { (defect : ChipDefect) → IsDefectAt (S.task sim.old) place defect
        → IsJudged (S.task sim.old).chip (S.bits sim.old) failing.now.outputs.now defect result }
    ensures task { S.task sim.new ≡ S.task sim.old }
    ensures bits { S.bits sim.new ≡ S.bits sim.old }
{
    sim.aim(place);
    if is_contradicted(sim, failing) {
        return None;
    }
    Some(explained(sim, failing))
}

/// Nothing where the bits that are set are against the defect at this place of the list; else the number of
/// the outputs that were logged at which it predicts a fail. It is aimed at only where rows and last values
/// alone don't say so.
pub(crate) fn judge<S: Simulator>(sim: &mut S, failing: &Failing<'_>, place: usize) -> Option<u32>
    requires within { place < length (S.task sim.old).defects }
    requires one_chip { IsOfOneChip (S.task sim.old) }
    requires few { length failing.now.outputs.now < 2 ^ 32 }
    requires outputs { All (λ output. output < length (S.task sim.old).chip.outputs) failing.now.outputs.now }
    requires room { length failing.now.marks.now ≡ length (S.task sim.old).chip.outputs }
    requires marked { AreMarked failing.now.outputs.now failing.now.marks.now }
    ensures judged { (defect : ChipDefect) → IsDefectAt (S.task sim.old) place defect
        → IsJudged (S.task sim.old).chip (S.bits sim.old) failing.now.outputs.now defect result }
    ensures task { S.task sim.new ≡ S.task sim.old }
    ensures bits { S.bits sim.new ≡ S.bits sim.old }
{
    match screened(sim, failing, place) {
        Screen::Stays => Some(0),
        Screen::Leaves => None,
        Screen::Undecided => judge_by_waves(sim, failing, place),
    }
}

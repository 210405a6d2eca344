//! What is known of a defect under a pair without waves.

ghost use Rattle.std.specs.Prelude.{◌≡◌, ◌<◌, List, length, IsFalse};
ghost use Rattle.ca_net.specs.declared.trit.Trit.{Trit};
ghost use Rattle.ca_flat.specs.declared.chip_defect.ChipDefect.{ChipDefect};
ghost use Rattle.ca_flat.specs.Chip.{Chip};
ghost use Rattle.ca_credit.specs.Defects.{IsDefectAt, IsOfOneChip};
ghost use Rattle.ca_credit.specs.Detection.{IsDecided};
ghost use Rattle.ca_diag.specs.code.Failing.{AreMarked};
ghost use Rattle.ca_diag.specs.code.Judged.{IsScreened, IsWithin};
ghost use Rattle.ca_diag.specs.declared.screen.Screen.TheVariants.{Stays};

use crate::failing::Failing;
use ca_credit::{ByLasts, Simulator};

/// What is known of a defect under a pair without waves.
#[derive(Clone, Copy)]
pub(crate) enum Screen {
    /// The pair isn't against it, and it explains nothing.
    Stays,
    /// The pair is against it.
    Leaves,
    /// Nothing.
    Undecided,
}

// Whether the pair may be against the defect or be explained by it: not where nothing was logged for it, and
// the rows that expose the defect rule it out.
#[tactic(auto, using(crate::proofs::ScreenLemmas::ruled_out_stays))]
fn may_matter<S: Simulator>(sim: &S, failing: &Failing<'_>, place: usize) -> bool
    requires within { place < length (S.task sim.now).defects }
    requires one_chip { IsOfOneChip (S.task sim.now) }
    ensures { (defect : ChipDefect) → IsDefectAt (S.task sim.now) place defect → IsFalse result
        → IsScreened (S.task sim.now).chip (S.bits sim.now) failing.now.outputs.now defect Stays }
{
    if !failing.outputs.is_empty() {
        return true;
    }
    sim.may_detect(place)
}

// What last values alone say of a defect, where they decide it.
#[tactic(auto, using(crate::proofs::ScreenLemmas::nowhere_stays, crate::proofs::ScreenLemmas::first_leaves))]
fn screened_by(lasts: ByLasts, failing: &Failing<'_>) -> Screen
    requires within { IsWithin (length failing.now.marks.now) lasts }
    requires marked { AreMarked failing.now.outputs.now failing.now.marks.now }
    ensures { (chip : Chip) (bits : List Trit) (defect : ChipDefect) → IsDecided chip defect bits lasts
        → IsScreened chip bits failing.now.outputs.now defect result }
{
    match lasts {
        ByLasts::At(output) => {
            if failing.marks[output as usize] {
                Screen::Undecided
            } else {
                Screen::Leaves
            }
        }
        ByLasts::Nowhere => {
            if failing.outputs.is_empty() {
                Screen::Stays
            } else {
                Screen::Undecided
            }
        }
        ByLasts::Undecided => Screen::Undecided,
    }
}

/// What the rows that expose a defect, and last values alone, say of it.
pub(crate) fn screened<S: Simulator>(sim: &mut S, failing: &Failing<'_>, place: usize) -> Screen
    requires within { place < length (S.task sim.old).defects }
    requires one_chip { IsOfOneChip (S.task sim.old) }
    requires room { length failing.now.marks.now ≡ length (S.task sim.old).chip.outputs }
    requires marked { AreMarked failing.now.outputs.now failing.now.marks.now }
    ensures screened { (defect : ChipDefect) → IsDefectAt (S.task sim.old) place defect
        → IsScreened (S.task sim.old).chip (S.bits sim.old) failing.now.outputs.now defect result }
    ensures task { S.task sim.new ≡ S.task sim.old }
    ensures bits { S.bits sim.new ≡ S.bits sim.old }
{
    if !may_matter(sim, failing, place) {
        return Screen::Stays;
    }
    let lasts = sim.by_lasts(place);
    screened_by(lasts, failing)
}

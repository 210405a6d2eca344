//! At which output the pair in hand detects the defect that is aimed at.

ghost use Rattle.std.specs.Prelude.{◌≡◌, ◌<◌, ◌↔◌, length, slice_index, IsTrue, Some};
ghost use Rattle.ca_flat.specs.declared.chip_defect.ChipDefect.{ChipDefect};
ghost use Rattle.ca_flat.specs.Pair.{DetectsAt};
ghost use Rattle.ca_credit.specs.Defects.{StandsIn};
ghost use Rattle.ca_credit.specs.Detection.{IsAnswer};

use crate::simulator::Simulator;
use ca_net::Trit;

// The first observed output at which the bits that are set detect the defect that is aimed at.
pub(crate) fn detecting_output<S: Simulator>(sim: &S) -> Option<u32>
    requires { StandsIn (S.task sim.now).chip (S.aimed_in sim.now) }
    ensures { (defect : ChipDefect) → S.aimed sim.now ≡ Some defect
        → IsAnswer (S.aimed_in sim.now) defect (S.bits sim.now) result }
{
    for output in 0..sim.output_count() {
        if detects_at(sim, output) {
            return Some(output);
        }
    }
    None
}

// Whether the good chip ends with a value there, and the one with the defect with the opposite.
fn detects_at<S: Simulator>(sim: &S, output: u32) -> bool
    requires within { output < length (S.task sim.now).chip.outputs }
    requires stands_in { StandsIn (S.task sim.now).chip (S.aimed_in sim.now) }

    ensures { (defect : ChipDefect) → S.aimed sim.now ≡ Some defect
        → IsTrue result ↔ DetectsAt (S.aimed_in sim.now) defect (S.bits sim.now)
        (slice_index (S.task sim.now).chip.outputs output) }
{
    match sim.good_end(output) {
        Trit::Zero => sim.faulty_end(output) == Trit::One,
        Trit::One => sim.faulty_end(output) == Trit::Zero,
        Trit::X => false,
    }
}

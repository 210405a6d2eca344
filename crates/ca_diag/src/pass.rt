//! A pass over the open candidates with one pair.

ghost use Rattle.std.specs.Prelude.{◌≡◌, ◌<◌, ◌+◌, ◌^◌, length, slice_get, Some};
ghost use Rattle.std.specs.List.{All};
ghost use Rattle.ca_credit.specs.Defects.{IsOfOneChip};
ghost use Rattle.ca_diag.specs.code.Failing.{AreMarked};
ghost use Rattle.ca_diag.specs.code.Pass.{IsPass};

use crate::candidate::Candidate;
use crate::failing::Failing;
use crate::judge::judge;
use ca_credit::Simulator;

// The candidate at a place.
fn candidate_at(list: &[Candidate], k: usize) -> Candidate
    requires { k < length list.now }
    ensures { slice_get list.now k ≡ Some result }
{
    list[k]
}

/// Leaves out each candidate that the bits which are set are against, and adds to the others what they
/// explain. The list shrinks where it is.
pub(crate) fn pass<S: Simulator>(list: &mut Vec<Candidate>, sim: &mut S, failing: &Failing<'_>)
    requires one_chip { IsOfOneChip (S.task sim.old) }
    requires within { All (λ one. one.defect < length (S.task sim.old).defects) list.old.items }
    requires few { All (λ one. one.explained + length failing.now.outputs.now < 2 ^ 32) list.old.items }
    requires outputs { All (λ output. output < length (S.task sim.old).chip.outputs) failing.now.outputs.now }
    requires room { length failing.now.marks.now ≡ length (S.task sim.old).chip.outputs }
    requires marked { AreMarked failing.now.outputs.now failing.now.marks.now }
    ensures passed { IsPass (S.task sim.old) (S.bits sim.old) failing.now.outputs.now
        list.old.items list.new.items }
    ensures task { S.task sim.new ≡ S.task sim.old }
{
    let mut kept = 0;
    for k in 0..list.len() {
        let one = candidate_at(list, k);
        if let Some(more) = judge(sim, failing, one.defect as usize) {
            list[kept] = Candidate {
                defect: one.defect,
                explained: one.explained + more,
            };
            kept += 1;
        }
    }
    list.truncate(kept);
}

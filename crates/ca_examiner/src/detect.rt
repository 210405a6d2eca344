//! At which observed output a pair detects a defect, and whether it may do so at all.

ghost use Rattle.std.specs.Prelude.{◌≡◌, ◌<◌, ◌^◌, length, IsFalse};
ghost use Rattle.ca_flat.specs.Pair.{IsShown};
ghost use Rattle.ca_flat.specs.Rows.{ListsExposingRows};
ghost use Rattle.ca_view.specs.Linked.{IsPlacedDefect, place_in};
ghost use Rattle.ca_cert.specs.Tested.{IsDetectingOutput};
ghost use Rattle.ca_examiner.specs.ChipExaminer.{AreNetworks};
ghost use Rattle.ca_examiner.specs.code.ChipExaminer.{IsSeenOf};
ghost use Rattle.ca_examiner.specs.code.Ends.{IsFirstOpposite};
ghost use Rattle.std.specs.List.{All};

use crate::rows::is_some_row_allowed;
use crate::standing::are_opposite;
use ca_cell::Rows;
use ca_flat::ChipDefect;
use ca_sim::NetWaves;
use ca_view::View;

// The first of the nets at which the waves end with opposite values.
fn first_opposite<V: NetWaves>(waves: &V, outputs: &[u32]) -> Option<u32>
    requires within { All (λ net. net < length (V.seen waves.now).chip.nets) outputs.now }
    requires few { length outputs.now < 2 ^ 32 }
    ensures { IsFirstOpposite (V.seen waves.now) outputs.now result }
{
    for output in 0..outputs.len() {
        let net = outputs[output] as usize;
        if are_opposite(waves.good(net).last, waves.faulty(net).last) {
            return Some(output as u32);
        }
    }
    None
}

/// The first observed output at which the pair detects the defect that is aimed at.
pub(crate) fn detecting_output<V: NetWaves>(
    chip: &View<'_>,
    waves: &V,
    outputs: &[u32],
    defect: ChipDefect,
) -> Option<u32>
    requires seen { IsSeenOf chip.now.core (place_in chip.now.ranks) (V.seen waves.now) defect }
    requires outputs { outputs.now ≡ chip.now.core.outputs }
    requires few { length outputs.now < 2 ^ 32 }
    ensures { IsDetectingOutput (V.seen waves.now).chip defect (V.seen waves.now).pair result }
{
    chip.linked();
    waves.exact();
    first_opposite(waves, outputs)
}

/// Whether the rows that expose the defect let the pair show it.
pub(crate) fn may_show<V: NetWaves>(
    chip: &View<'_>,
    waves: &V,
    rows: &Rows,
    defect: ChipDefect,
) -> bool
    requires same { (V.seen waves.now).chip ≡ chip.now.core }
    requires networks { AreNetworks chip.now.core }
    requires defect { IsPlacedDefect chip.now.core (place_in chip.now.ranks) defect }
    requires rows { ListsExposingRows chip.now.core defect rows.now }
    ensures { IsFalse result → ¬ (IsShown (V.seen waves.now).chip defect (V.seen waves.now).pair) }
{
    chip.linked();
    waves.exact();
    is_some_row_allowed(chip, waves, defect.instance as usize, rows)
}

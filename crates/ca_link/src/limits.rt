//! The limits of a linked chip.

ghost use Rattle.std.specs.Prelude.{◌≡◌, ◌<◌, ◌≤◌, ◌^◌, length};
ghost use Rattle.std.specs.List.{All};
ghost use Rattle.ca_linked.specs.Linked.{IsBody};
ghost use Rattle.ca_link.specs.code.Limits as limits;

use ca_cell::Entry;
use ca_linked::{Body, Chip, Draft};
use ca_wiring::{
    ChipFault, MOST_CHIP_DEFECTS, MOST_CHIP_INPUTS, MOST_CHIP_OUTPUTS, MOST_INSTANCES,
};

// The number of defects of an instance.
fn body_defects(draft: &Draft, body: &Body) -> usize
    requires { IsBody draft.now.cells body.now }
    ensures count { result ≡ limits.body_defects draft.now.cells body.now }
    ensures few { result ≤ 2 ^ 14 }
{
    match body {
        Body::Gate { cell, .. } => match draft.library.entry(*cell as usize) {
            Entry::Sound(cell) => cell.defect_count(),
            Entry::Refused(_, _) => unreachable!(),
        },
        Body::Scan(_) => 0,
    }
}

/// The number of defects of a draft.
pub(crate) fn defects_of(draft: &Draft) -> usize
    requires bodies { All (λ part. IsBody draft.now.cells part.body) draft.now.parts }
    requires few { length draft.now.parts < 2 ^ 32 }
    ensures { result ≡ limits.chip_defects draft.now }
{
    let mut defects = 0;
    for u in 0..draft.parts() {
        defects += body_defects(draft, &draft.part(u).body);
    }
    defects
}

/// The first limit that a chip with `defects` defects passes.
pub(crate) fn first_limit(chip: &Chip, defects: usize) -> Option<ChipFault>
    ensures { result ≡ limits.first_limit chip.now defects }
{
    if MOST_INSTANCES < chip.instances() {
        Some(ChipFault::TooManyInstances {
            count: chip.instances(),
        })
    } else if MOST_CHIP_INPUTS < chip.inputs() {
        Some(ChipFault::TooManyInputs {
            count: chip.inputs(),
        })
    } else if MOST_CHIP_OUTPUTS < chip.outputs() {
        Some(ChipFault::TooManyOutputs {
            count: chip.outputs(),
        })
    } else if MOST_CHIP_DEFECTS < defects {
        Some(ChipFault::TooManyDefects { count: defects })
    } else {
        None
    }
}

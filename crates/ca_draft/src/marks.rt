//! Marks of the wires by which nets are known.

ghost use Rattle.std.specs.Prelude.{◌≡◌, ◌<◌, length, slice_index, IfOk};
ghost use Rattle.std.specs.List.{All};
ghost use Rattle.ca_draft.specs.code.OnWires.{AreMarks};

use ca_base::NoMemory;
use std::alloc::Global;

/// Marks the earliest wire of each that is listed.
pub(crate) fn marks_of(
    alloc: Global,
    earliest: &[u32],
    wires: &[u32],
) -> Result<Vec<bool>, NoMemory>
    requires listed { All (λ wire. slice_index earliest.now wire < length earliest.now) wires.now }
    requires within { All (λ wire. wire < length earliest.now) wires.now }
    ensures { IfOk result (λ used. AreMarks earliest.now wires.now used.items) }
{
    let mut used = vec![in alloc; false; earliest.len()]?;
    for k in 0..wires.len() {
        let first = earliest[wires[k] as usize];
        used[first as usize] = true;
    }
    Ok(used)
}

//! The cells that the library instances use.

ghost use Rattle.std.specs.Prelude.{◌≡◌, IfOk, OnOk};
ghost use Rattle.ca_linked.specs.Linked.{has};
ghost use Rattle.ca_linked.specs.Cells.{with_cell, used_cells};

use crate::draft::Draft;
use crate::parts::Body;
use ca_base::NoMemory;
use std::alloc::Global;

// Whether the list has a place.
fn has_place(places: &[u32], cell: u32) -> bool
    ensures { result ≡ has places.now cell }
{
    places.iter().any(|place| cell == *place)
}

// Appends the place of an instance's cell, if it is of the library and its cell is a new one.
fn push_cell(used: &mut Vec<u32>, body: &Body) -> Result<(), NoMemory>
    ensures { OnOk result (used.new.items ≡ with_cell used.old.items body.now) }
{
    match body {
        Body::Gate { cell, .. } => {
            if !has_place(used, *cell) {
                used.push(*cell)?;
            }
            Ok(())
        }
        Body::Scan(_) => Ok(()),
    }
}

/// The places in the library of the cells that library instances use, in the order of their first instances.
pub(crate) fn used_of(alloc: Global, draft: &Draft) -> Result<Vec<u32>, NoMemory>
    ensures { IfOk result (λ used. used.items ≡ used_cells draft.now) }
{
    let mut used = Vec::new(alloc);
    for u in 0..draft.parts() {
        push_cell(&mut used, &draft.part(u).body)?;
    }
    Ok(used)
}

//! The list of a chip's defects: those of its library instances, one after another.

ghost use Rattle.std.specs.Prelude.{◌≡◌, ◌++◌, ◌<◌, IfOk, OnOk};
ghost use Rattle.std.specs.List.{All};
ghost use Rattle.ca_flat.specs.Chip.{count_of};
ghost use Rattle.ca_linked.specs.Instances.{gates_of};
ghost use Rattle.ca_view.specs.Linked.{IsPlacedDefect, place_in};
ghost use Rattle.ca_chip_defects.specs.ChipDefects.{chip_defects};
ghost use Rattle.ca_chip_defects.specs.code.ChipDefects.{if_placed};

use ca_base::{List, NoMemory};
use ca_cell::defects;
use ca_flat::ChipDefect;
use ca_view::View;
use std::alloc::Global;

/// Defects of a chip, in order.
pub type ChipDefects = List<ChipDefect>;

/// The defects of a linked chip: by library instance in netlist order, and then in the order of its cell's
/// list. A scan instance, which has no place in the order of evaluation, has none.
pub fn chip_defects(alloc: Global, view: &View<'_>) -> Result<ChipDefects, NoMemory>
    ensures exact { IfOk result
        (λ list. list ≡ chip_defects view.now.core (gates_of view.now.chip)) }
    ensures placed { IfOk result
        (All (IsPlacedDefect view.now.core (place_in view.now.ranks))) }
{
    view.linked();
    view.viewed();
    let mut list = ChipDefects::new(alloc);
    for u in 0..view.instances() {
        add_instance(alloc, view, u, &mut list)?;
    }
    Ok(list)
}

// Appends the defects of an instance, if it has a place.
fn add_instance(
    alloc: Global,
    view: &View<'_>,
    u: usize,
    list: &mut ChipDefects,
) -> Result<(), NoMemory>
    requires known { u < count_of view.now.core }
    requires before { All (IsPlacedDefect view.now.core (place_in view.now.ranks)) list.old }

    ensures more { OnOk result (list.new ≡ list.old ++ chip_defects view.now.core
        (if_placed (place_in view.now.ranks u) u)) }
    ensures placed { OnOk result
        (All (IsPlacedDefect view.now.core (place_in view.now.ranks)) list.new) }
{
    if view.rank(u) == 0 {
        return Ok(());
    }
    view.linked();
    let defects = defects(alloc, view.cell(u))?;
    for defect in defects.as_slice() {
        list.push(ChipDefect {
            instance: u as u32,
            defect: *defect,
        })?;
    }
    Ok(())
}

//! The tables of the cells of a chip, and its instances by their places.

ghost use Rattle.std.specs.Prelude.{◌<◌, ◌≡◌, ◌+◌, None, Some, slice_set, length, IfOk};
ghost use Rattle.ca_view.specs.Linked.{place_in};
ghost use Rattle.ca_view.specs.Places.{cell_number};
ghost use Rattle.ca_sweep.specs.Tables.{AreTables, IsOrder};
ghost use Rattle.ca_sweep.specs.code.Cells.{FitsNumber};

use ca_base::NoMemory;
use ca_cell::Cell;
use ca_net::Network;
use ca_settle::Work;
use ca_static::LastTable;
use ca_view::View;
use std::alloc::Global;

/// For each number of a cell its table, if the cell is static.
pub type Tables = Vec<Option<LastTable>>;

/// The tables of the cells of all instances with a place.
pub fn tables_of(alloc: Global, chip: &View<'_>) -> Result<Tables, NoMemory>
    ensures { IfOk result (λ tables. AreTables chip.now.core (place_in chip.now.ranks)
        (cell_number chip.now.chip) tables.items) }
{
    let mut tables = Vec::new(alloc);
    for number in 0..chip.numbers() {
        tables.push(table_for(alloc, chip, number)?)?;
    }
    Ok(tables)
}

// The table of the cell with a number, if some instance has it.
fn table_for(alloc: Global, chip: &View<'_>, number: usize) -> Result<Option<LastTable>, NoMemory>
    ensures { IfOk result (FitsNumber chip.now.core (place_in chip.now.ranks)
        (cell_number chip.now.chip) number) }
{
    chip.linked();
    match instance_with(chip, number) {
        Some(u) => table_of(alloc, chip.cell(u)),
        None => Ok(None),
    }
}

ghost use Rattle.ca_static.specs.LastTable.{IsTableWhereStatic};
ghost use Rattle.ca_sim.specs.code.Cells.{IsOneOf};

// The table of a cell.
fn table_of(alloc: Global, cell: &Cell) -> Result<Option<LastTable>, NoMemory>
    ensures { IfOk result (IsTableWhereStatic cell.now) }
{
    let mut work = Work::reserve(alloc, cell.node_count(), cell.device_count())?;
    LastTable::of(alloc, cell, &mut work)
}

/// Some instance with a place whose cell has the number.
pub(crate) fn instance_with(chip: &View<'_>, number: usize) -> Option<usize>
    ensures { IsOneOf chip.now.core (place_in chip.now.ranks) (cell_number chip.now.chip) number result }
{
    for u in 0..chip.instances() {
        if chip.rank(u) > 0 && chip.number(u) == number {
            return Some(u);
        }
    }
    None
}

// Puts an instance at its place.
fn put_at(order: &mut Vec<Option<usize>>, place: usize, u: usize)
    requires { place < length order.old.items }
    ensures { order.new.items ≡ slice_set order.old.items place (Some u) }
{
    order[place] = Some(u);
}

/// The instances by their places: at each place its instance, if some instance has it.
pub fn order_of(alloc: Global, chip: &View<'_>) -> Result<Vec<Option<usize>>, NoMemory>
    ensures { IfOk result (λ order. IsOrder chip.now.core (place_in chip.now.ranks) order.items) }
{
    chip.linked();
    let mut order = vec![in alloc; None; chip.instances() + 1]?;
    for u in 0..chip.instances() {
        let place = chip.rank(u);
        if place > 0 {
            put_at(&mut order, place, u);
        }
    }
    Ok(order)
}

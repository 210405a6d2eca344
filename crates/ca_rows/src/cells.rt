//! The rows of the library cells that instances are of.

ghost use Rattle.std.specs.Prelude.{◌≡◌, length, replicate, None, IfOk};
ghost use Rattle.ca_linked.specs.Instances.{gates_of};
ghost use Rattle.ca_rows.specs.code.ChipTable.{AreFound};

use crate::cell_rows::CellRows;
use ca_base::NoMemory;
use ca_linked::Chip;
use std::alloc::Global;

/// For each cell of the library its rows, if they were found.
pub(crate) type Tables<'a> = Vec<Option<CellRows<'a>>>;

// So many cells, of which no rows were found.
fn no_tables<'a>(alloc: Global, count: usize) -> Result<Tables<'a>, NoMemory>
    ensures { IfOk result (λ tables. tables.items ≡ replicate count None) }
{
    let mut tables = Vec::new(alloc);
    for _ in 0..count {
        tables.push(None)?;
    }
    Ok(tables)
}

/// The rows of the cell of each library instance, found once for each cell.
pub(crate) fn tables_of<'a>(alloc: Global, chip: &'a Chip) -> Result<Tables<'a>, NoMemory>
    ensures { IfOk result (λ tables. AreFound chip.now (length (gates_of chip.now)) tables.items) }
{
    chip.wired();
    let mut tables = no_tables(alloc, chip.library_cells())?;
    for k in 0..chip.instances() {
        let u = chip.instance(k);
        let place = chip.library_place(u);
        if tables[place].is_none() {
            tables[place] = Some(CellRows::new(alloc, chip.cell_of(u))?);
        }
    }
    Ok(tables)
}

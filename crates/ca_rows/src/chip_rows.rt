//! For each defect of a linked chip the rows that expose it.

ghost use Rattle.std.specs.Prelude.{◌≡◌, IfOk};
ghost use Rattle.ca_flat.specs.Chip.{cell_at};
ghost use Rattle.ca_linked.specs.Linked.{IsLibrary};
ghost use Rattle.ca_view.specs.Core.{core_of};

use crate::cell_rows::CellRows;
use crate::cells::{Tables, tables_of};
use ca_base::NoMemory;
use ca_cell::Rows;
use ca_flat::{ChipDefect, ExposableDefects, ExposingRows};
use ca_linked::{Chip, InstanceId};
use std::alloc::Global;
use std::marker::Model;

/// For each defect of a linked chip the rows that expose it in its cell. They are found once for each library
/// cell that an instance is of. No row exposes a defect of a scan instance, whose cell has no devices.
#[derive(Drop)]
pub struct ChipRows<'a> {
    chip: &'a Chip,
    tables: Tables<'a>,
    // the rows of a scan instance's defects
    none: Rows,
}

impl<'a> Model for ChipRows<'a> {
    ghost use Rattle.ca_rows.specs.ChipTable.{ChipTable};
    ghost use Rattle.ca_rows.specs.code.ChipTable.{IsChipTable};

    ghost Value = { ChipTable };

    ghost view = { λ rows. record {
      chip = rows.chip.now;
      tables = rows.tables.items;
      none = rows.none;
    } };

    ghost invariant = { λ rows. IsChipTable (record {
      chip = rows.chip.now;
      tables = rows.tables.items;
      none = rows.none;
    }) };
}

impl<'a> ChipRows<'a> {
    /// The rows of all defects of a chip.
    pub fn new(alloc: Global, chip: &'a Chip) -> Result<Self, NoMemory>
        ensures { IfOk result (λ rows. rows.chip ≡ chip.now) }
    {
        chip.wired();
        Ok(ChipRows {
            chip,
            tables: tables_of(alloc, chip)?,
            none: Rows::new(alloc),
        })
    }

    /// The rows of a library instance's cell.
    pub fn table(&self, u: InstanceId) -> &CellRows<'a>
        requires { IsLibrary self.now.chip u.0 }
        ensures { result.now.cell ≡ cell_at (core_of self.now.chip) u.0 }
    {
        match &self.tables[self.chip.library_place(u)] {
            Some(table) => table,
            None => unreachable!(),
        }
    }
}

impl ExposingRows for ChipRows<'_> {
    ghost chip = { λ rows. core_of rows.chip };

    fn rows(&self, defect: ChipDefect) -> &Rows {
        let u = InstanceId(defect.instance);
        if self.chip.is_library(u) {
            self.table(u).rows(defect.defect)
        } else {
            &self.none
        }
    }
}

impl ExposableDefects for ChipRows<'_> {
    fn is_exposable(&self, defect: ChipDefect) -> bool {
        let u = InstanceId(defect.instance);
        self.chip.is_library(u) && self.table(u).is_exposable(defect.defect)
    }
}

//! For each defect of a cell the rows that expose it.

ghost use Rattle.std.specs.Prelude.{◌≡◌, ◌↔◌, length, IsTrue, IfOk};
ghost use Rattle.ca_cell.specs.List.{IsDefectOf};
ghost use Rattle.ca_cell.specs.Exposes.{IsExposable};
ghost use Rattle.ca_rows.specs.CellTable.{ListsRows};
ghost use Rattle.ca_rows.specs.code.CellTable.{AreShown};

use ca_base::NoMemory;
use ca_cell::{Cell, Defect, DefectList, Rows, defects, lists_defects};
use ca_matrix::Matrix;
use std::alloc::Global;
use std::marker::Model;

/// For each defect of a cell the rows that expose it.
#[derive(Drop)]
pub struct CellRows<'a> {
    cell: &'a Cell,
    defects: DefectList,
    rows: Vec<Rows>,
}

impl<'a> Model for CellRows<'a> {
    ghost use Rattle.ca_rows.specs.CellTable.{CellTable};
    ghost use Rattle.ca_rows.specs.code.CellTable.{IsCellTable};

    ghost Value = { CellTable };

    ghost view = { λ table. record {
      cell = table.cell.now;
      defects = table.defects;
      rows = table.rows.items;
    } };

    ghost invariant = { λ table. IsCellTable (record {
      cell = table.cell.now;
      defects = table.defects;
      rows = table.rows.items;
    }) };
}

impl<'a> CellRows<'a> {
    /// The rows of all defects of a cell, from its matrix, which is dropped.
    pub fn new(alloc: Global, cell: &'a Cell) -> Result<Self, NoMemory>
        ensures { IfOk result (λ table. table.cell ≡ cell.now) }
    {
        let defects = defects(alloc, cell)?;
        let matrix = Matrix::build(alloc, cell)?;
        let rows = all_rows(alloc, &matrix)?;
        Ok(CellRows {
            cell,
            defects,
            rows,
        })
    }

    /// The cell.
    pub fn cell(&self) -> &'a Cell
        ensures { result.now ≡ self.now.cell }
    {
        self.cell
    }

    /// The rows that expose a defect of the cell, in ascending order.
    pub fn rows(&self, defect: Defect) -> &Rows
        requires { IsDefectOf self.now.cell defect }
        ensures { ListsRows self.now.cell defect result.now }
    {
        lists_defects();
        for place in 0..self.defects.len() {
            if self.defects.get(place) == defect {
                return &self.rows[place];
            }
        }
        unreachable!()
    }

    /// Whether a defect of the cell is exposable.
    pub fn is_exposable(&self, defect: Defect) -> bool
        requires { IsDefectOf self.now.cell defect }
        ensures { IsTrue result ↔ IsExposable self.now.cell defect }
    {
        !self.rows(defect).is_empty()
    }
}

// The rows of each defect of a matrix.
fn all_rows(alloc: Global, matrix: &Matrix) -> Result<Vec<Rows>, NoMemory>
    ensures { IfOk result (λ rows. AreShown matrix.now (length matrix.now.defects) rows.items) }
{
    let mut rows = Vec::new(alloc);
    for place in 0..matrix.defect_count() {
        rows.push(matrix.rows(alloc, place)?)?;
    }
    Ok(rows)
}

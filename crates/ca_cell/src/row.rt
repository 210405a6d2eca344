//! Pairs of vectors of a cell, and lists of them.

ghost use Rattle.std.specs.Prelude.{◌≡◌, ◌<◌, ◌↔◌, [], ◌∷◌, ◌++◌, All, length, slice_get, IsTrue, OnOk};
ghost use Rattle.std.specs.Prelude.{OnErr};

use ca_base::NoMemory;
use std::alloc::Global;
use std::marker::Model;

/// A pair of definite vectors of a cell as binary numbers, in which the first input has the highest digit.
#[derive(Clone, Copy, Debug, PartialEq, Eq)]
pub struct Row {
    pub first: u8,
    pub last: u8,
}

/// Rows in ascending order, by their first vectors and then by their last ones.
#[derive(Drop, Debug)]
pub struct Rows {
    rows: Vec<Row>,
}

impl Model for Rows {
    ghost use Rattle.std.specs.Prelude.{List};
    ghost use Rattle.ca_cell.specs.declared.row.Row.{Row};
    ghost use Rattle.ca_cell.specs.Row.{IsAscending};

    ghost Value = { List Row };

    ghost view = { λ rows. rows.rows.items };

    ghost invariant = { λ rows. IsAscending rows.rows.items };
}

impl Rows {
    ghost use Rattle.ca_cell.specs.Row.{IsBefore, IsAscending};

    /// The list of no rows.
    pub fn new(alloc: Global) -> Self
        ensures { result ≡ [] }
    {
        Rows {
            rows: Vec::new(alloc),
        }
    }

    /// The number of rows.
    pub fn len(&self) -> usize
        ensures { result ≡ length self.now }
    {
        self.rows.len()
    }

    /// Whether there are no rows.
    pub fn is_empty(&self) -> bool
        ensures { IsTrue result ↔ (self.now ≡ []) }
    {
        self.rows.is_empty()
    }

    /// The row at this place, counted from 0.
    pub fn get(&self, place: usize) -> Row
        requires { place < length self.now }
        ensures { slice_get self.now place ≡ Some result }
    {
        self.rows[place]
    }

    /// The rows as a slice.
    pub fn as_slice(&self) -> &[Row]
        ensures same { result.now ≡ self.now }
        ensures ascending { IsAscending self.now }
    {
        &self.rows
    }

    /// Appends a row, which follows all that are there.
    pub fn push(&mut self, row: Row) -> Result<(), NoMemory>
        requires { All (λ earlier. IsBefore earlier row) self.old }
        ensures ok { OnOk result (self.new ≡ self.old ++ row ∷ []) }
        ensures err { OnErr result (self.new ≡ self.old) }
    {
        Ok(self.rows.push(row)?)
    }
}

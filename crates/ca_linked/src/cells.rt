//! The cells of library instances, and library instances by name.

ghost use Rattle.std.specs.Prelude.{ℕ, ◌≡◌, ◌<◌, ◌↔◌, true, length, IsTrue, IsSomeAnd, IfSome, IfNone};
ghost use Rattle.std.specs.Prelude.{Some, slice_get};
ghost use Rattle.ca_linked.specs.Linked.{IsLibrary, cell_of, has};
ghost use Rattle.ca_linked.specs.Instances.{IsOfCell, IsCellOf, IsNamedGate};
ghost use Rattle.ca_linked.specs.code.Instances.{HasNamed};
ghost use Rattle.ca_linked.specs.Cells.{used_cells, IsOfUsedCell};

use crate::chip::Chip;
use crate::instances::InstanceId;
use crate::parts::Body;
use ca_cell::{Cell, Entry};

impl Chip {
    /// The number of cells that library instances use.
    pub fn cells(&self) -> usize
        ensures { result ≡ length (used_cells self.now) }
    {
        self.used.len()
    }

    /// The number of cells of the library.
    pub fn library_cells(&self) -> usize
        ensures { result ≡ length self.now.cells }
    {
        self.library.len()
    }

    // The place of a library instance's cell in the library.
    fn cell_place(&self, u: InstanceId) -> u32
        requires { IsLibrary self.now u.0 }
        ensures of { IsSomeAnd (slice_get self.now.parts u.0) (λ part. IsOfCell result part.body) }
        ensures within { result < length self.now.cells }
        ensures used { has (used_cells self.now) result ≡ true }
    {
        match &self.parts[u.0 as usize].body {
            Body::Gate { cell, .. } => *cell,
            Body::Scan(_) => unreachable!(),
        }
    }

    /// The place of a library instance's cell in the library.
    pub fn library_place(&self, u: InstanceId) -> usize
        requires { IsLibrary self.now u.0 }
        ensures of { IsSomeAnd (slice_get self.now.parts u.0) (λ part. IsOfCell result part.body) }
        ensures within { result < length self.now.cells }
    {
        self.cell_place(u) as usize
    }

    // The number of the cell at a place of the library, if it is used.
    fn number_of(&self, cell: u32) -> Option<usize>
        ensures some { IfSome result (λ k. slice_get (used_cells self.now) k ≡ Some cell) }
        ensures none { IfNone result ((k : ℕ) → slice_get (used_cells self.now) k ≡ Some cell → ⊥) }
    {
        for k in 0..self.used.len() {
            if self.used[k] == cell {
                return Some(k);
            }
        }
        None
    }

    /// The number of a library instance's cell among those that library instances use, counted from 0 in the
    /// order of their first instances. It looks through all of them.
    pub fn cell_number(&self, u: InstanceId) -> usize
        requires { IsLibrary self.now u.0 }
        ensures of { IsSomeAnd (slice_get self.now.parts u.0)
            (λ part. IsOfUsedCell (used_cells self.now) result part.body) }
        ensures within { result < length (used_cells self.now) }
    {
        match self.number_of(self.cell_place(u)) {
            Some(number) => number,
            None => unreachable!(),
        }
    }

    /// The cell of a library instance.
    pub fn cell_of(&self, u: InstanceId) -> &Cell
        requires { IsLibrary self.now u.0 }
        ensures { IsSomeAnd (slice_get self.now.parts u.0)
            (λ part. IsCellOf self.now.cells part.body result.now) }
    {
        match self.library.entry(self.library_place(u)) {
            Entry::Sound(cell) => cell,
            Entry::Refused(_, _) => unreachable!(),
        }
    }

    // Whether the instance at a place of the order has this name.
    fn is_named(&self, k: usize, name: &[u8]) -> bool
        requires { k < length self.now.order }
        ensures named { IsTrue result → HasNamed self.now name.now k }
        ensures other { (u : ℕ) → slice_get self.now.order k ≡ Some u → IsNamedGate self.now name.now u
            → IsTrue result }
    {
        self.wired();
        self.instance_name(self.order(k)).is(name)
    }

    /// A library instance of this name: those of a netlist have different names. It looks through all of
    /// them.
    pub fn find_instance(&self, name: &[u8]) -> Option<InstanceId>
        ensures some { IfSome result (λ u. IsNamedGate self.now name.now u.0) }
        ensures none { IfNone result ((u : ℕ) → IsNamedGate self.now name.now u → ⊥) }
    {
        for k in 0..self.order.len() {
            if self.is_named(k, name) {
                return Some(self.order(k));
            }
        }
        None
    }
}

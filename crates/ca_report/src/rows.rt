//! What a report says, however it is kept.

ghost use Rattle.std.specs.Prelude.{◌≡◌, ◌<◌, length, slice_get, IsSomeAnd, IfOk};

use crate::verdict::Verdict;
use ca_base::{List, NoMemory};
use ca_lex::Text;
use std::alloc::Global;

/// A defect: the instance as the netlist spells it, the cell and the defect in upper case, and the verdict.
#[derive(Drop)]
pub struct ReportRow {
    pub instance: Text,
    pub cell: Text,
    pub defect: Text,
    pub verdict: Verdict,
}

/// The defects of a chip in order, each with its names and its verdict. Contracts see them as a list of rows.
pub trait ReportRows {
    ghost use Rattle.std.specs.Prelude.{List};
    ghost use Rattle.ca_report.specs.declared.rows.ReportRow.{ReportRow};

    /// For each defect its row.
    ghost rows: { Self → List ReportRow };

    /// The number of defects.
    fn len(&self) -> usize
        ensures { result ≡ length (rows self.now) };

    /// The instance of a defect.
    fn instance(&self, k: usize) -> &[u8]
        requires { k < length (rows self.now) }
        ensures { IsSomeAnd (slice_get (rows self.now) k) (λ row. row.instance ≡ result.now) };

    /// The cell of a defect.
    fn cell(&self, k: usize) -> &[u8]
        requires { k < length (rows self.now) }
        ensures { IsSomeAnd (slice_get (rows self.now) k) (λ row. row.cell ≡ result.now) };

    /// The name of a defect.
    fn defect(&self, alloc: Global, k: usize) -> Result<Text, NoMemory>
        requires { k < length (rows self.now) }
        ensures { IfOk result (λ name. IsSomeAnd (slice_get (rows self.now) k) (λ row. row.defect ≡ name)) };

    /// The verdict on a defect.
    fn verdict(&self, k: usize) -> Verdict
        requires { k < length (rows self.now) }
        ensures { IsSomeAnd (slice_get (rows self.now) k) (λ row. row.verdict ≡ result) };
}

impl ReportRows for List<ReportRow> {
    ghost rows = { λ list. list };

    fn len(&self) -> usize {
        List::len(self)
    }

    fn instance(&self, k: usize) -> &[u8] {
        self.as_slice()[k].instance.as_bytes()
    }

    fn cell(&self, k: usize) -> &[u8] {
        self.as_slice()[k].cell.as_bytes()
    }

    fn defect(&self, alloc: Global, k: usize) -> Result<Text, NoMemory> {
        self.as_slice()[k].defect.copy(alloc)
    }

    fn verdict(&self, k: usize) -> Verdict {
        self.as_slice()[k].verdict
    }
}

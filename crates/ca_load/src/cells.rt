//! The library in the file of a cell netlist.
ghost use Rattle.std.specs.Prelude.{◌≡◌, Some, map, IfErr, IfOk, OnOk};
ghost use Rattle.ca_cell.specs.Library.{raw_of};
ghost use Rattle.ca_store.specs.Store.{Nothing};
ghost use Rattle.ca_load.specs.Files.{OfFile, OnlyReads};
ghost use Rattle.ca_load.specs.Texts.{cells_of, AreTypedCells, OfCells, IsLibraryOf};
ghost use Rattle.ca_load.specs.Causes.{IsLibraryCause};
ghost use Rattle.ca_load.specs.code.Stages.{IsFileStage, IsCellsStage};

use crate::files::read_input;
use crate::strengths::open_strengths;
use ca_base::NoMemory;
use ca_cell::{Library, StrengthTable};
use ca_fault::{Fault, LimitKind};
use ca_lex::Text;
use ca_spice::{SpiceFault, read_library};
use ca_store::Store;
use std::alloc::Global;

/// The greatest number of bytes of a cell netlist: 16 MiB.
pub const MAX_CELLS: usize = 16_777_216;

/// The names of the files of a cell netlist: that of the strength table under which it is read, if there is
/// one, and its own.
#[derive(Clone, Copy)]
pub struct CellNames<'a> {
    pub table: Option<&'a str>,
    pub name: &'a str,
}

/// What faults say of these files. It is in memory of its own before the first of them is opened.
#[derive(Drop)]
pub struct TypedCells {
    pub table: Text,
    pub name: Text,
}

/// The names that faults of the files report.
pub fn typed_cells(alloc: Global, names: &CellNames<'_>) -> Result<TypedCells, NoMemory>
    ensures { IfOk result (AreTypedCells (cells_of names.now)) }
{
    let table = match names.table {
        Some(name) => Text::from_bytes(alloc, name.as_bytes())?,
        None => Text::new(alloc),
    };
    Ok(TypedCells {
        table,
        name: Text::from_bytes(alloc, names.name.as_bytes())?,
    })
}

/// The library that these files give: the strength table is read and judged whole, and then the cell netlist
/// under it. A fault of a file takes over its name as it was typed.
#[tactic(auto, using(crate::proofs::TableLemmas::at_strengths, crate::proofs::TableLemmas::at_cells, crate::proofs::TableLemmas::of_table, crate::proofs::ReadLemmas::reported_since))]
pub fn open_library<S: Store>(
    alloc: Global,
    names: &CellNames<'_>,
    typed: TypedCells,
    store: &mut S,
) -> Result<Library, Fault>
    requires closed { S.opened store.old ≡ Nothing }
    requires typed { AreTypedCells (cells_of names.now) typed }

    ensures ok { IfOk result (λ library.
        OfCells (S.files store.old) (cells_of names.now) (IsLibraryOf library)) }
    ensures cause { IfErr result (IsLibraryCause (cells_of names.now) (S.files store.old)
        (S.faults store.old) (S.faults store.new)) }
    ensures store { OnlyReads result (S.files store.old) (S.faults store.old)
        (S.files store.new) (S.faults store.new) (S.opened store.new) }
{
    let TypedCells { table, name } = typed;
    let strengths = open_strengths(alloc, names.table, table, store)?;
    open_cells(alloc, &strengths, names.name, name, store)
}

// The library in the file of this name, read under a strength table.
fn open_cells<S: Store>(
    alloc: Global,
    table: &StrengthTable,
    name: &str,
    typed: Text,
    store: &mut S,
) -> Result<Library, Fault>
    requires closed { S.opened store.old ≡ Nothing }
    requires typed { typed ≡ name.now }

    ensures ok { IfOk result (λ library.
        OfFile (S.files store.old) name.now MAX_CELLS (IsLibraryOf library table.now)) }
    ensures cause { IfErr result (IsFileStage table.now name.now (S.files store.old)
        (S.faults store.old) (S.faults store.new)) }
    ensures store { OnlyReads result (S.files store.old) (S.faults store.old)
        (S.files store.new) (S.faults store.new) (S.opened store.new) }
{
    let bytes = read_input(alloc, name, typed, MAX_CELLS, store)?;
    library_in(alloc, table, bytes.as_bytes())
}

// The library that the bytes read as.
fn library_in(alloc: Global, table: &StrengthTable, bytes: &[u8]) -> Result<Library, Fault>
    ensures reads { IfOk result (λ library. IsLibraryOf library table.now bytes.now) }
    ensures cause { IfErr result (IsCellsStage table.now bytes.now) }
{
    match read_library(alloc, table, bytes) {
        Ok(library) => Ok(library),
        Err(SpiceFault::At { line, kind }) => Err(Fault::Cells { line, kind }),
        Err(SpiceFault::TooManyCells { count }) => Err(Fault::Limit {
            kind: LimitKind::Cells,
            count,
        }),
        Err(SpiceFault::NoMemory) => Err(Fault::NoMemory),
    }
}

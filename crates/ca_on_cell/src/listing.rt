//! The names that `defects` asks for.
ghost use Rattle.std.specs.Prelude.{◌≡◌, Some, IfErr, IfOk, OnOk};
ghost use Rattle.ca_store.specs.Store.{Nothing};
ghost use Rattle.ca_cell.specs.Name.{names_of};
ghost use Rattle.ca_load.specs.Texts.{cells_of};
ghost use Rattle.ca_on_cell.specs.Cells.{OfCell};
ghost use Rattle.ca_on_cell.specs.Causes.{IsCellCause};
ghost use Rattle.ca_load.specs.Files.{OnlyReads};
ghost use Rattle.ca_on_cell.specs.Defects.{AreDefectNames};

use crate::inputs::{find_cell, typed_words};
use ca_base::NoMemory;
use ca_cell::{Cell, defect_names, defects};
use ca_fault::Fault;
use ca_lex::Names;
use ca_load::open_library;
use ca_store::Store;
use ca_words::CellWords;
use std::alloc::Global;

/// The names of the defects of the cell that the words name in their files.
#[tactic(auto, using(crate::proofs::FileLemmas::of_entry, crate::proofs::StageLemmas::of_entry_cause))]
pub fn find_names<S: Store>(
    alloc: Global,
    request: &CellWords<'_>,
    store: &mut S,
) -> Result<Names, Fault>
    requires closed { S.opened store.old ≡ Nothing }

    ensures names { IfOk result (λ names.
        OfCell (S.files store.old) (cells_of request.now.files) request.now.cell.now (AreDefectNames names)) }
    ensures cause { IfErr result (IsCellCause (cells_of request.now.files) request.now.cell.now
        (S.files store.old) (S.faults store.old) (S.faults store.new)) }
    ensures store { OnlyReads result (S.files store.old) (S.faults store.old)
        (S.files store.new) (S.faults store.new) (S.opened store.new) }
{
    let typed = typed_words(alloc, request)?;
    let library = open_library(alloc, &request.files, typed.cells, store)?;
    let cell = find_cell(alloc, &library, request.cell, typed.cell, typed.upper_cell)?;
    Ok(names_of(alloc, cell)?)
}

// The names of the cell's defects, in their order.
fn names_of(alloc: Global, cell: &Cell) -> Result<Names, NoMemory>
    ensures { IfOk result (λ names. names ≡ names_of cell.now) }
{
    let list = defects(alloc, cell)?;
    defect_names(alloc, cell, &list)
}

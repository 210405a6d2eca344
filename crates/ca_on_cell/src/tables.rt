//! The matrix that `matrix` asks for.
ghost use Rattle.std.specs.Prelude.{◌≡◌, Some, IfErr, IfOk, OnOk};
ghost use Rattle.ca_store.specs.Store.{Nothing};
ghost use Rattle.ca_load.specs.Texts.{cells_of};
ghost use Rattle.ca_on_cell.specs.Cells.{OfCell};
ghost use Rattle.ca_on_cell.specs.Causes.{IsCellCause};
ghost use Rattle.ca_load.specs.Files.{OnlyReads};
ghost use Rattle.ca_on_cell.specs.Defects.{IsSoundMatrix};

use crate::inputs::{find_cell, typed_words};
use ca_fault::Fault;
use ca_load::open_library;
use ca_matrix::Matrix;
use ca_store::Store;
use ca_words::CellWords;
use std::alloc::Global;

/// The matrix of the cell that the words name in their files.
#[tactic(auto, using(crate::proofs::FileLemmas::of_entry, crate::proofs::StageLemmas::of_entry_cause))]
pub fn find_matrix<S: Store>(
    alloc: Global,
    request: &CellWords<'_>,
    store: &mut S,
) -> Result<Matrix, Fault>
    requires closed { S.opened store.old ≡ Nothing }

    ensures matrix { IfOk result (λ matrix.
        OfCell (S.files store.old) (cells_of request.now.files) request.now.cell.now (IsSoundMatrix matrix)) }
    ensures cause { IfErr result (IsCellCause (cells_of request.now.files) request.now.cell.now
        (S.files store.old) (S.faults store.old) (S.faults store.new)) }
    ensures store { OnlyReads result (S.files store.old) (S.faults store.old)
        (S.files store.new) (S.faults store.new) (S.opened store.new) }
{
    let typed = typed_words(alloc, request)?;
    let library = open_library(alloc, &request.files, typed.cells, store)?;
    let cell = find_cell(alloc, &library, request.cell, typed.cell, typed.upper_cell)?;
    Ok(Matrix::build(alloc, cell)?)
}

//! The values that `respond` and `pair` ask for.
ghost use Rattle.std.specs.Prelude.{◌≡◌, Some, IfErr, IfOk, OnOk};
ghost use Rattle.ca_store.specs.Store.{Nothing};
ghost use Rattle.ca_cell.specs.Rules.{KeepsRules};
ghost use Rattle.ca_load.specs.Texts.{cells_of};
ghost use Rattle.ca_on_cell.specs.Cells.{OfCell};
ghost use Rattle.ca_on_cell.specs.Outputs.{letters_of, Fits, AreValues};
ghost use Rattle.ca_on_cell.specs.Causes.{IsValueCause};
ghost use Rattle.ca_on_cell.specs.code.Stages.{IsEvaluationCause, IsUnfit};
ghost use Rattle.ca_load.specs.Files.{OnlyReads};

use crate::inputs::{find_cell, typed_words};
use crate::outputs::values_of;
use crate::pin_values::PinValues;
use ca_cell::{Cell, Overlay, parse_defect};
use ca_fault::Fault;
use ca_lex::Text;
use ca_load::open_library;
use ca_request::letters_of;
use ca_store::Store;
use ca_words::PairWords;
use std::alloc::Global;

/// The values of the output pins of the cell that the words name in their files.
#[tactic(auto, using(crate::proofs::FileLemmas::of_entry, crate::proofs::StageLemmas::of_entry_cause, crate::proofs::StageLemmas::of_evaluation))]
pub fn find_values<S: Store>(
    alloc: Global,
    request: &PairWords<'_>,
    store: &mut S,
) -> Result<PinValues, Fault>
    requires closed { S.opened store.old ≡ Nothing }

    ensures values { IfOk result (λ values.
        OfCell (S.files store.old) (cells_of request.now.of.files) request.now.of.cell.now
        (AreValues request.now.first.now request.now.last.now request.now.defect.now values)) }
    ensures cause { IfErr result (IsValueCause (cells_of request.now.of.files) request.now.of.cell.now
        request.now.first.now request.now.last.now request.now.defect.now
        (S.files store.old) (S.faults store.old) (S.faults store.new)) }
    ensures store { OnlyReads result (S.files store.old) (S.faults store.old)
        (S.files store.new) (S.faults store.new) (S.opened store.new) }
{
    let typed = typed_words(alloc, &request.of)?;
    let library = open_library(alloc, &request.of.files, typed.cells, store)?;
    let cell = find_cell(
        alloc,
        &library,
        request.of.cell,
        typed.cell,
        typed.upper_cell,
    )?;
    evaluate(alloc, cell, request)
}

// The values of the cell's output pins.
fn evaluate(alloc: Global, cell: &Cell, request: &PairWords<'_>) -> Result<PinValues, Fault>
    ensures values { IfOk result (λ values. AreValues request.now.first.now request.now.last.now
        request.now.defect.now values cell.now) }
    ensures cause { IfErr result (IsEvaluationCause request.now.first.now request.now.last.now
        request.now.defect.now cell.now) }
{
    let first = vector_for(alloc, cell, request.first)?;
    let last = vector_for(alloc, cell, request.last)?;
    if request.defect == "-" {
        return Ok(values_of(alloc, cell, first, last)?);
    }
    let Some(defect) = parse_defect(cell, request.defect.as_bytes()) else {
        return Err(Fault::NoDefect {
            word: Text::from_bytes(alloc, request.defect.as_bytes())?,
        });
    };
    Ok(values_of(alloc, &Overlay::new(cell, defect), first, last)?)
}

// The letters of a vector that has one per input pin.
fn vector_for<'a>(alloc: Global, cell: &Cell, vector: &'a str) -> Result<&'a [u8], Fault>
    ensures letters { IfOk result (λ letters. letters.now ≡ letters_of vector.now) }
    ensures kept { OnOk result (KeepsRules cell.now) }
    ensures fits { OnOk result (Fits cell.now vector.now) }
    ensures cause { IfErr result (IsUnfit cell.now vector.now) }
{
    let letters = letters_of(vector);
    if letters.len() == cell.inputs() {
        Ok(letters)
    } else {
        Err(Fault::BadVector {
            word: Text::from_bytes(alloc, vector.as_bytes())?,
        })
    }
}

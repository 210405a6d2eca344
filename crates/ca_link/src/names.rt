//! The names of output pins.

ghost use Rattle.std.specs.Prelude.{◌≡◌, ◌<◌, length, IfOk, Some, slice_get, IsSomeAnd};
ghost use Rattle.std.specs.Option.{option_copied};
ghost use Rattle.ca_cell.specs.Raw.{is_output};
ghost use Rattle.ca_cell.specs.Library as library;
ghost use Rattle.ca_wiring.specs.Wiring as wiring;
ghost use Rattle.ca_wiring.specs.Wiring.{ScanCell, names_with, output_names};
ghost use Rattle.ca_linked.specs.Linked.{cell_of};
ghost use Rattle.ca_link.specs.code.Names.{part_outputs, IsOutputName};

use ca_base::NoMemory;
use ca_cell::{Entry, RawCell, RawPin};
use ca_lex::Text;
use ca_linked::{Body, Draft, Part};
use ca_wiring::ScanRow;
use std::alloc::Global;

/// The row of the scan table for a cell.
pub(crate) fn row_of<'a>(scan: &'a [ScanRow], cell: &Text) -> Option<&'a ScanRow>
    ensures { option_copied result ≡ wiring.row_of scan.now cell.now }
{
    for k in 0..scan.len() {
        if *cell == scan[k].cell {
            return Some(&scan[k]);
        }
    }
    None
}

// The subcircuit of an entry.
fn raw_of(entry: &Entry) -> &RawCell
    ensures { result.now ≡ library.raw_of entry.now }
{
    match entry {
        Entry::Sound(cell) => cell.raw(),
        Entry::Refused(raw, _) => raw,
    }
}

// The subcircuit at a place of a draft's library.
fn cell_at(draft: &Draft, place: u32) -> &RawCell
    requires { place < length draft.now.cells }
    ensures { result.now ≡ cell_of draft.now.cells place }
{
    raw_of(draft.library.entry(place as usize))
}

// The name of an output pin of a subcircuit.
fn library_output(alloc: Global, pins: &[RawPin], pin: usize) -> Result<Text, NoMemory>
    requires { pin < length (names_with is_output pins.now) }
    ensures { IfOk result (λ name. slice_get (names_with is_output pins.now) pin ≡ Some name) }
{
    let mut left = pin;
    for k in 0..pins.len() {
        if pins[k].role.is_output() {
            if left == 0 {
                return pins[k].name.copy(alloc);
            }
            left -= 1;
        }
    }
    unreachable!()
}

// The name of an output pin of a scan cell.
fn scan_output(alloc: Global, row: &ScanRow, pin: usize) -> Result<Text, NoMemory>
    requires { pin < length (output_names (ScanCell row.now)) }
    ensures { IfOk result (λ name. slice_get (output_names (ScanCell row.now)) pin ≡ Some name) }
{
    if pin == 0 {
        row.q.copy(alloc)
    } else if pin == 1 && !row.qn.is_empty() {
        row.qn.copy(alloc)
    } else {
        row.so.copy(alloc)
    }
}

// The name of an output pin of an instance.
fn part_output(
    alloc: Global,
    draft: &Draft,
    scan: &[ScanRow],
    part: &Part,
    pin: usize,
) -> Result<Text, NoMemory>
    requires { pin < length (part_outputs draft.now scan.now part.now) }
    ensures { IfOk result (λ name. slice_get (part_outputs draft.now scan.now part.now) pin ≡ Some name) }
{
    match &part.body {
        Body::Gate { cell, .. } => {
            library_output(alloc, cell_at(draft, *cell).pins.as_slice(), pin)
        }
        Body::Scan(_) => match row_of(scan, &part.cell) {
            Some(row) => scan_output(alloc, row, pin),
            None => unreachable!(),
        },
    }
}

/// The name of an output pin, by the place of its instance.
pub(crate) fn output_name(
    alloc: Global,
    draft: &Draft,
    scan: &[ScanRow],
    u: u32,
    pin: u32,
) -> Result<Text, NoMemory>
    requires part { u < length draft.now.parts }
    requires named { IsSomeAnd (slice_get draft.now.parts u)
        (λ part. pin < length (part_outputs draft.now scan.now part)) }
    ensures { IfOk result (IsOutputName draft.now scan.now u pin) }
{
    part_output(alloc, draft, scan, draft.part(u as usize), pin as usize)
}

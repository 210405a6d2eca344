//! The library of a text.
ghost use Rattle.std.specs.Prelude.{◌≡◌, ◌≤◌, map, IfOk, Ok, length};
ghost use Rattle.std.specs.List.{All, IsDistinct};
ghost use Rattle.std.specs.Str.{bytes_eq};
ghost use Rattle.ca_lex.specs.Reading.{Gives};
ghost use Rattle.ca_cell.specs.Library.{IsEntry};
ghost use Rattle.ca_spice.specs.SpiceFault.{fault_reported};
ghost use Rattle.ca_spice.specs.code.Kept.{IsPlacedCell, IsUpper, names_of};
ghost use Rattle.ca_spice.specs.Reading.{nothing, lines_from, resolved_cell, library_from, library_of};
ghost use Rattle.ca_spice.specs.Views.{subcircuit_seen};
ghost use Rattle.ca_spice.specs.code.Views.{reading_seen};

use crate::fault::{SpiceFault, SpiceKind};
use crate::reading::Reading;
use crate::subcircuit::Subcircuit;
use ca_base::NoMemory;
use ca_cell::{Entry, Library, LibraryFault, MOST_CELLS, StrengthTable};
use ca_lex::{Line, spice_lines};
use ca_pin_sets::resolved;
use std::alloc::Global;

// What these logical lines read as.
fn lines_of(alloc: Global, table: &StrengthTable, lines: &[Line]) -> Result<Reading, SpiceFault>
    ensures { Gives fault_reported reading_seen result (lines_from table.now nothing lines.now) }
{
    let mut reading = Reading::new(alloc);
    'lines: for line in lines {
        match reading.line(alloc, table, line) {
            Ok(next) => reading = next,
            Err(refusal) => return Err(refusal.at(line.line)),
        }
    }
    Ok(reading)
}

// The library of these subcircuits, whose names differ.
fn entries_of(alloc: Global, cells: Vec<Subcircuit>) -> Result<Library, NoMemory>
    requires few { length cells.items ≤ MOST_CELLS }
    requires placed { All (λ cell. IsPlacedCell cell.raw) cells.items }
    requires upper { All IsUpper (names_of cells.items) }
    requires distinct { IsDistinct bytes_eq (names_of cells.items) }
    ensures cells { IfOk result (λ library. map subcircuit_seen library ≡ map resolved_cell cells.items) }
    ensures entries { IfOk result (λ library. All (λ named. IsEntry named.entry) library) }
{
    let mut library = Library::new(alloc)?;
    'cells: for cell in cells {
        let Subcircuit { name, raw } = cell;
        let resolved_raw = resolved(alloc, &raw)?;
        drop(raw);
        let entry = Entry::of(alloc, resolved_raw)?;
        match library.add(name, entry) {
            Ok(()) => {}
            Err(LibraryFault::NoMemory) => return Err(NoMemory),
            // Names differ, and there are few enough of them.
            Err(LibraryFault::DoubleName) => unreachable!(),
            Err(LibraryFault::TooManyCells { .. }) => unreachable!(),
        }
    }
    Ok(library)
}

// Whether a text may end with this reading.
#[tactic(auto, unfolding(crate::specs::Reading::library_from))]
fn judge_end(reading: &Reading) -> Result<(), SpiceFault>
    ensures judged { Gives fault_reported (λ done. map resolved_cell reading.now.cells.items) result
        (library_from (Ok (reading_seen reading.now))) }
    ensures few { IfOk result (λ done. length reading.now.cells.items ≤ MOST_CELLS) }
    ensures named { IfOk result (λ done. reading.now.names ≡ names_of reading.now.cells.items) }
    ensures distinct { IfOk result (λ done. IsDistinct bytes_eq (names_of reading.now.cells.items)) }
{
    if let Some(cell) = &reading.current {
        return Err(SpiceFault::At {
            line: cell.line,
            kind: SpiceKind::Unended,
        });
    }
    let count = reading.names.len();
    if MOST_CELLS < count {
        return Err(SpiceFault::TooManyCells { count });
    }
    Ok(())
}

// The library of a whole text's reading. Each large value is dropped in one place here and below: more places
// are slow to prove.
fn library_from(alloc: Global, reading: Reading) -> Result<Library, SpiceFault>
    ensures exact { Gives fault_reported (map subcircuit_seen) result
        (library_from (Ok (reading_seen reading))) }
    ensures entries { IfOk result (λ library. All (λ named. IsEntry named.entry) library) }
{
    let judged = judge_end(&reading);
    let Reading {
        names,
        cells,
        current,
    } = reading;
    drop(names);
    drop(current);
    judged?;
    Ok(entries_of(alloc, cells)?)
}

/// The library that a cell netlist reads as under a strength table, which says how strong its transistors
/// are.
#[tactic(auto, unfolding(crate::specs::Reading::library_from))]
pub fn read_library(
    alloc: Global,
    table: &StrengthTable,
    bytes: &[u8],
) -> Result<Library, SpiceFault>
    ensures exact { Gives fault_reported (map subcircuit_seen) result (library_of table.now bytes.now) }
    ensures entries { IfOk result (λ library. All (λ named. IsEntry named.entry) library) }
{
    let lines = spice_lines(alloc, bytes)?;
    let reading = lines_of(alloc, table, lines.as_slice());
    drop(lines);
    library_from(alloc, reading?)
}

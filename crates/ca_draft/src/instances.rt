//! The instances of a netlist on their wires.

ghost use Rattle.std.specs.Prelude.{◌≡◌, ◌<◌, ◌+◌, ◌^◌, length, map, IfOk, OnOk};
ghost use Rattle.std.specs.List.{IsDistinct};
ghost use Rattle.std.specs.Str.{bytes_eq};
ghost use Rattle.ca_lex.specs.Words.{upper_case};
ghost use Rattle.ca_cell.specs.Library.{entry_of};
ghost use Rattle.ca_cell.specs.Rules.{IsRaw, KeepsRules};
ghost use Rattle.ca_wiring.specs.Wiring as wiring;
ghost use Rattle.ca_wiring.specs.Wiring.{ScanCell, entry_meaning, meaning_of};
ghost use Rattle.ca_wiring.specs.InstanceRules.{IsKnown};
ghost use Rattle.ca_draft.specs.code.OnWires.{AreOnWires, AreSoundAll, IsCellAt, IsOnWires, IsPartOnWires};

use crate::pins::{library_outputs, scan_pins};
use ca_base::NoMemory;
use ca_cell::{Entry, Library, RawCell};
use ca_lex::Text;
use ca_linked::{Body, Part};
use ca_names::NameSet;
use ca_verilog::{RawInstance, RawUse};
use ca_wiring::{ScanRow, cells_of, library_inputs, row_of};
use std::alloc::Global;

// The body of an instance of the cell at a place of the library.
fn gate(
    alloc: Global,
    library: &Library,
    place: usize,
    raw: &RawCell,
    bits: u32,
    own: &mut u32,
    uses: &[RawUse],
) -> Result<Body, NoMemory>
    requires bits { bits + 1 < 2 ^ 32 }
    requires cell { IsCellAt library.now place raw.now }
    requires is_raw { IsRaw raw.now }
    requires keeps { KeepsRules raw.now }
    ensures { IfOk result (IsOnWires library.now bits (wiring.Library raw.now) uses.now own.old own.new) }
{
    let pins = raw.pins.as_slice();
    let inputs = library_inputs(alloc, bits, pins, uses)?;
    let outputs = library_outputs(alloc, bits, own, pins, uses)?;
    // A library has at most 1,024 cells.
    let _ = library.len();
    Ok(Body::Gate {
        cell: place as u32,
        inputs,
        outputs,
    })
}

// The body of an instance of a library cell.
fn library_body(
    alloc: Global,
    library: &Library,
    bits: u32,
    own: &mut u32,
    cell: &Text,
    uses: &[RawUse],
) -> Result<Body, NoMemory>
    requires bits { bits + 1 < 2 ^ 32 }
    requires known { IsKnown (entry_meaning (entry_of library.now (upper_case cell.now))) }
    ensures { IfOk result (IsOnWires library.now bits
        (entry_meaning (entry_of library.now (upper_case cell.now))) uses.now own.old own.new) }
{
    match library.place(cell.as_bytes()) {
        Some(place) => match library.entry(place) {
            Entry::Sound(sound) => gate(alloc, library, place, sound.raw(), bits, own, uses),
            Entry::Refused(_, _) => unreachable!(),
        },
        None => unreachable!(),
    }
}

// An instance of a library cell.
fn library_part(
    alloc: Global,
    library: &Library,
    bits: u32,
    own: &mut u32,
    instance: &RawInstance,
) -> Result<Part, NoMemory>
    requires bits { bits + 1 < 2 ^ 32 }
    requires known { IsKnown (entry_meaning (entry_of library.now (upper_case instance.now.cell))) }
    ensures { IfOk result (IsPartOnWires library.now bits
        (entry_meaning (entry_of library.now (upper_case instance.now.cell))) instance.now own.old own.new) }
{
    let uses = instance.pins.as_slice();
    let body = library_body(alloc, library, bits, own, &instance.cell, uses)?;
    Ok(Part {
        name: instance.name.copy(alloc)?,
        cell: instance.cell.copy(alloc)?,
        data: Text::new(alloc),
        body,
    })
}

// The body of an instance of a scan cell.
fn scan_body(
    bits: u32,
    own: &mut u32,
    row: &ScanRow,
    library: &Library,
    uses: &[RawUse],
) -> Result<Body, NoMemory>
    requires { bits + 1 < 2 ^ 32 }
    ensures { IfOk result (IsOnWires library.now bits (ScanCell row.now) uses.now own.old own.new) }
{
    let pins = scan_pins(bits, own, row, uses)?;
    Ok(Body::Scan(pins))
}

// An instance of a scan cell.
fn scan_part(
    alloc: Global,
    library: &Library,
    row: &ScanRow,
    bits: u32,
    own: &mut u32,
    instance: &RawInstance,
) -> Result<Part, NoMemory>
    requires { bits + 1 < 2 ^ 32 }
    ensures { IfOk result (IsPartOnWires library.now bits (ScanCell row.now) instance.now own.old own.new) }
{
    let body = scan_body(bits, own, row, library, instance.pins.as_slice())?;
    Ok(Part {
        name: instance.name.copy(alloc)?,
        cell: instance.cell.copy(alloc)?,
        data: row.d.copy(alloc)?,
        body,
    })
}

// An instance on its wires, where the next wire of its own has the number `own`.
fn part_of(
    alloc: Global,
    library: &Library,
    scan: &[ScanRow],
    cells: &NameSet,
    bits: u32,
    own: &mut u32,
    instance: &RawInstance,
) -> Result<Part, NoMemory>
    requires bits { bits + 1 < 2 ^ 32 }
    requires cells { cells.now ≡ map (λ row. row.cell) scan.now }
    requires known { IsKnown (meaning_of library.now scan.now instance.now.cell) }
    ensures { IfOk result (IsPartOnWires library.now bits (meaning_of library.now scan.now instance.now.cell)
        instance.now own.old own.new) }
{
    match row_of(scan, cells, &instance.cell) {
        Some(row) => scan_part(alloc, library, row, bits, own, instance),
        None => library_part(alloc, library, bits, own, instance),
    }
}

/// Instances on their wires, and the number of all wires.
#[derive(Drop)]
pub(crate) struct Instances {
    pub parts: Vec<Part>,
    pub wires: u32,
}

/// The instances of a netlist on their wires, where this many bits are declared.
pub(crate) fn instances_of(
    alloc: Global,
    library: &Library,
    scan: &[ScanRow],
    bits: u32,
    instances: &[RawInstance],
) -> Result<Instances, NoMemory>
    requires bits { bits + 2 < 2 ^ 32 }
    requires rows { IsDistinct bytes_eq (map (λ row. row.cell) scan.now) }
    requires sound { AreSoundAll library.now scan.now instances.now }
    ensures { IfOk result (λ made. AreOnWires library.now scan.now bits instances.now (length instances.now)
        made.wires made.parts.items) }
{
    let cells = cells_of(alloc, scan)?;
    let mut own = bits + 2;
    let mut parts = Vec::new(alloc);
    for u in 0..instances.len() {
        let part = part_of(alloc, library, scan, &cells, bits, &mut own, &instances[u])?;
        parts.push(part)?;
    }
    Ok(Instances { parts, wires: own })
}

//! The rules on instances.

ghost use Rattle.std.specs.Prelude.{◌≡◌, ◌<◌, ◌^◌, length, map, IfOk, IfErr, OnOk};
ghost use Rattle.std.specs.List.{IsDistinct};
ghost use Rattle.std.specs.Option.{option_copied};
ghost use Rattle.std.specs.Str.{bytes_eq};
ghost use Rattle.ca_wiring.specs.Wiring as wiring;
ghost use Rattle.ca_wiring.specs.Wiring.{ScanCell, meaning_of, row_of};
ghost use Rattle.ca_wiring.specs.InstanceRules.{IsSound, AreSound};
ghost use Rattle.ca_wiring.specs.code.Pins.{IsInstanceCause};
ghost use Rattle.ca_wiring.specs.Rules.{IsCause};

use crate::fault::ChipFault;
use crate::pins::{library_open, library_stray, scan_open, scan_stray};
use crate::scan_row::ScanRow;
use ca_base::NoMemory;
use ca_cell::{Entry, Library, RawCell};
use ca_lex::Text;
use ca_linked::InstanceId;
use ca_names::NameSet;
use ca_verilog::{RawInstance, RawNetlist, RawUse};
use std::alloc::Global;

// An instance of a library cell.
fn judge_library(alloc: Global, u: u32, raw: &RawCell, uses: &[RawUse]) -> Result<(), ChipFault>
    ensures ok { OnOk result (IsSound (wiring.Library raw.now) uses.now) }
    ensures cause { IfErr result (IsInstanceCause u (wiring.Library raw.now) uses.now) }
{
    match library_stray(raw, uses) {
        Some(stray) => Err(ChipFault::UnknownPin {
            instance: InstanceId(u),
            pin: stray.copy(alloc)?,
        }),
        None => match library_open(raw, uses) {
            Some(open) => Err(ChipFault::MissingPin {
                instance: InstanceId(u),
                pin: open.copy(alloc)?,
            }),
            None => Ok(()),
        },
    }
}

// An instance of a scan cell.
fn judge_scan(alloc: Global, u: u32, row: &ScanRow, uses: &[RawUse]) -> Result<(), ChipFault>
    ensures ok { OnOk result (IsSound (ScanCell row.now) uses.now) }
    ensures cause { IfErr result (IsInstanceCause u (ScanCell row.now) uses.now) }
{
    match scan_stray(row, uses) {
        Some(stray) => Err(ChipFault::UnknownPin {
            instance: InstanceId(u),
            pin: stray.copy(alloc)?,
        }),
        None => match scan_open(row, uses) {
            Some(open) => Err(ChipFault::MissingPin {
                instance: InstanceId(u),
                pin: open.copy(alloc)?,
            }),
            None => Ok(()),
        },
    }
}

/// The cells of a scan table, by name.
pub fn cells_of(alloc: Global, scan: &[ScanRow]) -> Result<NameSet, NoMemory>
    requires { IsDistinct bytes_eq (map (λ row. row.cell) scan.now) }
    ensures { IfOk result (λ cells. cells ≡ map (λ row. row.cell) scan.now) }
{
    let mut cells = NameSet::new(alloc);
    for k in 0..scan.len() {
        cells.add(alloc, scan[k].cell.as_bytes())?;
    }
    Ok(cells)
}

/// The row of the scan table for a cell, which is found without a search through the rows.
pub fn row_of<'a>(scan: &'a [ScanRow], cells: &NameSet, cell: &Text) -> Option<&'a ScanRow>
    requires { cells.now ≡ map (λ row. row.cell) scan.now }
    ensures { option_copied result ≡ row_of scan.now cell.now }
{
    match cells.place_of(cell.as_bytes()) {
        Some(place) => Some(&scan[place as usize]),
        None => None,
    }
}

// An instance.
fn judge(
    alloc: Global,
    library: &Library,
    scan: &[ScanRow],
    cells: &NameSet,
    u: u32,
    instance: &RawInstance,
) -> Result<(), ChipFault>
    requires { cells.now ≡ map (λ row. row.cell) scan.now }
    ensures ok { OnOk result (IsSound (meaning_of library.now scan.now instance.now.cell) instance.now.pins) }
    ensures cause { IfErr result (IsInstanceCause u
        (meaning_of library.now scan.now instance.now.cell) instance.now.pins) }
{
    let uses = instance.pins.as_slice();
    if let Some(row) = row_of(scan, cells, &instance.cell) {
        return judge_scan(alloc, u, row, uses);
    }
    match library.get(instance.cell.as_bytes()) {
        Some(Entry::Sound(cell)) => judge_library(alloc, u, cell.raw(), uses),
        Some(Entry::Refused(_, rule)) => Err(ChipFault::Cell {
            instance: InstanceId(u),
            rule: *rule,
        }),
        None => Err(ChipFault::UnknownCell {
            instance: InstanceId(u),
        }),
    }
}

/// Whether each instance's cell is known and keeps its rules, each connection is to a pin of it, and each
/// input pin is connected; else the first rule that is broken.
pub fn judge_instances(
    alloc: Global,
    raw: &RawNetlist,
    library: &Library,
    scan: &[ScanRow],
) -> Result<(), ChipFault>
    requires few { length raw.now.instances < 2 ^ 32 }
    requires rows { IsDistinct bytes_eq (map (λ row. row.cell) scan.now) }
    ensures ok { OnOk result (AreSound raw.now library.now scan.now) }
    ensures cause { IfErr result (IsCause raw.now library.now scan.now) }
{
    let cells = cells_of(alloc, scan)?;
    let instances = raw.instances.as_slice();
    for u in 0..instances.len() {
        if let Err(fault) = judge(alloc, library, scan, &cells, u as u32, &instances[u]) {
            return Err(fault);
        }
    }
    Ok(())
}

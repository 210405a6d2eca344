//! What the calls of linked chips answer.

ghost use Rattle.std.specs.Prelude.{map, IfSome};
ghost use Rattle.std.specs.List.{IsDistinct};
ghost use Rattle.std.specs.Str.{bytes_eq};
ghost use Rattle.ca_verilog.specs.IsNetlist.{IsNetlist};

use crate::described::described;
use crate::texts::{CHIPS, LIBRARY};
use ca_base::NoMemory;
use ca_cell::StrengthTable;
use ca_lex::Text;
use ca_link::link;
use ca_linked::Chip;
use ca_spice::read_library;
use ca_verilog::{RawNetlist, read_netlist};
use ca_wiring::{ScanRow, ScanTable};
use std::alloc::Global;

// Writes the names of a scan cell with an inverted output, and of its pins.
fn write_scan_cell(row: &mut ScanRow) -> Result<(), NoMemory> {
    row.cell.append(b"SFF")?;
    row.d.append(b"D")?;
    row.q.append(b"Q")?;
    row.qn.append(b"QN")?;
    row.si.append(b"SI")?;
    row.so.append(b"SO")?;
    row.se.append(b"SE")?;
    row.ck.append(b"CK")?;
    row.hold.append(b"HOLD")
}

// A scan cell without names.
fn nameless(alloc: Global) -> ScanRow {
    ScanRow {
        cell: Text::new(alloc),
        d: Text::new(alloc),
        q: Text::new(alloc),
        qn: Text::new(alloc),
        si: Text::new(alloc),
        so: Text::new(alloc),
        se: Text::new(alloc),
        ck: Text::new(alloc),
        hold: Text::new(alloc),
    }
}

// A scan cell with an inverted output.
fn scan_cell(alloc: Global) -> Option<ScanRow> {
    let mut row = nameless(alloc);
    match write_scan_cell(&mut row) {
        Ok(()) => Some(row),
        Err(_) => None,
    }
}

// A scan table of this cell alone.
fn scan_table(alloc: Global) -> Option<ScanTable>
    ensures { IfSome result (λ rows. IsDistinct bytes_eq (map (λ row. row.cell) rows)) }
{
    let row = scan_cell(alloc)?;
    let mut table = ScanTable::new(alloc);
    match table.push(row) {
        Ok(()) => Some(table),
        Err(_) => None,
    }
}

// The chip of a netlist that was read, with a scan table, if it links. Each value is dropped in one place
// here and below: more places are slow to prove.
fn linked_by_table(alloc: Global, raw: &RawNetlist, scan: &ScanTable) -> Option<Chip>
    requires netlist { IsNetlist raw.now }
    requires rows { IsDistinct bytes_eq (map (λ row. row.cell) scan.now) }
{
    let library = read_library(alloc, &StrengthTable::default_table(), LIBRARY).ok()?;
    link(alloc, raw, library, scan).ok()
}

// The same, with the scan cell.
fn linked_netlist(alloc: Global, raw: &RawNetlist) -> Option<Chip>
    requires { IsNetlist raw.now }
{
    let scan = scan_table(alloc)?;
    let chip = linked_by_table(alloc, raw, &scan);
    drop(scan);
    chip
}

// The chip of a netlist, if it links.
fn linked(alloc: Global, netlist: &[u8]) -> Option<Chip> {
    let raw = read_netlist(alloc, netlist).ok()?;
    let chip = linked_netlist(alloc, &raw);
    drop(raw);
    chip
}

// What is reported about the chip of a netlist, if it links.
fn reported(alloc: Global, netlist: &[u8]) -> Option<Text> {
    let chip = linked(alloc, netlist)?;
    let text = described(alloc, &chip).ok();
    drop(chip);
    text
}

#[test]
fn calls_of_chips(rt: HostRuntime) {
    for (netlist, wanted) in CHIPS {
        match reported(rt.alloc(), netlist) {
            Some(text) => assert!(rt; text.is(wanted), "{:?}", text.as_bytes()),
            None => assert!(rt; false, "{netlist:?}"),
        }
    }
}

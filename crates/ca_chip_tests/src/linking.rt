//! Linking: netlists, each with what is counted of its chip.

ghost use Rattle.std.specs.Prelude.{map, IfSome};
ghost use Rattle.std.specs.List.{IsDistinct};
ghost use Rattle.std.specs.Str.{bytes_eq};
ghost use Rattle.ca_verilog.specs.IsNetlist.{IsNetlist};

use ca_base::NoMemory;
use ca_cell::StrengthTable;
use ca_lex::Text;
use ca_link::link;
use ca_spice::read_library;
use ca_verilog::{RawNetlist, read_netlist};
use ca_wiring::{Chip, ChipFault, ScanRow, ScanTable};
use std::alloc::{AllocError, Global};

/// The numbers of nets, library instances, inputs and observed outputs of a chip.
#[derive(Clone, Copy)]
struct Linked(usize, usize, usize, usize);

const LIBRARY: &[u8] = b"
.SUBCKT INV A ZN VDD VSS
*.PININFO A:I ZN:O VDD:P VSS:G
MP1 ZN A VDD VDD pch W=1u L=0.1u
MN1 ZN A VSS VSS nch W=1u L=0.1u
.ENDS
.SUBCKT ND2 A B ZN VDD VSS
*.PININFO A:I B:I ZN:O VDD:P VSS:G
MP1 ZN A VDD VDD pch W=1u L=0.1u
MP2 ZN B VDD VDD pch W=1u L=0.1u
MN1 ZN A N1 VSS nch W=1u L=0.1u
MN2 N1 B VSS VSS nch W=1u L=0.1u
.ENDS
.SUBCKT ND4 A B C D ZN VDD VSS
*.PININFO A:I B:I C:I D:I ZN:O VDD:P VSS:G
MP1 ZN A VDD VDD pch W=1u L=0.1u
MP2 ZN B VDD VDD pch W=1u L=0.1u
MP3 ZN C VDD VDD pch W=1u L=0.1u
MP4 ZN D VDD VDD pch W=1u L=0.1u
MN1 ZN A N1 VSS nch W=1u L=0.1u
MN2 N1 B N2 VSS nch W=1u L=0.1u
MN3 N2 C N3 VSS nch W=1u L=0.1u
MN4 N3 D VSS VSS nch W=1u L=0.1u
.ENDS
";

// Writes the names of a scan cell with an inverted output, and of its pins.
fn write_scan_cell(row: &mut ScanRow) -> Result<(), NoMemory> {
    row.cell.append(b"SDFF")?;
    row.d.append(b"D")?;
    row.q.append(b"Q")?;
    row.qn.append(b"QN")?;
    row.si.append(b"SI")?;
    row.so.append(b"SO")?;
    row.se.append(b"SE")?;
    row.ck.append(b"CK")?;
    row.hold.append(b"HOLD")
}

// A scan cell without names.
fn nameless(alloc: Global) -> ScanRow {
    ScanRow {
        cell: Text::new(alloc),
        d: Text::new(alloc),
        q: Text::new(alloc),
        qn: Text::new(alloc),
        si: Text::new(alloc),
        so: Text::new(alloc),
        se: Text::new(alloc),
        ck: Text::new(alloc),
        hold: Text::new(alloc),
    }
}

// A scan cell with an inverted output.
fn scan_cell(alloc: Global) -> Option<ScanRow> {
    let mut row = nameless(alloc);
    match write_scan_cell(&mut row) {
        Ok(()) => Some(row),
        Err(_) => None,
    }
}

// A scan table of this cell alone.
fn scan_table(alloc: Global) -> Option<ScanTable>
    ensures { IfSome result (λ rows. IsDistinct bytes_eq (map (λ row. row.cell) rows)) }
{
    let row = scan_cell(alloc)?;
    let mut table = ScanTable::new(alloc);
    match table.push(row) {
        Ok(()) => Some(table),
        Err(_) => None,
    }
}

// Whether a chip has these numbers.
fn is_chip(chip: &Chip, linked: Linked) -> bool {
    let Linked(nets, instances, inputs, outputs) = linked;
    chip.nets() == nets
        && chip.instances() == instances
        && chip.inputs() == inputs
        && chip.outputs() == outputs
}

// Whether there is a chip with these numbers.
fn is_linked(chip: &Result<Chip, ChipFault>, linked: Linked) -> bool {
    match chip {
        Ok(chip) => is_chip(chip, linked),
        Err(_) => false,
    }
}

// Whether a netlist that was read links so, with a scan table. Here and below each value is dropped at one
// place, since that is slow to prove.
fn links_by_table(alloc: Global, raw: &RawNetlist, scan: &ScanTable, linked: Linked) -> bool
    requires netlist { IsNetlist raw.now }
    requires rows { IsDistinct bytes_eq (map (λ row. row.cell) scan.now) }
{
    let Ok(library) = read_library(alloc, &StrengthTable::default_table(), LIBRARY) else {
        return false;
    };
    let chip = link(alloc, raw, library, scan);
    let is_so = is_linked(&chip, linked);
    drop(chip);
    is_so
}

// The same, with the scan cell.
fn links_of(alloc: Global, raw: &RawNetlist, linked: Linked) -> bool
    requires { IsNetlist raw.now }
{
    let Some(scan) = scan_table(alloc) else {
        return false;
    };
    let is_so = links_by_table(alloc, raw, &scan, linked);
    drop(scan);
    is_so
}

// Whether a netlist links so.
fn links(alloc: Global, netlist: &[u8], linked: Linked) -> bool {
    let Ok(raw) = read_netlist(alloc, netlist) else {
        return false;
    };
    let is_so = links_of(alloc, &raw, linked);
    drop(raw);
    is_so
}

// Appends the parts of a text, one after another.
fn join(whole: &mut Vec<u8>, parts: [&[u8]; 3]) -> Result<(), AllocError> {
    for part in parts {
        whole.extend_from_slice(part)?;
    }
    Ok(())
}

// Whether the netlist of these parts, one after another, links so.
fn links_joined(alloc: Global, parts: [&[u8]; 3], linked: Linked) -> bool {
    let mut netlist = Vec::new(alloc);
    let is_so = match join(&mut netlist, parts) {
        Ok(()) => links(alloc, &netlist, linked),
        Err(_) => false,
    };
    drop(netlist);
    is_so
}

// The wires are a, b, z, w, x and y, in this order; a net is one where something drives or loads it.
const PLAIN: &[u8] = b"module m(a, b, z); input a, b; output z; wire w, x, y; ";

const PLAIN_ROWS: [(&[u8], Linked); 5] = [
    // A cell, two, an output that is connected to nothing beside joined ports, a constant.
    (b"INV u (.A(a), .ZN(z));", Linked(3, 1, 2, 1)),
    (
        b"ND2 u (.A(a), .B(b), .ZN(w)); INV v (.A(w), .ZN(z));",
        Linked(4, 2, 2, 1),
    ),
    (b"INV u (.A(a), .ZN()); assign z = b;", Linked(3, 1, 2, 1)),
    (b"ND2 u (.A(a), .B(1'b1), .ZN(z));", Linked(4, 1, 2, 1)),
    // Two that share their inputs are no loop.
    (
        b"ND2 u (.A(a), .B(a), .ZN(w)); ND2 v (.A(w), .B(w), .ZN(z));",
        Linked(4, 2, 2, 1),
    ),
];

// The wires are a, si, se, ck, h, z, so, w and x, in this order.
const SCAN: &[u8] =
    b"module m(a, si, se, ck, h, z, so); input a, si, se, ck, h; output z, so; wire w, x; ";

const SCAN_ROWS: [(&[u8], Linked); 2] = [
    // A scan cell; a ring through one is no loop.
    (
        b"SDFF r (.D(a), .SI(si), .SE(se), .CK(ck), .HOLD(h), .Q(z), .SO(so));",
        Linked(8, 0, 2, 2),
    ),
    (
        b"SDFF r (.D(w), .SI(si), .SE(se), .CK(ck), .HOLD(h), .Q(z), .SO(so)); INV u (.A(z), .ZN(w));",
        Linked(9, 1, 2, 2),
    ),
];

const LIMITS: [(&[u8], Linked); 2] = [
    (
        b"module m(a, z); input [4095:0] a; output z; assign z = a[0];",
        Linked(4096, 0, 4096, 1),
    ),
    (
        b"module m(a, y, z); input [4095:0] a; output [4095:0] y, z; assign y = a; assign z = a;",
        Linked(4096, 0, 4096, 8192),
    ),
];

#[test]
fn numbers_of_chips(rt: HostRuntime) {
    for (instances, linked) in PLAIN_ROWS {
        let is_so = links_joined(rt.alloc(), [PLAIN, instances, b" endmodule"], linked);
        assert!(rt; is_so, "{instances:?}");
    }
    for (instances, linked) in SCAN_ROWS {
        let is_so = links_joined(rt.alloc(), [SCAN, instances, b" endmodule"], linked);
        assert!(rt; is_so, "{instances:?}");
    }
    for (text, linked) in LIMITS {
        let is_so = links_joined(rt.alloc(), [text, b" ", b"endmodule"], linked);
        assert!(rt; is_so, "{text:?}");
    }
}

// Appends a netlist of `count` instances with the same cell and pins.
fn repeat(
    alloc: Global,
    text: &mut Vec<u8>,
    count: usize,
    cell: &str,
    pins: &str,
) -> Result<(), AllocError> {
    text.extend_from_slice(b"module m(a, z); input a; output z; assign z = a; ")?;
    for k in 0..count {
        text.extend_from_slice(format!(in alloc; "{cell} u{k} ({pins});\n")?.as_bytes())?;
    }
    text.extend_from_slice(b"endmodule")
}

// Whether a netlist of `count` instances with the same cell and pins links like this.
fn links_repeated(alloc: Global, count: usize, cell: &str, pins: &str, linked: Linked) -> bool {
    let mut netlist = Vec::new(alloc);
    let is_so = match repeat(alloc, &mut netlist, count, cell, pins) {
        Ok(()) => links(alloc, &netlist, linked),
        Err(_) => false,
    };
    drop(netlist);
    is_so
}

const MANY: [(usize, &str, &str, Linked); 2] = [
    (32_768, "INV", ".A(a)", Linked(32_769, 32_768, 1, 1)),
    (
        24_966,
        "ND4",
        ".A(a), .B(a), .C(a), .D(a)",
        Linked(24_967, 24_966, 1, 1),
    ),
];

#[test]
fn limits_on_instances(rt: HostRuntime) {
    for (count, cell, pins, linked) in MANY {
        let is_so = links_repeated(rt.alloc(), count, cell, pins, linked);
        assert!(rt; is_so, "{count} of {cell}");
    }
}

//! The texts of generated chips, byte for byte, and that they are read and linked.

ghost use Rattle.std.specs.Prelude.{◌≤◌, IfSome};
ghost use Rattle.ca_verilog.specs.IsNetlist.{IsNetlist};
ghost use Rattle.ca_make.specs.declared.gate.TheConstants.{MOST_GATES};

use ca_cell::{Library, StrengthTable};
use ca_link::link;
use ca_make::{library, netlist};
use ca_make_laws::{made_library, made_netlist};
use ca_make_links::made_chip;
use ca_spice::read_library;
use ca_verilog::{RawNetlist, read_netlist};
use ca_wiring::ScanTable;
use std::alloc::Global;

// The texts as they were written by another program from the same rules.
const LIBRARY: &[u8] = b".SUBCKT INV A ZN VDD VSS\n\
    *.PININFO A:I ZN:O VDD:P VSS:G\n\
    MP1 ZN A VDD VDD pch W=0.63u L=0.05u\n\
    MN1 ZN A VSS VSS nch W=0.415000U L=0.05u\n\
    .ENDS\n\
    .SUBCKT NAND2 A1 A2 ZN VDD VSS\n\
    *.PININFO A1:I A2:I ZN:O VDD:P VSS:G\n\
    MP1 ZN A1 VDD VDD pch W=0.63u L=0.05u\n\
    MP2 ZN A2 VDD VDD pch W=0.63u L=0.05u\n\
    MN1 ZN A1 n1 VSS nch W=4.15e-07 L=0.05u\n\
    MN2 n1 A2 VSS VSS nch W=4.15e-07\n\
    + L=0.05u\n\
    .ENDS NAND2\n\
    .SUBCKT NOR2 A1 A2 ZN VDD VSS\n\
    *.PININFO A1:I A2:I ZN:O VDD:P VSS:G\n\
    MP1 p1 A1 VDD VDD pch W=0.63u L=0.05u\n\
    MP2 ZN A2 p1 VDD pch W=0.63u L=0.05u\n\
    MN1 ZN A1 VSS VSS nch W=0.415u L=0.05u\n\
    MN2 ZN A2 VSS VSS nch W=0.415u L=0.05u\n\
    .ENDS\n";

const ONE: &[u8] = b"module gen(i0, i1, i2, i3, i4, i5, i6, i7, o0);\n\
    \x20 input i0;\n\
    \x20 input i1;\n\
    \x20 input i2;\n\
    \x20 input i3;\n\
    \x20 input i4;\n\
    \x20 input i5;\n\
    \x20 input i6;\n\
    \x20 input i7;\n\
    \x20 output o0;\n\
    \x20 wire w0;\n\
    \x20 NOR2 u0 (.A1(i6), .A2(i3), .ZN(w0));\n\
    \x20 assign o0 = w0;\n\
    endmodule\n";

const SEVEN: &[u8] = b"module gen(i0, i1, i2, i3, i4, i5, i6, i7, o0, o1, o2, o3, o4, o5);\n\
    \x20 input i0;\n\
    \x20 input i1;\n\
    \x20 input i2;\n\
    \x20 input i3;\n\
    \x20 input i4;\n\
    \x20 input i5;\n\
    \x20 input i6;\n\
    \x20 input i7;\n\
    \x20 output o0;\n\
    \x20 output o1;\n\
    \x20 output o2;\n\
    \x20 output o3;\n\
    \x20 output o4;\n\
    \x20 output o5;\n\
    \x20 wire w0;\n\
    \x20 wire w1;\n\
    \x20 wire w2;\n\
    \x20 wire w3;\n\
    \x20 wire w4;\n\
    \x20 wire w5;\n\
    \x20 wire w6;\n\
    \x20 NOR2 u0 (.A1(i0), .A2(i6), .ZN(w0));\n\
    \x20 NOR2 u1 (.A1(i7), .A2(i0), .ZN(w1));\n\
    \x20 NAND2 u2 (.A1(i5), .A2(i0), .ZN(w2));\n\
    \x20 NAND2 u3 (.A1(i3), .A2(i5), .ZN(w3));\n\
    \x20 NOR2 u4 (.A1(i3), .A2(i2), .ZN(w4));\n\
    \x20 NAND2 u5 (.A1(i3), .A2(w1), .ZN(w5));\n\
    \x20 INV u6 (.A(i2), .ZN(w6));\n\
    \x20 assign o0 = w0;\n\
    \x20 assign o1 = w2;\n\
    \x20 assign o2 = w3;\n\
    \x20 assign o3 = w4;\n\
    \x20 assign o4 = w5;\n\
    \x20 assign o5 = w6;\n\
    endmodule\n";

// The library that is read. Each value is dropped in one place here and below: more places are slow to prove.
fn library_read(alloc: Global) -> Option<Library> {
    let text = library(alloc).ok()?;
    let cells = read_library(alloc, &StrengthTable::default_table(), text.as_bytes()).ok();
    drop(text);
    cells
}

// The netlist of the chip of a number, read.
fn netlist_read(alloc: Global, n: u32) -> Option<RawNetlist>
    requires { n ≤ MOST_GATES }
    ensures { IfSome result IsNetlist }
{
    let text = netlist(alloc, n).ok()?;
    let raw = read_netlist(alloc, text.as_bytes()).ok();
    drop(text);
    raw
}

// Whether a netlist links over a library.
fn links(alloc: Global, raw: &RawNetlist, cells: Library) -> bool
    requires { IsNetlist raw.now }
{
    let table = ScanTable::new(alloc);
    let chip = link(alloc, raw, cells, &table);
    drop(table);
    chip.is_ok()
}

// Whether a netlist links over the library that is read.
fn links_over_library(alloc: Global, raw: &RawNetlist) -> bool
    requires { IsNetlist raw.now }
{
    match library_read(alloc) {
        Some(cells) => links(alloc, raw, cells),
        None => false,
    }
}

// Whether the chip of a number is read and linked, over the library that is read.
fn is_linked(alloc: Global, n: u32) -> bool
    requires { n ≤ MOST_GATES }
{
    let Some(raw) = netlist_read(alloc, n) else {
        return false;
    };
    let linked = links_over_library(alloc, &raw);
    drop(raw);
    linked
}

// Whether the library is read by its call.
fn has_library(alloc: Global) -> bool {
    made_library(alloc).is_ok()
}

// Whether the netlist of the chip of a number is read by its call.
fn has_netlist(alloc: Global, n: u32) -> bool
    requires { n ≤ MOST_GATES }
{
    made_netlist(alloc, n).is_ok()
}

// Whether the chip of a number is read and linked by its call.
fn has_chip(alloc: Global, n: u32) -> bool
    requires { n ≤ MOST_GATES }
{
    made_chip(alloc, n).is_ok()
}

#[test]
fn texts_are_as_written(rt: HostRuntime) {
    let texts = [
        (library(rt.alloc()), LIBRARY),
        (netlist(rt.alloc(), 1), ONE),
        (netlist(rt.alloc(), 7), SEVEN),
    ];
    for (made, wanted) in texts {
        match made {
            Ok(text) => assert!(rt; text.is(wanted), "{:?}", text.as_bytes()),
            Err(_) => assert!(rt; false, "{wanted:?}"),
        }
    }
}

#[test]
fn texts_are_read_and_linked(rt: HostRuntime) {
    for n in [1, 7, 200] {
        assert!(rt; is_linked(rt.alloc(), n), "{n}");
    }
}

#[test]
fn calls_answer(rt: HostRuntime) {
    assert!(rt; has_library(rt.alloc()));
    for n in [1, 7, 200] {
        assert!(rt; has_netlist(rt.alloc(), n), "{n}");
        assert!(rt; has_chip(rt.alloc(), n), "{n}");
    }
}

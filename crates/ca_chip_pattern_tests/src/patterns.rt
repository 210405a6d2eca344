//! An accumulator, and what is written of a pair.

use ca_base::{List, NoMemory};
use ca_cell::StrengthTable;
use ca_chip_stil::{are_of_chip, write_chip_stil};
use ca_lex::Text;
use ca_link::link;
use ca_linked::Chip;
use ca_net::Trit;
use ca_pair::Pair;
use ca_scan::trace;
use ca_spice::read_library;
use ca_verilog::read_netlist;
use ca_wiring::{ScanRow, ScanTable};
use std::alloc::Global;

// A full adder of which nothing is asked but its pins.
const LIBRARY: &[u8] = b"
.SUBCKT FA28 A B CI CO S VDD VSS
*.PININFO A:I B:I CI:I CO:O S:O VDD:P VSS:G
MP1 CO A VDD VDD pch W=1u L=0.1u
MN1 CO B VSS VSS nch W=1u L=0.1u
MP2 S B VDD VDD pch W=1u L=0.1u
MN2 S CI VSS VSS nch W=1u L=0.1u
.ENDS
";

const ACCUMULATOR: &[u8] = b"module acc(x, se, ck, hold, si, y, so);
input [1:0] x; input se, ck, hold, si; output [1:0] y; output so;
wire [1:0] x, y; wire q0, q1, c, s, t;
FA28 u1 (.A(x[0]), .B(q0), .CI(q1), .CO(c), .S(s));
SFF r0 (.D(s), .Q(q0), .SI(si), .SO(t), .SE(se), .CK(ck), .HOLD(hold));
SFF r1 (.D(c), .Q(q1), .QN(), .SI(t), .SO(so), .SE(se), .CK(ck), .HOLD(hold));
assign y[0] = s; assign y[1] = c; endmodule";

// The statements of the pair whose first vector sets x to 10 and the cells to 10, and whose last one sets all
// to 1; all outputs end with 1.
const STATEMENTS: &[u8] = b"\
    \x20 \"pair 0\": Macro \"_shift_\" { \"si\"=01; \"so\"=XX; }\n\
    \x20 V { \"_ctl_\"=000; \"_pi_\"=10; \"_po_\"=XX; }\n\
    \x20 Macro \"_shift_\" { \"si\"=11; \"so\"=XX; }\n\
    \x20 V { \"_ctl_\"=000; \"_pi_\"=11; \"_po_\"=HH; }\n\
    \x20 V { \"_ctl_\"=0P1; \"_po_\"=XX; }\n\
    \x20 Macro \"_shift_\" { \"si\"=00; \"so\"=HH; }\n\
    }\n";

// A scan cell with an inverted output.
fn scan_cell(alloc: Global) -> Result<ScanRow, NoMemory> {
    Ok(ScanRow {
        cell: Text::from_bytes(alloc, b"SFF")?,
        d: Text::from_bytes(alloc, b"D")?,
        q: Text::from_bytes(alloc, b"Q")?,
        qn: Text::from_bytes(alloc, b"QN")?,
        si: Text::from_bytes(alloc, b"SI")?,
        so: Text::from_bytes(alloc, b"SO")?,
        se: Text::from_bytes(alloc, b"SE")?,
        ck: Text::from_bytes(alloc, b"CK")?,
        hold: Text::from_bytes(alloc, b"HOLD")?,
    })
}

// The accumulator, if it links.
fn accumulator(alloc: Global) -> Option<Chip> {
    let Ok(row) = scan_cell(alloc) else {
        return None;
    };
    let mut scan = ScanTable::new(alloc);
    let Ok(()) = scan.push(row) else {
        return None;
    };
    let Ok(raw) = read_netlist(alloc, ACCUMULATOR) else {
        return None;
    };
    let Ok(library) = read_library(alloc, &StrengthTable::default_table(), LIBRARY) else {
        return None;
    };
    link(alloc, &raw, library, &scan).ok()
}

// One pair of these digits.
fn pairs_of(alloc: Global, digits: &[u8]) -> Result<List<Pair>, NoMemory> {
    let mut pair = Pair::new(alloc);
    for digit in digits {
        pair.push(*digit == b'1')?;
    }
    let mut pairs = List::new(alloc);
    pairs.push(pair)?;
    Ok(pairs)
}

// As many ones as the expected values of one pair.
fn ones(alloc: Global, count: usize) -> Result<List<List<Trit>>, NoMemory> {
    let mut values = List::new(alloc);
    for _ in 0..count {
        values.push(Trit::One)?;
    }
    let mut expected = List::new(alloc);
    expected.push(values)?;
    Ok(expected)
}

// The STIL text of a pair of these digits with `count` ones; none where they aren't of the chip.
fn text_of(alloc: Global, chip: &Chip, digits: &[u8], count: usize) -> Option<Text> {
    let Ok(pairs) = pairs_of(alloc, digits) else {
        return None;
    };
    let Ok(expected) = ones(alloc, count) else {
        return None;
    };
    let Ok(chains) = trace(alloc, chip) else {
        return None;
    };
    if !are_of_chip(chip, &chains, pairs.as_slice(), expected.as_slice()) {
        return None;
    }
    write_chip_stil(alloc, chip, &chains, pairs.as_slice(), expected.as_slice()).ok()
}

// That of the accumulator.
fn patterns_of(alloc: Global, digits: &[u8], count: usize) -> Option<Text> {
    let chip = accumulator(alloc)?;
    text_of(alloc, &chip, digits, count)
}

#[test]
fn the_pair_of_an_accumulator_has_six_statements(rt: HostRuntime) {
    match patterns_of(rt.alloc(), b"10101111", 4) {
        Some(text) => assert!(rt;
            text.as_bytes().ends_with(STATEMENTS),
            "{:?}",
            text.as_bytes()
        ),
        None => panic!(rt; "no text"),
    }
    assert!(rt; patterns_of(rt.alloc(), b"1010111", 4).is_none());
    assert!(rt; patterns_of(rt.alloc(), b"10101111", 3).is_none());
}

//! A pair of an accumulator with a chain, written and read back.

ghost use Rattle.ca_scan.specs.ChainFault.{AreAllChains};

use ca_base::{List, NoMemory};
use ca_cell::StrengthTable;
use ca_chip_pairs::read_chip_stil;
use ca_chip_stil::{are_of_chip, write_chip_stil};
use ca_lex::Text;
use ca_link::link;
use ca_linked::Chip;
use ca_net::Trit;
use ca_pair::Pair;
use ca_scan::{Chains, trace};
use ca_spice::read_library;
use ca_verilog::read_netlist;
use ca_wiring::{ScanRow, ScanTable};
use std::alloc::Global;

// A full adder of which nothing is asked but its pins.
const LIBRARY: &[u8] = b"
.SUBCKT FA28 A B CI CO S VDD VSS
*.PININFO A:I B:I CI:I CO:O S:O VDD:P VSS:G
MP1 CO A VDD VDD pch W=1u L=0.1u
MN1 CO B VSS VSS nch W=1u L=0.1u
MP2 S B VDD VDD pch W=1u L=0.1u
MN2 S CI VSS VSS nch W=1u L=0.1u
.ENDS
";

const ACCUMULATOR: &[u8] = b"module acc(x, se, ck, hold, si, y, so);
input [1:0] x; input se, ck, hold, si; output [1:0] y; output so;
wire [1:0] x, y; wire q0, q1, c, s, t;
FA28 u1 (.A(x[0]), .B(q0), .CI(q1), .CO(c), .S(s));
SFF r0 (.D(s), .Q(q0), .SI(si), .SO(t), .SE(se), .CK(ck), .HOLD(hold));
SFF r1 (.D(c), .Q(q1), .QN(), .SI(t), .SO(so), .SE(se), .CK(ck), .HOLD(hold));
assign y[0] = s; assign y[1] = c; endmodule";

// A scan cell with an inverted output.
fn scan_cell(alloc: Global) -> Result<ScanRow, NoMemory> {
    Ok(ScanRow {
        cell: Text::from_bytes(alloc, b"SFF")?,
        d: Text::from_bytes(alloc, b"D")?,
        q: Text::from_bytes(alloc, b"Q")?,
        qn: Text::from_bytes(alloc, b"QN")?,
        si: Text::from_bytes(alloc, b"SI")?,
        so: Text::from_bytes(alloc, b"SO")?,
        se: Text::from_bytes(alloc, b"SE")?,
        ck: Text::from_bytes(alloc, b"CK")?,
        hold: Text::from_bytes(alloc, b"HOLD")?,
    })
}

// The accumulator, if it links.
fn accumulator(alloc: Global) -> Option<Chip> {
    let Ok(row) = scan_cell(alloc) else {
        return None;
    };
    let mut scan = ScanTable::new(alloc);
    let Ok(()) = scan.push(row) else {
        return None;
    };
    let Ok(raw) = read_netlist(alloc, ACCUMULATOR) else {
        return None;
    };
    let Ok(library) = read_library(alloc, &StrengthTable::default_table(), LIBRARY) else {
        return None;
    };
    link(alloc, &raw, library, &scan).ok()
}

fn bits_of(alloc: Global, digits: &[u8]) -> Result<List<Pair>, NoMemory> {
    let mut pair = Pair::new(alloc);
    for digit in digits {
        pair.push(*digit == b'1')?;
    }
    let mut pairs = List::new(alloc);
    pairs.push(pair)?;
    Ok(pairs)
}

fn values_of(alloc: Global, letters: &[u8]) -> Result<List<List<Trit>>, NoMemory> {
    let mut values = List::new(alloc);
    for letter in letters {
        values.push(match *letter {
            b'L' => Trit::Zero,
            b'H' => Trit::One,
            _ => Trit::X,
        })?;
    }
    let mut expected = List::new(alloc);
    expected.push(values)?;
    Ok(expected)
}

fn digit_of(bit: bool) -> u8 {
    if bit { b'1' } else { b'0' }
}

fn letter_of(value: Trit) -> u8 {
    match value {
        Trit::Zero => b'L',
        Trit::One => b'H',
        Trit::X => b'X',
    }
}

// The digits and the letters of the first pair that is read.
fn shown(alloc: Global, pairs: &[Pair], expected: &[List<Trit>]) -> Option<Text> {
    let [pair, ..] = pairs else {
        return None;
    };
    let [values, ..] = expected else {
        return None;
    };
    let mut text = Text::new(alloc);
    for k in 0..pair.len() {
        text.push(digit_of(pair.get(k))).ok()?;
    }
    for k in 0..values.len() {
        text.push(letter_of(values.get(k))).ok()?;
    }
    Some(text)
}

// What is read of what was written.
fn again(alloc: Global, chip: &Chip, chains: &Chains, digits: &[u8], letters: &[u8]) -> Option<Text>
    requires { AreAllChains chip.now chains.now }
{
    let pairs = bits_of(alloc, digits).ok()?;
    let expected = values_of(alloc, letters).ok()?;
    if !are_of_chip(chip, chains, pairs.as_slice(), expected.as_slice()) {
        return None;
    }
    let text = write_chip_stil(alloc, chip, chains, pairs.as_slice(), expected.as_slice()).ok()?;
    let file = read_chip_stil(alloc, chip, chains, text.as_bytes()).ok()?;
    shown(alloc, file.pairs.as_slice(), file.expected.as_slice())
}

fn again_of(alloc: Global, digits: &[u8], letters: &[u8]) -> Option<Text> {
    let chip = accumulator(alloc)?;
    let Ok(chains) = trace(alloc, &chip) else {
        return None;
    };
    again(alloc, &chip, &chains, digits, letters)
}

#[test]
fn a_pair_with_a_chain_is_read_back(rt: HostRuntime) {
    match again_of(rt.alloc(), b"10110100", b"LHXH") {
        Some(text) => assert!(rt; text.is(b"10110100LHXH"), "{:?}", text.as_bytes()),
        None => panic!(rt; "nothing read"),
    }
}

//! The row library: seven cells, with their pins, nets and devices worked out by hand.

use crate::library_texts::rewritten;
use DeviceKind::{N, P};
use Role::{Ground, Input, Output, Power};
use ca_cell::{Entry, Library, RawCell, RawDevice, RawPin, Role, StrengthTable};
use ca_lex::{Length, Text};
use ca_net::{DeviceKind, STRONGEST, WEAKEST};
use ca_spice::read_library;
use std::alloc::Global;
use std::test::Fail;

/// The text of the row library.
const ROW_LIBRARY: &[u8] = b"* row library
.GLOBAL VDD VSS
.SUBCKT INV A ZN VDD VSS
*.PININFO A:I ZN:O VDD:P VSS:G
MP1 ZN A VDD VDD pch W=0.63u L=0.05u
MN1 ZN A VSS VSS nch W=0.415000U L=0.05u
.ENDS
.SUBCKT NAND2 A1 A2 ZN VDD VSS
*.PININFO A1:I A2:I ZN:O VDD:P VSS:G
MP1 ZN A1 VDD VDD pch W=0.63u L=0.05u
MP2 ZN A2 VDD VDD pch W=0.63u L=0.05u
MN1 ZN A1 n1 VSS nch W=4.15e-07 L=0.05u
MN2 n1 A2 VSS VSS nch W=4.15e-07
+ L=0.05u
.ENDS NAND2
.SUBCKT NOR2 A1 A2 ZN VDD VSS
*.PININFO A1:I A2:I ZN:O VDD:P VSS:G
MP1 p1 A1 VDD VDD pch W=0.63u L=0.05u
MP2 ZN A2 p1 VDD pch W=0.63u L=0.05u
MN1 ZN A1 VSS VSS nch W=0.415u L=0.05u
MN2 ZN A2 VSS VSS nch W=0.415u L=0.05u
.ENDS
.SUBCKT AND2 A1 A2 Z VDD VSS
*.PININFO A1:I A2:I Z:O VDD:P VSS:G
MP1 NB A1 VDD VDD pch W=0.63u L=0.05u
MP2 NB A2 VDD VDD pch W=0.63u L=0.05u
MN1 NB A1 n1 VSS nch W=0.415u L=0.05u
MN2 n1 A2 VSS VSS nch W=0.415u L=0.05u
MP3 Z NB VDD VDD pch W=0.63u L=0.05u
MN3 Z NB VSS VSS nch W=0.415u L=0.05u
.ENDS
.SUBCKT TG A EN Z VDD VSS
*.PININFO A:I EN:I Z:O VDD:P VSS:G
M1 Z EN A VSS nch W=0.415u L=0.05u
.ENDS
.SUBCKT PSN A ZN VDD VSS
*.PININFO A:I ZN:O VDD:P VSS:G
MP1 ZN VSS VDD VDD pch W=0.1u L=0.4u
MN1 ZN A VSS VSS nch W=0.415u L=0.05u
.ENDS
.SUBCKT FA28 A B CI CO S VDD VSS
*.PININFO A:I B:I CI:I CO:O S:O VDD:P VSS:G
MP1 p1 A VDD VDD pch W=0.415u L=0.05u
MP2 p1 B VDD VDD pch W=0.415u L=0.05u
MP3 CON CI p1 VDD pch W=0.415u L=0.05u
MP4 p2 A VDD VDD pch W=0.415u L=0.05u
MP5 CON B p2 VDD pch W=0.415u L=0.05u
MP6 p3 A VDD VDD pch W=0.415u L=0.05u
MP7 p3 B VDD VDD pch W=0.415u L=0.05u
MP8 p3 CI VDD VDD pch W=0.415u L=0.05u
MP9 SN CON p3 VDD pch W=0.415u L=0.05u
MP10 p4 A VDD VDD pch W=0.415u L=0.05u
MP11 p5 B p4 VDD pch W=0.415u L=0.05u
MP12 SN CI p5 VDD pch W=0.415u L=0.05u
MP13 CO CON VDD VDD pch W=0.415u L=0.05u
MP14 S SN VDD VDD pch W=0.415u L=0.05u
MN1 n1 A VSS VSS nch W=0.415u L=0.05u
MN2 n1 B VSS VSS nch W=0.415u L=0.05u
MN3 CON CI n1 VSS nch W=0.415u L=0.05u
MN4 n2 A VSS VSS nch W=0.415u L=0.05u
MN5 CON B n2 VSS nch W=0.415u L=0.05u
MN6 n3 A VSS VSS nch W=0.415u L=0.05u
MN7 n3 B VSS VSS nch W=0.415u L=0.05u
MN8 n3 CI VSS VSS nch W=0.415u L=0.05u
MN9 SN CON n3 VSS nch W=0.415u L=0.05u
MN10 n4 A VSS VSS nch W=0.415u L=0.05u
MN11 n5 B n4 VSS nch W=0.415u L=0.05u
MN12 SN CI n5 VSS nch W=0.415u L=0.05u
MN13 CO CON VSS VSS nch W=0.415u L=0.05u
MN14 S SN VSS VSS nch W=0.415u L=0.05u
.ENDS
";

/// Widths and lengths of 630, 415, 100, 400 and 50 nanometres.
const W630: u128 = 630_000_000_000;

const W415: u128 = 415_000_000_000;

const W100: u128 = 100_000_000_000;

const L400: u128 = 400_000_000_000;

const L50: u128 = 50_000_000_000;

/// A transistor: name, kind, strength, width, length, and the places of drain, gate and source.
type Card = (&'static [u8], DeviceKind, u8, u128, u128, [u32; 3]);

/// A cell: name, roles of its pins, names of its nets (the pins first), and transistors.
#[derive(Clone, Copy)]
struct Expected {
    name: &'static [u8],
    roles: &'static [Role],
    nets: &'static [&'static [u8]],
    cards: &'static [Card],
}

const INV: Expected = Expected {
    name: b"INV",
    roles: &[Input, Output, Power, Ground],
    nets: &[b"A", b"ZN", b"VDD", b"VSS"],
    cards: &[
        (b"MP1", P, STRONGEST, W630, L50, [1, 0, 2]),
        (b"MN1", N, STRONGEST, W415, L50, [1, 0, 3]),
    ],
};

const NAND2: Expected = Expected {
    name: b"NAND2",
    roles: &[Input, Input, Output, Power, Ground],
    nets: &[b"A1", b"A2", b"ZN", b"VDD", b"VSS", b"N1"],
    cards: &[
        (b"MP1", P, STRONGEST, W630, L50, [2, 0, 3]),
        (b"MP2", P, STRONGEST, W630, L50, [2, 1, 3]),
        (b"MN1", N, STRONGEST, W415, L50, [2, 0, 5]),
        (b"MN2", N, STRONGEST, W415, L50, [5, 1, 4]),
    ],
};

const NOR2: Expected = Expected {
    name: b"NOR2",
    roles: &[Input, Input, Output, Power, Ground],
    nets: &[b"A1", b"A2", b"ZN", b"VDD", b"VSS", b"P1"],
    cards: &[
        (b"MP1", P, STRONGEST, W630, L50, [5, 0, 3]),
        (b"MP2", P, STRONGEST, W630, L50, [2, 1, 5]),
        (b"MN1", N, STRONGEST, W415, L50, [2, 0, 4]),
        (b"MN2", N, STRONGEST, W415, L50, [2, 1, 4]),
    ],
};

const AND2: Expected = Expected {
    name: b"AND2",
    roles: &[Input, Input, Output, Power, Ground],
    nets: &[b"A1", b"A2", b"Z", b"VDD", b"VSS", b"NB", b"N1"],
    cards: &[
        (b"MP1", P, STRONGEST, W630, L50, [5, 0, 3]),
        (b"MP2", P, STRONGEST, W630, L50, [5, 1, 3]),
        (b"MN1", N, STRONGEST, W415, L50, [5, 0, 6]),
        (b"MN2", N, STRONGEST, W415, L50, [6, 1, 4]),
        (b"MP3", P, STRONGEST, W630, L50, [2, 5, 3]),
        (b"MN3", N, STRONGEST, W415, L50, [2, 5, 4]),
    ],
};

const TG: Expected = Expected {
    name: b"TG",
    roles: &[Input, Input, Output, Power, Ground],
    nets: &[b"A", b"EN", b"Z", b"VDD", b"VSS"],
    cards: &[(b"M1", N, STRONGEST, W415, L50, [2, 1, 0])],
};

const PSN: Expected = Expected {
    name: b"PSN",
    roles: &[Input, Output, Power, Ground],
    nets: &[b"A", b"ZN", b"VDD", b"VSS"],
    cards: &[
        (b"MP1", P, WEAKEST, W100, L400, [1, 3, 2]),
        (b"MN1", N, STRONGEST, W415, L50, [1, 0, 3]),
    ],
};

const FA28: Expected = Expected {
    name: b"FA28",
    roles: &[Input, Input, Input, Output, Output, Power, Ground],
    nets: &[
        b"A", b"B", b"CI", b"CO", b"S", b"VDD", b"VSS", b"P1", b"CON", b"P2", b"P3", b"SN", b"P4",
        b"P5", b"N1", b"N2", b"N3", b"N4", b"N5",
    ],
    cards: &[
        (b"MP1", P, STRONGEST, W415, L50, [7, 0, 5]),
        (b"MP2", P, STRONGEST, W415, L50, [7, 1, 5]),
        (b"MP3", P, STRONGEST, W415, L50, [8, 2, 7]),
        (b"MP4", P, STRONGEST, W415, L50, [9, 0, 5]),
        (b"MP5", P, STRONGEST, W415, L50, [8, 1, 9]),
        (b"MP6", P, STRONGEST, W415, L50, [10, 0, 5]),
        (b"MP7", P, STRONGEST, W415, L50, [10, 1, 5]),
        (b"MP8", P, STRONGEST, W415, L50, [10, 2, 5]),
        (b"MP9", P, STRONGEST, W415, L50, [11, 8, 10]),
        (b"MP10", P, STRONGEST, W415, L50, [12, 0, 5]),
        (b"MP11", P, STRONGEST, W415, L50, [13, 1, 12]),
        (b"MP12", P, STRONGEST, W415, L50, [11, 2, 13]),
        (b"MP13", P, STRONGEST, W415, L50, [3, 8, 5]),
        (b"MP14", P, STRONGEST, W415, L50, [4, 11, 5]),
        (b"MN1", N, STRONGEST, W415, L50, [14, 0, 6]),
        (b"MN2", N, STRONGEST, W415, L50, [14, 1, 6]),
        (b"MN3", N, STRONGEST, W415, L50, [8, 2, 14]),
        (b"MN4", N, STRONGEST, W415, L50, [15, 0, 6]),
        (b"MN5", N, STRONGEST, W415, L50, [8, 1, 15]),
        (b"MN6", N, STRONGEST, W415, L50, [16, 0, 6]),
        (b"MN7", N, STRONGEST, W415, L50, [16, 1, 6]),
        (b"MN8", N, STRONGEST, W415, L50, [16, 2, 6]),
        (b"MN9", N, STRONGEST, W415, L50, [11, 8, 16]),
        (b"MN10", N, STRONGEST, W415, L50, [17, 0, 6]),
        (b"MN11", N, STRONGEST, W415, L50, [18, 1, 17]),
        (b"MN12", N, STRONGEST, W415, L50, [11, 2, 18]),
        (b"MN13", N, STRONGEST, W415, L50, [3, 8, 6]),
        (b"MN14", N, STRONGEST, W415, L50, [4, 11, 6]),
    ],
};

/// The cells, of which TG alone breaks a rule.
static CELLS: [Expected; 7] = [INV, NAND2, NOR2, AND2, TG, PSN, FA28];

fn has_pins(pins: &[RawPin], cell: Expected) -> bool {
    if pins.len() != cell.roles.len() || cell.nets.len() < pins.len() {
        return false;
    }
    for (i, pin) in pins.iter().enumerate() {
        if !pin.name.is(cell.nets[i]) || pin.role != cell.roles[i] {
            return false;
        }
    }
    true
}

fn has_nets(nets: &[Text], cell: Expected) -> bool {
    if nets.len() != cell.nets.len() {
        return false;
    }
    for (i, net) in nets.iter().enumerate() {
        if !net.is(cell.nets[i]) {
            return false;
        }
    }
    true
}

fn is_device(device: &RawDevice, card: Card) -> bool {
    let (name, kind, strength, width, length, [drain, gate, source]) = card;
    device.name.is(name)
        && device.kind == kind
        && device.strength == strength
        && device.width == Length(width)
        && device.length == Length(length)
        && device.drain == drain
        && device.gate == gate
        && device.source == source
}

fn has_devices(devices: &[RawDevice], cell: Expected) -> bool {
    if devices.len() != cell.cards.len() {
        return false;
    }
    for (i, device) in devices.iter().enumerate() {
        if !is_device(device, cell.cards[i]) {
            return false;
        }
    }
    true
}

/// Whether the library has this cell.
fn has_cell(library: &Library, cell: Expected) -> bool {
    let raw = match library.get(cell.name) {
        Some(Entry::Sound(found)) => found.raw(),
        Some(Entry::Refused(found, _)) => found,
        None => return false,
    };
    has_pins(raw.pins.as_slice(), cell)
        && has_nets(raw.nets.as_slice(), cell)
        && has_devices(raw.devices.as_slice(), cell)
}

/// Whether the cell's own text reads as a library of this cell alone.
fn is_read_again(alloc: Global, cell: Expected) -> Result<bool, Fail> {
    let text = rewritten(alloc, ROW_LIBRARY, cell.name)?;
    let read = read_library(alloc, &StrengthTable::default_table(), text.as_bytes());
    drop(text);
    let again = read.ok().ok_or("the text reads")?;
    let is_it = again.len() == 1 && has_cell(&again, cell);
    drop(again);
    Ok(is_it)
}

#[test]
fn row_library_reads_and_is_written_and_read_again(rt: HostRuntime) -> Result<(), Fail> {
    let alloc = rt.alloc();
    let library = read_library(alloc, &StrengthTable::default_table(), ROW_LIBRARY)
        .ok()
        .ok_or("the text reads")?;
    assert_eq!(rt; library.len(), CELLS.len());
    for (i, cell) in CELLS.iter().enumerate() {
        assert!(rt; has_cell(&library, *cell), "cell {i}");
    }
    drop(library);
    for (i, cell) in CELLS.iter().enumerate() {
        if i != 4 {
            assert!(rt; is_read_again(alloc, *cell)?, "cell {i}");
        }
    }
    Ok(())
}

//! Subcircuits by tables: their pins, the nets after them, and their transistors by places of nets.

use ca_cell::Role::{self, Ground, Input, Output, Power};
use ca_cell::{Cell, RawCell, RawDevice, RawDevices, RawPin, RawPins};
use ca_lex::{Length, Names, Text};
use ca_net::DeviceKind::{N, P};
use ca_net::{Device, DeviceId, DeviceKind, Network, NodeId, NodeKind, STRONGEST, WEAKEST};
use std::alloc::Global;
use std::process::Abort;

// A pin: its name and its role.
pub(crate) type Pin = (&'static [u8], Role);

// A transistor: its name, kind and strength, and its drain, gate and source as places in the list of nets.
pub(crate) type Card = (&'static [u8], DeviceKind, u8, u32, u32, u32);

// A subcircuit.
#[derive(Clone, Copy)]
pub(crate) struct Example<'a> {
    pub(crate) pins: &'a [Pin],
    pub(crate) inner: &'a [&'static [u8]],
    pub(crate) cards: &'a [Card],
}

pub(crate) const NAND2: Example<'static> = Example {
    pins: &[
        (b"A1", Input),
        (b"A2", Input),
        (b"ZN", Output),
        (b"VDD", Power),
        (b"VSS", Ground),
    ],
    inner: &[b"N1"],
    cards: &[
        (b"MP1", P, STRONGEST, 2, 0, 3),
        (b"MP2", P, STRONGEST, 2, 1, 3),
        (b"MN1", N, STRONGEST, 2, 0, 5),
        (b"MN2", N, STRONGEST, 5, 1, 4),
    ],
};

// The same with its last transistor weak.
pub(crate) const WEAK_NAND2: Example<'static> = Example {
    cards: &[
        (b"MP1", P, STRONGEST, 2, 0, 3),
        (b"MP2", P, STRONGEST, 2, 1, 3),
        (b"MN1", N, STRONGEST, 2, 0, 5),
        (b"MN2", N, WEAKEST, 5, 1, 4),
    ],
    ..NAND2
};

// The same with its inner net kept in lower case.
pub(crate) const LOWER_NAND2: Example<'static> = Example {
    inner: &[b"n1"],
    ..NAND2
};

pub(crate) const AND2: Example<'static> = Example {
    pins: &[
        (b"A1", Input),
        (b"A2", Input),
        (b"Z", Output),
        (b"VDD", Power),
        (b"VSS", Ground),
    ],
    inner: &[b"NB", b"N1"],
    cards: &[
        (b"MP1", P, STRONGEST, 5, 0, 3),
        (b"MP2", P, STRONGEST, 5, 1, 3),
        (b"MN1", N, STRONGEST, 5, 0, 6),
        (b"MN2", N, STRONGEST, 6, 1, 4),
        (b"MP3", P, STRONGEST, 2, 5, 3),
        (b"MN3", N, STRONGEST, 2, 5, 4),
    ],
};

pub(crate) const INVERTERS: Example<'static> = Example {
    pins: &[
        (b"A1", Input),
        (b"A2", Input),
        (b"Z1", Output),
        (b"Z2", Output),
        (b"VDD", Power),
        (b"VSS", Ground),
    ],
    inner: &[],
    cards: &[
        (b"MP1", P, STRONGEST, 2, 0, 4),
        (b"MN1", N, STRONGEST, 2, 0, 5),
        (b"MP2", P, STRONGEST, 3, 1, 4),
        (b"MN2", N, STRONGEST, 3, 1, 5),
    ],
};

pub(crate) fn device_of(rt: &impl Abort, alloc: Global, card: &Card) -> RawDevice {
    let (name, kind, strength, drain, gate, source) = *card;
    RawDevice {
        name: Text::from_bytes(alloc, name).expect(rt, "memory"),
        kind,
        strength,
        width: Length(2),
        length: Length(1),
        drain,
        gate,
        source,
    }
}

pub(crate) fn raw_of(rt: &impl Abort, alloc: Global, example: &Example<'_>) -> RawCell {
    let mut raw = RawCell {
        pins: RawPins::new(alloc),
        nets: Names::new(alloc),
        devices: RawDevices::new(alloc),
    };
    for (name, role) in example.pins {
        raw.pins
            .push(RawPin {
                name: Text::from_bytes(alloc, name).expect(rt, "memory"),
                role: *role,
            })
            .expect(rt, "memory");
        raw.nets
            .push(Text::from_bytes(alloc, name).expect(rt, "memory"))
            .expect(rt, "memory");
    }
    for name in example.inner {
        raw.nets
            .push(Text::from_bytes(alloc, name).expect(rt, "memory"))
            .expect(rt, "memory");
    }
    for card in example.cards {
        raw.devices
            .push(device_of(rt, alloc, card))
            .expect(rt, "memory");
    }
    raw
}

pub(crate) fn cell_of(rt: &impl Abort, alloc: Global, example: &Example<'_>) -> Cell {
    let raw = raw_of(rt, alloc, example);
    assert!(rt; raw.is_raw());
    Cell::check(alloc, &raw).expect(rt, "a cell that keeps the rules")
}

// A device of a network: its kind and strength, and the places of its gate, drain and source.
pub(crate) type Part = (DeviceKind, u8, u32, u32, u32);

// Asserts the nodes and the devices of a network, in order.
pub(crate) fn try_network<T: Network>(
    rt: &impl Abort,
    net: &T,
    nodes: &[NodeKind],
    parts: &[Part],
) {
    assert_eq!(rt; net.node_count(), nodes.len());
    for n in 0..net.node_count() {
        assert!(rt; n < 9 && n < nodes.len());
        assert_eq!(rt; net.kind(NodeId(n as u32)), nodes[n], "{n}");
    }
    assert_eq!(rt; net.device_count(), parts.len());
    for d in 0..net.device_count() {
        assert!(rt; d < 9 && d < parts.len());
        let (kind, strength, gate, a, b) = parts[d];
        let expected = Device {
            kind,
            strength,
            gate: NodeId(gate),
            a: NodeId(a),
            b: NodeId(b),
        };
        assert_eq!(rt; net.device(DeviceId(d as u32)), expected, "{d}");
    }
}

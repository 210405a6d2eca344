//! The nodes and devices of cells, and the devices that drive an input pin.

use crate::examples::{Example, NAND2, Part, Pin, WEAK_NAND2, cell_of, raw_of, try_network};
use crate::shapes::broken;
use ca_cell::Role::{Ground, Input, Output, Power};
use ca_cell::{Cell, CellRule};
use ca_net::DeviceKind::{N, P};
use ca_net::{DeviceId, INNER_NODE, Network, NodeId, NodeKind, OUTPUT_NET, STRONGEST, WEAKEST};
use std::process::Abort;

static NAND2_NODES: [NodeKind; 6] = [
    NodeKind::Input,
    NodeKind::Input,
    NodeKind::Input,
    NodeKind::Input,
    NodeKind::Storage(OUTPUT_NET),
    NodeKind::Storage(INNER_NODE),
];

static NAND2_NAMES: [&[u8]; 6] = [b"VDD", b"VSS", b"A1", b"A2", b"ZN", b"N1"];

static NAND2_PARTS: [Part; 4] = [
    (P, STRONGEST, 2, 4, 0),
    (P, STRONGEST, 3, 4, 0),
    (N, STRONGEST, 2, 4, 5),
    (N, WEAKEST, 3, 5, 1),
];

static NAND2_DEVICES: [&[u8]; 4] = [b"MP1", b"MP2", b"MN1", b"MN2"];

// Pins out of the order of nodes, and two more names of power and ground.
static MIXED_PINS: [Pin; 8] = [
    (b"Z", Output),
    (b"VSS", Ground),
    (b"A", Input),
    (b"VDD", Power),
    (b"VCC", Power),
    (b"B", Input),
    (b"GND", Ground),
    (b"Y", Output),
];

static MIXED_NODES: [NodeKind; 8] = [
    NodeKind::Input,
    NodeKind::Input,
    NodeKind::Input,
    NodeKind::Input,
    NodeKind::Storage(OUTPUT_NET),
    NodeKind::Storage(OUTPUT_NET),
    NodeKind::Storage(INNER_NODE),
    NodeKind::Storage(INNER_NODE),
];

static MIXED_NAMES: [&[u8]; 8] = [b"VDD", b"VSS", b"A", b"B", b"Z", b"Y", b"Q", b"P"];

// Asserts the names of the cell's nodes and devices, in order.
fn try_names(rt: &impl Abort, cell: &Cell, nodes: &[&[u8]], devices: &[&[u8]]) {
    for n in 0..cell.node_count() {
        assert!(rt; n < 9 && n < nodes.len());
        assert!(rt; cell.node_name(NodeId(n as u32)).is(nodes[n]), "{n}");
    }
    for d in 0..cell.device_count() {
        assert!(rt; d < 9 && d < devices.len());
        assert!(rt; cell.device_name(DeviceId(d as u32)).is(devices[d]), "{d}");
    }
}

#[test]
fn the_nodes_and_devices_of_a_nand(rt: HostRuntime) {
    let cell = cell_of(&rt, rt.alloc(), &WEAK_NAND2);
    try_network(&rt, &cell, &NAND2_NODES, &NAND2_PARTS);
    try_names(&rt, &cell, &NAND2_NAMES, &NAND2_DEVICES);
    assert_eq!(rt; cell.inputs(), 2);
    assert_eq!(rt; cell.outputs(), 1);
    assert_eq!(rt; cell.defect_count(), 19);
    drop(cell);
}

#[test]
fn nodes_are_named_by_their_first_nets(rt: HostRuntime) {
    let mixed = Example {
        pins: &MIXED_PINS,
        inner: &[b"Q", b"P"],
        cards: &[],
    };
    let cell = cell_of(&rt, rt.alloc(), &mixed);
    try_network(&rt, &cell, &MIXED_NODES, &[]);
    try_names(&rt, &cell, &MIXED_NAMES, &[]);
    // No device, two input pins, and fifteen pairs of six nodes less one.
    assert_eq!(rt; cell.defect_count(), 16);
    drop(cell);
}

// The drain and the source of the second of three devices, of which the third has its drain on an input pin,
// and the node of the pin that is named.
static DRIVEN: [(u32, u32, u32); 4] = [(1, 0, 3), (0, 1, 2), (2, 0, 2), (1, 2, 3)];

#[test]
fn the_first_device_on_an_input_pin_is_named_with_its_drain(rt: HostRuntime) {
    for (drain, source, pin) in &DRIVEN {
        let example = Example {
            pins: NAND2.pins,
            inner: &[],
            cards: &[
                (b"M1", N, STRONGEST, 2, 0, 4),
                (b"M2", N, STRONGEST, *drain, 1, *source),
                (b"M3", P, STRONGEST, 0, 1, 0),
            ],
        };
        let rule = broken(&rt, rt.alloc(), &raw_of(&rt, rt.alloc(), &example));
        let expected = CellRule::InputDrivesChannel {
            pin: NodeId(*pin),
            device: DeviceId(1),
        };
        assert_eq!(rt; rule, Some(expected), "{drain} {source}");
    }
}

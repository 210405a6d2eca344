//! Networks by tables: their nodes, and their devices by the places of nodes.

ghost use Rattle.std.specs.Prelude.{◌≡◌, ◌<◌, length, IfOk};
ghost use Rattle.ca_net.specs.Circuit.{HasSize, HasStrength, GateIsDrain};

use Part::{N, P, Short, WeakP};
use Place::{Ground, Inner, Output, Pin, Power};
use ca_net::{
    BRIDGE, Device, DeviceKind, DeviceList, FlatNet, INNER_NODE, NetFault, NodeId, NodeKind,
    NodeList, OUTPUT_NET, STRONGEST, WEAKEST,
};
use std::alloc::Global;

// A node of a network.
#[derive(Clone, Copy, PartialEq, Eq)]
pub(crate) enum Place {
    Power,
    Ground,
    Pin,
    Output,
    Inner,
}

// A device of a network: a transistor's gate, drain and source, or the two ends of a short.
#[derive(Clone, Copy)]
pub(crate) enum Part {
    N(u32, u32, u32),
    P(u32, u32, u32),
    WeakP(u32, u32, u32),
    Short(u32, u32),
}

fn node_of(place: Place) -> NodeKind
    ensures { HasSize result }
{
    match place {
        Power | Ground | Pin => NodeKind::Input,
        Output => NodeKind::Storage(OUTPUT_NET),
        Inner => NodeKind::Storage(INNER_NODE),
    }
}

fn device_of(part: Part) -> Device
    ensures strength { HasStrength result }
    ensures gate { GateIsDrain result }
{
    let (kind, strength, gate, a, b) = match part {
        N(gate, drain, source) => (DeviceKind::N, STRONGEST, gate, drain, source),
        P(gate, drain, source) => (DeviceKind::P, STRONGEST, gate, drain, source),
        WeakP(gate, drain, source) => (DeviceKind::P, WEAKEST, gate, drain, source),
        Short(a, b) => (DeviceKind::D, BRIDGE, a, a, b),
    };
    Device {
        kind,
        strength,
        gate: NodeId(gate),
        a: NodeId(a),
        b: NodeId(b),
    }
}

pub(crate) fn network(alloc: Global, places: &[Place], parts: &[Part]) -> Result<FlatNet, NetFault>
    requires places { length places.now < 100 }
    requires parts { length parts.now < 100 }
    ensures { IfOk result (λ net. length net.nodes ≡ length places.now) }
{
    let mut nodes = NodeList::new(alloc);
    for place in places {
        nodes.push(node_of(*place)).map_err(|_| NetFault::NoMemory)?;
    }
    let mut devices = DeviceList::new(alloc);
    for part in parts {
        devices
            .push(device_of(*part))
            .map_err(|_| NetFault::NoMemory)?;
    }
    FlatNet::new(nodes, devices)
}

// power, ground, A1, A2, ZN, N1
pub(crate) const NAND2: [Place; 6] = [Power, Ground, Pin, Pin, Output, Inner];

pub(crate) const NAND2_PARTS: [Part; 4] = [P(2, 4, 0), P(3, 4, 0), N(2, 4, 5), N(3, 5, 1)];

// the same, and a node after them for an open
pub(crate) const OPENED: [Place; 7] = [Power, Ground, Pin, Pin, Output, Inner, Inner];

// the drain of the first transistor is on that node
pub(crate) const OPEN_DRAIN_PARTS: [Part; 4] = [P(2, 6, 0), P(3, 4, 0), N(2, 4, 5), N(3, 5, 1)];

// power, ground, A1, A2, Z, NB, n1
pub(crate) const AND2: [Place; 7] = [Power, Ground, Pin, Pin, Output, Inner, Inner];

pub(crate) const AND2_PARTS: [Part; 6] = [
    P(2, 5, 0),
    P(3, 5, 0),
    N(2, 5, 6),
    N(3, 6, 1),
    P(5, 4, 0),
    N(5, 4, 1),
];

// power, ground, A, B, CI, CO, S, p1, CON, p2, p3, SN, p4, p5, n1, n2, n3, n4, n5
pub(crate) const FULL_ADDER: [Place; 19] = [
    Power, Ground, Pin, Pin, Pin, Output, Output, Inner, Inner, Inner, Inner, Inner, Inner, Inner,
    Inner, Inner, Inner, Inner, Inner,
];

pub(crate) const FULL_ADDER_PARTS: [Part; 28] = [
    P(2, 7, 0),
    P(3, 7, 0),
    P(4, 8, 7),
    P(2, 9, 0),
    P(3, 8, 9),
    P(2, 10, 0),
    P(3, 10, 0),
    P(4, 10, 0),
    P(8, 11, 10),
    P(2, 12, 0),
    P(3, 13, 12),
    P(4, 11, 13),
    P(8, 5, 0),
    P(11, 6, 0),
    N(2, 14, 1),
    N(3, 14, 1),
    N(4, 8, 14),
    N(2, 15, 1),
    N(3, 8, 15),
    N(2, 16, 1),
    N(3, 16, 1),
    N(4, 16, 1),
    N(8, 11, 16),
    N(2, 17, 1),
    N(3, 18, 17),
    N(4, 11, 18),
    N(8, 5, 1),
    N(11, 6, 1),
];

//! A network with a hazard, good and with the open drain of a transistor, and vectors of it.

ghost use Rattle.std.specs.Prelude.{◌≡◌, ◌+◌, ◌<◌, length, IfOk, OnOk, List};
ghost use Rattle.ca_net.specs.Circuit.{HasSize, HasStrength, GateIsDrain};
ghost use Rattle.ca_net.specs.declared.trit.Trit.{Trit};
ghost use Rattle.ca_replay.specs.Replay.{CoverInputs};
ghost use Rattle.ca_replay_tests.specs.code.Inputs.{AreInputs};

use Part::{N, P};
use Place::{Inner, Input, Output};
use ca_base::{List, NoMemory};
use ca_net::{
    Device, DeviceKind, DeviceList, FlatNet, INNER_NODE, NetFault, Network, NodeId, NodeKind,
    NodeList, OUTPUT_NET, STRONGEST, State, Trit,
};
use std::alloc::Global;

// A node of a network.
#[derive(Clone, Copy)]
pub(crate) enum Place {
    Input,
    Output,
    Inner,
}

// A transistor of a network: its gate, drain and source.
#[derive(Clone, Copy)]
pub(crate) enum Part {
    N(u32, u32, u32),
    P(u32, u32, u32),
}

fn node_of(place: Place) -> NodeKind
    ensures { HasSize result }
{
    match place {
        Input => NodeKind::Input,
        Output => NodeKind::Storage(OUTPUT_NET),
        Inner => NodeKind::Storage(INNER_NODE),
    }
}

fn device_of(part: Part) -> Device
    ensures strength { HasStrength result }
    ensures gate { GateIsDrain result }
{
    let (kind, gate, a, b) = match part {
        N(gate, drain, source) => (DeviceKind::N, gate, drain, source),
        P(gate, drain, source) => (DeviceKind::P, gate, drain, source),
    };
    Device {
        kind,
        strength: STRONGEST,
        gate: NodeId(gate),
        a: NodeId(a),
        b: NodeId(b),
    }
}

pub(crate) fn network(alloc: Global, places: &[Place], parts: &[Part]) -> Result<FlatNet, NetFault>
    requires places { length places.now < 100 }
    requires parts { length parts.now < 100 }
    ensures { IfOk result (λ net. length net.nodes ≡ length places.now) }
{
    let mut nodes = NodeList::new(alloc);
    for place in places {
        nodes.push(node_of(*place)).map_err(|_| NetFault::NoMemory)?;
    }
    let mut devices = DeviceList::new(alloc);
    for part in parts {
        devices
            .push(device_of(*part))
            .map_err(|_| NetFault::NoMemory)?;
    }
    FlatNet::new(nodes, devices)
}

// Lists a node, if it is an input node.
#[tactic(auto, using(crate::proofs::InputLemmas::input_listed, crate::proofs::InputLemmas::storage_passed))]
fn list_input(net: &FlatNet, n: usize, inputs: &mut List<NodeId>) -> Result<(), NoMemory>
    requires node { n < length net.now.nodes }
    requires before { AreInputs net.now n inputs.old }
    ensures { OnOk result (AreInputs net.now (n + 1) inputs.new) }
{
    net.node_count();
    match net.kind(NodeId(n as u32)) {
        NodeKind::Input => inputs.push(NodeId(n as u32)),
        NodeKind::Storage(_) => Ok(()),
    }
}

// The input nodes of a network, in the order of its nodes.
#[tactic(auto, using(crate::proofs::InputLemmas::no_inputs, crate::proofs::InputLemmas::all_inputs))]
pub(crate) fn inputs_of(alloc: Global, net: &FlatNet) -> Result<List<NodeId>, NoMemory>
    ensures { IfOk result (λ inputs. (v1 v2 : List Trit) → CoverInputs net.now v1 v2 inputs) }
{
    let mut inputs = List::new(alloc);
    for n in 0..net.node_count() {
        list_input(net, n, &mut inputs)?;
    }
    Ok(inputs)
}

// The vector of `nodes` nodes with these values at the first of them, and X at the others.
pub(crate) fn vector(alloc: Global, nodes: usize, values: &[Trit]) -> Result<State, NoMemory>
    ensures { IfOk result (λ vector. length vector ≡ nodes) }
{
    let mut vector = State::unknown(alloc, nodes)?;
    for n in 0..nodes {
        if n < values.len() {
            vector.set(n, values[n]);
        }
    }
    Ok(vector)
}

// 0 power, 1 ground, the inputs 2 a, 3 s and 4 d, the outputs 5 z, 6 sn, 7 w1, 8 w2 and 9 y of an inverter of
// s, the NAND gates of s and d, of sn and d, and of w1 and w2; z is that of a and y. 10 to 13 are the inner
// nodes of the NAND gates, and 14 is a node that an open adds.
pub(crate) const HAZARD: [Place; 15] = [
    Input, Input, Input, Input, Input, Output, Output, Output, Output, Output, Inner, Inner, Inner,
    Inner, Inner,
];

pub(crate) const GOOD: [Part; 18] = [
    P(3, 6, 0),
    N(3, 6, 1),
    P(3, 7, 0),
    P(4, 7, 0),
    N(3, 7, 10),
    N(4, 10, 1),
    P(6, 8, 0),
    P(4, 8, 0),
    N(6, 8, 11),
    N(4, 11, 1),
    P(7, 9, 0),
    P(8, 9, 0),
    N(7, 9, 12),
    N(8, 12, 1),
    P(2, 5, 0),
    P(9, 5, 0),
    N(2, 5, 13),
    N(9, 13, 1),
];

// The drain of the transistor from power to z whose gate is a is on the added node.
pub(crate) const OPENED: [Part; 18] = [
    P(3, 6, 0),
    N(3, 6, 1),
    P(3, 7, 0),
    P(4, 7, 0),
    N(3, 7, 10),
    N(4, 10, 1),
    P(6, 8, 0),
    P(4, 8, 0),
    N(6, 8, 11),
    N(4, 11, 1),
    P(7, 9, 0),
    P(8, 9, 0),
    N(7, 9, 12),
    N(8, 12, 1),
    P(2, 14, 0),
    P(9, 5, 0),
    N(2, 5, 13),
    N(9, 13, 1),
];

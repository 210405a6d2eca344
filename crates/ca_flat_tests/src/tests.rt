//! A defect that a chip shows though the pair at its instance doesn't expose it: a cell downstream keeps a
//! value of the first vector. Only the row of the first vector alone exposes the defect.

ghost use Rattle.std.specs.Prelude.{◌≡◌, ◌+◌, ◌<◌, ◌≤◌, ◌^◌, length, OnOk, IfOk};
ghost use Rattle.std.specs.List.{All};
ghost use Rattle.ca_net.specs.Circuit.{HasSize, HasStrength, GateIsDrain};
ghost use Rattle.ca_net.specs.Wave.{input_count};

use ca_base::NoMemory;
use ca_net::{
    BRIDGE, Device, DeviceKind, DeviceList, FlatNet, INNER_NODE, NetFault, Network, NodeId,
    NodeKind, NodeList, OUTPUT_NET, STRONGEST, Trit, Wave,
};
use ca_settle::{Work, three_phase};
use std::alloc::Global;

#[tactic(auto, using(ca_settle::proofs::VectorLemmas::input_count_push))]
fn push_input(nodes: &mut NodeList) -> Result<(), NetFault>
    requires sizes { All HasSize nodes.old }
    ensures sizes { OnOk result (All HasSize nodes.new) }
    ensures count { OnOk result (length nodes.new ≡ length nodes.old + 1) }
    ensures inputs { OnOk result (input_count nodes.new ≡ input_count nodes.old + 1) }
{
    nodes.push(NodeKind::Input).map_err(|_| NetFault::NoMemory)
}

#[tactic(auto, using(ca_settle::proofs::VectorLemmas::input_count_push))]
fn push_storage(nodes: &mut NodeList, size: u8) -> Result<(), NetFault>
    requires sizes { All HasSize nodes.old }
    requires size { HasSize (NodeKind.Storage size) }
    ensures sizes { OnOk result (All HasSize nodes.new) }
    ensures count { OnOk result (length nodes.new ≡ length nodes.old + 1) }
    ensures inputs { OnOk result (input_count nodes.new ≡ input_count nodes.old) }
{
    nodes
        .push(NodeKind::Storage(size))
        .map_err(|_| NetFault::NoMemory)
}

// 0 power, 1 ground, the inputs 2 b, 3 a, 4 c, and the outputs 5 e, 6 y
fn outer_nodes(alloc: Global) -> Result<NodeList, NetFault>
    ensures sizes { IfOk result (λ nodes. All HasSize nodes) }
    ensures count { IfOk result (λ nodes. length nodes ≡ 7) }
    ensures inputs { IfOk result (λ nodes. input_count nodes ≡ 5) }
{
    let mut nodes = NodeList::new(alloc);
    push_input(&mut nodes)?;
    push_input(&mut nodes)?;
    push_input(&mut nodes)?;
    push_input(&mut nodes)?;
    push_input(&mut nodes)?;
    push_storage(&mut nodes, OUTPUT_NET)?;
    push_storage(&mut nodes, OUTPUT_NET)?;
    Ok(nodes)
}

fn push_inner(nodes: &mut NodeList) -> Result<(), NetFault>
    requires sizes { All HasSize nodes.old }
    ensures sizes { OnOk result (All HasSize nodes.new) }
    ensures count { OnOk result (length nodes.new ≡ length nodes.old + 3) }
    ensures inputs { OnOk result (input_count nodes.new ≡ input_count nodes.old) }
{
    push_storage(nodes, INNER_NODE)?;
    push_storage(nodes, INNER_NODE)?;
    push_storage(nodes, INNER_NODE)?;
    Ok(())
}

fn push_n(devices: &mut DeviceList, gate: u32, a: u32, b: u32) -> Result<(), NetFault>
    requires strengths { All HasStrength devices.old }
    requires gates { All GateIsDrain devices.old }
    ensures strengths { OnOk result (All HasStrength devices.new) }
    ensures gates { OnOk result (All GateIsDrain devices.new) }
    ensures count { OnOk result (length devices.new ≡ length devices.old + 1) }
{
    devices
        .push(Device {
            kind: DeviceKind::N,
            strength: STRONGEST,
            gate: NodeId(gate),
            a: NodeId(a),
            b: NodeId(b),
        })
        .map_err(|_| NetFault::NoMemory)
}

fn push_p(devices: &mut DeviceList, gate: u32, a: u32, b: u32) -> Result<(), NetFault>
    requires strengths { All HasStrength devices.old }
    requires gates { All GateIsDrain devices.old }
    ensures strengths { OnOk result (All HasStrength devices.new) }
    ensures gates { OnOk result (All GateIsDrain devices.new) }
    ensures count { OnOk result (length devices.new ≡ length devices.old + 1) }
{
    devices
        .push(Device {
            kind: DeviceKind::P,
            strength: STRONGEST,
            gate: NodeId(gate),
            a: NodeId(a),
            b: NodeId(b),
        })
        .map_err(|_| NetFault::NoMemory)
}

// The inner net m, and after it p and n: m is the inverse of b, e the NOR of m and a, y the NAND of m and c.
fn push_gates(devices: &mut DeviceList, m: u32) -> Result<(), NetFault>
    requires inner { m < 100 }
    requires strengths { All HasStrength devices.old }
    requires gates { All GateIsDrain devices.old }
    ensures strengths { OnOk result (All HasStrength devices.new) }
    ensures gates { OnOk result (All GateIsDrain devices.new) }
    ensures count { OnOk result (length devices.new ≡ length devices.old + 10) }
{
    let (p, n) = (m + 1, m + 2);
    push_p(devices, 2, m, 0)?;
    push_n(devices, 2, m, 1)?;
    push_p(devices, m, p, 0)?;
    push_p(devices, 3, 5, p)?;
    push_n(devices, m, 5, 1)?;
    push_n(devices, 3, 5, 1)?;
    push_p(devices, m, 6, 0)?;
    push_p(devices, 4, 6, 0)?;
    push_n(devices, m, 6, n)?;
    push_n(devices, 4, n, 1)?;
    Ok(())
}

// The defect, if the network is to have it: a short of power and m.
fn push_short(devices: &mut DeviceList, m: u32, faulty: bool) -> Result<(), NetFault>
    requires strengths { All HasStrength devices.old }
    requires gates { All GateIsDrain devices.old }
    ensures strengths { OnOk result (All HasStrength devices.new) }
    ensures gates { OnOk result (All GateIsDrain devices.new) }
    ensures count { OnOk result (length devices.new ≤ length devices.old + 1) }
{
    if faulty {
        devices
            .push(Device {
                kind: DeviceKind::D,
                strength: BRIDGE,
                gate: NodeId(0),
                a: NodeId(0),
                b: NodeId(m),
            })
            .map_err(|_| NetFault::NoMemory)
    } else {
        Ok(())
    }
}

// The cell alone: its inner nodes are 7 m, 8 p and 9 n.
fn cell(alloc: Global, faulty: bool) -> Result<FlatNet, NetFault>
    ensures count { IfOk result (λ net. length net.nodes ≡ 10) }
    ensures inputs { IfOk result (λ net. input_count net.nodes ≡ 5) }
{
    let mut nodes = outer_nodes(alloc)?;
    push_inner(&mut nodes)?;
    let mut devices = DeviceList::new(alloc);
    push_gates(&mut devices, 7)?;
    push_short(&mut devices, 7, faulty)?;
    FlatNet::new(nodes, devices)
}

// The chip, flattened by hand: the observed net 7 z is downstream of e and y, and the inner nodes are 8 m, 9
// p and 10 n. The second cell has a transistor from power to z with its gate on y, and one from ground to z
// with its gate on e.
fn chip(alloc: Global, faulty: bool) -> Result<FlatNet, NetFault>
    ensures count { IfOk result (λ net. length net.nodes ≡ 11) }
    ensures inputs { IfOk result (λ net. input_count net.nodes ≡ 5) }
{
    let mut nodes = outer_nodes(alloc)?;
    push_storage(&mut nodes, OUTPUT_NET)?;
    push_inner(&mut nodes)?;
    let mut devices = DeviceList::new(alloc);
    push_gates(&mut devices, 8)?;
    push_p(&mut devices, 6, 7, 0)?;
    push_n(&mut devices, 5, 7, 1)?;
    push_short(&mut devices, 8, faulty)?;
    FlatNet::new(nodes, devices)
}

// What every run ends with at two nodes, X where that isn't one value, for the vectors over b, a and c.
fn ends(
    alloc: Global,
    net: &FlatNet,
    first: [Trit; 3],
    last: [Trit; 3],
    nodes: (u32, u32),
) -> Result<(Trit, Trit), NoMemory>
    requires inputs { input_count net.now.nodes ≡ 5 }
    requires one { nodes.0 < length net.now.nodes }
    requires other { nodes.1 < length net.now.nodes }
{
    let mut work = Work::reserve(alloc, net.node_count(), net.device_count())?;
    let power = Wave::pair(Trit::One, Trit::One);
    let ground = Wave::pair(Trit::Zero, Trit::Zero);
    let b = Wave::pair(first[0], last[0]);
    let a = Wave::pair(first[1], last[1]);
    let c = Wave::pair(first[2], last[2]);
    three_phase(net, &[power, ground, b, a, c], &mut work);
    let (one, other) = (work.wave(NodeId(nodes.0)), work.wave(NodeId(nodes.1)));
    drop(work);
    Ok((one.last, other.last))
}

#[test]
fn steady_row_alone_exposes(rt: HostRuntime) {
    use Trit::{One, Zero};
    let alloc = rt.alloc();
    let good = cell(alloc, false).expect(&rt, "a network");
    let faulty = cell(alloc, true).expect(&rt, "a network");
    let (first, last) = ([One, Zero, One], [One, One, Zero]);
    for (name, from, to, good_ends, faulty_ends) in [
        ("the pair", first, last, (Zero, One), (Zero, One)),
        ("its first vector", first, first, (One, One), (Zero, Zero)),
    ] {
        let got = ends(alloc, &good, from, to, (5, 6)).expect(&rt, "memory");
        assert_eq!(rt; got, good_ends, "good, {name}");
        let got = ends(alloc, &faulty, from, to, (5, 6)).expect(&rt, "memory");
        assert_eq!(rt; got, faulty_ends, "faulty, {name}");
    }
    drop(faulty);
    drop(good);
}

#[test]
fn cell_downstream_keeps_the_first_value(rt: HostRuntime) {
    use Trit::{One, Zero};
    let alloc = rt.alloc();
    let (first, last) = ([One, Zero, One], [One, One, Zero]);
    for (faulty, z) in [(false, Zero), (true, One)] {
        let net = chip(alloc, faulty).expect(&rt, "a network");
        let got = ends(alloc, &net, first, last, (7, 7)).expect(&rt, "memory");
        assert_eq!(rt; got, (z, z), "with the defect: {faulty}");
        drop(net);
    }
}

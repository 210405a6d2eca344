//! The three limits of the output of a NAND gate, with an open drain and without.

ghost use Rattle.std.specs.Prelude.{◌≡◌, ◌<◌, ◌+◌, length, take};
ghost use Rattle.ca_net.specs.Wave.{input_count, IsWave};
ghost use Rattle.ca_settle.specs.Settled.{IsRoomFor};

use crate::networks::{NAND2, NAND2_PARTS, OPEN_DRAIN_PARTS, OPENED, Part, Place, network};
use ca_net::Trit::{One, X, Zero};
use ca_net::{FlatNet, Network, NodeId, NodeKind, Trit, Wave};
use ca_settle::{Work, three_phase};
use std::alloc::Global;
use std::process::Abort;

// How many nodes of the network are input nodes.
#[tactic(auto, using(crate::proofs::CountLemmas::counts_more))]
fn inputs_of(net: &FlatNet) -> usize
    ensures { result ≡ input_count net.now.nodes }
{
    let mut inputs = 0;
    for n in 0..net.node_count() {
        inputs += match net.kind(NodeId(n as u32)) {
            NodeKind::Input => 1,
            NodeKind::Storage(_) => 0,
        };
    }
    inputs
}

// A network, the two values of A1 and of A2, and the limits of ZN.
type Row = (
    &'static [Place],
    &'static [Part],
    (Trit, Trit),
    (Trit, Trit),
    (Trit, Trit, Trit),
);

static ROWS: [Row; 8] = [
    (
        &NAND2,
        &NAND2_PARTS,
        (One, Zero),
        (One, One),
        (Zero, X, One),
    ),
    (
        &NAND2,
        &NAND2_PARTS,
        (One, Zero),
        (Zero, One),
        (One, X, One),
    ),
    (
        &NAND2,
        &NAND2_PARTS,
        (Zero, Zero),
        (One, One),
        (One, One, One),
    ),
    (&NAND2, &NAND2_PARTS, (Zero, Zero), (X, X), (One, One, One)),
    (&NAND2, &NAND2_PARTS, (One, One), (X, X), (X, X, X)),
    (
        &OPENED,
        &OPEN_DRAIN_PARTS,
        (One, Zero),
        (One, One),
        (Zero, Zero, Zero),
    ),
    (
        &OPENED,
        &OPEN_DRAIN_PARTS,
        (One, Zero),
        (Zero, One),
        (One, X, X),
    ),
    (
        &OPENED,
        &OPEN_DRAIN_PARTS,
        (Zero, Zero),
        (One, One),
        (X, X, X),
    ),
];

// The limits of ZN under the waves of A1 and A2, found in the room that is given.
fn settled(net: &FlatNet, a1: Wave, a2: Wave, work: &mut Work) -> Wave
    requires a1 { IsWave a1 }
    requires a2 { IsWave a2 }
    requires node { 4 < length net.now.nodes }
    requires inputs { input_count net.now.nodes ≡ 4 }
    requires room { IsRoomFor net.now work.old }
{
    let power = Wave::pair(One, One);
    let ground = Wave::pair(Zero, Zero);
    three_phase(net, &[power, ground, a1, a2], work);
    work.wave(NodeId(4))
}

// The same with room that is taken. Each value is dropped in one place here and below: more places are slow
// to prove.
fn limits(rt: &impl Abort, alloc: Global, net: &FlatNet, a1: Wave, a2: Wave) -> Wave
    requires a1 { IsWave a1 }
    requires a2 { IsWave a2 }
    requires node { 4 < length net.now.nodes }
    requires inputs { input_count net.now.nodes ≡ 4 }
{
    let mut work = Work::reserve(alloc, net.node_count(), net.device_count()).expect(rt, "room");
    let got = settled(net, a1, a2, &mut work);
    drop(work);
    got
}

#[test]
fn limits_of_a_nand_with_an_open_drain_and_without(rt: HostRuntime) {
    let alloc = rt.alloc();
    for (places, parts, a1, a2, zn) in &ROWS {
        assert!(rt; 4 < places.len() && places.len() < 100 && parts.len() < 100);
        let net = network(alloc, places, parts).expect(&rt, "a network");
        assert_eq!(rt; inputs_of(&net), 4);
        let (a1, a2) = (Wave::pair(a1.0, a1.1), Wave::pair(a2.0, a2.1));
        let got = limits(&rt, alloc, &net, a1, a2);
        drop(net);
        assert_eq!(rt; (got.first, got.mid, got.last), *zn, "{a1:?} {a2:?}");
    }
}

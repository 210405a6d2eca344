//! Responses: of single nodes as they are by hand, and of whole cells in many states, each found in both
//! ways.

ghost use Rattle.std.specs.Prelude.{◌≡◌, ◌<◌, length, IfOk};

use crate::networks::Part::{self, N, P, Short, WeakP};
use crate::networks::Place::{self, Ground, Inner, Output, Pin, Power};
use crate::networks::{
    AND2, AND2_PARTS, FULL_ADDER, FULL_ADDER_PARTS, NAND2, NAND2_PARTS, OPEN_DRAIN_PARTS, OPENED,
    network,
};
use ca_base::NoMemory;
use ca_net::Trit::{One, X, Zero};
use ca_net::{
    DeviceId, FlatNet, Marks, NetFault, Network, NodeId, State, Trit, Wave, below, meet,
    response_by_paths,
};
use ca_relax::{Scratch, response};
use std::alloc::Global;
use std::process::Abort;

// The responses of all nodes by relaxation, each of which is the one by listing paths.
fn responses(rt: &impl Abort, alloc: Global, case: &str, net: &FlatNet, state: &State) -> State
    requires { length state.now ≡ length net.now.nodes }
    ensures { length result ≡ length net.now.nodes }
{
    let nodes = net.node_count();
    let mut scratch = Scratch::reserve(alloc, nodes, net.device_count()).expect(rt, case);
    let mut out = State::unknown(alloc, nodes).expect(rt, case);
    let mut marks = Marks::reserve(alloc, nodes).expect(rt, case);
    scratch.group(net);
    response(net, state, &mut scratch, &mut out);
    for n in 0..nodes {
        let expected = response_by_paths(net, state, NodeId(n as u32), &mut marks);
        assert_eq!(rt; out.get(n), expected, "{case}: node {n} in {state:?}");
    }
    out
}

// A case, its network, the values of its nodes, and the response of one of them.
type Row = (
    &'static str,
    &'static [Place],
    &'static [Part],
    &'static [Trit],
    usize,
    Trit,
);

// power, ground, an input, an output
const OUTPUT: [Place; 4] = [Power, Ground, Pin, Output];

const POWER_ON_INNER: [Part; 5] = [P(2, 4, 0), P(3, 4, 0), N(2, 4, 5), N(3, 5, 1), Short(0, 5)];

const OUTPUT_ON_INNER: [Part; 5] = [P(2, 4, 0), P(3, 4, 0), N(2, 4, 5), N(3, 5, 1), Short(4, 5)];

// the source of the first transistor is on a node of its own
const OPEN_SOURCE_PARTS: [Part; 4] = [P(2, 4, 6), P(3, 4, 0), N(2, 4, 5), N(3, 5, 1)];

static ROWS: [Row; 19] = [
    (
        "nand of 1, 1",
        &NAND2,
        &NAND2_PARTS,
        &[One, Zero, One, One, X, X],
        4,
        Zero,
    ),
    (
        "nand of 1, 0",
        &NAND2,
        &NAND2_PARTS,
        &[One, Zero, One, Zero, X, X],
        4,
        One,
    ),
    (
        "nand of 0, 1",
        &NAND2,
        &NAND2_PARTS,
        &[One, Zero, Zero, One, X, X],
        4,
        One,
    ),
    (
        "nand of 0, 0",
        &NAND2,
        &NAND2_PARTS,
        &[One, Zero, Zero, Zero, X, X],
        4,
        One,
    ),
    (
        "nand of 0, X",
        &NAND2,
        &NAND2_PARTS,
        &[One, Zero, Zero, X, X, X],
        4,
        One,
    ),
    (
        "nand of 1, X",
        &NAND2,
        &NAND2_PARTS,
        &[One, Zero, One, X, X, X],
        4,
        X,
    ),
    (
        "power drives the inner node through the output",
        &NAND2,
        &NAND2_PARTS,
        &[One, Zero, One, Zero, Zero, Zero],
        5,
        One,
    ),
    (
        "power shorted to the inner node blocks the path from ground there",
        &NAND2,
        &POWER_ON_INNER,
        &[One, Zero, One, One, X, X],
        4,
        One,
    ),
    (
        "a fight of equal strengths",
        &NAND2,
        &OUTPUT_ON_INNER,
        &[One, Zero, Zero, One, X, X],
        4,
        X,
    ),
    (
        "a node that nothing drives keeps its charge",
        &OPENED,
        &OPEN_DRAIN_PARTS,
        &[One, Zero, Zero, One, Zero, Zero, X],
        4,
        Zero,
    ),
    (
        "a smaller node's charge loses to the output's",
        &OPENED,
        &OPEN_SOURCE_PARTS,
        &[One, Zero, Zero, One, Zero, Zero, One],
        4,
        Zero,
    ),
    (
        "and takes the output's",
        &OPENED,
        &OPEN_SOURCE_PARTS,
        &[One, Zero, Zero, One, Zero, Zero, One],
        6,
        Zero,
    ),
    (
        "an input node responds with its value",
        &NAND2,
        &NAND2_PARTS,
        &[One, Zero, X, One, Zero, Zero],
        2,
        X,
    ),
    (
        "a weak transistor loses to another",
        &OUTPUT,
        &[WeakP(1, 3, 0), N(2, 3, 1)],
        &[One, Zero, One, X],
        3,
        Zero,
    ),
    (
        "a path that isn't definite blocks nothing",
        &OUTPUT,
        &[WeakP(1, 3, 0), N(2, 3, 1)],
        &[One, Zero, X, X],
        3,
        X,
    ),
    (
        "nor does an open one",
        &OUTPUT,
        &[WeakP(1, 3, 0), N(2, 3, 1)],
        &[One, Zero, Zero, X],
        3,
        One,
    ),
    (
        "a definite path blocks a weaker one that may conduct",
        &OUTPUT,
        &[WeakP(2, 3, 0), N(0, 3, 1)],
        &[One, Zero, X, X],
        3,
        Zero,
    ),
    (
        "a path through an input node is blocked there",
        &OUTPUT,
        &[N(0, 3, 1), Short(0, 1)],
        &[One, Zero, X, X],
        3,
        Zero,
    ),
    (
        "a fight between input nodes through equal devices",
        &OUTPUT,
        &[P(1, 3, 0), N(0, 3, 1)],
        &[One, Zero, X, X],
        3,
        X,
    ),
];

fn state_of(alloc: Global, values: &[Trit]) -> Result<State, NoMemory>
    ensures { IfOk result (λ state. state ≡ values.now) }
{
    let mut state = State::new(alloc);
    for value in values {
        state.push(*value)?;
    }
    Ok(state)
}

// The response of a node of a network whose nodes have these values. Each value is dropped in one place here
// and below: more places are slow to prove.
fn response_at(
    rt: &impl Abort,
    alloc: Global,
    case: &str,
    net: &FlatNet,
    values: &[Trit],
    node: usize,
) -> Trit
    requires values { length values.now ≡ length net.now.nodes }
    requires node { node < length net.now.nodes }
{
    let state = state_of(alloc, values).expect(rt, case);
    let out = responses(rt, alloc, case, net, &state);
    out.get(node)
}

#[test]
fn nodes_respond_as_by_hand(rt: HostRuntime) {
    let alloc = rt.alloc();
    for (case, places, parts, values, node, expected) in &ROWS {
        assert!(rt; places.len() < 100 && parts.len() < 100 && values.len() == places.len());
        assert!(rt; *node < places.len());
        let net = network(alloc, places, parts).expect(&rt, case);
        let out = response_at(&rt, alloc, case, &net, values, *node);
        drop(net);
        assert_eq!(rt; out, *expected, "{case}");
    }
}

// Gives the rails their values, each pin a bit of the vector, and each storage node a drawn value. What it
// returns the next draw begins with.
fn draw(state: &mut State, places: &[Place], vector: u64, seed: u64) -> u64
    requires { length state.old ≡ length places.now }
    ensures { length state.new ≡ length state.old }
{
    let mut bits = vector;
    let mut seed = seed;
    for n in 0..places.len() {
        let choice = match places[n] {
            Power => 1,
            Ground => 0,
            Pin => {
                let bit = bits % 2;
                bits /= 2;
                bit
            }
            Output | Inner => {
                seed = seed
                    .wrapping_mul(6364136223846793005)
                    .wrapping_add(1442695040888963407);
                (seed >> 33) % 3
            }
        };
        state.set(n, value_of(choice));
    }
    seed
}

fn value_of(choice: u64) -> Trit {
    match choice {
        0 => Zero,
        1 => One,
        _ => X,
    }
}

// A cell and its number of vectors.
static CELLS: [(&'static str, &'static [Place], &'static [Part], u64); 3] = [
    ("NAND2", &NAND2, &NAND2_PARTS, 4),
    ("AND2", &AND2, &AND2_PARTS, 4),
    ("full adder", &FULL_ADDER, &FULL_ADDER_PARTS, 8),
];

// For every definite vector and 64 drawn states.
#[test]
fn both_responses_agree(rt: HostRuntime) {
    let alloc = rt.alloc();
    for (case, places, parts, vectors) in &CELLS {
        assert!(rt; places.len() < 100 && parts.len() < 100 && *vectors < 100);
        let net = network(alloc, places, parts).expect(&rt, case);
        let mut state = State::unknown(alloc, places.len()).expect(&rt, case);
        let mut seed = 1;
        for turn in 0..64 * *vectors {
            if turn % 64 == 0 {
                seed = 1;
            }
            seed = draw(&mut state, places, turn / 64, seed);
            responses(&rt, alloc, case, &net, &state);
        }
    }
}

#[test]
fn the_first_bad_device_is_reported(rt: HostRuntime) {
    let alloc = rt.alloc();
    for (parts, expected) in [([N(0, 1, 0), N(0, 2, 0)], 1), ([N(0, 1, 3), N(9, 1, 0)], 0)] {
        let made = network(alloc, &[Pin, Output], &parts);
        assert!(rt;
            matches!(made, Err(NetFault::BadNode { device }) if device == DeviceId(expected))
        );
    }
}

#[test]
fn values_meet(rt: HostRuntime) {
    for (a, b, expected) in [
        (Zero, Zero, Zero),
        (One, One, One),
        (Zero, One, X),
        (X, One, X),
    ] {
        assert_eq!(rt;
            Wave::pair(a, b),
            Wave {
                first: a,
                mid: expected,
                last: b
            }
        );
        assert!(rt; below(expected, a) && below(meet(a, b), b));
    }
    assert_eq!(rt;
        State::unknown(rt.alloc(), 3).expect(&rt, "memory").get(2),
        X
    );
}

//! Runs of a network with a hazard. With an open drain, the output keeps what it was charged to, and two
//! orders of events end with 0 and with 1.

ghost use Rattle.std.specs.Prelude.{◌≡◌, ◌<◌, length, IfOk};

use crate::networks::{GOOD, HAZARD, OPENED, Part, inputs_of, network, vector};
use ca_net::Trit::{One, X, Zero};
use ca_net::{FlatNet, Network, State, Trit};
use ca_order::{OrderFault, read_order_for};
use ca_replay::replay;
use std::alloc::Global;
use std::process::Abort;

// The new branch closes before the old one opens: y stays 1.
const CLOSES_FIRST: &[u8] = b"set 3 0\nsettle 6\nsettle 8\nsettle 7\nset 2 0\n";

// The old branch opens first: y falls for a while, and z is charged to 1.
const OPENS_FIRST: &[u8] = b"set 3 0\nsettle 7\nsettle 9\nsettle 5\nset 2 0\n";

// The new branch is unknown for a while, and z with it.
const IS_UNKNOWN: &[u8] = b"set 3 0\nsettle 6\nblur 8\nsettle 7\nset 2 0\nsettle 9\nsettle 5";

// Devices, the values of a, s and d in the two vectors, an order, and the value of z.
type Row = (
    &'static [Part],
    (Trit, Trit, Trit),
    (Trit, Trit, Trit),
    &'static [u8],
    Trit,
);

static ROWS: [Row; 9] = [
    (
        &OPENED,
        (One, One, One),
        (Zero, Zero, One),
        CLOSES_FIRST,
        Zero,
    ),
    (
        &OPENED,
        (One, One, One),
        (Zero, Zero, One),
        OPENS_FIRST,
        One,
    ),
    (&OPENED, (One, One, One), (Zero, Zero, One), IS_UNKNOWN, X),
    // All nodes settle at once, round by round: both branches are open for a round.
    (&OPENED, (One, One, One), (Zero, Zero, One), b"", One),
    // The select input stays: nothing charges z.
    (&OPENED, (One, One, One), (Zero, One, One), b"", Zero),
    (&OPENED, (One, One, One), (One, One, One), b"", Zero),
    // The good network.
    (&GOOD, (One, One, One), (Zero, Zero, One), CLOSES_FIRST, One),
    (
        &GOOD,
        (One, One, One),
        (One, Zero, One),
        b"settle 7\nsettle 9\nset 3 0",
        Zero,
    ),
    // An input that the events leave at another value is set to its last one.
    (
        &GOOD,
        (One, One, One),
        (Zero, Zero, One),
        b"set 2 0\nset 3 X\nset 2 1",
        One,
    ),
];

// The state in which the run ends that an order names.
fn end_of(
    alloc: Global,
    net: &FlatNet,
    first: &State,
    last: &State,
    order: &[u8],
) -> Result<State, OrderFault>
    requires first { length first.now ≡ length net.now.nodes }
    requires last { length last.now ≡ length net.now.nodes }
    ensures { IfOk result (λ end. length end ≡ length net.now.nodes) }
{
    let inputs = inputs_of(alloc, net)?;
    let events = read_order_for(alloc, net, first, last, order)?;
    Ok(replay(
        alloc,
        net,
        inputs.as_slice(),
        first,
        last,
        events.as_slice(),
    )?)
}

// The value of z with which the run ends that an order names, from the first values of a, s and d to the
// last. Each value is dropped in one place: more places are slow to prove.
fn z_of(
    rt: &impl Abort,
    alloc: Global,
    net: &FlatNet,
    first: (Trit, Trit, Trit),
    last: (Trit, Trit, Trit),
    order: &[u8],
) -> Trit
    requires { 5 < length net.now.nodes }
{
    let nodes = net.node_count();
    let first = vector(alloc, nodes, &[One, Zero, first.0, first.1, first.2]).expect(
        rt, "a vector",
    );
    let last = vector(alloc, nodes, &[One, Zero, last.0, last.1, last.2]).expect(rt, "a vector");
    let end = end_of(alloc, net, &first, &last, order).expect(rt, "an end");
    end.get(5)
}

#[test]
fn runs_end_as_their_events_lead(rt: HostRuntime) {
    let alloc = rt.alloc();
    for (parts, first, last, order, z) in &ROWS {
        assert!(rt; parts.len() < 100);
        let net = network(alloc, &HAZARD, parts).expect(&rt, "a network");
        let end = z_of(&rt, alloc, &net, *first, *last, order);
        drop(net);
        assert_eq!(rt; end, *z, "{order:?}");
    }
}

//! The waves of a two-input NAND, with an open drain and without, and of two inverters in one cell.

use crate::examples::{INVERTERS, NAND2, cell_of};
use ca_cell::{Overlay, parse_defect};
use ca_net::Trit::{One, X, Zero};
use ca_net::{Network, Trit, Wave};
use ca_response::{CellNet, OutWaves, pairs, respond};
use ca_settle::Work;
use std::alloc::Global;
use std::process::Abort;

// The waves of the outputs where A1 and A2 change from the one vector to the other.
fn waves_of<N: CellNet>(
    rt: &impl Abort,
    alloc: Global,
    net: &N,
    first: &[Trit; 2],
    last: &[Trit; 2],
) -> OutWaves {
    assert_eq!(rt; net.cell().inputs(), 2);
    let mut work = Work::reserve(alloc, net.node_count(), net.device_count()).expect(rt, "memory");
    respond(net, pairs(first, last).as_slice(), &mut work)
}

// The first vector, the last one, and the wave of ZN.
type Expected = ((Trit, Trit), (Trit, Trit), (Trit, Trit, Trit));

static GOOD: [Expected; 5] = [
    ((One, One), (Zero, One), (Zero, X, One)),
    ((One, Zero), (Zero, One), (One, X, One)),
    ((Zero, One), (Zero, One), (One, One, One)),
    ((Zero, X), (Zero, X), (One, One, One)),
    ((One, X), (One, X), (X, X, X)),
];

static OPEN_DRAIN: [Expected; 3] = [
    ((One, One), (Zero, One), (Zero, Zero, Zero)),
    ((One, Zero), (Zero, One), (One, X, X)),
    ((Zero, One), (Zero, One), (X, X, X)),
];

fn try_waves<N: CellNet>(rt: &impl Abort, alloc: Global, net: &N, table: &[Expected]) {
    for (first, last, expected) in table {
        let waves = waves_of(rt, alloc, net, &[first.0, first.1], &[last.0, last.1]);
        assert_eq!(rt; waves.len(), 1);
        let zn = waves[0];
        assert_eq!(rt;
            (zn.first, zn.mid, zn.last),
            *expected,
            "{first:?} {last:?}"
        );
        drop(waves);
    }
}

#[test]
fn waves_of_a_nand_with_an_open_drain_and_without(rt: HostRuntime) {
    let alloc = rt.alloc();
    let cell = cell_of(&rt, alloc, &NAND2);
    try_waves(&rt, alloc, &cell, &GOOD);
    let defect = parse_defect(&cell, b"MP1(D)").expect(&rt, "a defect");
    try_waves(&rt, alloc, &Overlay::new(&cell, defect), &OPEN_DRAIN);
    drop(cell);
}

#[test]
fn outputs_are_in_pin_order(rt: HostRuntime) {
    let alloc = rt.alloc();
    let cell = cell_of(&rt, alloc, &INVERTERS);
    let waves = waves_of(&rt, alloc, &cell, &[One, Zero], &[One, One]);
    assert_eq!(rt; waves.len(), 2);
    assert_eq!(rt; waves[0], Wave::pair(Zero, Zero));
    assert_eq!(rt; waves[1], Wave::pair(One, Zero));
    drop(waves);
    drop(cell);
}

//! The values in lanes, and the lanes whose pair is suspect, worked out by hand.

ghost use Rattle.std.specs.Prelude.{◌≡◌, ◌≤◌};
ghost use Rattle.ca_lanes.specs.Planes.{net_count};

use crate::netlists::{NETS, good_rows, hazard, netlist, some_pairs};
use crate::readable::{have_bits, is_readable, is_screenable};
use ca_cell::{Row, Rows};
use ca_lanes::{GoodRows, LANES, Netlist, Plane, Planes};
use ca_net::Trit;
use ca_pair::Pair;
use std::alloc::Global;
use std::process::Abort;
use std::slice::from_ref;

const ZERO: Trit = Trit::Zero;

const ONE: Trit = Trit::One;

const X: Trit = Trit::X;

// The bits of a and b in both vectors.
const PAIRS: [[bool; 4]; 6] = [
    [false, false, true, true],
    [true, true, false, false],
    [false, true, true, false],
    [true, false, true, true],
    [true, true, true, true],
    [false, false, false, false],
];

// For each pair the first and the last value of each of the nets from 3 on.
const VALUES: [[(Trit, Trit); 4]; 6] = [
    [(ONE, ZERO), (ZERO, ONE), (ONE, X), (ONE, ONE)],
    [(ZERO, ONE), (ONE, ZERO), (X, ONE), (X, ONE)],
    [(ONE, ONE), (ZERO, ZERO), (ONE, ONE), (ONE, ONE)],
    [(ONE, ZERO), (ZERO, ONE), (ONE, X), (X, X)],
    [(ZERO, ZERO), (ONE, ONE), (X, X), (X, X)],
    [(ONE, ONE), (ZERO, ZERO), (ONE, ONE), (ONE, ONE)],
];

// The nets of input pins, a row, and for which of the pairs it is allowed.
type Screen = ([u32; 2], Row, [bool; 6]);

const SCREENS: [Screen; 5] = [
    // a and b from 11 to 00.
    (
        [0, 1],
        Row { first: 3, last: 0 },
        [false, true, false, false, false, false],
    ),
    // 11 at first; what comes then doesn't matter.
    (
        [0, 1],
        Row { first: 3, last: 3 },
        [false, true, false, false, true, false],
    ),
    // The unknown net may be 0 and 1: net 4 from 0 to 1.
    (
        [4, 2],
        Row { first: 1, last: 2 },
        [true, false, false, true, false, false],
    ),
    // Net 4 is 1 at first.
    (
        [4, 2],
        Row { first: 2, last: 2 },
        [false, true, false, false, true, false],
    ),
    // The keeper's net isn't known under the last pair but one: it may be 0 at first and 1 at last.
    (
        [6, 1],
        Row { first: 1, last: 3 },
        [false, false, false, false, true, false],
    ),
];

// Loads the pairs.
fn load(rt: &impl Abort, planes: &mut Planes, netlist: &Netlist, goods: &[GoodRows], pairs: &[Pair])
    requires room { net_count planes.old ≡ NETS }
    ensures room { net_count planes.new ≡ NETS }
{
    assert!(rt; is_readable(NETS, goods, netlist), "the netlist");
    assert!(rt; pairs.len() <= LANES, "{} pairs", pairs.len());
    assert!(rt; have_bits(pairs, netlist.inputs.len()), "the bits");
    planes.load(netlist, goods, pairs);
}

// The lanes whose pair is suspect for the row.
fn screen(rt: &impl Abort, alloc: Global, planes: &mut Planes, pins: &[u32], row: Row) -> Plane
    requires room { net_count planes.old ≡ NETS }
    ensures room { net_count planes.new ≡ NETS }
{
    let mut rows = Rows::new(alloc);
    rows.push(row).expect(rt, "memory");
    assert!(rt; is_screenable(NETS, pins, &rows), "the screen");
    planes.screen_block(pins, &rows)
}

// Compares the values of all lanes that are loaded.
fn check_values(rt: &impl Abort, planes: &Planes, count: usize)
    requires room { net_count planes.now ≡ NETS }
    requires count { count ≤ LANES }
{
    for lane in 0..count {
        for place in 0..4 {
            assert_eq!(rt;
                planes.value(3 + place, lane),
                VALUES[lane % 6][place],
                "net {} in lane {lane} of {count}",
                3 + place
            );
        }
    }
}

// Compares the bits of all lanes.
fn check_bits(rt: &impl Abort, suspects: Plane, wanted: &[bool; 6], count: usize) {
    let mut none = true;
    for lane in 0..LANES {
        let want = lane < count && wanted[lane % 6];
        assert_eq!(rt; suspects.is_set(lane), want, "lane {lane} of {count}");
        none = none && !want;
    }
    assert_eq!(rt; suspects.is_none(), none, "of {count}");
}

#[test]
fn values_and_suspects_are_those_worked_out_by_hand(rt: HostRuntime) {
    let alloc = rt.alloc();
    let goods = good_rows(alloc).expect(&rt, "memory");
    let netlist = netlist(alloc).expect(&rt, "memory");
    let mut planes = Planes::reserve(alloc, NETS).expect(&rt, "memory");
    for count in [0, 1, 2, 64, 255, 256] {
        let pairs = some_pairs(alloc, &PAIRS, count).expect(&rt, "memory");
        load(&rt, &mut planes, &netlist, &goods, &pairs);
        check_values(&rt, &planes, count);
        for (pins, row, wanted) in SCREENS {
            let suspects = screen(&rt, alloc, &mut planes, &pins, row);
            check_bits(&rt, suspects, &wanted, count);
        }
    }
    let mut pairs = some_pairs(alloc, &PAIRS, 1).expect(&rt, "memory");
    let pair = pairs.pop().expect(&rt, "a pair");
    load(&rt, &mut planes, &netlist, &goods, from_ref(&pair));
    check_values(&rt, &planes, 1);
}

// The first and the last value of each of the nets from 3 on, where a goes from 0 to 1 and b from 1 to 0.
const AFTER_HAZARD: [(Trit, Trit); 4] = [(ZERO, ONE), (ONE, ONE), (ZERO, ZERO), (ONE, ONE)];

// A row of definite vectors shows no hazard, so that the charge is kept by the plain values. In the waves it
// isn't.
#[test]
fn a_charge_is_kept_plainly_after_a_hazard(rt: HostRuntime) {
    let alloc = rt.alloc();
    let goods = good_rows(alloc).expect(&rt, "memory");
    let netlist = hazard(alloc).expect(&rt, "memory");
    let mut planes = Planes::reserve(alloc, NETS).expect(&rt, "memory");
    let pairs = some_pairs(alloc, &[[false, true, true, false]], 1).expect(&rt, "memory");
    load(&rt, &mut planes, &netlist, &goods, &pairs);
    for place in 0..4 {
        assert_eq!(rt;
            planes.value(3 + place, 0),
            AFTER_HAZARD[place],
            "net {}",
            3 + place
        );
    }
    drop(pairs);
    drop(planes);
    drop(netlist);
    drop(goods);
}

//! A two-input NAND's defects by name, names that are typed, and its network with one defect of each kind.

ghost use Rattle.std.specs.List.{All};
ghost use Rattle.ca_cell.specs.List.{IsDefectOf};

use crate::examples::{LOWER_NAND2, Part, cell_of, try_network};
use ca_cell::{Cell, Defect, DefectList, Overlay, Row, Rows, defect_name, defects, parse_defect};
use ca_net::DeviceKind::{D, N, P};
use ca_net::{BRIDGE, DeviceId, INNER_NODE, NodeId, NodeKind, OUTPUT_NET, STRONGEST};
use std::alloc::Global;
use std::process::Abort;

static NAMES: [&[u8]; 19] = [
    b"MP1(D)", b"MP1(S)", b"MP1(G)", b"MP2(D)", b"MP2(S)", b"MP2(G)", b"MN1(D)", b"MN1(S)",
    b"MN1(G)", b"MN2(D)", b"MN2(S)", b"MN2(G)", b"A1(P)", b"A2(P)", b"VDD=ZN", b"VDD=N1",
    b"VSS=ZN", b"VSS=N1", b"ZN=N1",
];

static TYPED: [(&[u8], Option<Defect>); 12] = [
    (b"mp1(d)", Some(Defect::OpenDrain(DeviceId(0)))),
    (b"Mn2(s)", Some(Defect::OpenSource(DeviceId(3)))),
    (b"a2(p)", Some(Defect::OpenPin(NodeId(3)))),
    (b"zn=N1", Some(Defect::Short(NodeId(4), NodeId(5)))),
    (b"A9(P)", None),
    (b"VDD=VSS", None),
    (b"ZN=VDD", None),
    (b"A1=ZN", None),
    (b"ZN(P)", None),
    (b"MP1(D) ", None),
    (b"MP1", None),
    (b"", None),
];

// Asserts the name of a defect. Each value is dropped in one place here and below: more places are slow to
// prove.
fn try_name(rt: &impl Abort, alloc: Global, cell: &Cell, defect: Defect, wanted: &[u8])
    requires { IsDefectOf cell.now defect }
{
    let text = defect_name(alloc, cell, defect).expect(rt, "memory");
    let is_wanted = text.is(wanted);
    drop(text);
    assert!(rt; is_wanted, "{wanted:?}");
    assert_eq!(rt; parse_defect(cell, wanted), Some(defect), "{wanted:?}");
}

// Asserts the names of a list of defects.
fn try_names(rt: &impl Abort, alloc: Global, cell: &Cell, list: &DefectList)
    requires { All (IsDefectOf cell.now) list.now }
{
    assert_eq!(rt; list.len(), NAMES.len());
    assert!(rt; !list.is_empty());
    for i in 0..list.len() {
        assert!(rt; i < NAMES.len());
        try_name(rt, alloc, cell, list.get(i), NAMES[i]);
    }
}

// The inner net is kept in lower case, and its name is in upper case all the same.
#[test]
fn defects_of_a_nand_by_name_in_order(rt: HostRuntime) {
    let cell = cell_of(&rt, rt.alloc(), &LOWER_NAND2);
    let list = defects(rt.alloc(), &cell).expect(&rt, "memory");
    try_names(&rt, rt.alloc(), &cell, &list);
    drop(list);
    drop(cell);
}

#[test]
fn typed_names_are_found_in_any_case(rt: HostRuntime) {
    let cell = cell_of(&rt, rt.alloc(), &LOWER_NAND2);
    for (text, expected) in &TYPED {
        assert_eq!(rt; parse_defect(&cell, text), *expected, "{text:?}");
    }
    drop(cell);
}

// The nodes of the NAND, and a new one for an open.
static NODES: [NodeKind; 7] = [
    NodeKind::Input,
    NodeKind::Input,
    NodeKind::Input,
    NodeKind::Input,
    NodeKind::Storage(OUTPUT_NET),
    NodeKind::Storage(INNER_NODE),
    NodeKind::Storage(INNER_NODE),
];

// One defect of each kind with its place in the list, and the devices of the NAND that have it.
static CHANGED: [(usize, Defect, &[Part]); 5] = [
    (
        0,
        Defect::OpenDrain(DeviceId(0)),
        &[
            (P, STRONGEST, 2, 6, 0),
            (P, STRONGEST, 3, 4, 0),
            (N, STRONGEST, 2, 4, 5),
            (N, STRONGEST, 3, 5, 1),
        ],
    ),
    (
        7,
        Defect::OpenSource(DeviceId(2)),
        &[
            (P, STRONGEST, 2, 4, 0),
            (P, STRONGEST, 3, 4, 0),
            (N, STRONGEST, 2, 4, 6),
            (N, STRONGEST, 3, 5, 1),
        ],
    ),
    (
        11,
        Defect::OpenGate(DeviceId(3)),
        &[
            (P, STRONGEST, 2, 4, 0),
            (P, STRONGEST, 3, 4, 0),
            (N, STRONGEST, 2, 4, 5),
            (N, STRONGEST, 6, 5, 1),
        ],
    ),
    (
        12,
        Defect::OpenPin(NodeId(2)),
        &[
            (P, STRONGEST, 6, 4, 0),
            (P, STRONGEST, 3, 4, 0),
            (N, STRONGEST, 6, 4, 5),
            (N, STRONGEST, 3, 5, 1),
        ],
    ),
    (
        15,
        Defect::Short(NodeId(0), NodeId(5)),
        &[
            (P, STRONGEST, 2, 4, 0),
            (P, STRONGEST, 3, 4, 0),
            (N, STRONGEST, 2, 4, 5),
            (N, STRONGEST, 3, 5, 1),
            (D, BRIDGE, 0, 0, 5),
        ],
    ),
];

#[test]
fn networks_with_one_defect_of_each_kind(rt: HostRuntime) {
    let cell = cell_of(&rt, rt.alloc(), &LOWER_NAND2);
    let list = defects(rt.alloc(), &cell).expect(&rt, "memory");
    for (place, defect, parts) in &CHANGED {
        assert!(rt; *place < list.len());
        assert_eq!(rt; list.get(*place), *defect);
        let overlay = Overlay::new(&cell, list.get(*place));
        assert_eq!(rt; overlay.defect(), *defect);
        assert_eq!(rt; overlay.cell().inputs(), 2);
        let nodes = if defect.new_node().is_some() { 7 } else { 6 };
        try_network(&rt, &overlay, &NODES[..nodes], parts);
    }
    drop(list);
    drop(cell);
}

#[test]
fn rows_are_kept_in_order(rt: HostRuntime) {
    let mut rows = Rows::new(rt.alloc());
    assert!(rt; rows.is_empty());
    rows.push(Row { first: 1, last: 3 }).expect(&rt, "memory");
    rows.push(Row { first: 2, last: 0 }).expect(&rt, "memory");
    assert_eq!(rt; rows.len(), 2);
    assert_eq!(rt; rows.get(1), Row { first: 2, last: 0 });
    assert_eq!(rt; rows.as_slice().len(), 2);
}

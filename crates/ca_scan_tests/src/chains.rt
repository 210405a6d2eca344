//! Chains: scan instances and ports by the numbers of their nets, each chip with its chains.

ghost use Rattle.ca_linked.specs.Drivers.{IsDrafted};

use crate::drafts::is_drafted;
use ca_cell::Library;
use ca_lex::Text;
use ca_linked::{Body, Chip, Draft, InstanceList, Part, PortBit, ScanNets, judge, wire};
use ca_scan::{ChainFault, Chains, trace};
use std::alloc::Global;

/// A scan instance, by the nets of its output, its scan-in and its scan-out.
#[derive(Clone, Copy)]
struct Scan(u32, u32, u32);

/// A bit of a port.
#[derive(Clone, Copy)]
enum Port {
    Input(u32),
    Output(u32),
}

/// The chains of a chip, each by its scan instances.
type Lists = &'static [&'static [u32]];

// A scan instance; its data input is on the net of its output.
fn part(alloc: Global, scan: Scan) -> Part {
    let Scan(q, si, so) = scan;
    Part {
        name: Text::new(alloc),
        cell: Text::new(alloc),
        data: Text::new(alloc),
        body: Body::Scan(ScanNets {
            d: q,
            si,
            se: 0,
            ck: 1,
            hold: 2,
            q,
            qn: None,
            so,
        }),
    }
}

fn port_bit(alloc: Global, port: Port) -> PortBit {
    let (is_input, net) = match port {
        Port::Input(net) => (true, net),
        Port::Output(net) => (false, net),
    };
    PortBit {
        name: Text::new(alloc),
        is_input,
        net,
    }
}

fn parts(alloc: Global, scans: &[Scan]) -> Option<Vec<Part>> {
    let mut parts = Vec::new(alloc);
    for k in 0..scans.len() {
        if parts.push(part(alloc, scans[k])).is_err() {
            return None;
        }
    }
    Some(parts)
}

// The ports of the scan enable, the clock and the hold, and then these.
fn port_bits(alloc: Global, ports: &[Port]) -> Option<Vec<PortBit>> {
    let mut bits = Vec::new(alloc);
    for net in 0..3 {
        if bits.push(port_bit(alloc, Port::Input(net))).is_err() {
            return None;
        }
    }
    for k in 0..ports.len() {
        if bits.push(port_bit(alloc, ports[k])).is_err() {
            return None;
        }
    }
    Some(bits)
}

// The chip of a draft, if it may be wired. Each value is dropped in one place here and below: more places are
// slow to prove.
fn wired(alloc: Global, draft: Draft) -> Option<Chip>
    requires { IsDrafted draft }
{
    match judge(alloc, &draft) {
        Ok(judged) => wire(alloc, draft, judged).ok(),
        Err(_) => None,
    }
}

// The chip of a draft of scan instances alone.
fn drafted(alloc: Global, draft: Draft) -> Option<Chip> {
    if is_drafted(&draft) {
        wired(alloc, draft)
    } else {
        None
    }
}

// The draft of `nets` nets, and of these instances and ports.
fn draft(alloc: Global, nets: usize, parts: Vec<Part>, bits: Vec<PortBit>) -> Option<Draft> {
    match Library::new(alloc) {
        Ok(library) => Some(Draft::new(library, nets, None, None, parts, bits)),
        Err(_) => None,
    }
}

// The same, with the ports as they are given.
fn draft_of_parts(alloc: Global, nets: usize, parts: Vec<Part>, ports: &[Port]) -> Option<Draft> {
    match port_bits(alloc, ports) {
        Some(bits) => draft(alloc, nets, parts, bits),
        None => None,
    }
}

// The chip of `nets` nets, of which the first three are those of the scan enable, the clock and the hold.
fn chip(alloc: Global, nets: usize, scans: &[Scan], ports: &[Port]) -> Option<Chip> {
    let parts = parts(alloc, scans)?;
    let draft = draft_of_parts(alloc, nets, parts, ports)?;
    drafted(alloc, draft)
}

fn is_chain(chain: &InstanceList, list: &[u32]) -> bool {
    if chain.len() != list.len() {
        return false;
    }
    for k in 0..chain.len() {
        if chain.get(k).0 != list[k] {
            return false;
        }
    }
    true
}

fn are_chains(chains: &[InstanceList], lists: &[&[u32]]) -> bool {
    if chains.len() != lists.len() {
        return false;
    }
    for k in 0..chains.len() {
        if !is_chain(&chains[k], lists[k]) {
            return false;
        }
    }
    true
}

// Whether a chip that was traced has these chains.
fn has_lists(traced: &Result<Chains, ChainFault>, lists: Lists) -> bool {
    match traced {
        Ok(chains) => are_chains(chains.as_slice(), lists),
        Err(_) => false,
    }
}

// Whether a chip has these chains.
fn has_chains(alloc: Global, chip: &Chip, lists: Lists) -> bool {
    let traced = trace(alloc, chip);
    let is_so = has_lists(&traced, lists);
    drop(traced);
    is_so
}

// Whether the chip of `nets` nets has these chains, if there is such a chip.
fn has_chains_of(
    alloc: Global,
    nets: usize,
    scans: &[Scan],
    ports: &[Port],
    lists: Lists,
) -> Option<bool> {
    let chip = chip(alloc, nets, scans, ports)?;
    let is_so = has_chains(alloc, &chip, lists);
    drop(chip);
    Some(is_so)
}

const CHIPS: [(usize, &[Scan], &[Port], Lists); 6] = [
    // No scan instances: no chains, also where an input port is an output port.
    (3, &[], &[], &[]),
    (4, &[], &[Port::Input(3), Port::Output(3)], &[]),
    // A chain, in the order in which it is shifted, whatever the order of the netlist.
    (
        8,
        &[Scan(3, 5, 6), Scan(4, 6, 7)],
        &[Port::Input(5), Port::Output(7)],
        &[&[0, 1]],
    ),
    (
        8,
        &[Scan(3, 6, 7), Scan(4, 5, 6)],
        &[Port::Output(7), Port::Input(5)],
        &[&[1, 0]],
    ),
    // Two chains, in the order of their scan-in ports.
    (
        9,
        &[Scan(3, 5, 6), Scan(4, 7, 8)],
        &[
            Port::Input(7),
            Port::Output(6),
            Port::Input(5),
            Port::Output(8),
        ],
        &[&[1], &[0]],
    ),
    // The output of a scan instance may be at a port.
    (
        6,
        &[Scan(3, 4, 5)],
        &[Port::Input(4), Port::Output(5), Port::Output(3)],
        &[&[0]],
    ),
];

#[test]
fn chains_of_chips(rt: HostRuntime) {
    for (nets, scans, ports, lists) in CHIPS {
        match has_chains_of(rt.alloc(), nets, scans, ports, lists) {
            Some(is_so) => assert!(rt; is_so, "{nets} nets"),
            None => panic!(rt; "no chip of {nets} nets"),
        }
    }
}

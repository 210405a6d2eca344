//! The chip inputs and the observed outputs.

ghost use Rattle.std.specs.Prelude.{◌≡◌, ◌<◌, ◌++◌, IfOk, OnOk};
ghost use Rattle.ca_linked.specs.Linked.{net_count, is_scan_path, port_nets, q_nets, d_nets, inputs_of};
ghost use Rattle.ca_linked.specs.Linked.{outputs_of};
ghost use Rattle.ca_linked.specs.Drivers.{IsDrafted};
ghost use Rattle.ca_linked.specs.Paths.{AreMarks};
ghost use Rattle.ca_linked.specs.code.Ends.{is_end};

use crate::draft::Draft;
use crate::marks::NetMarks;
use crate::parts::{Body, NetList, PortBit};
use ca_base::NoMemory;
use std::alloc::Global;

// Whether a port bit is of this direction, and off the scan path.
fn is_end(draft: &Draft, path: &NetMarks, port: &PortBit, is_input: bool) -> bool
    requires path { AreMarks (net_count draft.now) (is_scan_path draft.now) path.now }
    requires within { port.now.net < net_count draft.now }
    ensures { result ≡ is_end draft.now is_input port.now }
{
    let _ = draft;
    port.is_input == is_input && !path.get(port.net)
}

// The nets of the port bits of one direction that are off the scan path.
fn ports_of(
    alloc: Global,
    draft: &Draft,
    path: &NetMarks,
    is_input: bool,
) -> Result<NetList, NoMemory>
    requires drafted { IsDrafted draft.now }
    requires path { AreMarks (net_count draft.now) (is_scan_path draft.now) path.now }
    ensures { IfOk result (λ nets. nets ≡ port_nets draft.now is_input) }
{
    let mut nets = NetList::new(alloc);
    for p in 0..draft.ports() {
        let port = draft.port(p);
        nets.push_if(is_end(draft, path, port, is_input), port.net)?;
    }
    Ok(nets)
}

// The net that a scan instance drives.
fn push_q(nets: &mut NetList, body: &Body) -> Result<(), NoMemory>
    ensures { OnOk result (nets.new ≡ nets.old ++ q_nets body.now) }
{
    match body {
        Body::Gate { .. } => Ok(()),
        Body::Scan(pins) => nets.push(pins.q),
    }
}

// The net that a scan instance takes its data from.
fn push_d(nets: &mut NetList, body: &Body) -> Result<(), NoMemory>
    ensures { OnOk result (nets.new ≡ nets.old ++ d_nets body.now) }
{
    match body {
        Body::Gate { .. } => Ok(()),
        Body::Scan(pins) => nets.push(pins.d),
    }
}

/// The nets of the chip inputs.
pub(crate) fn inputs_of(alloc: Global, draft: &Draft, path: &NetMarks) -> Result<NetList, NoMemory>
    requires drafted { IsDrafted draft.now }
    requires path { AreMarks (net_count draft.now) (is_scan_path draft.now) path.now }
    ensures { IfOk result (λ nets. nets ≡ inputs_of draft.now) }
{
    let mut nets = ports_of(alloc, draft, path, true)?;
    for u in 0..draft.parts() {
        push_q(&mut nets, &draft.part(u).body)?;
    }
    Ok(nets)
}

/// The nets of the observed outputs.
pub(crate) fn outputs_of(alloc: Global, draft: &Draft, path: &NetMarks) -> Result<NetList, NoMemory>
    requires drafted { IsDrafted draft.now }
    requires path { AreMarks (net_count draft.now) (is_scan_path draft.now) path.now }
    ensures { IfOk result (λ nets. nets ≡ outputs_of draft.now) }
{
    let mut nets = ports_of(alloc, draft, path, false)?;
    for u in 0..draft.parts() {
        push_d(&mut nets, &draft.part(u).body)?;
    }
    Ok(nets)
}

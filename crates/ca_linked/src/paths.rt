//! The scan path, which no data pin may touch.

ghost use Rattle.std.specs.Prelude.{◌≡◌, ◌<◌, length, IfOk};
ghost use Rattle.std.specs.List.{All};
ghost use Rattle.ca_linked.specs.Linked.{net_count, data_nets, is_scan_path, path_nets};
ghost use Rattle.ca_linked.specs.Drivers.{IsDrafted};
ghost use Rattle.ca_linked.specs.Paths.{is_among, is_observed, is_on_data, is_on_port, Marks};
ghost use Rattle.ca_linked.specs.code.Paths.{IsObservedAt};
ghost use Rattle.ca_linked.specs.Paths.{AreMarks};

use crate::draft::Draft;
use crate::marks::NetMarks;
use crate::parts::Body;
use ca_base::NoMemory;
use std::alloc::Global;

// Marks the nets that an instance puts on the scan path.
fn mark_path(marks: &mut NetMarks, body: &Body)
    requires { All (λ net. net < length marks.old) (path_nets body.now) }
    ensures { Marks (path_nets body.now) marks.old marks.new }
{
    match body {
        Body::Gate { .. } => marks.mark_all(&[]),
        Body::Scan(nets) => marks.mark_all(&[nets.se, nets.ck, nets.hold, nets.si, nets.so]),
    }
}

// Marks the nets of an instance's data pins.
fn mark_data(marks: &mut NetMarks, body: &Body)
    requires { All (λ net. net < length marks.old) (data_nets body.now) }
    ensures { Marks (data_nets body.now) marks.old marks.new }
{
    match body {
        Body::Gate {
            inputs,
            outputs,
            ..
        } => {
            marks.mark_all(inputs.as_slice());
            marks.mark_all(outputs.as_slice());
        }
        Body::Scan(nets) => match nets.qn {
            None => marks.mark_all(&[nets.d, nets.q]),
            Some(qn) => marks.mark_all(&[nets.d, nets.q, qn]),
        },
    }
}

/// The nets of the scan path.
pub(crate) fn path_of(alloc: Global, draft: &Draft) -> Result<NetMarks, NoMemory>
    requires { IsDrafted draft.now }
    ensures { IfOk result (AreMarks (net_count draft.now) (is_scan_path draft.now)) }
{
    let mut marks = NetMarks::new(alloc, draft.nets())?;
    for u in 0..draft.parts() {
        mark_path(&mut marks, &draft.part(u).body);
    }
    Ok(marks)
}

// The nets of data pins.
fn data_of(alloc: Global, draft: &Draft) -> Result<NetMarks, NoMemory>
    requires { IsDrafted draft.now }
    ensures { IfOk result (AreMarks (net_count draft.now) (is_on_data draft.now)) }
{
    let mut marks = NetMarks::new(alloc, draft.nets())?;
    for u in 0..draft.parts() {
        mark_data(&mut marks, &draft.part(u).body);
    }
    Ok(marks)
}

/// The nets of the port bits of one direction.
pub(crate) fn ports_of(alloc: Global, draft: &Draft, is_input: bool) -> Result<NetMarks, NoMemory>
    requires { IsDrafted draft.now }
    ensures { IfOk result (AreMarks (net_count draft.now) (is_on_port draft.now is_input)) }
{
    let mut marks = NetMarks::new(alloc, draft.nets())?;
    for p in 0..draft.ports() {
        let port = draft.port(p);
        if port.is_input == is_input {
            marks.mark(port.net);
        }
    }
    Ok(marks)
}

/// The first net that is observed although it is on the scan path.
pub(crate) fn first_observed(
    alloc: Global,
    draft: &Draft,
    path: &NetMarks,
) -> Result<Option<u32>, NoMemory>
    requires drafted { IsDrafted draft.now }
    requires path { AreMarks (net_count draft.now) (is_scan_path draft.now) path.now }
    ensures { IfOk result (IsObservedAt draft.now) }
{
    let data = data_of(alloc, draft)?;
    let inputs = ports_of(alloc, draft, true)?;
    let outputs = ports_of(alloc, draft, false)?;
    for k in 0..draft.nets() {
        let net = k as u32;
        let is_data = data.get(net) || inputs.get(net) && outputs.get(net);
        if path.get(net) && is_data {
            return Ok(Some(net));
        }
    }
    Ok(None)
}

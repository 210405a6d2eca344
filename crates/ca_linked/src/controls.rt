//! The control pins and the inverted outputs of scan instances.

ghost use Rattle.std.specs.Prelude.{◌≡◌, ◌<◌, true, false, length, option_to_list, IfOk};
ghost use Rattle.std.specs.List.{All};
ghost use Rattle.ca_linked.specs.Linked.{Scan, net_count, input_nets, output_nets};
ghost use Rattle.ca_linked.specs.Drivers.{IsDrafted};
ghost use Rattle.ca_linked.specs.Paths.{is_among, is_on_port, AreMarks, Marks};
ghost use Rattle.ca_linked.specs.Controls.{is_misplaced, is_used, pin_fault, first_scan, body_fault};
ghost use Rattle.ca_linked.specs.Controls.{misused_of};
ghost use Rattle.ca_linked.specs.code.Controls.{AreLoadMarks};

use crate::draft::Draft;
use crate::marks::NetMarks;
use crate::parts::{Body, ScanNets};
use crate::paths::ports_of;
use ca_base::NoMemory;
use std::alloc::Global;

/// A pin of a scan instance that breaks its rule: 0, 1 and 2 are the scan enable, the clock and the hold, 3
/// is the inverted output.
#[derive(Clone, Copy, Debug)]
pub struct Misused {
    pub instance: u32,
    pub pin: u32,
}

// Which nets are on an input pin, on a bit of an input port, and on a bit of an output port.
#[derive(Drop)]
struct LoadMarks {
    pins: NetMarks,
    inputs: NetMarks,
    outputs: NetMarks,
}

// Whether a control pin is misplaced.
fn is_misplaced(draft: &Draft, marks: &LoadMarks, first: u32, net: u32) -> bool
    requires marks { AreLoadMarks draft.now marks.now }
    requires within { net < net_count draft.now }
    ensures { result ≡ is_misplaced draft.now first net }
{
    let _ = draft;
    !marks.inputs.get(net) || first != net
}

// Whether the net of an inverted output has a load.
fn is_used(draft: &Draft, marks: &LoadMarks, inverted: Option<u32>) -> bool
    requires marks { AreLoadMarks draft.now marks.now }
    requires within { All (λ net. net < net_count draft.now) (option_to_list inverted) }
    ensures { result ≡ is_used draft.now inverted }
{
    let _ = draft;
    match inverted {
        None => false,
        Some(net) => marks.pins.get(net) || marks.outputs.get(net),
    }
}

// The first pin of a scan instance that breaks its rule.
fn pin_fault(draft: &Draft, marks: &LoadMarks, first: &ScanNets, nets: &ScanNets) -> Option<u32>
    requires marks { AreLoadMarks draft.now marks.now }
    requires inputs { All (λ net. net < net_count draft.now) (input_nets (Scan nets.now)) }
    requires inverted { All (λ net. net < net_count draft.now) (option_to_list nets.now.qn) }
    ensures { result ≡ pin_fault draft.now first.now nets.now }
{
    if is_misplaced(draft, marks, first.se, nets.se) {
        Some(0)
    } else if is_misplaced(draft, marks, first.ck, nets.ck) || nets.ck == nets.se {
        Some(1)
    } else if is_misplaced(draft, marks, first.hold, nets.hold)
        || nets.hold == nets.se
        || nets.hold == nets.ck
    {
        Some(2)
    } else if is_used(draft, marks, nets.qn) {
        Some(3)
    } else {
        None
    }
}

// The nets of the first scan instance.
fn first_scan(draft: &Draft) -> Option<ScanNets>
    ensures { result ≡ first_scan draft.now.parts }
{
    for u in 0..draft.parts() {
        if let Body::Scan(nets) = &draft.part(u).body {
            return Some(*nets);
        }
    }
    None
}

// The first pin of an instance that breaks its rule.
fn body_fault(draft: &Draft, marks: &LoadMarks, first: Option<ScanNets>, body: &Body) -> Option<u32>
    requires marks { AreLoadMarks draft.now marks.now }
    requires inputs { All (λ net. net < net_count draft.now) (input_nets body.now) }
    requires outputs { All (λ net. net < net_count draft.now) (output_nets body.now) }
    ensures { result ≡ body_fault draft.now first body.now }
{
    match (body, first) {
        (Body::Gate { .. }, _) => None,
        (Body::Scan(_), None) => None,
        (Body::Scan(nets), Some(first)) => pin_fault(draft, marks, &first, nets),
    }
}

// Marks the nets of an instance's input pins.
fn mark_inputs(marks: &mut NetMarks, body: &Body)
    requires { All (λ net. net < length marks.old) (input_nets body.now) }
    ensures { Marks (input_nets body.now) marks.old marks.new }
{
    match body {
        Body::Gate { inputs, .. } => marks.mark_all(inputs.as_slice()),
        Body::Scan(nets) => marks.mark_all(&[nets.d, nets.si, nets.se, nets.ck, nets.hold]),
    }
}

// The nets of input pins.
fn pins_of(alloc: Global, draft: &Draft) -> Result<NetMarks, NoMemory>
    requires { IsDrafted draft.now }
    ensures { IfOk result (AreMarks (net_count draft.now) (is_among input_nets draft.now.parts)) }
{
    let mut marks = NetMarks::new(alloc, draft.nets())?;
    for u in 0..draft.parts() {
        mark_inputs(&mut marks, &draft.part(u).body);
    }
    Ok(marks)
}

// The marks of all three.
fn marks_of(alloc: Global, draft: &Draft) -> Result<LoadMarks, NoMemory>
    requires { IsDrafted draft.now }
    ensures { IfOk result (AreLoadMarks draft.now) }
{
    let pins = pins_of(alloc, draft)?;
    let inputs = ports_of(alloc, draft, true)?;
    let outputs = ports_of(alloc, draft, false)?;
    Ok(LoadMarks {
        pins,
        inputs,
        outputs,
    })
}

/// The first scan instance with a pin that breaks its rule, and the first such pin.
pub(crate) fn first_misused(alloc: Global, draft: &Draft) -> Result<Option<Misused>, NoMemory>
    requires { IsDrafted draft.now }
    ensures { IfOk result (λ reported. reported ≡ misused_of draft.now) }
{
    let marks = marks_of(alloc, draft)?;
    let first = first_scan(draft);
    for u in 0..draft.parts() {
        if let Some(pin) = body_fault(draft, &marks, first, &draft.part(u).body) {
            return Ok(Some(Misused {
                instance: u as u32,
                pin,
            }));
        }
    }
    Ok(None)
}

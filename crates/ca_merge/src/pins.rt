//! The nets on pins of members.

ghost use Rattle.std.specs.Prelude.{◌≡◌, ◌<◌, ◌++◌, ◌+◌, ◌^◌, [], ◌∷◌, not, ◌&&◌, length};
ghost use Rattle.std.specs.Prelude.{if◌then◌else◌, IfOk, OnOk};
ghost use Rattle.std.specs.List.{All};
ghost use Rattle.ca_linked.specs.Linked.{net_count, gate_inputs, gate_outputs};
ghost use Rattle.ca_linked.specs.Paths.{mark_at, Marks, AreMarks};
ghost use Rattle.ca_merge.specs.Draft.{AreGates, drives_net, reads_net, feeds_members};
ghost use Rattle.ca_merge.specs.code.Pins.{IsListed, AreClusterNets};

use ca_base::NoMemory;
use ca_linked::{Body, Chip, InstanceList, NetList, NetMarks};
use std::alloc::Global;

/// Nets in order, and for each net of the chip the cluster's node of it, if it is listed.
#[derive(Drop)]
pub(crate) struct PinNets {
    pub(crate) nets: NetList,
    pub(crate) seats: Vec<usize>,
}

/// The nets of a cluster's pins, and which nets its members drive.
#[derive(Drop)]
pub(crate) struct ClusterNets {
    pub(crate) driven: NetMarks,
    pub(crate) inputs: PinNets,
    pub(crate) outputs: PinNets,
}

// Marks the nets of a library instance's input pins.
fn mark_inputs(marks: &mut NetMarks, body: &Body)
    requires { All (λ net. net < length marks.old) (gate_inputs body.now) }
    ensures { Marks (gate_inputs body.now) marks.old marks.new }
{
    match body {
        Body::Gate { inputs, .. } => marks.mark_all(inputs.as_slice()),
        Body::Scan(_) => marks.mark_all(&[]),
    }
}

// Marks the nets of a library instance's output pins.
fn mark_outputs(marks: &mut NetMarks, body: &Body)
    requires { All (λ net. net < length marks.old) (gate_outputs body.now) }
    ensures { Marks (gate_outputs body.now) marks.old marks.new }
{
    match body {
        Body::Gate { outputs, .. } => marks.mark_all(outputs.as_slice()),
        Body::Scan(_) => marks.mark_all(&[]),
    }
}

// The nets on members' input pins.
fn read_marks(alloc: Global, chip: &Chip, members: &InstanceList) -> Result<NetMarks, NoMemory>
    requires gates { AreGates chip.now members.now }
    ensures { IfOk result (AreMarks (net_count chip.now) (reads_net chip.now members.now)) }
{
    chip.wired();
    let mut marks = NetMarks::new(alloc, chip.nets())?;
    for k in 0..members.len() {
        mark_inputs(&mut marks, &chip.part(members.get(k)).body);
    }
    Ok(marks)
}

// The nets on members' output pins.
fn driven_marks(alloc: Global, chip: &Chip, members: &InstanceList) -> Result<NetMarks, NoMemory>
    requires gates { AreGates chip.now members.now }
    ensures { IfOk result (AreMarks (net_count chip.now) (drives_net chip.now members.now)) }
{
    chip.wired();
    let mut marks = NetMarks::new(alloc, chip.nets())?;
    for k in 0..members.len() {
        mark_outputs(&mut marks, &chip.part(members.get(k)).body);
    }
    Ok(marks)
}

impl PinNets {
    // No net yet.
    fn new(alloc: Global) -> Self
        ensures { (result.nets ≡ []) × (result.seats.items ≡ []) }
    {
        PinNets {
            nets: NetList::new(alloc),
            seats: Vec::new(alloc),
        }
    }

    // The next net of the chip, which is listed if it passed a test; the node of the first is `first`.
    fn next(&mut self, first: usize, passed: bool, net: u32) -> Result<(), NoMemory>
        requires few { length self.old.nets < 2 ^ 32 }
        requires low { first < 2 ^ 33 }
        ensures nets { OnOk result (self.new.nets ≡ self.old.nets ++ (if passed then net ∷ [] else [])) }
        ensures seats { OnOk result (self.new.seats.items
            ≡ self.old.seats.items ++ (first + length self.old.nets) ∷ []) }
    {
        self.seats.push(first + self.nets.len())?;
        self.nets.push_if(passed, net)
    }
}

// Whether a net is read, and not driven.
fn is_fed(read: &NetMarks, driven: &NetMarks, net: u32) -> bool
    requires read { net < length read.now }
    requires driven { net < length driven.now }
    ensures { result ≡ (mark_at read.now net && not (mark_at driven.now net)) }
{
    read.get(net) && !driven.get(net)
}

// The nets of the cluster's input pins.
fn fed_nets(
    alloc: Global,
    chip: &Chip,
    members: &InstanceList,
    driven: &NetMarks,
) -> Result<PinNets, NoMemory>
    requires gates { AreGates chip.now members.now }
    requires driven { AreMarks (net_count chip.now) (drives_net chip.now members.now) driven.now }
    ensures { IfOk result (λ pins. IsListed (feeds_members chip.now members.now) 2 (net_count chip.now)
        pins.nets pins.seats.items) }
{
    chip.wired();
    let read = read_marks(alloc, chip, members)?;
    let mut pins = PinNets::new(alloc);
    for k in 0..chip.nets() {
        let net = k as u32;
        pins.next(2, is_fed(&read, driven, net), net)?;
    }
    Ok(pins)
}

// The nets of its output pins, where that of the first has this node.
fn driven_nets(
    alloc: Global,
    chip: &Chip,
    members: &InstanceList,
    driven: &NetMarks,
    first: usize,
) -> Result<PinNets, NoMemory>
    requires driven { AreMarks (net_count chip.now) (drives_net chip.now members.now) driven.now }
    requires low { first < 2 ^ 33 }
    ensures { IfOk result (λ pins. IsListed (drives_net chip.now members.now) first (net_count chip.now)
        pins.nets pins.seats.items) }
{
    let _ = members;
    chip.wired();
    let mut pins = PinNets::new(alloc);
    for k in 0..chip.nets() {
        let net = k as u32;
        pins.next(first, driven.get(net), net)?;
    }
    Ok(pins)
}

/// The nets of the cluster's input pins, and those of its output pins.
pub(crate) fn lists_of(nets: ClusterNets) -> (NetList, NetList)
    ensures inputs { result.0 ≡ nets.inputs.nets }
    ensures outputs { result.1 ≡ nets.outputs.nets }
{
    let ClusterNets {
        driven,
        inputs,
        outputs,
    } = nets;
    drop(driven);
    let PinNets {
        nets: input_nets,
        seats,
    } = inputs;
    drop(seats);
    let PinNets {
        nets: output_nets,
        seats,
    } = outputs;
    drop(seats);
    (input_nets, output_nets)
}

/// The nets of the cluster's pins.
pub(crate) fn cluster_nets(
    alloc: Global,
    chip: &Chip,
    members: &InstanceList,
) -> Result<ClusterNets, NoMemory>
    requires gates { AreGates chip.now members.now }
    ensures { IfOk result (AreClusterNets chip.now members.now) }
{
    chip.wired();
    let driven = driven_marks(alloc, chip, members)?;
    let inputs = fed_nets(alloc, chip, members, &driven)?;
    let outputs = driven_nets(alloc, chip, members, &driven, 2 + inputs.nets.len())?;
    Ok(ClusterNets {
        driven,
        inputs,
        outputs,
    })
}

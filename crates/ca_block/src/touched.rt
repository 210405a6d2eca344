//! The channel groups that a change of values touches, and responses that are found again in these alone.

ghost use Rattle.std.specs.Prelude.{ℕ, ◌≡◌, ◌<◌, ◌≤◌, false, IfOk, length, take};
ghost use Rattle.std.specs.List.{All};
ghost use Rattle.ca_net.specs.Circuit.{NamesWithin};
ghost use Rattle.ca_net.specs.Response.{AreResponses};
ghost use Rattle.ca_planes.specs.Trits.{HasNodes, state_in};
ghost use Rattle.ca_levels.specs.Levels.{HoldsNetwork};
ghost use Rattle.ca_block.specs.Groups.{AreWithin, HoldsGroups};
ghost use Rattle.ca_block.specs.Work.{HasTouchedRoom};
ghost use Rattle.ca_block.specs.code.Touched.{IsUnmarked, StayMarked, AreChanged, AreNodesMarked};
ghost use Rattle.ca_block.specs.code.Touched.{AreDevicesMarked, AreMarked, AreChosen, KeepsUnmarked, IsStill};

use crate::groups::{Groups, NO_DEVICE};
use ca_base::NoMemory;
use ca_levels::{Levels, respond};
use ca_net::{Device, Network};
use ca_planes::{Block, LANES, is_none};
use std::alloc::Global;

/// Which nodes have changed, which channel groups that touches, by their labels, and room for their devices.
#[derive(Drop, Debug)]
pub struct Touched {
    pub(crate) changed: Vec<bool>,
    pub(crate) marks: Vec<bool>,
    pub(crate) chosen: Vec<Device>,
}

impl Touched {
    /// Takes the room for networks of this many nodes and devices.
    pub(crate) fn reserve(alloc: Global, nodes: usize, devices: usize) -> Result<Self, NoMemory>
        ensures { IfOk result (HasTouchedRoom nodes devices) }
    {
        Ok(Touched {
            changed: vec![in alloc; false; nodes]?,
            marks: vec![in alloc; false; nodes]?,
            chosen: vec![in alloc; NO_DEVICE; devices]?,
        })
    }
}

// Finds the nodes that have not the same value in both blocks in each lane.
fn find_changed(state: &Block, other: &Block, changed: &mut [bool])
    requires state { HasNodes (length changed.old) state.now }
    requires other { HasNodes (length changed.old) other.now }
    ensures { AreChanged (length changed.new) state.now other.now changed.new }
{
    for node in 0..changed.len() {
        changed[node] = !is_none(state.get(node).differ(other.get(node)));
    }
}

// Marks the label, if so it is.
fn mark_if(is_changed: bool, label: u32, marks: &mut [bool])
    requires { label < length marks.old }
    ensures marked { IsUnmarked marks.new label → is_changed ≡ false }
    ensures kept { StayMarked marks.old marks.new }
{
    if is_changed {
        marks[label as usize] = true;
    }
}

// Marks the labels of the nodes that have changed.
fn mark_nodes(labels: &[u32], changed: &[bool], marks: &mut [bool])
    requires changed { length changed.now ≡ length labels.now }
    requires within { AreWithin (length labels.now) (length marks.old) labels.now }
    ensures { AreNodesMarked (length labels.now) labels.now changed.now marks.new }
{
    for node in 0..labels.len() {
        mark_if(changed[node], labels[node], marks);
    }
}

// Whether the device's gate or an end of it has changed.
fn is_touched(device: Device, changed: &[bool]) -> bool
    requires { NamesWithin (length changed.now) device }
    ensures { result ≡ false → IsStill changed.now device }
{
    changed[device.gate.0 as usize] || changed[device.a.0 as usize] || changed[device.b.0 as usize]
}

// Marks the homes of the devices of which the gate or an end has changed.
fn mark_devices(devices: &[Device], homes: &[u32], changed: &[bool], marks: &mut [bool])
    requires named { All (NamesWithin (length changed.now)) devices.now }
    requires homes { length homes.now ≡ length devices.now }
    requires within { AreWithin (length homes.now) (length marks.old) homes.now }
    ensures devices { AreDevicesMarked
        (length devices.now) devices.now homes.now changed.now marks.new }
    ensures kept { StayMarked marks.old marks.new }
{
    for i in 0..devices.len() {
        mark_if(is_touched(devices[i], changed), homes[i], marks);
    }
}

// Marks the labels of the groups that the changed nodes touch, and no others.
fn mark_labels(
    devices: &[Device],
    labels: &[u32],
    homes: &[u32],
    changed: &[bool],
    marks: &mut [bool],
)
    requires named { All (NamesWithin (length changed.now)) devices.now }
    requires changed { length changed.now ≡ length labels.now }
    requires labels { AreWithin (length labels.now) (length marks.old) labels.now }
    requires homes { length homes.now ≡ length devices.now }
    requires homes_within { AreWithin (length homes.now) (length marks.old) homes.now }
    ensures nodes { AreNodesMarked (length labels.now) labels.now changed.now marks.new }
    ensures devices { AreDevicesMarked
        (length devices.now) devices.now homes.now changed.now marks.new }
{
    marks.fill(false);
    mark_nodes(labels, changed, marks);
    mark_devices(devices, homes, changed, marks);
}

// Marks the groups that the change from one block to the other touches: those of nodes that have not the same
// value in both, and those of devices with such a gate or end.
fn mark<N: Network>(net: &N, groups: &Groups, state: &Block, other: &Block, touched: &mut Touched)
    requires groups { HoldsGroups (N.circuit net.now) groups.now }
    requires state { HasNodes (length (N.circuit net.now).nodes) state.now }
    requires other { HasNodes (length (N.circuit net.now).nodes) other.now }
    requires room { HasTouchedRoom
        (length (N.circuit net.now).nodes) (length (N.circuit net.now).devices) touched.old }
    ensures marked { AreMarked (N.circuit net.now) groups.now.labels.items groups.now.homes.items
        state.now other.now touched.new.marks.items }
    ensures room { HasTouchedRoom
        (length (N.circuit net.now).nodes) (length (N.circuit net.now).devices) touched.new }
{
    let _nodes = net.node_count();
    find_changed(state, other, &mut touched.changed);
    mark_labels(
        &groups.devices,
        &groups.labels,
        &groups.homes,
        &touched.changed,
        &mut touched.marks,
    );
}

// Copies the devices whose home is marked to the front of `chosen`. How many there are.
fn choose(devices: &[Device], homes: &[u32], marks: &[bool], chosen: &mut [Device]) -> usize
    requires homes { length homes.now ≡ length devices.now }
    requires within { AreWithin (length homes.now) (length marks.now) homes.now }
    requires room { length chosen.old ≡ length devices.now }
    ensures within { result ≤ length chosen.new }
    ensures chosen { AreChosen devices.now homes.now marks.now (take result chosen.new) }
{
    let mut count = 0;
    for i in 0..devices.len() {
        // Written first, so that nothing but the count hangs on what can't be foreseen.
        chosen[count] = devices[i];
        if marks[homes[i] as usize] {
            count += 1;
        }
    }
    count
}

// Gives each node whose label isn't marked what it has in `from`.
fn keep(labels: &[u32], marks: &[bool], from: &Block, out: &mut Block)
    requires from { HasNodes (length labels.now) from.now }
    requires out { HasNodes (length labels.now) out.old }
    requires within { AreWithin (length labels.now) (length marks.now) labels.now }
    ensures keeps { KeepsUnmarked (length labels.now) labels.now marks.now from.now out.old out.new }
    ensures out { HasNodes (length labels.now) out.new }
{
    for node in 0..labels.len() {
        if !marks[labels[node] as usize] {
            out.set(node, from.get(node));
        }
    }
}

/// Leaves in `out` the response of each node in each lane of `from`, from the responses in another state that
/// are known: those are found again alone that the change of values from the other state touches.
pub(crate) fn respond_again<N: Network>(
    net: &N,
    before: &Block,
    known: &Block,
    from: &Block,
    groups: &Groups,
    touched: &mut Touched,
    levels: &mut Levels,
    out: &mut Block,
)
    requires groups { HoldsGroups (N.circuit net.now) groups.now }
    requires before { HasNodes (length (N.circuit net.now).nodes) before.now }
    requires known { HasNodes (length (N.circuit net.now).nodes) known.now }
    requires from { HasNodes (length (N.circuit net.now).nodes) from.now }
    requires touched { HasTouchedRoom
        (length (N.circuit net.now).nodes) (length (N.circuit net.now).devices) touched.old }
    requires levels { HoldsNetwork (N.circuit net.now) levels.old }
    requires out { HasNodes (length (N.circuit net.now).nodes) out.old }
    requires responses { (lane : ℕ) → lane < LANES → AreResponses (N.circuit net.now)
        (state_in before.now lane) (state_in known.now lane) }

    ensures responses { (lane : ℕ) → lane < LANES → AreResponses (N.circuit net.now)
        (state_in from.now lane) (state_in out.new lane) }
    ensures touched { HasTouchedRoom
        (length (N.circuit net.now).nodes) (length (N.circuit net.now).devices) touched.new }
    ensures levels { HoldsNetwork (N.circuit net.now) levels.new }
    ensures out { HasNodes (length (N.circuit net.now).nodes) out.new }
{
    let _nodes = net.node_count();
    mark(net, groups, before, from, touched);
    let count = choose(
        &groups.devices,
        &groups.homes,
        &touched.marks,
        &mut touched.chosen,
    );
    respond(net, &touched.chosen[..count], from, levels, out);
    keep(&groups.labels, &touched.marks, known, out);
}

/// Leaves in `out` the response of each node in each lane of `from`.
pub(crate) fn respond_all<N: Network>(
    net: &N,
    from: &Block,
    groups: &Groups,
    levels: &mut Levels,
    out: &mut Block,
)
    requires groups { HoldsGroups (N.circuit net.now) groups.now }
    requires from { HasNodes (length (N.circuit net.now).nodes) from.now }
    requires levels { HoldsNetwork (N.circuit net.now) levels.old }
    requires out { HasNodes (length (N.circuit net.now).nodes) out.old }
    ensures responses { (lane : ℕ) → lane < LANES → AreResponses (N.circuit net.now)
        (state_in from.now lane) (state_in out.new lane) }
    ensures levels { HoldsNetwork (N.circuit net.now) levels.new }
    ensures out { HasNodes (length (N.circuit net.now).nodes) out.new }
{
    respond(net, &groups.devices, from, levels, out);
}

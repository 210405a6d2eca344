//! Where the nodes of instances are in the flat network.

ghost use Rattle.std.specs.Prelude.{◌≡◌, ◌+◌, ◌^◌, ◌<◌, ◌≤◌, length, slice_get, IsSomeAnd, IsTrue};
ghost use Rattle.ca_net.specs.Circuit.{NamesWithin};
ghost use Rattle.ca_parts.specs.Part.{moved};
ghost use Rattle.ca_flat.specs.Chip.{cell_at, circuit_at, inputs_at, outputs_at, net_of, count_of};
ghost use Rattle.ca_flat.specs.Chip.{IsChipDefect};
ghost use Rattle.ca_flat.specs.Flat.{circuit_in, inner_count, inner_before, place};
ghost use Rattle.ca_linked.specs.Linked.{IsLibrary};
ghost use Rattle.ca_view.specs.Core.{core_of};
ghost use Rattle.ca_view.specs.Numbers.{AreCoreNumbers};
ghost use Rattle.ca_flatten.specs.Few.{IsFew};
ghost use Rattle.ca_flatten.specs.code.Kept.{mark_at, AreGateMarks, IsSpot, IsInverting};

use crate::gates::Gates;
use ca_cell::Cell;
use ca_flat::ChipDefect;
use ca_linked::{Chip, InstanceId};
use ca_net::{Device, Network, NodeId};
use ca_view::CoreNets;

/// An instance, and the flat nodes from which on its inner nodes and the new node of the defect are.
#[derive(Clone, Copy)]
pub(crate) struct Spot {
    pub(crate) instance: InstanceId,
    pub(crate) inner: usize,
    pub(crate) new: usize,
}

/// The cell of a library instance.
pub fn cell_at(chip: &Chip, u: InstanceId) -> &Cell
    requires { IsLibrary chip.now u.0 }
    ensures { result.now ≡ cell_at (core_of chip.now) u.0 }
{
    chip.cell_of(u)
}

// The core's net on a pin of a library instance.
fn gate_net(chip: &Chip, nets: &CoreNets, u: InstanceId, pin: usize) -> u32
    requires nets { AreCoreNumbers chip.now nets.now }
    requires library { IsLibrary chip.now u.0 }
    requires within { pin < inputs_at (core_of chip.now) u.0 + outputs_at (core_of chip.now) u.0 }
    ensures { result ≡ net_of (core_of chip.now) u.0 pin }
{
    chip.wired();
    nets.get(chip.pin_net(u, pin))
}

// The place of the inverted output among a scan instance's pins: after five inputs and `q`.
const INVERTED: usize = 6;

// The core's net on the inverted output of a scan instance.
fn inverted_net(chip: &Chip, nets: &CoreNets, u: InstanceId) -> u32
    requires nets { AreCoreNumbers chip.now nets.now }
    requires inverting { IsSomeAnd (slice_get chip.now.parts u.0) (λ part. IsInverting part.body) }
    ensures { result ≡ net_of (core_of chip.now) u.0 0 }
{
    chip.wired();
    nets.get(chip.pin_net(u, INVERTED))
}

// The number of inner nodes of a library instance: those after the rails and the pins.
fn gate_inner(chip: &Chip, u: InstanceId) -> usize
    requires { IsLibrary chip.now u.0 }
    ensures count { result ≡ inner_count (core_of chip.now) u.0 }
    ensures few { result < 2 ^ 32 }
{
    let cell = cell_at(chip, u);
    cell.node_count() - (2 + cell.inputs() + cell.outputs())
}

/// The number of inner nodes of an instance.
pub(crate) fn inner_count(chip: &Chip, gates: &Gates, u: InstanceId) -> usize
    requires gates { AreGateMarks chip.now gates.now }
    requires within { u.0 < length chip.now.parts }
    ensures count { result ≡ inner_count (core_of chip.now) u.0 }
    ensures few { result < 2 ^ 32 }
{
    if gates.has(u) { gate_inner(chip, u) } else { 0 }
}

/// The number of inner nodes of the instances before this place.
pub(crate) fn inner_before(
    chip: &Chip,
    gates: &Gates,
    defect: Option<ChipDefect>,
    place: usize,
) -> usize
    requires gates { AreGateMarks chip.now gates.now }
    requires few { IsFew (core_of chip.now) defect }
    requires within { place ≤ length chip.now.parts }
    ensures { result ≡ inner_before (core_of chip.now) place }
{
    let mut inner = 0;
    for u in 0..place {
        inner += inner_count(chip, gates, InstanceId(u as u32));
    }
    inner
}

// The number of the flat node of a node of a library instance.
fn gate_place(
    chip: &Chip,
    nets: &CoreNets,
    defect: Option<ChipDefect>,
    spot: Spot,
    n: usize,
) -> usize
    requires nets { AreCoreNumbers chip.now nets.now }
    requires library { IsLibrary chip.now spot.instance.0 }
    requires spot { IsSpot (core_of chip.now) spot }
    requires defect { IsChipDefect (core_of chip.now) defect }
    requires few { IsFew (core_of chip.now) defect }
    requires within { n < length (circuit_in (core_of chip.now) defect spot.instance.0).nodes }
    ensures { result ≡ place (core_of chip.now) spot.instance.0 n }
{
    chip.wired();
    let cell = cell_at(chip, spot.instance);
    let outer = 2 + cell.inputs() + cell.outputs();
    if n < 2 {
        n
    } else if n < outer {
        2 + gate_net(chip, nets, spot.instance, n - 2) as usize
    } else if n < cell.node_count() {
        spot.inner + (n - outer)
    } else {
        spot.new
    }
}

// The number of the flat node of a node of a scan instance: a rail, or the net of its inverted output.
fn scan_place(
    chip: &Chip,
    nets: &CoreNets,
    defect: Option<ChipDefect>,
    u: InstanceId,
    n: usize,
) -> usize
    requires nets { AreCoreNumbers chip.now nets.now }
    requires scan { IsLibrary chip.now u.0 → ⊥ }
    requires known { u.0 < length chip.now.parts }
    requires defect { IsChipDefect (core_of chip.now) defect }
    requires within { n < length (circuit_in (core_of chip.now) defect u.0).nodes }
    ensures { result ≡ place (core_of chip.now) u.0 n }
{
    if n < 2 {
        n
    } else {
        2 + inverted_net(chip, nets, u) as usize
    }
}

// The number of the flat node of a node of an instance.
fn number(
    chip: &Chip,
    nets: &CoreNets,
    gates: &Gates,
    defect: Option<ChipDefect>,
    spot: Spot,
    n: NodeId,
) -> usize
    requires nets { AreCoreNumbers chip.now nets.now }
    requires gates { AreGateMarks chip.now gates.now }
    requires known { spot.instance.0 < length chip.now.parts }
    requires spot { IsSpot (core_of chip.now) spot }
    requires defect { IsChipDefect (core_of chip.now) defect }
    requires few { IsFew (core_of chip.now) defect }
    requires within { n.0 < length (circuit_in (core_of chip.now) defect spot.instance.0).nodes }
    ensures { result ≡ place (core_of chip.now) spot.instance.0 n.0 }
{
    if gates.has(spot.instance) {
        gate_place(chip, nets, defect, spot, n.0 as usize)
    } else {
        scan_place(chip, nets, defect, spot.instance, n.0 as usize)
    }
}

// The flat node of a node of an instance.
fn place(
    chip: &Chip,
    nets: &CoreNets,
    gates: &Gates,
    defect: Option<ChipDefect>,
    spot: Spot,
    n: NodeId,
) -> NodeId
    requires nets { AreCoreNumbers chip.now nets.now }
    requires gates { AreGateMarks chip.now gates.now }
    requires known { spot.instance.0 < length chip.now.parts }
    requires spot { IsSpot (core_of chip.now) spot }
    requires defect { IsChipDefect (core_of chip.now) defect }
    requires few { IsFew (core_of chip.now) defect }
    requires within { n.0 < length (circuit_in (core_of chip.now) defect spot.instance.0).nodes }
    ensures { result.0 ≡ place (core_of chip.now) spot.instance.0 n.0 }
{
    chip.wired();
    NodeId(number(chip, nets, gates, defect, spot, n) as u32)
}

/// A device of an instance, on its flat nodes.
pub(crate) fn moved(
    chip: &Chip,
    nets: &CoreNets,
    gates: &Gates,
    defect: Option<ChipDefect>,
    spot: Spot,
    device: Device,
) -> Device
    requires nets { AreCoreNumbers chip.now nets.now }
    requires gates { AreGateMarks chip.now gates.now }
    requires known { spot.instance.0 < length chip.now.parts }
    requires spot { IsSpot (core_of chip.now) spot }
    requires defect { IsChipDefect (core_of chip.now) defect }
    requires few { IsFew (core_of chip.now) defect }
    requires within { NamesWithin
        (length (circuit_in (core_of chip.now) defect spot.instance.0).nodes) device }
    ensures { result ≡ moved (place (core_of chip.now) spot.instance.0) device }
{
    Device {
        kind: device.kind,
        strength: device.strength,
        gate: place(chip, nets, gates, defect, spot, device.gate),
        a: place(chip, nets, gates, defect, spot, device.a),
        b: place(chip, nets, gates, defect, spot, device.b),
    }
}

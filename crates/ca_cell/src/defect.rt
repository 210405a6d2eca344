//! The defects of a cell, and what each changes in the cell's network.

ghost use Rattle.std.specs.Prelude.{◌≡◌};
ghost use Rattle.ca_cell.specs.Defect.{drain_on, device_with, bridge, is_pin, is_short};

use crate::raw::has_gate;
use ca_net::{BRIDGE, Device, DeviceId, DeviceKind, INNER_NODE, NodeId, NodeKind};

/// One change of a cell's network. An open is at a terminal of a device, or at an input pin, where all gates
/// on the pin come off together; a short is between two nodes, the lower one first. A resistor has no gate.
#[derive(Clone, Copy, Debug, PartialEq, Eq)]
pub enum Defect {
    OpenDrain(DeviceId),
    OpenSource(DeviceId),
    OpenGate(DeviceId),
    OpenPin(NodeId),
    Short(NodeId, NodeId),
}

// The device with its drain on another node. The gate of a resistor is its drain.
fn drain_on(new: NodeId, device: Device) -> Device
    ensures { result ≡ drain_on new.0 device }
{
    if has_gate(device.kind) {
        Device { a: new, ..device }
    } else {
        Device {
            a: new,
            gate: new,
            ..device
        }
    }
}

/// The device at a place of the cell's list, in the cell with the defect, whose new node is `new`.
pub fn changed_device(defect: Defect, new: NodeId, place: DeviceId, device: Device) -> Device
    ensures { result ≡ device_with defect new.0 place.0 device }
{
    match defect {
        Defect::OpenDrain(opened) if place.0 == opened.0 => drain_on(new, device),
        Defect::OpenSource(opened) if place.0 == opened.0 => Device { b: new, ..device },
        Defect::OpenGate(opened) if has_gate(device.kind) && place.0 == opened.0 => Device {
            gate: new,
            ..device
        },
        Defect::OpenPin(pin) if has_gate(device.kind) && device.gate.0 == pin.0 => Device {
            gate: new,
            ..device
        },
        Defect::OpenDrain(_)
        | Defect::OpenSource(_)
        | Defect::OpenGate(_)
        | Defect::OpenPin(_)
        | Defect::Short(_, _) => device,
    }
}

impl Defect {
    ghost use Rattle.ca_cell.specs.Defect.{new_node, new_device};

    /// The node that the defect adds, after all others.
    pub fn new_node(self) -> Option<NodeKind>
        ensures { result ≡ new_node self }
    {
        match self {
            Defect::OpenDrain(_)
            | Defect::OpenSource(_)
            | Defect::OpenGate(_)
            | Defect::OpenPin(_) => Some(NodeKind::Storage(INNER_NODE)),
            Defect::Short(_, _) => None,
        }
    }

    /// The device that the defect adds, after all others.
    pub fn new_device(self) -> Option<Device>
        ensures { result ≡ new_device self }
    {
        match self {
            Defect::OpenDrain(_)
            | Defect::OpenSource(_)
            | Defect::OpenGate(_)
            | Defect::OpenPin(_) => None,
            Defect::Short(low, high) => Some(bridge(low, high)),
        }
    }
}

// The device of a short.
fn bridge(low: NodeId, high: NodeId) -> Device
    ensures { result ≡ bridge low high }
{
    Device {
        kind: DeviceKind::D,
        strength: BRIDGE,
        gate: low,
        a: low,
        b: high,
    }
}

// Whether the node is an input pin of a cell with `inputs` input pins.
fn is_pin(inputs: usize, n: usize) -> bool
    ensures { result ≡ is_pin inputs n }
{
    2 <= n && n - 2 < inputs
}

/// Whether there is a short of the two nodes in a cell with `inputs` input pins.
pub(crate) fn is_short(inputs: usize, low: usize, high: usize) -> bool
    ensures { result ≡ is_short inputs low high }
{
    low < high && !is_pin(inputs, low) && !is_pin(inputs, high) && !(low == 0 && high == 1)
}

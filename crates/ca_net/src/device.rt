//! The devices of a network.

use crate::node::NodeId;

/// A place in a network's list of devices.
#[derive(Clone, Copy, Debug, PartialEq, Eq)]
pub struct DeviceId(pub u32);

/// What makes a device conduct: gate 1 an n-device, gate 0 a p-device, and a d-device always does.
#[derive(Clone, Copy, Debug, PartialEq, Eq)]
pub enum DeviceKind {
    N,
    P,
    D,
}

/// A switch between the nodes `a`, its drain, and `b`, its source. The gate of a d-device is its `a`, and
/// isn't looked at.
#[derive(Clone, Copy, Debug, PartialEq, Eq)]
pub struct Device {
    pub kind: DeviceKind,
    pub strength: u8,
    pub gate: NodeId,
    pub a: NodeId,
    pub b: NodeId,
}

//! A network that owns its nodes and devices.

ghost use Rattle.std.specs.Prelude.{◌≡◌, ◌<◌, ◌^◌, length, IfOk, IfErr, OnOk, IsTrue, ◌↔◌};
ghost use Rattle.std.specs.List.{All};
ghost use Rattle.ca_net.specs.Circuit.{HasSize, HasStrength, GateIsDrain, NamesWithin};

use crate::device::{Device, DeviceId};
use crate::lists::{DeviceList, NodeList};
use crate::network::Network;
use crate::node::{NodeId, NodeKind};
use std::marker::Model;

/// Why no network was made. Both lists are dropped.
#[derive(Clone, Copy, Debug, PartialEq, Eq)]
pub enum NetFault {
    /// The device names a node past the list of nodes.
    BadNode { device: DeviceId },
    /// There was no memory.
    NoMemory,
}

/// A network that owns its nodes and devices, which name each other by their places in the two lists.
#[derive(Drop, Debug)]
pub struct FlatNet {
    nodes: NodeList,
    devices: DeviceList,
}

impl Model for FlatNet {
    ghost use Rattle.ca_net.specs.Circuit.{Circuit, IsWellFormed};

    ghost Value = { Circuit };

    ghost view = { λ net. record { nodes = net.nodes; devices = net.devices } };

    ghost invariant = { λ net. IsWellFormed (record { nodes = net.nodes; devices = net.devices }) };
}

impl FlatNet {
    ghost use Rattle.ca_net.specs.NetFault.{IsCause};

    /// The network of these nodes and devices. It takes no memory.
    pub fn new(nodes: NodeList, devices: DeviceList) -> Result<Self, NetFault>
        requires few_nodes { length nodes < 2 ^ 32 }
        requires few_devices { length devices < 2 ^ 32 }
        requires sizes { All HasSize nodes }
        requires strengths { All HasStrength devices }
        requires gates { All GateIsDrain devices }

        ensures ok { IfOk result (λ net. net ≡ record { nodes = nodes; devices = devices }) }
        ensures named { OnOk result (All (NamesWithin (length nodes)) devices) }
        ensures cause { IfErr result (IsCause nodes devices) }
    {
        for i in 0..devices.len() {
            if !names_within(nodes.len(), devices.get(i)) {
                return Err(NetFault::BadNode {
                    device: DeviceId(i as u32),
                });
            }
        }
        Ok(FlatNet { nodes, devices })
    }
}

impl Network for FlatNet {
    ghost circuit = { λ net. net };

    fn node_count(&self) -> usize {
        self.nodes.len()
    }

    fn device_count(&self) -> usize {
        self.devices.len()
    }

    fn kind(&self, n: NodeId) -> NodeKind {
        self.nodes.get(n.0 as usize)
    }

    fn device(&self, d: DeviceId) -> Device {
        self.devices.get(d.0 as usize)
    }
}

// Whether each node that the device names is among the first `count`.
fn names_within(count: usize, device: Device) -> bool
    ensures { IsTrue result ↔ NamesWithin count device }
{
    (device.gate.0 as usize) < count
        && (device.a.0 as usize) < count
        && (device.b.0 as usize) < count
}

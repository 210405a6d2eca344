//! The channel groups of a network, as labels.

ghost use Rattle.std.specs.Prelude.{ℕ, ◌≡◌, ◌<◌, ◌^◌, IfOk, IsTrue, ◌↔◌, Some, length, slice_get};
ghost use Rattle.std.specs.Prelude.{slice_index};
ghost use Rattle.ca_net.specs.Circuit.{IsWellFormed, IsStorage};
ghost use Rattle.ca_net.specs.declared.device.Device.{Device};
ghost use Rattle.ca_relax.specs.code.Links.{HasOneLabel};
ghost use Rattle.ca_block.specs.Groups.{AreWithin, HasHome, HasRoom, HoldsGroups};
ghost use Rattle.ca_block.specs.code.Labels.{AreRenamed, JoinsAt};

use ca_base::NoMemory;
use ca_net::{Device, DeviceId, DeviceKind, Network, NodeId, NodeKind};
use std::alloc::Global;

/// The devices of a network, and labels of its nodes: storage nodes that devices join, without an input node
/// between them, have one label.
#[derive(Drop, Debug)]
pub struct Groups {
    pub(crate) devices: Vec<Device>,
    pub(crate) labels: Vec<u32>,
    // the label of the storage nodes at the ends of each device
    pub(crate) homes: Vec<u32>,
}

/// What stands for a device where there is none yet.
pub(crate) const NO_DEVICE: Device = Device {
    kind: DeviceKind::D,
    strength: 0,
    gate: NodeId(0),
    a: NodeId(0),
    b: NodeId(0),
};

// Copies the devices of the network.
fn copy_devices<N: Network>(net: &N, devices: &mut [Device])
    requires { length devices.old ≡ length (N.circuit net.now).devices }
    ensures { devices.new ≡ (N.circuit net.now).devices }
{
    for i in 0..net.device_count() {
        devices[i] = net.device(DeviceId(i as u32));
    }
}

// Whether the node is a storage node.
fn is_storage<N: Network>(net: &N, node: NodeId) -> bool
    requires { node.0 < length (N.circuit net.now).nodes }
    ensures { IsTrue result ↔ IsStorage (N.circuit net.now) node.0 }
{
    matches!(net.kind(node), NodeKind::Storage(_))
}

// Gives each node itself as its label.
fn begin<N: Network>(net: &N, labels: &mut [u32])
    requires { length labels.old ≡ length (N.circuit net.now).nodes }
    ensures { AreWithin (length (N.circuit net.now).nodes) (length (N.circuit net.now).nodes) labels.new }
{
    for node in 0..net.node_count() {
        labels[node] = node as u32;
    }
}

// Gives the nodes of one label another.
fn rename(labels: &mut [u32], from: u32, to: u32)
    ensures { AreRenamed (length labels.old) from to labels.old labels.new }
{
    for node in 0..labels.len() {
        if labels[node] == from {
            labels[node] = to;
        }
    }
}

// Gives the groups at both ends of the device at place i one label, if both are storage nodes.
fn join_ends<N: Network>(net: &N, labels: &mut [u32], i: usize)
    requires well_formed { IsWellFormed (N.circuit net.now) }
    requires room { length labels.old ≡ length (N.circuit net.now).nodes }
    requires device { i < length (N.circuit net.now).devices }
    requires within { AreWithin
        (length (N.circuit net.now).nodes) (length (N.circuit net.now).nodes) labels.old }
    ensures { JoinsAt (N.circuit net.now) i labels.old labels.new }
{
    let device = net.device(DeviceId(i as u32));
    if is_storage(net, device.a) && is_storage(net, device.b) {
        let to = labels[device.a.0 as usize];
        let from = labels[device.b.0 as usize];
        if from != to {
            rename(labels, from, to);
        }
    }
}

// Labels the nodes.
fn label<N: Network>(net: &N, labels: &mut [u32])
    requires { length labels.old ≡ length (N.circuit net.now).nodes }
    ensures within { AreWithin
        (length (N.circuit net.now).nodes) (length (N.circuit net.now).nodes) labels.new }
    ensures one { (i : ℕ) → i < length (N.circuit net.now).devices
        → HasOneLabel (N.circuit net.now) labels.new i }
{
    begin(net, labels);
    for i in 0..net.device_count() {
        join_ends(net, labels, i);
    }
}

// The label of the storage nodes at the ends of the device at place i.
fn home<N: Network>(net: &N, labels: &[u32], i: usize) -> u32
    requires well_formed { IsWellFormed (N.circuit net.now) }
    requires room { length labels.now ≡ length (N.circuit net.now).nodes }
    requires within { AreWithin
        (length (N.circuit net.now).nodes) (length (N.circuit net.now).nodes) labels.now }
    requires device { i < length (N.circuit net.now).devices }
    requires one { HasOneLabel (N.circuit net.now) labels.now i }
    ensures within { result < length (N.circuit net.now).nodes }
    ensures home { (d : Device) → slice_get (N.circuit net.now).devices i ≡ Some d
        → HasHome (N.circuit net.now) labels.now d result }
{
    let device = net.device(DeviceId(i as u32));
    if is_storage(net, device.a) {
        labels[device.a.0 as usize]
    } else {
        labels[device.b.0 as usize]
    }
}

// Finds the homes of the devices.
fn find_homes<N: Network>(net: &N, labels: &[u32], homes: &mut [u32])
    requires room { length labels.now ≡ length (N.circuit net.now).nodes }
    requires within { AreWithin
        (length (N.circuit net.now).nodes) (length (N.circuit net.now).nodes) labels.now }
    requires one { (i : ℕ) → i < length (N.circuit net.now).devices
        → HasOneLabel (N.circuit net.now) labels.now i }
    requires homes { length homes.old ≡ length (N.circuit net.now).devices }
    ensures within { AreWithin
        (length (N.circuit net.now).devices) (length (N.circuit net.now).nodes) homes.new }
    ensures homes { (i : ℕ) (d : Device) → slice_get (N.circuit net.now).devices i ≡ Some d
        → HasHome (N.circuit net.now) labels.now d (slice_index homes.new i) }
{
    for i in 0..net.device_count() {
        homes[i] = home(net, labels, i);
    }
}

impl Groups {
    /// Takes the room for the groups of a network of this many nodes and devices. As yet they are those of no
    /// network.
    pub(crate) fn reserve(alloc: Global, nodes: usize, devices: usize) -> Result<Self, NoMemory>
        ensures { IfOk result (HasRoom nodes devices) }
    {
        Ok(Groups {
            devices: vec![in alloc; NO_DEVICE; devices]?,
            labels: vec![in alloc; 0u32; nodes]?,
            homes: vec![in alloc; 0u32; devices]?,
        })
    }

    /// Leaves the groups of the network. It takes no memory.
    pub(crate) fn load<N: Network>(&mut self, net: &N)
        requires { HasRoom (length (N.circuit net.now).nodes) (length (N.circuit net.now).devices) self.old }
        ensures { HoldsGroups (N.circuit net.now) self.new }
    {
        copy_devices(net, &mut self.devices);
        label(net, &mut self.labels);
        find_homes(net, &self.labels, &mut self.homes);
    }
}

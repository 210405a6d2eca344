//! The cluster's nodes for the nodes of its members, and its devices.

ghost use Rattle.std.specs.Prelude.{◌≡◌, ◌+◌, ◌<◌, ◌^◌, [], ◌++◌, map, length, slice_get, IsSomeAnd, IfOk};
ghost use Rattle.std.specs.Prelude.{OnOk};
ghost use Rattle.ca_flat.specs.Chip.{cell_at, circuit_at};
ghost use Rattle.ca_view.specs.Core.{core_of};
ghost use Rattle.ca_merged.specs.Cluster.{seat, seated, seated_devices};
ghost use Rattle.ca_cell.specs.Raw.{inner_count};
ghost use Rattle.ca_merge.specs.code.Seats.{AreSeated, HasSeat, IsInHand, seat_of};

use crate::pins::ClusterNets;
use ca_base::NoMemory;
use ca_cell::{Cell, RawDevice, RawDevices};
use ca_lex::Text;
use ca_linked::{Chip, InstanceId, InstanceList};
use ca_net::{DeviceId, Network, NodeId};
use std::alloc::Global;

/// The members of a cluster and the nets of its pins, in one hand.
#[derive(Clone, Copy)]
pub(crate) struct Cluster<'a> {
    pub(crate) chip: &'a Chip,
    pub(crate) members: &'a InstanceList,
    pub(crate) nets: &'a ClusterNets,
}

// The node of a net that is on a pin of a member.
fn net_seat(nets: &ClusterNets, net: u32) -> u32
    requires { HasSeat nets.now net }
    ensures { result ≡ seat_of nets.now net }
{
    if nets.driven.get(net) {
        nets.outputs.seats[net as usize] as u32
    } else {
        nets.inputs.seats[net as usize] as u32
    }
}

// The node for an inner node, before which members have these.
fn inner_seat(nets: &ClusterNets, before: usize) -> u32
    requires { 2 + length nets.now.inputs.nets + length nets.now.outputs.nets + before < 2 ^ 32 }
    ensures { result ≡ 2 + length nets.now.inputs.nets + length nets.now.outputs.nets + before }
{
    (2 + nets.inputs.nets.len() + nets.outputs.nets.len() + before) as u32
}

// The node for a node of a member, where members before it have `start` inner nodes.
fn seat(of: &Cluster<'_>, u: InstanceId, start: usize, node: NodeId) -> u32
    requires hand { IsInHand of.now.chip.now of.now.members.now of.now.nets.now u.0 start }
    requires within { node.0 < length (circuit_at (core_of of.now.chip.now) u.0).nodes }
    ensures { result ≡ seat (core_of of.now.chip.now) of.now.members.now u.0 node.0 }
{
    of.chip.wired();
    let cell = of.chip.cell_of(u);
    let n = node.0 as usize;
    let outer = 2 + cell.inputs() + cell.outputs();
    if n < 2 {
        node.0
    } else if n < outer {
        net_seat(of.nets, of.chip.part(u).body.pin(n - 2))
    } else {
        inner_seat(of.nets, start + (n - outer))
    }
}

// A device without a name on other nets.
fn moved(alloc: Global, raw: &RawDevice, drain: u32, gate: u32, source: u32) -> RawDevice
    ensures { result ≡ record raw.now { name = []; drain = drain; gate = gate; source = source } }
{
    RawDevice {
        name: Text::new(alloc),
        kind: raw.kind,
        strength: raw.strength,
        width: raw.width,
        length: raw.length,
        drain,
        gate,
        source,
    }
}

// A device of a member, on the cluster's nodes.
fn seated(alloc: Global, of: &Cluster<'_>, u: InstanceId, start: usize, d: usize) -> RawDevice
    requires hand { IsInHand of.now.chip.now of.now.members.now of.now.nets.now u.0 start }
    requires within { d < length (cell_at (core_of of.now.chip.now) u.0).devices }
    ensures { IsSomeAnd (slice_get (cell_at (core_of of.now.chip.now) u.0).devices d)
        (λ raw. result ≡ seated (core_of of.now.chip.now) of.now.members.now u.0 raw) }
{
    of.chip.wired();
    let cell = of.chip.cell_of(u);
    let raw = &cell.raw().devices.as_slice()[d];
    let device = cell.device(DeviceId(d as u32));
    let drain = seat(of, u, start, device.a);
    let gate = seat(of, u, start, device.gate);
    let source = seat(of, u, start, device.b);
    moved(alloc, raw, drain, gate, source)
}

// Appends the devices of a member.
fn push_devices(
    alloc: Global,
    devices: &mut RawDevices,
    of: &Cluster<'_>,
    u: InstanceId,
    start: usize,
) -> Result<(), NoMemory>
    requires hand { IsInHand of.now.chip.now of.now.members.now of.now.nets.now u.0 start }
    ensures { OnOk result (devices.new ≡ devices.old ++ map
        (seated (core_of of.now.chip.now) of.now.members.now u.0)
        (cell_at (core_of of.now.chip.now) u.0).devices) }
{
    of.chip.wired();
    for d in 0..of.chip.cell_of(u).device_count() {
        devices.push(seated(alloc, of, u, start, d))?;
    }
    Ok(())
}

/// The number of inner nodes of a cell.
pub(crate) fn inner_count(cell: &Cell) -> usize
    ensures { result ≡ inner_count cell.now }
{
    let raw = cell.raw();
    raw.nets.len() - raw.pins.len()
}

/// The devices of the cluster.
pub(crate) fn devices_of(alloc: Global, of: &Cluster<'_>) -> Result<RawDevices, NoMemory>
    requires { AreSeated of.now.chip.now of.now.members.now of.now.nets.now }
    ensures { IfOk result (λ devices. devices
        ≡ seated_devices (core_of of.now.chip.now) of.now.members.now of.now.members.now) }
{
    of.chip.wired();
    let mut devices = RawDevices::new(alloc);
    let mut start = 0;
    for k in 0..of.members.len() {
        let u = of.members.get(k);
        push_devices(alloc, &mut devices, of, u, start)?;
        start += inner_count(of.chip.cell_of(u));
    }
    Ok(devices)
}

//! The devices of the flat network.

ghost use Rattle.std.specs.Prelude.{◌≡◌, ◌+◌, ◌++◌, ◌<◌, length, slice_get, Some, option_to_list, IfOk, OnOk};
ghost use Rattle.ca_cell.specs.Raw.{circuit_of};
ghost use Rattle.ca_flat.specs.Chip.{count_of, IsChipDefect};
ghost use Rattle.ca_flat.specs.Flat.{flat, old_devices, defect_at, devices_of, bridge_of, inner_before};
ghost use Rattle.ca_linked.specs.Linked.{IsLibrary};
ghost use Rattle.ca_view.specs.Core.{core_of};
ghost use Rattle.ca_view.specs.Numbers.{AreCoreNumbers};
ghost use Rattle.ca_flatten.specs.Few.{IsFew};
ghost use Rattle.ca_flatten.specs.code.Kept.{AreGateMarks, AreSizes, IsSpot};

use crate::gates::Gates;
use crate::sizes::Sizes;
use crate::spots::{Spot, cell_at, inner_before, inner_count, moved};
use ca_base::NoMemory;
use ca_cell::{Cell, Defect, changed_device};
use ca_flat::ChipDefect;
use ca_linked::{Chip, InstanceId};
use ca_net::{Device, DeviceId, DeviceList, Network, NodeId};
use ca_view::CoreNets;
use std::alloc::Global;

// The defect of an instance.
fn defect_at(defect: Option<ChipDefect>, u: InstanceId) -> Option<Defect>
    ensures { result ≡ defect_at defect u.0 }
{
    match defect {
        Some(given) if u.0 == given.instance => Some(given.defect),
        _ => None,
    }
}

// A device of a cell, with the defect.
fn old_device(cell: &Cell, defect: Option<Defect>, d: DeviceId) -> Device
    requires { d.0 < length (circuit_of cell.now).devices }
    ensures { slice_get (old_devices (circuit_of cell.now).devices
        (length (circuit_of cell.now).nodes) defect) d.0 ≡ Some result }
{
    let device = cell.device(d);
    match defect {
        None => device,
        Some(defect) => changed_device(defect, NodeId(cell.node_count() as u32), d, device),
    }
}

// Appends the devices of a library instance.
fn push_gate(
    devices: &mut DeviceList,
    chip: &Chip,
    nets: &CoreNets,
    gates: &Gates,
    defect: Option<ChipDefect>,
    spot: Spot,
) -> Result<(), NoMemory>
    requires nets { AreCoreNumbers chip.now nets.now }
    requires gates { AreGateMarks chip.now gates.now }
    requires library { IsLibrary chip.now spot.instance.0 }
    requires spot { IsSpot (core_of chip.now) spot }
    requires defect { IsChipDefect (core_of chip.now) defect }
    requires few { IsFew (core_of chip.now) defect }
    ensures { OnOk result (devices.new
        ≡ devices.old ++ devices_of (core_of chip.now) defect spot.instance.0) }
{
    chip.wired();
    let cell = cell_at(chip, spot.instance);
    let here = defect_at(defect, spot.instance);
    for d in 0..cell.device_count() {
        let device = old_device(cell, here, DeviceId(d as u32));
        devices.push(moved(chip, nets, gates, defect, spot, device))?;
    }
    Ok(())
}

// Appends the devices of an instance; a scan instance has none.
fn push_part(
    devices: &mut DeviceList,
    chip: &Chip,
    nets: &CoreNets,
    gates: &Gates,
    defect: Option<ChipDefect>,
    spot: Spot,
) -> Result<(), NoMemory>
    requires nets { AreCoreNumbers chip.now nets.now }
    requires gates { AreGateMarks chip.now gates.now }
    requires known { spot.instance.0 < length chip.now.parts }
    requires spot { IsSpot (core_of chip.now) spot }
    requires defect { IsChipDefect (core_of chip.now) defect }
    requires few { IsFew (core_of chip.now) defect }
    ensures { OnOk result (devices.new
        ≡ devices.old ++ devices_of (core_of chip.now) defect spot.instance.0) }
{
    if gates.has(spot.instance) {
        push_gate(devices, chip, nets, gates, defect, spot)
    } else {
        Ok(())
    }
}

// The bridge of a short, between flat nodes.
fn bridge_of(
    chip: &Chip,
    nets: &CoreNets,
    gates: &Gates,
    defect: Option<ChipDefect>,
    first: usize,
    new: usize,
) -> Option<Device>
    requires nets { AreCoreNumbers chip.now nets.now }
    requires gates { AreGateMarks chip.now gates.now }
    requires defect { IsChipDefect (core_of chip.now) defect }
    requires few { IsFew (core_of chip.now) defect }
    requires first { first ≡ 2 + length (core_of chip.now).nets }
    requires new { new ≡ first + inner_before (core_of chip.now) (count_of (core_of chip.now)) }
    ensures { option_to_list result ≡ bridge_of (core_of chip.now) defect }
{
    chip.wired();
    let given = match defect {
        Some(given) => given,
        None => return None,
    };
    let device = match given.defect.new_device() {
        Some(device) => device,
        None => return None,
    };
    let inner = first + inner_before(chip, gates, defect, given.instance as usize);
    let spot = Spot {
        instance: InstanceId(given.instance),
        inner,
        new,
    };
    Some(moved(chip, nets, gates, defect, spot, device))
}

/// The devices of all instances in their order, and the bridge of a short. The memory for all of them is
/// taken at once.
pub(crate) fn devices_of(
    alloc: Global,
    chip: &Chip,
    nets: &CoreNets,
    gates: &Gates,
    sizes: Sizes,
    defect: Option<ChipDefect>,
) -> Result<DeviceList, NoMemory>
    requires nets { AreCoreNumbers chip.now nets.now }
    requires gates { AreGateMarks chip.now gates.now }
    requires sizes { AreSizes (core_of chip.now) sizes }
    requires defect { IsChipDefect (core_of chip.now) defect }
    ensures { IfOk result (λ devices. devices ≡ (flat (core_of chip.now) defect).devices) }
{
    let first = 2 + nets.count() as usize;
    let new = first + sizes.inner;
    let mut devices = DeviceList::with_room(alloc, sizes.devices + 1)?;
    let mut inner = first;
    for u in 0..chip.parts() {
        let instance = InstanceId(u as u32);
        let spot = Spot {
            instance,
            inner,
            new,
        };
        push_part(&mut devices, chip, nets, gates, defect, spot)?;
        inner += inner_count(chip, gates, instance);
    }
    if let Some(bridge) = bridge_of(chip, nets, gates, defect, first, new) {
        devices.push(bridge)?;
    }
    Ok(devices)
}

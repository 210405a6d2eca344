//! The list of a cell's defects.

ghost use Rattle.std.specs.Prelude.{◌≡◌, ◌<◌, ◌+◌, ◌^◌, ◌++◌, All, length, IfOk, OnOk};
ghost use Rattle.ca_cell.specs.Nodes.{defect_count};
ghost use Rattle.ca_cell.specs.Raw.{circuit_of};
ghost use Rattle.ca_cell.specs.List.{each_from, opens_of, device_opens, pin_open, short_of, shorts_of};
ghost use Rattle.ca_cell.specs.List.{defects_of};
ghost use Rattle.ca_cell.specs.Defect.{gated_at};
ghost use Rattle.ca_cell.specs.List.{IsDefectOf};

use crate::cell::Cell;
use crate::defect::{Defect, is_short};
use crate::list::DefectList;
use crate::raw::has_gate;
use ca_base::NoMemory;
use ca_net::{DeviceId, Network, NodeId};
use std::alloc::Global;

/// The defects of a cell: for each device in order the opens of its drain, its source and its gate, which a
/// resistor lacks; the open
/// of each input pin in order; and the short of each two nodes that are no input pins, in the order of the
/// lower and then of the higher node, except power with ground.
pub fn defects(alloc: Global, cell: &Cell) -> Result<DefectList, NoMemory>
    ensures ok { IfOk result (λ list. list ≡ defects_of cell.now) }
    ensures listed { IfOk result (λ list. All (IsDefectOf cell.now) list) }
    ensures count { IfOk result (λ list. length list ≡ defect_count cell.now) }
{
    let mut list = DefectList::new(alloc);
    push_device_opens(&mut list, cell)?;
    push_pin_opens(&mut list, cell.inputs())?;
    push_shorts(&mut list, cell.node_count(), cell.inputs())?;
    Ok(list)
}

// Appends the opens of the devices.
fn push_device_opens(list: &mut DefectList, cell: &Cell) -> Result<(), NoMemory>
    ensures ok { OnOk result (list.new ≡ list.old
        ++ each_from (device_opens (circuit_of cell.now).devices) 0 (length (circuit_of cell.now).devices)) }
{
    for place in 0..cell.device_count() {
        let device = DeviceId(place as u32);
        push_opens_of(list, has_gate_at(cell, device), device)?;
    }
    Ok(())
}

/// Whether the device at a place has a gate.
pub(crate) fn has_gate_at(cell: &Cell, device: DeviceId) -> bool
    requires { device.0 < length (circuit_of cell.now).devices }
    ensures { result ≡ gated_at (circuit_of cell.now).devices device.0 }
{
    has_gate(cell.device(device).kind)
}

// Appends the opens of a device.
fn push_opens_of(list: &mut DefectList, gated: bool, device: DeviceId) -> Result<(), NoMemory>
    ensures ok { OnOk result (list.new ≡ list.old ++ opens_of gated device.0) }
{
    list.push(Defect::OpenDrain(device))?;
    list.push(Defect::OpenSource(device))?;
    if gated {
        list.push(Defect::OpenGate(device))?;
    }
    Ok(())
}

// Appends the opens of the input pins.
fn push_pin_opens(list: &mut DefectList, inputs: usize) -> Result<(), NoMemory>
    requires { 2 + inputs < 2 ^ 32 }
    ensures ok { OnOk result (list.new ≡ list.old ++ each_from pin_open 0 inputs) }
{
    for before in 0..inputs {
        list.push(Defect::OpenPin(NodeId(2 + before as u32)))?;
    }
    Ok(())
}

// Appends the shorts of all nodes.
fn push_shorts(list: &mut DefectList, nodes: usize, inputs: usize) -> Result<(), NoMemory>
    requires { nodes < 2 ^ 32 }
    ensures ok { OnOk result (list.new ≡ list.old ++ each_from (shorts_of nodes inputs) 0 nodes) }
{
    for low in 0..nodes {
        push_shorts_of(list, nodes, inputs, low)?;
    }
    Ok(())
}

// Appends the shorts of a node with higher ones.
fn push_shorts_of(
    list: &mut DefectList,
    nodes: usize,
    inputs: usize,
    low: usize,
) -> Result<(), NoMemory>
    requires nodes { nodes < 2 ^ 32 }
    requires low { low < nodes }
    ensures ok { OnOk result (list.new ≡ list.old ++ shorts_of nodes inputs low) }
{
    for high in 0..nodes {
        push_short(list, inputs, low, high)?;
    }
    Ok(())
}

// Appends the short of two nodes, where there is one.
fn push_short(list: &mut DefectList, inputs: usize, low: usize, high: usize) -> Result<(), NoMemory>
    requires low { low < 2 ^ 32 }
    requires high { high < 2 ^ 32 }
    ensures ok { OnOk result (list.new ≡ list.old ++ short_of inputs low high) }
{
    if is_short(inputs, low, high) {
        list.push(Defect::Short(NodeId(low as u32), NodeId(high as u32)))?;
    }
    Ok(())
}

//! What merging answers.

ghost use Rattle.std.specs.Prelude.{◌<◌, length, IfSome, map};
ghost use Rattle.std.specs.List.{IsDistinct};
ghost use Rattle.std.specs.Str.{bytes_eq};
ghost use Rattle.ca_merge.specs.Merge.{CanMerge};
ghost use Rattle.ca_verilog.specs.IsNetlist.{IsNetlist};

use crate::chips::{CHIPS, LIBRARY};
use ca_base::NoMemory;
use ca_cell::{Cell, CellRule, StrengthTable};
use ca_lex::Text;
use ca_link::link;
use ca_linked::{Chip, InstanceId, InstanceList};
use ca_merge::{MergeFault, merged};
use ca_net::{DeviceId, Network, NodeId};
use ca_spice::read_library;
use ca_verilog::{RawNetlist, read_netlist};
use ca_wiring::ScanTable;
use std::alloc::Global;

// The chip of a netlist that was read, if it links. Each value is dropped in one place here and below.
fn linked_netlist(alloc: Global, raw: &RawNetlist) -> Option<Chip>
    requires { IsNetlist raw.now }
{
    let scan = ScanTable::new(alloc);
    let library = read_library(alloc, &StrengthTable::default_table(), LIBRARY).ok()?;
    let chip = link(alloc, raw, library, &scan).ok();
    drop(scan);
    chip
}

// The chip of a netlist, if it links.
fn linked(alloc: Global, netlist: &[u8]) -> Option<Chip> {
    let raw = read_netlist(alloc, netlist).ok()?;
    let chip = linked_netlist(alloc, &raw);
    drop(raw);
    chip
}

// All instances of a chip, if there are some, each of a library cell: with all of them every instance
// between two of them is one of them.
fn all_instances(alloc: Global, chip: &Chip) -> Option<InstanceList>
    ensures { IfSome result (CanMerge chip.now) }
{
    chip.wired();
    let mut list = InstanceList::new(alloc);
    for k in 0..chip.parts() {
        let u = InstanceId(k as u32);
        if chip.is_library(u) {
            match list.push(u) {
                Ok(()) => {}
                Err(_) => return None,
            }
        } else {
            return None;
        }
    }
    if list.len() == 0 {
        return None;
    }
    Some(list)
}

// Appends the number of a node, which has one digit.
fn put_node(text: &mut Text, before: u8, node: NodeId) -> Result<(), NoMemory> {
    text.push(before)?;
    text.push(b'0' + (node.0 % 10) as u8)
}

// Appends a device.
fn put_device(text: &mut Text, cell: &Cell, d: usize) -> Result<(), NoMemory>
    requires { d < length cell.now.devices }
{
    // A subcircuit has fewer than 2^32 devices.
    let _raw = cell.raw();
    let device = cell.device(DeviceId(d as u32));
    put_node(text, b' ', device.a)?;
    put_node(text, b'-', device.gate)?;
    put_node(text, b'-', device.b)
}

// Appends a number of one digit.
fn put_count(text: &mut Text, count: usize) -> Result<(), NoMemory> {
    text.push(b'0' + (count % 10) as u8)
}

// How many input pins, output pins and nodes a cell has, and its devices.
fn put_cell(text: &mut Text, cell: &Cell) -> Result<(), NoMemory> {
    put_count(text, cell.inputs())?;
    put_count(text, cell.outputs())?;
    put_count(text, cell.node_count())?;
    for d in 0..cell.device_count() {
        put_device(text, cell, d)?;
    }
    Ok(())
}

// The devices of the cell of an instance.
fn put_instance(text: &mut Text, chip: &Chip, u: InstanceId) -> Result<(), NoMemory> {
    if (u.0 as usize) < chip.parts() && chip.is_library(u) {
        put_cell(text, chip.cell_of(u))
    } else {
        text.append(b"no cell")
    }
}

// A rule that is broken.
fn put_fault(text: &mut Text, fault: MergeFault) -> Result<(), NoMemory> {
    match fault {
        MergeFault::Rule(CellRule::TooManyOutputs { count }) => {
            text.append(b"outputs ")?;
            text.push(b'0' + (count % 10) as u8)
        }
        MergeFault::Rule(_) => text.append(b"another rule"),
        MergeFault::NoMemory => Err(NoMemory),
    }
}

// What merging all instances of a chip answers.
fn put_merged(alloc: Global, text: &mut Text, chip: &Chip) -> Result<(), NoMemory> {
    let members = match all_instances(alloc, chip) {
        Some(members) => members,
        None => return text.append(b"no members"),
    };
    match merged(alloc, chip, &members) {
        Ok((made, last)) => {
            let put = put_instance(text, &made, last);
            drop(made);
            put
        }
        Err(fault) => put_fault(text, fault),
    }
}

// The same of a netlist, as a text.
fn answer(alloc: Global, netlist: &[u8]) -> Option<Text> {
    let chip = linked(alloc, netlist)?;
    let mut text = Text::new(alloc);
    let put = put_merged(alloc, &mut text, &chip);
    drop(chip);
    match put {
        Ok(()) => Some(text),
        Err(_) => None,
    }
}

#[test]
fn instances_are_one_cell(rt: HostRuntime) {
    for (netlist, wanted) in &CHIPS {
        match answer(rt.alloc(), netlist) {
            Some(text) => assert!(rt; text.is(wanted), "{:?}", text.as_bytes()),
            None => assert!(rt; false, "{netlist:?}"),
        }
    }
}

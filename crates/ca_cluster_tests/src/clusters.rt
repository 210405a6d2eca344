//! What the clusters of bridges are.

ghost use Rattle.ca_linked.specs.Linked.{IsLibrary};
ghost use Rattle.ca_cluster.specs.Bridges.{IsKnown};
ghost use Rattle.ca_verilog.specs.IsNetlist.{IsNetlist};

use crate::chips::{CASES, LIBRARY};
use ca_base::NoMemory;
use ca_cell::{CellRule, Defect, StrengthTable};
use ca_cluster::{Bridge, Clustered, bridge_name, bridges, cluster};
use ca_flat::ChipDefect;
use ca_lex::Text;
use ca_link::link;
use ca_linked::{Chip, InstanceId};
use ca_spice::read_library;
use ca_verilog::{RawNetlist, read_netlist};
use ca_wiring::ScanTable;
use std::alloc::Global;

// The chip of a netlist that was read, if it links. Each value is dropped in one place here and below.
fn linked_netlist(alloc: Global, raw: &RawNetlist) -> Option<Chip>
    requires { IsNetlist raw.now }
{
    let scan = ScanTable::new(alloc);
    let library = read_library(alloc, &StrengthTable::default_table(), LIBRARY).ok()?;
    let chip = link(alloc, raw, library, &scan).ok();
    drop(scan);
    chip
}

// The chip of a netlist, if it links.
fn linked(alloc: Global, netlist: &[u8]) -> Option<Chip> {
    let raw = read_netlist(alloc, netlist).ok()?;
    let chip = linked_netlist(alloc, &raw);
    drop(raw);
    chip
}

// Appends a number of one digit.
fn put_digit(text: &mut Text, before: u8, number: usize) -> Result<(), NoMemory> {
    text.push(before)?;
    text.push(b'0' + (number % 10) as u8)
}

// Appends the numbers of a cell's pins and the nodes of a short.
fn put_short(text: &mut Text, chip: &Chip, short: ChipDefect) -> Result<(), NoMemory> {
    let u = InstanceId(short.instance);
    if (u.0 as usize) >= chip.parts() || !chip.is_library(u) {
        return text.append(b" no cell");
    }
    let cell = chip.cell_of(u);
    put_digit(text, b' ', cell.inputs())?;
    put_digit(text, b'/', cell.outputs())?;
    match short.defect {
        Defect::Short(low, high) => {
            put_digit(text, b' ', low.0 as usize)?;
            put_digit(text, b'=', high.0 as usize)
        }
        _ => text.append(b" no short"),
    }
}

// Appends a rule that is broken.
fn put_rule(text: &mut Text, rule: CellRule) -> Result<(), NoMemory> {
    match rule {
        CellRule::TooManyOutputs { count } => {
            text.append(b" outputs")?;
            put_digit(text, b' ', count)
        }
        _ => text.append(b" another rule"),
    }
}

// Appends what a cluster is.
fn put_cluster(text: &mut Text, clustered: &Clustered) -> Result<(), NoMemory> {
    match clustered {
        Clustered::Port => text.append(b" port"),
        Clustered::OneNode => text.append(b" one"),
        Clustered::Wide { rule } => put_rule(text, *rule),
        Clustered::Merged { chip, defect } => put_short(text, chip, *defect),
    }
}

// Appends a bridge, and what its cluster is.
fn put_bridge(alloc: Global, text: &mut Text, chip: &Chip, bridge: Bridge) -> Result<(), NoMemory>
    requires { IsKnown chip.now bridge }
{
    let name = bridge_name(alloc, chip, bridge)?;
    text.append(name.as_bytes())?;
    drop(name);
    let clustered = cluster(alloc, chip, bridge)?;
    let put = put_cluster(text, &clustered);
    drop(clustered);
    put?;
    text.push(b'\n')
}

// Appends the bridges of an instance.
fn put_bridges(alloc: Global, text: &mut Text, chip: &Chip, u: InstanceId) -> Result<(), NoMemory>
    requires { IsLibrary chip.now u.0 }
{
    let list = bridges(alloc, chip, u)?;
    for k in 0..list.len() {
        put_bridge(alloc, text, chip, list.get(k))?;
    }
    Ok(())
}

// The bridges of the instance of this name, as a text.
fn told(alloc: Global, chip: &Chip, name: &[u8]) -> Option<Text> {
    let u = chip.find_instance(name)?;
    if (u.0 as usize) >= chip.parts() || !chip.is_library(u) {
        return None;
    }
    let mut text = Text::new(alloc);
    match put_bridges(alloc, &mut text, chip, u) {
        Ok(()) => Some(text),
        Err(_) => None,
    }
}

// The same of a netlist.
fn answer(alloc: Global, netlist: &[u8], name: &[u8]) -> Option<Text> {
    let chip = linked(alloc, netlist)?;
    let text = told(alloc, &chip, name);
    drop(chip);
    text
}

#[test]
fn clusters_are_told(rt: HostRuntime) {
    for case in &CASES {
        match answer(rt.alloc(), case.netlist, case.instance) {
            Some(text) => assert!(rt; text.is(case.wanted), "{:?}", text.as_bytes()),
            None => assert!(rt; false, "{:?}", case.netlist),
        }
    }
}

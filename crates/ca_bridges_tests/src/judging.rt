//! What is said of bridges.

ghost use Rattle.ca_linked.specs.Linked.{IsLibrary};
ghost use Rattle.ca_cluster.specs.Bridges.{IsKnown};
ghost use Rattle.ca_targets.specs.Targets.{AreKnown};
ghost use Rattle.ca_verilog.specs.IsNetlist.{IsNetlist};

use crate::chips::{CASES, LIBRARY};
use ca_base::NoMemory;
use ca_bridge_verdicts::BridgeVerdict;
use ca_bridges::{Judged, judge};
use ca_cell::StrengthTable;
use ca_cluster::{Bridge, BridgeList, bridge_name, bridges};
use ca_generate::Unwatched;
use ca_lex::Text;
use ca_link::link;
use ca_linked::{Chip, InstanceId};
use ca_spice::read_library;
use ca_verilog::{RawNetlist, read_netlist};
use ca_wiring::ScanTable;
use std::alloc::Global;

// The chip of a netlist that was read, if it links. Each value is dropped in one place here and below.
fn linked_netlist(alloc: Global, raw: &RawNetlist) -> Option<Chip>
    requires { IsNetlist raw.now }
{
    let scan = ScanTable::new(alloc);
    let library = read_library(alloc, &StrengthTable::default_table(), LIBRARY).ok()?;
    let chip = link(alloc, raw, library, &scan).ok();
    drop(scan);
    chip
}

// The chip of a netlist, if it links.
fn linked(alloc: Global, netlist: &[u8]) -> Option<Chip> {
    let raw = read_netlist(alloc, netlist).ok()?;
    let chip = linked_netlist(alloc, &raw);
    drop(raw);
    chip
}

// Appends a number of one digit.
fn put_digit(text: &mut Text, number: usize) -> Result<(), NoMemory> {
    text.push(b' ')?;
    text.push(b'0' + (number % 10) as u8)
}

// Appends a verdict.
fn put_verdict(text: &mut Text, verdict: &BridgeVerdict) -> Result<(), NoMemory> {
    match verdict {
        BridgeVerdict::Credited { pair, output } => {
            text.append(b" credited")?;
            put_digit(text, *pair as usize)?;
            put_digit(text, *output as usize)
        }
        BridgeVerdict::Unexposable => text.append(b" unexposable"),
        BridgeVerdict::Untestable => text.append(b" untestable"),
        BridgeVerdict::Aborted { .. } => text.append(b" aborted"),
        BridgeVerdict::Port => text.append(b" port"),
        BridgeVerdict::Wide { .. } => text.append(b" wide"),
    }
}

// Appends a bridge with its verdict.
fn put_bridge(
    alloc: Global,
    text: &mut Text,
    chip: &Chip,
    bridge: Bridge,
    verdict: &BridgeVerdict,
) -> Result<(), NoMemory>
    requires { IsKnown chip.now bridge }
{
    let name = bridge_name(alloc, chip, bridge)?;
    text.append(name.as_bytes())?;
    drop(name);
    put_verdict(text, verdict)?;
    text.push(b'\n')
}

// Appends the bridges with their verdicts, and how many pairs there are.
fn put_all(
    alloc: Global,
    text: &mut Text,
    chip: &Chip,
    list: &BridgeList,
    judged: &Judged,
) -> Result<(), NoMemory>
    requires { AreKnown chip.now list.now }
{
    for k in 0..list.len() {
        if k < judged.verdicts.len() {
            put_bridge(
                alloc,
                text,
                chip,
                list.get(k),
                &judged.verdicts.as_slice()[k],
            )?;
        }
    }
    text.append(b"pairs")?;
    put_digit(text, judged.pairs.len())?;
    text.push(b'\n')
}

// Appends the bridges of an instance with their verdicts.
fn put_bridges(
    alloc: Global,
    text: &mut Text,
    chip: &Chip,
    u: InstanceId,
    budget: u32,
) -> Result<(), NoMemory>
    requires { IsLibrary chip.now u.0 }
{
    let list = bridges(alloc, chip, u)?;
    let judged = judge(alloc, chip, &list, budget, &mut Unwatched)?;
    let put = put_all(alloc, text, chip, &list, &judged);
    drop(judged);
    put
}

// The bridges of the instance of this name with their verdicts, as a text.
fn told(alloc: Global, chip: &Chip, name: &[u8], budget: u32) -> Option<Text> {
    let u = chip.find_instance(name)?;
    if (u.0 as usize) >= chip.parts() || !chip.is_library(u) {
        return None;
    }
    let mut text = Text::new(alloc);
    match put_bridges(alloc, &mut text, chip, u, budget) {
        Ok(()) => Some(text),
        Err(_) => None,
    }
}

// The same of a netlist.
fn answer(alloc: Global, netlist: &[u8], name: &[u8], budget: u32) -> Option<Text> {
    let chip = linked(alloc, netlist)?;
    let text = told(alloc, &chip, name, budget);
    drop(chip);
    text
}

#[test]
fn bridges_are_judged(rt: HostRuntime) {
    for case in &CASES {
        match answer(rt.alloc(), case.netlist, case.instance, case.budget) {
            Some(text) => assert!(rt; text.is(case.wanted), "{:?}", text.as_bytes()),
            None => assert!(rt; false, "{:?}", case.netlist),
        }
    }
}

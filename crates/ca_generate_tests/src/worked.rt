//! What is generated for chips that were worked out by hand.

ghost use Rattle.ca_verilog.specs.IsNetlist.{IsNetlist};

use crate::chips::{COUNTED, HAZARD, KEPT_CHARGE, LIBRARY, SPELT};
use crate::reported::{all, fault, summary, verdict};
use ca_cell::StrengthTable;
use ca_engine::generate_chip;
use ca_generate::{Generated, Unwatched};
use ca_lex::Text;
use ca_link::link;
use ca_linked::Chip;
use ca_spice::read_library;
use ca_verilog::{RawNetlist, read_netlist};
use ca_wiring::ScanTable;
use std::alloc::Global;

// The chip of a netlist that was read, if it links. Each value is dropped in one place here and below: more
// places are slow to prove.
fn linked_netlist(alloc: Global, raw: &RawNetlist) -> Option<Chip>
    requires { IsNetlist raw.now }
{
    let library = read_library(alloc, &StrengthTable::default_table(), LIBRARY).ok()?;
    link(alloc, raw, library, &ScanTable::new(alloc)).ok()
}

// The chip of a netlist, if it links.
pub(crate) fn linked(alloc: Global, netlist: &[u8]) -> Option<Chip> {
    let raw = read_netlist(alloc, netlist).ok()?;
    let chip = linked_netlist(alloc, &raw);
    drop(raw);
    chip
}

// What is asked of what is generated: the counts, all of it, or the verdict on a defect.
#[derive(Clone, Copy)]
enum Asked {
    Counts,
    All,
    Verdict(usize),
}

// What is generated, as it is asked for.
fn reported_made(alloc: Global, made: &Generated, asked: Asked) -> Option<Text> {
    match asked {
        Asked::Counts => summary(alloc, made).ok(),
        Asked::All => all(alloc, made).ok(),
        Asked::Verdict(place) => verdict(alloc, made, place).ok(),
    }
}

// What is generated for a chip.
fn reported_for(alloc: Global, chip: &Chip, budget: u32, asked: Asked) -> Option<Text> {
    match generate_chip(alloc, chip, budget, &mut Unwatched) {
        Ok(made) => reported_made(alloc, &made, asked),
        Err(why) => Text::from_bytes(alloc, fault(&why)).ok(),
    }
}

// What is generated for the chip of a netlist.
fn reported(alloc: Global, netlist: &[u8], budget: u32, asked: Asked) -> Option<Text> {
    let chip = linked(alloc, netlist)?;
    let text = reported_for(alloc, &chip, budget, asked);
    drop(chip);
    text
}

#[test]
fn counts_of_chips(rt: HostRuntime) {
    for (netlist, budget, wanted) in COUNTED {
        match reported(rt.alloc(), netlist, budget, Asked::Counts) {
            Some(text) => assert!(rt; text.is(wanted), "{:?}", text.as_bytes()),
            None => assert!(rt; false, "{netlist:?}"),
        }
    }
}

#[test]
fn pairs_and_verdicts_of_chips(rt: HostRuntime) {
    for (netlist, budget, wanted) in SPELT {
        match reported(rt.alloc(), netlist, budget, Asked::All) {
            Some(text) => assert!(rt; text.is(wanted), "{:?}", text.as_bytes()),
            None => assert!(rt; false, "{netlist:?}"),
        }
    }
}

#[test]
fn verdicts_on_single_defects(rt: HostRuntime) {
    for (netlist, budget, place, wanted) in [HAZARD, KEPT_CHARGE] {
        match reported(rt.alloc(), netlist, budget, Asked::Verdict(place)) {
            Some(text) => assert!(rt; text.is(wanted), "{:?}", text.as_bytes()),
            None => assert!(rt; false, "{netlist:?}"),
        }
    }
}

//! What names what a fault carries.

ghost use Rattle.std.specs.Prelude.{◌≡◌, ◌++◌, [], ℕ, List, IfOk, OnOk};
ghost use Rattle.ca_cell.specs.Library.{Named, entry_of};
ghost use Rattle.ca_lex.specs.Words.{upper_case};
ghost use Rattle.ca_verilog.specs.IsNetlist.{IsNetlist};
ghost use Rattle.ca_wiring.specs.Rules.{IsCause};
ghost use Rattle.ca_wiring.specs.declared.scan_row.ScanRow.{ScanRow};
ghost use Rattle.ca_fault_place.specs.Names.{wire_name};
ghost use Rattle.ca_fault_place.specs.Place.{IsOfNetlist, ReportsPlace, after_comma, double_text, net_text};
ghost use Rattle.ca_fault_place.specs.Place.{refused_text, rule_in};
ghost use Rattle.ca_fault_place.specs.code.Touched.{IsTextOfNet};

use crate::bits::wire_name;
use crate::cells::rule_place;
use crate::instances::{add_driver, cell_name, cell_text, loop_text, pin_text};
use crate::nets::net_wire;
use ca_base::NoMemory;
use ca_cell::{CellRule, Entry, Library};
use ca_lex::Text;
use ca_linked::{InstanceId, NetId};
use ca_verilog::RawNetlist;
use ca_wiring::{ChipFault, Driver};
use std::alloc::Global;

/// The names of what a fault carries, as they are in the netlist; an empty text where it carries none. Those
/// of an instance's cell are known to the library: `refused_place` names them.
pub fn place_of(alloc: Global, netlist: &RawNetlist, fault: &ChipFault) -> Result<Text, NoMemory>
    requires netlist { IsNetlist netlist.now }
    requires of_netlist { IsOfNetlist fault.now }
    ensures { IfOk result (λ text. (library : List Named) (scan : List ScanRow)
        → IsCause netlist.now library scan fault.now → ReportsPlace netlist.now library scan fault.now text) }
{
    let instances = netlist.instances.as_slice();
    match fault {
        ChipFault::UnknownCell { instance } | ChipFault::QnUsed { instance } => {
            cell_text(alloc, instances, instance.0)
        }
        ChipFault::UnknownPin { instance, pin }
        | ChipFault::MissingPin { instance, pin }
        | ChipFault::ControlPin { instance, pin } => pin_text(alloc, instances, instance.0, pin),
        ChipFault::DoubleDriven { net, first, second } => {
            driven_net(alloc, netlist, *net, first, second)
        }
        ChipFault::Undriven { net } | ChipFault::ControlObserved { net } => {
            one_net(alloc, netlist, *net)
        }
        ChipFault::Loop { instances: members } => loop_text(alloc, instances, members),
        ChipFault::Cell { .. } => unreachable!(),
        ChipFault::TooManyInstances { .. }
        | ChipFault::TooManyInputs { .. }
        | ChipFault::TooManyOutputs { .. }
        | ChipFault::TooManyDefects { .. }
        | ChipFault::NoMemory => Ok(Text::new(alloc)),
    }
}

// The net that is known by a wire.
fn net_text(alloc: Global, netlist: &RawNetlist, wire: u32) -> Result<Text, NoMemory>
    requires { IsNetlist netlist.now }
    ensures { IfOk result (λ text. text ≡ net_text (wire_name netlist.now.buses wire)) }
{
    let name = wire_name(alloc, netlist.buses.as_slice(), wire)?;
    let mut text = Text::from_bytes(alloc, b"net ")?;
    text.append(name.as_bytes())?;
    Ok(text)
}

// A net, if it has a name.
fn one_net(alloc: Global, netlist: &RawNetlist, net: NetId) -> Result<Text, NoMemory>
    requires { IsNetlist netlist.now }
    ensures { IfOk result (IsTextOfNet netlist.now net.0 net_text) }
{
    match net_wire(alloc, netlist, net.0)? {
        Some(wire) => net_text(alloc, netlist, wire),
        None => Ok(Text::new(alloc)),
    }
}

// A net and what drives it, if it has a name.
fn driven_net(
    alloc: Global,
    netlist: &RawNetlist,
    net: NetId,
    first: &Driver,
    second: &Driver,
) -> Result<Text, NoMemory>
    requires { IsNetlist netlist.now }
    ensures { IfOk result (IsTextOfNet netlist.now net.0
        (λ name. double_text netlist.now.instances name first.now second.now)) }
{
    match net_wire(alloc, netlist, net.0)? {
        Some(wire) => double_text(alloc, netlist, wire, first, second),
        None => Ok(Text::new(alloc)),
    }
}

// The net that is known by a wire, and what drives it.
fn double_text(
    alloc: Global,
    netlist: &RawNetlist,
    wire: u32,
    first: &Driver,
    second: &Driver,
) -> Result<Text, NoMemory>
    requires { IsNetlist netlist.now }
    ensures { IfOk result (λ text. text
        ≡ double_text netlist.now.instances (wire_name netlist.now.buses wire) first.now second.now) }
{
    let instances = netlist.instances.as_slice();
    let mut text = net_text(alloc, netlist, wire)?;
    text.append(b": ")?;
    add_driver(&mut text, instances, first)?;
    text.append(b", ")?;
    add_driver(&mut text, instances, second)?;
    Ok(text)
}

/// An instance whose cell breaks a rule, the cell, and what the rule carries.
pub fn refused_place(
    alloc: Global,
    netlist: &RawNetlist,
    library: &Library,
    instance: InstanceId,
    rule: CellRule,
) -> Result<Text, NoMemory>
    ensures { IfOk result (λ text. text ≡ refused_text netlist.now library.now instance.0 rule) }
{
    let instances = netlist.instances.as_slice();
    let mut text = cell_text(alloc, instances, instance.0)?;
    let following = rule_in(alloc, library, cell_name(instances, instance.0), rule)?;
    add_after(&mut text, &following)?;
    Ok(text)
}

// Appends more after a comma, if there is more.
fn add_after(text: &mut Text, more: &Text) -> Result<(), NoMemory>
    ensures { OnOk result (text.new ≡ text.old ++ after_comma more.now) }
{
    if more.is_empty() {
        return Ok(());
    }
    text.append(b", ")?;
    text.append(more.as_bytes())
}

// What a rule carries that the subcircuit of this name breaks.
fn rule_in(alloc: Global, library: &Library, cell: &[u8], rule: CellRule) -> Result<Text, NoMemory>
    ensures { IfOk result (λ text. text ≡ rule_in (entry_of library.now (upper_case cell.now)) rule) }
{
    match library.get(cell) {
        Some(Entry::Sound(sound)) => rule_place(alloc, sound.raw(), rule),
        Some(Entry::Refused(raw, _)) => rule_place(alloc, raw, rule),
        None => Ok(Text::new(alloc)),
    }
}

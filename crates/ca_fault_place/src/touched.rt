//! The wires that nets stand on, found without the library.

ghost use Rattle.std.specs.Prelude.{◌≡◌, ◌<◌, ◌+◌, ◌++◌, ◌^◌, length, map, IfOk, OnOk};
ghost use Rattle.std.specs.List.{All, flat_map, list_any};
ghost use Rattle.ca_verilog.specs.IsNetlist.{IsPort, bit_count, range_width};
ghost use Rattle.ca_wiring.specs.Wiring.{header_bits};
ghost use Rattle.ca_draft.specs.OnWires.{AreFirsts, constant_wires, has_constant};
ghost use Rattle.ca_fault_place.specs.code.Touched.{IsTouched, instance_wires, use_wires, wires_from};

use ca_base::NoMemory;
use ca_draft::{DeclaredBits, is_joined, push_constant, range_width};
use ca_verilog::{RawBit, RawBus, RawInstance, RawNetlist, RawSpan, RawUse};
use ca_wiring::wire_of;
use std::alloc::Global;

// Appends the wires of an instance's connections.
fn push_uses(bits: u32, uses: &[RawUse], wires: &mut Vec<u32>) -> Result<(), NoMemory>
    requires { bits + 1 < 2 ^ 32 }
    ensures { OnOk result (wires.new.items
        ≡ wires.old.items ++ flat_map (λ used. use_wires bits used.bit) uses.now) }
{
    for k in 0..uses.len() {
        push_bit(bits, uses[k].bit, wires)?;
    }
    Ok(())
}

// Appends the wire of what is on a pin, if anything is.
fn push_bit(bits: u32, bit: Option<RawBit>, wires: &mut Vec<u32>) -> Result<(), NoMemory>
    requires { bits + 1 < 2 ^ 32 }
    ensures { OnOk result (wires.new.items ≡ wires.old.items ++ use_wires bits bit) }
{
    match bit {
        Some(bit) => Ok(wires.push(wire_of(bits, bit))?),
        None => Ok(()),
    }
}

// The wires of all connections, instance by instance.
fn wires_of_uses(alloc: Global, bits: u32, instances: &[RawInstance]) -> Result<Vec<u32>, NoMemory>
    requires { bits + 1 < 2 ^ 32 }
    ensures { IfOk result (λ wires. wires.items ≡ flat_map (instance_wires bits) instances.now) }
{
    let mut wires = Vec::new(alloc);
    for u in 0..instances.len() {
        push_uses(bits, instances[u].pins.as_slice(), &mut wires)?;
    }
    Ok(wires)
}

// Appends `count` wires from this one on.
fn push_from(first: u32, count: u32, wires: &mut Vec<u32>) -> Result<(), NoMemory>
    requires { first + count < 2 ^ 32 }
    ensures { OnOk result (wires.new.items ≡ wires.old.items ++ wires_from first count) }
{
    for k in 0..count {
        wires.push(first + k)?;
    }
    Ok(())
}

// Appends the wires of port bits.
fn push_ports(
    buses: &[RawBus],
    firsts: &[u32],
    places: &[u32],
    wires: &mut Vec<u32>,
) -> Result<(), NoMemory>
    requires bits { bit_count buses.now < 2 ^ 32 }
    requires firsts { AreFirsts buses.now (length buses.now) firsts.now }
    requires ports { All (IsPort buses.now) places.now }
    ensures { OnOk result (wires.new.items
        ≡ wires.old.items ++ map (λ bit. bit.wire) (header_bits buses.now places.now)) }
{
    for p in 0..places.len() {
        let place = places[p] as usize;
        push_from(firsts[place], range_width(buses[place].range), wires)?;
    }
    Ok(())
}

/// The wires that nets stand on.
pub(crate) fn touched_of(
    alloc: Global,
    netlist: &RawNetlist,
    bits: &DeclaredBits,
) -> Result<Vec<u32>, NoMemory>
    requires bits { bit_count netlist.now.buses + 1 < 2 ^ 32 }
    requires firsts { AreFirsts netlist.now.buses (length netlist.now.buses) bits.now.firsts.items }
    requires count { bits.now.count ≡ bit_count netlist.now.buses }
    requires ports { All (IsPort netlist.now.buses) netlist.now.ports }
    ensures { IfOk result (λ wires. IsTouched netlist.now bits.now.count wires.items) }
{
    let spans = netlist.joins.spans();
    let mut wires = wires_of_uses(alloc, bits.count, netlist.instances.as_slice())?;
    push_ports(
        netlist.buses.as_slice(),
        &bits.firsts,
        netlist.ports.as_slice(),
        &mut wires,
    )?;
    push_constant(bits.count, is_joined(false, spans), &mut wires)?;
    push_constant(bits.count + 1, is_joined(true, spans), &mut wires)?;
    Ok(wires)
}

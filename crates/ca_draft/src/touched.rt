//! The wires that nets are on: those of pins, of port bits, and of the constants that are named.

ghost use Rattle.std.specs.Prelude.{◌≡◌, ◌<◌, ◌+◌, ◌^◌, ◌⊎◌, ◌↔◌, ◌++◌, true, false, IsTrue, map, IfOk, OnOk};
ghost use Rattle.std.specs.List.{Contains, flat_map, list_any};
ghost use Rattle.ca_linked.specs.Linked.{input_nets, output_nets};
ghost use Rattle.ca_draft.specs.OnWires.{constant_wires, has_constant, is_constant};
ghost use Rattle.ca_draft.specs.code.OnWires.{IsNamedBy, pins_of};
ghost use Rattle.ca_draft.specs.code.OnWires.{touched_of};

use ca_base::NoMemory;
use ca_linked::{Body, Part, PortBit};
use ca_verilog::{RawBit, RawSpan};
use std::alloc::Global;

// Appends the wires of an instance's input pins.
fn push_inputs(body: &Body, wires: &mut Vec<u32>) -> Result<(), NoMemory>
    ensures { OnOk result (wires.new.items ≡ wires.old.items ++ input_nets body.now) }
{
    for pin in 0..body.input_count() {
        wires.push(body.input(pin))?;
    }
    Ok(())
}

// Appends the wires of an instance's output pins.
fn push_outputs(body: &Body, wires: &mut Vec<u32>) -> Result<(), NoMemory>
    ensures { OnOk result (wires.new.items ≡ wires.old.items ++ output_nets body.now) }
{
    for pin in 0..body.output_count() {
        wires.push(body.output(pin))?;
    }
    Ok(())
}

// Appends the wires of an instance's pins.
fn push_pins(body: &Body, wires: &mut Vec<u32>) -> Result<(), NoMemory>
    ensures { OnOk result (wires.new.items ≡ wires.old.items ++ pins_of body.now) }
{
    push_inputs(body, wires)?;
    push_outputs(body, wires)
}

// The wires of all pins, instance by instance.
fn wires_of_pins(alloc: Global, parts: &[Part]) -> Result<Vec<u32>, NoMemory>
    ensures { IfOk result (λ wires. wires.items ≡ flat_map (λ part. pins_of part.body) parts.now) }
{
    let mut wires = Vec::new(alloc);
    for u in 0..parts.len() {
        push_pins(&parts[u].body, &mut wires)?;
    }
    Ok(wires)
}

// Whether the bit is this constant.
fn is_constant(value: bool, bit: RawBit) -> bool
    ensures { result ≡ is_constant value bit }
{
    match bit {
        RawBit::Bit(_) => false,
        RawBit::Constant(other) => value == other,
    }
}

// Whether a side of the span is this constant.
fn has_constant(value: bool, span: &RawSpan) -> bool
    ensures { result ≡ has_constant value span.now }
{
    0 < span.count && (is_constant(value, span.left) || is_constant(value, span.right))
}

/// Whether some `assign` names this constant.
pub fn is_joined(value: bool, spans: &[RawSpan]) -> bool
    ensures { result ≡ list_any (has_constant value) spans.now }
{
    for k in 0..spans.len() {
        if has_constant(value, &spans[k]) {
            return true;
        }
    }
    false
}

// Whether the wire is among these.
fn has_wire(wires: &[u32], wire: u32) -> bool
    ensures { IsTrue result ↔ Contains wires.now wire }
{
    wires.contains(&wire)
}

// Appends the wires of port bits.
fn push_ports(ports: &[PortBit], wires: &mut Vec<u32>) -> Result<(), NoMemory>
    ensures { OnOk result (wires.new.items ≡ wires.old.items ++ map (λ port. port.net) ports.now) }
{
    for p in 0..ports.len() {
        wires.push(ports[p].net)?;
    }
    Ok(())
}

/// Appends the wire of a constant, if the constant is named.
pub fn push_constant(wire: u32, is_named: bool, wires: &mut Vec<u32>) -> Result<(), NoMemory>
    ensures { OnOk result (wires.new.items ≡ wires.old.items ++ constant_wires wire is_named) }
{
    if is_named {
        Ok(wires.push(wire)?)
    } else {
        Ok(())
    }
}

// Whether a constant is named: its wire is among those of pins, or an `assign` names it.
fn is_named(pins: &[u32], spans: &[RawSpan], wire: u32, value: bool) -> bool
    ensures { IsTrue result ↔ (Contains pins.now wire ⊎ (list_any (has_constant value) spans.now ≡ true)) }
{
    has_wire(pins, wire) || is_joined(value, spans)
}

/// The wires that nets are on, and whether each constant is named.
#[derive(Drop)]
pub(crate) struct Touched {
    pub wires: Vec<u32>,
    pub zero: bool,
    pub one: bool,
}

/// The wires that nets are on, where this many bits are declared.
pub(crate) fn touched_of(
    alloc: Global,
    bits: u32,
    parts: &[Part],
    ports: &[PortBit],
    spans: &[RawSpan],
) -> Result<Touched, NoMemory>
    requires { bits + 1 < 2 ^ 32 }
    ensures wires { IfOk result (λ touched.
        touched.wires.items ≡ touched_of parts.now ports.now bits touched.zero touched.one) }
    ensures zero { IfOk result (λ touched. IsTrue touched.zero ↔ IsNamedBy parts.now spans.now bits false) }
    ensures one { IfOk result (λ touched.
        IsTrue touched.one ↔ IsNamedBy parts.now spans.now (bits + 1) true) }
{
    let mut wires = wires_of_pins(alloc, parts)?;
    let zero = is_named(&wires, spans, bits, false);
    let one = is_named(&wires, spans, bits + 1, true);
    push_ports(ports, &mut wires)?;
    push_constant(bits, zero, &mut wires)?;
    push_constant(bits + 1, one, &mut wires)?;
    Ok(Touched { wires, zero, one })
}

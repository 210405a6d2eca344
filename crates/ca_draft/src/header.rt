//! The port bits of a netlist on their wires, with their names.

ghost use Rattle.std.specs.Prelude.{◌≡◌, ◌<◌, ◌+◌, ◌++◌, ◌^◌, codes, decimal, length, map, Some, IfOk, OnOk};
ghost use Rattle.std.specs.List.{All};
ghost use Rattle.ca_verilog.specs.IsNetlist.{IsPort, bit_count, range_width};
ghost use Rattle.ca_wiring.specs.Wiring.{bit_name, header_bits, header_bits_from, index_at, is_input_port};
ghost use Rattle.ca_draft.specs.OnWires.{AreFirsts};
ghost use Rattle.ca_draft.specs.code.OnWires.{header_of};

use ca_base::NoMemory;
use ca_lex::Text;
use ca_linked::PortBit;
use ca_verilog::{Direction, RawBus};
use itoa::Buffer;
use std::alloc::Global;

/// The number of bits of a range: 1 where there is none.
pub fn range_width(range: Option<(u32, u32)>) -> u32
    requires { range_width range < 2 ^ 32 }
    ensures { result ≡ range_width range }
{
    match range {
        None => 1,
        Some((left, right)) => {
            if left <= right {
                right - left + 1
            } else {
                left - right + 1
            }
        }
    }
}

/// For each declared name the number of its first bit, and the number of all bits.
#[derive(Drop)]
pub struct DeclaredBits {
    pub firsts: Vec<u32>,
    pub count: u32,
}

/// Counts the declared bits.
pub fn bits_of(alloc: Global, buses: &[RawBus]) -> Result<DeclaredBits, NoMemory>
    requires { bit_count buses.now < 2 ^ 32 }
    ensures firsts { IfOk result (λ bits. AreFirsts buses.now (length buses.now) bits.firsts.items) }
    ensures count { IfOk result (λ bits. bits.count ≡ bit_count buses.now) }
{
    let mut firsts = Vec::new(alloc);
    let mut count: u32 = 0;
    for place in 0..buses.len() {
        firsts.push(count)?;
        count += range_width(buses[place].range);
    }
    Ok(DeclaredBits { firsts, count })
}

// The index of the k-th bit of a vector, from its left index to its right one.
fn index_at(range: (u32, u32), k: u32) -> u32
    requires { k < range_width (Some range) }
    ensures { result ≡ index_at range k }
{
    if range.0 <= range.1 {
        range.0 + k
    } else {
        range.0 - k
    }
}

// A name with an index after it.
fn indexed_name(alloc: Global, name: &Text, index: u32) -> Result<Text, NoMemory>
    ensures { IfOk result (λ text. text ≡ name.now ++ (codes "[" ++ (decimal index ++ codes "]"))) }
{
    let mut text = name.copy(alloc)?;
    text.append(b"[")?;
    text.append(Buffer::new().format(index).as_bytes())?;
    text.append(b"]")?;
    Ok(text)
}

/// The name of the k-th bit of a declared name, from its left index on.
pub fn bit_name(alloc: Global, bus: &RawBus, k: u32) -> Result<Text, NoMemory>
    requires { k < range_width bus.now.range }
    ensures { IfOk result (λ name. name ≡ bit_name bus.now bus.now.range k) }
{
    match bus.range {
        None => bus.name.copy(alloc),
        Some(range) => indexed_name(alloc, &bus.name, index_at(range, k)),
    }
}

// Whether a name is declared as an input.
fn is_input_port(direction: Direction) -> bool
    ensures { result ≡ is_input_port direction }
{
    matches!(direction, Direction::Input)
}

// Adds the bits of a port, the first of which is the wire `first`.
fn add_port(
    alloc: Global,
    bus: &RawBus,
    first: u32,
    ports: &mut Vec<PortBit>,
) -> Result<(), NoMemory>
    requires { first + range_width bus.now.range < 2 ^ 32 }
    ensures { OnOk result (map header_of ports.new.items ≡ map header_of ports.old.items
        ++ header_bits_from bus.now first 0 (range_width bus.now.range)) }
{
    for k in 0..range_width(bus.range) {
        ports.push(PortBit {
            name: bit_name(alloc, bus, k)?,
            is_input: is_input_port(bus.direction),
            net: first + k,
        })?;
    }
    Ok(())
}

/// The port bits of a netlist on their wires, in header order. Also answers out of memory for a list of 2^32
/// or more.
pub(crate) fn ports_of(
    alloc: Global,
    buses: &[RawBus],
    firsts: &[u32],
    places: &[u32],
) -> Result<Vec<PortBit>, NoMemory>
    requires bits { bit_count buses.now < 2 ^ 32 }
    requires firsts { AreFirsts buses.now (length buses.now) firsts.now }
    requires ports { All (IsPort buses.now) places.now }
    ensures header { IfOk result (λ ports. header_bits buses.now places.now ≡ map header_of ports.items) }
    ensures few { IfOk result (λ ports. length ports.items < 2 ^ 32) }
{
    let mut ports = Vec::new(alloc);
    for p in 0..places.len() {
        let place = places[p] as usize;
        add_port(alloc, &buses[place], firsts[place], &mut ports)?;
    }
    if ports.len() > u32::MAX as usize {
        return Err(NoMemory);
    }
    Ok(ports)
}

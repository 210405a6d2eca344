//! The netlist of what was read.
ghost use Rattle.std.specs.Prelude.{◌≡◌, ◌<◌, ◌≤◌, ◌^◌, length, map, flat_map, IfOk};
ghost use Rattle.std.specs.Prelude.{option_map};
ghost use Rattle.ca_lex.specs.Reading.{Gives};
ghost use Rattle.ca_verilog.specs.VerilogFault.{fault_reported};
ghost use Rattle.ca_verilog.specs.code.Kept.{IsOperand, IsUsed, IsJoin, AreUses, AreInstances, IsWhole};
ghost use Rattle.ca_verilog.specs.declared.netlist.TheConstants.{MOST_BITS};
ghost use Rattle.std.specs.List.{All};
ghost use Rattle.ca_verilog.specs.Netlist.{bits_with, first_bits, offset_in, first_at, first_bit};
ghost use Rattle.ca_verilog.specs.Netlist.{raw_span, raw_joins};
ghost use Rattle.ca_verilog.specs.Netlist.{raw_range, raw_bus, raw_use, raw_instance, port_place, limited};
ghost use Rattle.ca_verilog.specs.code.Views.{reading_seen};

use crate::bus::{Bus, Buses};
use crate::fault::VerilogFault;
use crate::instance::{Instance, Join, Operand, Use};
use crate::raw::{
    Places, RawBit, RawBus, RawBuses, RawInstance, RawInstances, RawJoins, RawNetlist, RawSpan,
    RawUse, RawUses,
};
use crate::reading::{Reading, width_of};
use crate::table::Range;
use ca_base::NoMemory;
use ca_names::NameSet;
use std::alloc::Global;

/// The most bits of a netlist.
pub const MOST_BITS: u64 = 131_072;

// The number of bits of these names.
fn bits_of(buses: &[Bus]) -> u64
    requires { length buses.now < 2 ^ 32 }
    ensures { result ≡ bits_with 0 buses.now }
{
    let mut bits = 0;
    let mut rest = buses;
    'buses: while let [bus, more @ ..] = rest {
        bits += bus.width();
        rest = more;
    }
    bits
}

// The number of the first bit of each name.
fn first_bits(alloc: Global, count: usize, buses: &[Bus]) -> Result<Vec<u32>, NoMemory>
    requires { bits_with 0 buses.now ≤ MOST_BITS }
    ensures { IfOk result (λ firsts. firsts.items ≡ first_bits 0 buses.now) }
{
    let mut firsts = Vec::with_capacity(alloc, count)?;
    let mut bits = 0;
    let mut rest = buses;
    'buses: while let [bus, more @ ..] = rest {
        firsts.push(bits as u32)?;
        bits += bus.width();
        rest = more;
    }
    Ok(firsts)
}

/// The numbers of bits, of which there aren't too many.
#[derive(Clone, Copy)]
struct Numbers<'a> {
    firsts: &'a [u32],
    buses: &'a Buses,
    ghost numbered: { firsts.now ≡ first_bits 0 buses.now },
    ghost few: { bits_with 0 buses.now ≤ MOST_BITS },
}

impl Numbers<'_> {
    // The first bit of the name at a place.
    fn first_at(&self, place: u32) -> u32
        ensures { result ≡ first_at place self.now.firsts.now }
    {
        match self.firsts.get(place as usize) {
            None => 0,
            Some(first) => *first,
        }
    }

    // The first bit of an operand, from its left end.
    fn first_bit(&self, operand: Operand) -> RawBit
        requires { IsOperand self.now.buses.now operand }
        ensures { result ≡ first_bit self.now.firsts.now self.now.buses.now operand }
    {
        match operand {
            Operand::Whole(place) => RawBit::Bit(self.first_at(place)),
            Operand::Bit(place, index) => {
                let offset = offset_in(self.buses.range_at(place), index);
                RawBit::Bit(self.first_at(place) + offset)
            }
            Operand::Constant(value) => RawBit::Constant(value),
        }
    }

    fn span(&self, join: Join) -> RawSpan
        requires { IsJoin self.now.buses.now join }
        ensures { result ≡ raw_span self.now.firsts.now self.now.buses.now join }
    {
        let width = width_of(self.buses, join.left);
        RawSpan {
            left: self.first_bit(join.left),
            right: self.first_bit(join.right),
            count: width as u32,
        }
    }

    fn joins(&self, alloc: Global, joins: &[Join]) -> Result<RawJoins, NoMemory>
        requires { All (IsJoin self.now.buses.now) joins.now }
        ensures { IfOk result
            (λ raw. raw ≡ flat_map (raw_joins self.now.firsts.now self.now.buses.now) joins.now) }
    {
        let mut raw = RawJoins::new(alloc);
        for join in joins {
            raw.push(self.span(*join))?;
        }
        Ok(raw)
    }

    fn pin(&self, alloc: Global, used: &Use) -> Result<RawUse, NoMemory>
        requires { IsUsed self.now.buses.now used.now.operand }
        ensures { IfOk result (λ raw. raw ≡ raw_use self.now.firsts.now self.now.buses.now used.now) }
    {
        let bit = match used.operand {
            None => None,
            Some(operand) => Some(self.first_bit(operand)),
        };
        Ok(RawUse {
            pin: used.pin.copy(alloc)?,
            bit,
        })
    }

    fn pins(&self, alloc: Global, uses: &[Use]) -> Result<RawUses, NoMemory>
        requires { AreUses self.now.buses.now uses.now }
        ensures { IfOk result (λ raw. raw ≡ map (raw_use self.now.firsts.now self.now.buses.now) uses.now) }
    {
        let mut raw = RawUses::new(alloc);
        for used in uses {
            raw.push(self.pin(alloc, used)?)?;
        }
        Ok(raw)
    }

    fn instances(&self, alloc: Global, instances: &[Instance]) -> Result<RawInstances, NoMemory>
        requires { AreInstances self.now.buses.now instances.now }
        ensures { IfOk result
            (λ raw. raw ≡ map (raw_instance self.now.firsts.now self.now.buses.now) instances.now) }
    {
        let mut raw = RawInstances::new(alloc);
        for instance in instances {
            let pins = self.pins(alloc, instance.uses.as_slice())?;
            raw.push(RawInstance {
                name: instance.name.copy(alloc)?,
                cell: instance.cell.copy(alloc)?,
                pins,
            })?;
        }
        Ok(raw)
    }
}

// The place of an index, counted from the left one.
fn offset_in(range: Option<Range>, index: u32) -> u32
    ensures { result ≡ offset_in range index }
{
    match range {
        None => 0,
        Some(range) => range.left.abs_diff(index),
    }
}

fn raw_range(range: Option<Range>) -> Option<(u32, u32)>
    ensures { result ≡ option_map raw_range range }
{
    match range {
        None => None,
        Some(range) => Some((range.left, range.right)),
    }
}

fn raw_buses(alloc: Global, buses: &[Bus]) -> Result<RawBuses, NoMemory>
    ensures { IfOk result (λ raw. raw ≡ map raw_bus buses.now) }
{
    let mut raw = RawBuses::new(alloc);
    let mut rest = buses;
    'buses: while let [bus, more @ ..] = rest {
        raw.push(RawBus {
            name: bus.name.copy(alloc)?,
            direction: bus.direction,
            range: raw_range(bus.range),
        })?;
        rest = more;
    }
    Ok(raw)
}

// The place of a name of the header.
fn port_place(buses: &Buses, name: &[u8]) -> u32
    ensures { result ≡ port_place buses.now name.now }
{
    match buses.find(name) {
        None => 0,
        Some(place) => place,
    }
}

fn port_places(alloc: Global, ports: &NameSet, buses: &Buses) -> Result<Places, NoMemory>
    ensures { IfOk result (λ places. places ≡ map (port_place buses.now) ports.now) }
{
    let mut places = Places::new(alloc);
    let mut rest = ports.as_slice();
    'ports: while let [name, more @ ..] = rest {
        places.push(port_place(buses, name))?;
        rest = more;
    }
    Ok(places)
}

/// The netlist of what was read, if it doesn't have too many bits.
#[tactic(auto, unfolding(crate::specs::Netlist::limited))]
pub(crate) fn limited(alloc: Global, reading: &Reading) -> Result<RawNetlist, VerilogFault>
    requires { IsWhole (reading_seen reading.now) }
    ensures { Gives fault_reported (λ netlist. netlist) result (limited (reading_seen reading.now)) }
{
    let names = reading.buses.len();
    let buses = reading.buses.as_slice();
    let count = bits_of(buses);
    if MOST_BITS < count {
        return Err(VerilogFault::TooManyNets {
            count: count as usize,
        });
    }
    let firsts = first_bits(alloc, names, buses)?;
    let numbers = Numbers {
        firsts: &firsts,
        buses: &reading.buses,
    };
    Ok(RawNetlist {
        buses: raw_buses(alloc, buses)?,
        ports: port_places(alloc, &reading.ports, &reading.buses)?,
        joins: numbers.joins(alloc, &reading.joins)?,
        instances: numbers.instances(alloc, reading.instances.as_slice())?,
    })
}

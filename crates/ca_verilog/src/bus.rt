//! Declared names.
ghost use Rattle.std.specs.Prelude.{◌≡◌, ◌<◌, ◌≤◌, ◌^◌, [], map, length, slice_get};
ghost use Rattle.ca_lex.specs.Reading.{Gives};
ghost use Rattle.ca_lex.specs.code.Reading.{Steps};
ghost use Rattle.ca_verilog.specs.Reading.{width_in};
ghost use Rattle.ca_verilog.specs.code.VerilogFault.{kind_reported};
ghost use Rattle.ca_verilog.specs.Bus.{is_inner, same_range, is_twice, declared_again, again_at, bus_of};
ghost use Rattle.ca_verilog.specs.Bus.{has_direction, range_at, declare};

use crate::fault::{Refusal, VerilogKind};
use crate::table::{Direction, Range};
use ca_lex::Text;
use ca_names::NameSet;
use std::alloc::Global;
use std::marker::Model;

/// A declared name.
#[derive(Drop)]
pub struct Bus {
    pub name: Text,
    /// Inner until a direction is declared.
    pub direction: Direction,
    pub is_wire: bool,
    pub range: Option<Range>,
}

impl Direction {
    pub(crate) fn is_inner(self) -> bool
        ensures { result ≡ is_inner self }
    {
        matches!(self, Direction::Inner)
    }
}

fn same_range(first: Option<Range>, second: Option<Range>) -> bool
    ensures { result ≡ same_range first second }
{
    match (first, second) {
        (None, None) => true,
        (Some(first), Some(second)) => first.left == second.left && first.right == second.right,
        _ => false,
    }
}

impl Bus {
    /// The number of bits.
    pub(crate) fn width(&self) -> u64
        ensures width { result ≡ width_in self.now.range }
        ensures below { result ≤ 2 ^ 32 }
    {
        match self.range {
            None => 1,
            Some(range) => range.width(),
        }
    }

    fn is_twice(&self, direction: Direction) -> bool
        ensures { result ≡ is_twice direction self.now }
    {
        match direction {
            Direction::Inner => self.is_wire,
            _ => !self.direction.is_inner(),
        }
    }
}

/// The declared names in declaration order, each once. A name is found without a search through the others.
/// Contracts see a list.
#[derive(Drop)]
pub(crate) struct Buses {
    names: NameSet,
    buses: Vec<Bus>,
}

impl Model for Buses {
    ghost use Rattle.std.specs.Prelude.{List, map, ◌≡◌};
    ghost use Rattle.ca_verilog.specs.declared.bus.Bus.{Bus};

    ghost Value = { List Bus };

    ghost view = { λ list. list.buses.items };

    ghost invariant = { λ list. list.names ≡ map (λ bus. bus.name) list.buses.items };
}

impl Bus {
    fn declare_again(&mut self, direction: Direction)
        ensures bus { self.new ≡ declared_again direction self.old }
        ensures name { self.new.name ≡ self.old.name }
    {
        match direction {
            Direction::Inner => self.is_wire = true,
            _ => self.direction = direction,
        }
    }
}

// Declares the name at a place again.
fn declare_again(
    buses: &mut Vec<Bus>,
    place: usize,
    direction: Direction,
    range: Option<Range>,
) -> Result<(), Refusal>
    ensures read { Steps kind_reported buses.new.items result
        (again_at direction range buses.old.items place (slice_get buses.old.items place)) }
    ensures names { map (λ bus. bus.name) buses.new.items ≡ map (λ bus. bus.name) buses.old.items }
{
    if buses.len() <= place {
        return Err(Refusal::Kind(VerilogKind::Undeclared));
    }
    let bus = &mut buses[place];
    if bus.is_twice(direction) {
        return Err(Refusal::Kind(VerilogKind::DoubleName));
    }
    if !same_range(range, bus.range) {
        return Err(Refusal::Kind(VerilogKind::BadRange));
    }
    bus.declare_again(direction);
    Ok(())
}

impl Buses {
    /// No names.
    pub(crate) fn new(alloc: Global) -> Self
        ensures { result ≡ [] }
    {
        Buses {
            names: NameSet::new(alloc),
            buses: Vec::new(alloc),
        }
    }

    /// The declared names as a slice.
    pub(crate) fn as_slice(&self) -> &[Bus]
        ensures { result.now ≡ self.now }
    {
        &self.buses
    }

    /// The number of names.
    pub(crate) fn len(&self) -> usize
        ensures count { result ≡ length self.now }
        ensures few { result < 2 ^ 32 }
    {
        self.names.len()
    }

    /// The place of a name.
    pub(crate) fn find(&self, name: &[u8]) -> Option<u32>
        ensures { result ≡ bus_of name.now self.now }
    {
        self.names.place_of(name)
    }

    /// The range of the name at a place, if it is a vector.
    pub(crate) fn range_at(&self, place: u32) -> Option<Range>
        ensures { result ≡ range_at place self.now }
    {
        match self.buses.get(place as usize) {
            None => None,
            Some(bus) => bus.range,
        }
    }

    /// Whether a name has a direction.
    pub(crate) fn has_direction(&self, name: &[u8]) -> bool
        ensures { result ≡ has_direction self.now name.now }
    {
        let Some(place) = self.find(name) else {
            return false;
        };
        match self.buses.get(place as usize) {
            None => false,
            Some(bus) => !bus.direction.is_inner(),
        }
    }

    /// The names with one more declaration.
    #[tactic(auto, unfolding(crate::specs::Bus::declare))]
    pub(crate) fn declare(
        self,
        alloc: Global,
        direction: Direction,
        range: Option<Range>,
        name: &[u8],
        ports: &NameSet,
    ) -> Result<Self, Refusal>
        ensures { Gives kind_reported (λ buses. buses) result
            (declare direction range name.now ports.now self) }
    {
        if !direction.is_inner() && !ports.has(name) {
            return Err(Refusal::Kind(VerilogKind::Undeclared));
        }
        let Buses {
            mut names,
            mut buses,
        } = self;
        match names.place_of(name) {
            Some(place) => declare_again(&mut buses, place as usize, direction, range)?,
            None => {
                let bus = Bus {
                    name: Text::from_bytes(alloc, name)?,
                    direction,
                    is_wire: direction.is_inner(),
                    range,
                };
                names.add(alloc, name)?;
                buses.push(bus)?;
            }
        }
        Ok(Buses { names, buses })
    }
}

//! A gate netlist as it was read.
ghost use Rattle.std.specs.Prelude.{◌≡◌, [], ◌++◌, flat_map, OnOk, OnErr};

use crate::table::Direction;
use ca_base::{List, NoMemory};
use ca_lex::Text;
use std::alloc::Global;
use std::marker::Model;

/// A declared name, with its left and right index where it is a vector.
#[derive(Drop)]
pub struct RawBus {
    pub name: Text,
    pub direction: Direction,
    pub range: Option<(u32, u32)>,
}

/// A declared bit, counted over all declared names from each one's left index, or a constant.
#[derive(Clone, Copy, Debug, PartialEq, Eq)]
pub enum RawBit {
    Bit(u32),
    Constant(bool),
}

/// A pin in upper case, with what is on it, if anything is.
#[derive(Drop)]
pub struct RawUse {
    pub pin: Text,
    pub bit: Option<RawBit>,
}

/// An instance, with its cell in upper case.
#[derive(Drop)]
pub struct RawInstance {
    pub name: Text,
    pub cell: Text,
    pub pins: RawUses,
}

/// Two bits that an `assign` joins.
#[derive(Clone, Copy, Debug, PartialEq, Eq)]
pub struct RawJoin {
    pub left: RawBit,
    pub right: RawBit,
}

/// What an `assign` joins: `count` pairs of bits, from these two on, each pair one bit to the right of the
/// one before.
#[derive(Clone, Copy, Debug, PartialEq, Eq)]
pub struct RawSpan {
    pub left: RawBit,
    pub right: RawBit,
    pub count: u32,
}

/// A gate netlist. The ports are places in the list of declared names, in header order.
#[derive(Drop)]
pub struct RawNetlist {
    pub buses: RawBuses,
    pub ports: Places,
    pub joins: RawJoins,
    pub instances: RawInstances,
}

/// The declared names of a netlist, in declaration order.
pub type RawBuses = List<RawBus>;

/// Places in a list, in order.
pub type Places = List<u32>;

/// The pins of an instance, in text order.
pub type RawUses = List<RawUse>;

/// The instances of a netlist, in text order.
pub type RawInstances = List<RawInstance>;

/// What `assign` joins, one span for each. Contracts see the pairs of bits, in text order.
#[derive(Drop)]
pub struct RawJoins {
    spans: Vec<RawSpan>,
}

impl Model for RawJoins {
    ghost use Rattle.std.specs.Prelude.{List, flat_map};
    ghost use Rattle.ca_verilog.specs.declared.raw.RawJoin.{RawJoin};
    ghost use Rattle.ca_verilog.specs.Joins.{pairs_of};

    ghost Value = { List RawJoin };

    ghost view = { λ list. flat_map pairs_of list.spans.items };
}

impl RawJoins {
    ghost use Rattle.ca_verilog.specs.Joins.{pairs_of};

    /// Nothing is joined.
    pub fn new(alloc: Global) -> Self
        ensures { result ≡ [] }
    {
        RawJoins {
            spans: Vec::new(alloc),
        }
    }

    /// The spans as a slice: long vectors aren't spread out.
    pub fn spans(&self) -> &[RawSpan]
        ensures { flat_map pairs_of result.now ≡ self.now }
    {
        &self.spans
    }

    /// Adds the pairs of a span at the end.
    pub fn push(&mut self, span: RawSpan) -> Result<(), NoMemory>
        ensures ok { OnOk result (self.new ≡ self.old ++ pairs_of span) }
        ensures err { OnErr result (self.new ≡ self.old) }
    {
        Ok(self.spans.push(span)?)
    }
}

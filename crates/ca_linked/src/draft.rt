//! A netlist whose nets are numbered, before its drivers are judged.

ghost use Rattle.std.specs.Prelude.{◌≡◌, ◌<◌, length, Some, slice_get};
ghost use Rattle.ca_linked.specs.Linked.{net_count, constant_net};

use crate::parts::{Part, PortBit};
use ca_cell::Library;
use std::marker::Model;

/// The nets, instances and port bits of a netlist. Contracts see the chip with no order.
#[derive(Drop)]
pub struct Draft {
    pub library: Library,
    pub nets: usize,
    pub zero: Option<u32>,
    pub one: Option<u32>,
    pub parts: Vec<Part>,
    pub ports: Vec<PortBit>,
}

impl Model for Draft {
    ghost use Rattle.std.specs.Prelude.{[], map};
    ghost use Rattle.ca_cell.specs.Library.{raw_of};
    ghost use Rattle.ca_linked.specs.Linked.{LinkedChip};

    ghost Value = { LinkedChip };

    ghost view = { λ draft. record {
      cells = map (λ named. raw_of named.entry) draft.library;
      nets = draft.nets;
      zero = draft.zero;
      one = draft.one;
      parts = draft.parts.items;
      ports = draft.ports.items;
      order = [];
    } };
}

impl Draft {
    ghost use Rattle.std.specs.Prelude.{[], map};
    ghost use Rattle.ca_cell.specs.Library.{raw_of};

    /// A draft of `nets` nets, with those that the constants 0 and 1 drive, the instances and the port bits.
    pub fn new(
        library: Library,
        nets: usize,
        zero: Option<u32>,
        one: Option<u32>,
        parts: Vec<Part>,
        ports: Vec<PortBit>,
    ) -> Self
        ensures { result ≡ record {
          cells = map (λ named. raw_of named.entry) library;
          nets = nets;
          zero = zero;
          one = one;
          parts = parts.items;
          ports = ports.items;
          order = [];
        } }
    {
        Draft {
            library,
            nets,
            zero,
            one,
            parts,
            ports,
        }
    }

    /// The number of nets.
    pub fn nets(&self) -> usize
        ensures { result ≡ net_count self.now }
    {
        self.nets
    }

    /// The net that a constant drives, if it drives one.
    pub fn constant_net(&self, value: bool) -> Option<u32>
        ensures { result ≡ constant_net self.now value }
    {
        if value { self.one } else { self.zero }
    }

    /// The number of instances.
    pub fn parts(&self) -> usize
        ensures { result ≡ length self.now.parts }
    {
        self.parts.len()
    }

    /// The instance at a place.
    pub fn part(&self, u: usize) -> &Part
        requires { u < length self.now.parts }
        ensures { slice_get self.now.parts u ≡ Some result.now }
    {
        &self.parts[u]
    }

    /// The number of port bits.
    pub fn ports(&self) -> usize
        ensures { result ≡ length self.now.ports }
    {
        self.ports.len()
    }

    /// The port bit at a place.
    pub fn port(&self, p: usize) -> &PortBit
        requires { p < length self.now.ports }
        ensures { slice_get self.now.ports p ≡ Some result.now }
    {
        &self.ports[p]
    }
}

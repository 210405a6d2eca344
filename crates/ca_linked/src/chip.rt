//! Linked chips.

ghost use Rattle.std.specs.Prelude.{◌≡◌, ◌<◌, Bool, length, Some, slice_get, IsSomeAnd, IfSome, IfNone};
ghost use Rattle.ca_linked.specs.Linked.{net_count, is_scan_path, IsWired, IsLibrary, FromConstant, Drives};
ghost use Rattle.ca_linked.specs.Linked.{input_nets, output_nets, inputs_of, outputs_of};
ghost use Rattle.ca_linked.specs.Reading.{AreReadersOf};

use crate::drivers::Drivers;
use crate::instances::{InstanceId, InstanceList};
use crate::marks::NetMarks;
use crate::parts::{NetId, NetList, Part, PortBit, Source};
use crate::readers::Readers;
use ca_cell::Library;
use std::marker::Model;

/// A linked chip: each net has one driver, no scan path touches a data pin, and the library instances have an
/// order in which each comes after those that drive its inputs.
#[derive(Drop)]
pub struct Chip {
    pub(crate) library: Library,
    pub(crate) nets: usize,
    pub(crate) zero: Option<u32>,
    pub(crate) one: Option<u32>,
    pub(crate) parts: Vec<Part>,
    pub(crate) ports: Vec<PortBit>,
    pub(crate) order: InstanceList,
    pub(crate) path: NetMarks,
    pub(crate) drivers: Drivers,
    pub(crate) places: Vec<usize>,
    pub(crate) readers: Readers,
    pub(crate) inputs: NetList,
    pub(crate) outputs: NetList,
    pub(crate) gates: InstanceList,
    pub(crate) scans: InstanceList,
    pub(crate) used: Vec<u32>,
}

impl Model for Chip {
    ghost use Rattle.std.specs.Prelude.{map};
    ghost use Rattle.ca_cell.specs.Library.{raw_of};
    ghost use Rattle.ca_linked.specs.Linked as linked;
    ghost use Rattle.ca_linked.specs.code.Kept.{IsKept};

    ghost Value = { linked.LinkedChip };

    ghost view = { λ chip. record {
      cells = map (λ named. raw_of named.entry) chip.library;
      nets = chip.nets;
      zero = chip.zero;
      one = chip.one;
      parts = chip.parts.items;
      ports = chip.ports.items;
      order = chip.order;
    } };

    ghost invariant = { λ chip. IsKept (record {
      cells = map (λ named. raw_of named.entry) chip.library;
      nets = chip.nets;
      zero = chip.zero;
      one = chip.one;
      parts = chip.parts.items;
      ports = chip.ports.items;
      order = chip.order;
    }) (record {
      path = chip.path;
      drivers = chip.drivers;
      places = chip.places.items;
      readers =
          chip.readers;
      inputs = chip.inputs;
      outputs = chip.outputs;
      gates = chip.gates;
      scans = chip.scans;
      used = chip.used.items;
    }) };
}

impl Chip {
    ghost use Rattle.std.specs.Prelude.{map};
    ghost use Rattle.ca_cell.specs.Library.{raw_of};
    ghost use Rattle.ca_linked.specs.Linked.{constant_net};

    /// The chip is wired. The body does nothing: the call is for the fact.
    pub fn wired(&self)
        ensures { IsWired self.now }
    {
        let _ = &self.library;
    }

    /// The library.
    pub fn library(&self) -> &Library
        ensures { map (λ named. raw_of named.entry) result.now ≡ self.now.cells }
    {
        &self.library
    }

    /// The number of nets.
    pub fn nets(&self) -> usize
        ensures { result ≡ net_count self.now }
    {
        self.nets
    }

    /// The net that a constant drives, if it drives one.
    pub fn constant_net(&self, value: bool) -> Option<u32>
        ensures { result ≡ constant_net self.now value }
    {
        if value { self.one } else { self.zero }
    }

    /// The constant that drives a net, if one does.
    pub fn constant(&self, net: NetId) -> Option<bool>
        requires { net.0 < net_count self.now }
        ensures some { IfSome result (λ value. Drives self.now net.0 (FromConstant value)) }
        ensures none { IfNone result ((value : Bool) → Drives self.now net.0 (FromConstant value) → ⊥) }
    {
        if self.zero == Some(net.0) {
            Some(false)
        } else if self.one == Some(net.0) {
            Some(true)
        } else {
            None
        }
    }

    /// Whether a net is on the scan path.
    pub fn is_scan_path(&self, net: NetId) -> bool
        requires { net.0 < net_count self.now }
        ensures { result ≡ is_scan_path self.now net.0 }
    {
        self.path.get(net.0)
    }

    /// What drives a net.
    pub fn driver(&self, net: NetId) -> Source
        requires { net.0 < net_count self.now }
        ensures { Drives self.now net.0 result }
    {
        match self.drivers.get(net.0).first {
            Some(source) => source,
            None => unreachable!(),
        }
    }

    /// The library instances that read a net: each that does, and no other.
    pub fn readers(&self, net: NetId) -> &InstanceList
        requires { net.0 < net_count self.now }
        ensures { AreReadersOf self.now net.0 result.now }
    {
        self.readers.get(net.0)
    }

    /// The number of chip inputs: the bits of input ports off the scan path in header order, and then the
    /// outputs of scan instances in netlist order.
    pub fn inputs(&self) -> usize
        ensures { result ≡ length (inputs_of self.now) }
    {
        self.inputs.len()
    }

    /// The net of a chip input.
    pub fn input(&self, i: usize) -> NetId
        requires { i < length (inputs_of self.now) }
        ensures { slice_get (inputs_of self.now) i ≡ Some result.0 }
    {
        NetId(self.inputs.get(i))
    }

    /// The number of observed outputs: the bits of output ports off the scan path in header order, and then
    /// the data pins of scan instances in netlist order.
    pub fn outputs(&self) -> usize
        ensures { result ≡ length (outputs_of self.now) }
    {
        self.outputs.len()
    }

    /// The net of an observed output.
    pub fn output(&self, o: usize) -> NetId
        requires { o < length (outputs_of self.now) }
        ensures { slice_get (outputs_of self.now) o ≡ Some result.0 }
    {
        NetId(self.outputs.get(o))
    }

    /// The number of instances, scan instances included.
    pub fn parts(&self) -> usize
        ensures { result ≡ length self.now.parts }
    {
        self.parts.len()
    }

    /// An instance.
    pub fn part(&self, u: InstanceId) -> &Part
        requires { u.0 < length self.now.parts }
        ensures { slice_get self.now.parts u.0 ≡ Some result.now }
    {
        &self.parts[u.0 as usize]
    }

    /// The k-th library instance of the order.
    pub fn order(&self, k: usize) -> InstanceId
        requires { k < length self.now.order }
        ensures { slice_get self.now.order k ≡ Some result.0 }
    {
        self.order.get(k)
    }

    /// The place of a library instance in the order.
    pub fn place(&self, u: InstanceId) -> usize
        requires { IsLibrary self.now u.0 }
        ensures { slice_get self.now.order result ≡ Some u.0 }
    {
        self.places[u.0 as usize]
    }

    /// The number of port bits.
    pub fn ports(&self) -> usize
        ensures { result ≡ length self.now.ports }
    {
        self.ports.len()
    }

    /// A port bit.
    pub fn port(&self, p: usize) -> &PortBit
        requires { p < length self.now.ports }
        ensures { slice_get self.now.ports p ≡ Some result.now }
    {
        &self.ports[p]
    }

    /// The net of a port bit.
    pub fn port_net(&self, p: usize) -> NetId
        requires { p < length self.now.ports }
        ensures { IsSomeAnd (slice_get self.now.ports p) (λ port. port.net ≡ result.0) }
    {
        NetId(self.ports[p].net)
    }

    /// Whether a port bit is of an input port.
    pub fn port_is_input(&self, p: usize) -> bool
        requires { p < length self.now.ports }
        ensures { IsSomeAnd (slice_get self.now.ports p) (λ port. port.is_input ≡ result) }
    {
        self.ports[p].is_input
    }

    /// The net of an input pin of an instance.
    pub fn input_net(&self, u: InstanceId, pin: usize) -> NetId
        requires { IsSomeAnd (slice_get self.now.parts u.0) (λ part. pin < length (input_nets part.body)) }
        ensures { IsSomeAnd (slice_get self.now.parts u.0) (λ part. slice_get (input_nets part.body) pin
            ≡ Some result.0) }
    {
        NetId(self.parts[u.0 as usize].body.input(pin))
    }

    /// The net of an output pin of an instance.
    pub fn output_net(&self, u: InstanceId, pin: usize) -> NetId
        requires { IsSomeAnd (slice_get self.now.parts u.0) (λ part. pin < length (output_nets part.body)) }
        ensures { IsSomeAnd (slice_get self.now.parts u.0) (λ part. slice_get (output_nets part.body) pin
            ≡ Some result.0) }
    {
        NetId(self.parts[u.0 as usize].body.output(pin))
    }
}

//! Instances, their names, and the nets of their pins.

ghost use Rattle.std.specs.Prelude.{ℕ, ◌≡◌, ◌<◌, ◌↔◌, ◌^◌, ◌++◌, length, IsTrue, Some, slice_get, IsSomeAnd};
ghost use Rattle.std.specs.Prelude.{IfSome, IfNone, IfOk, OnOk};
ghost use Rattle.ca_linked.specs.Linked.{input_nets, IsLibrary};
ghost use Rattle.ca_linked.specs.Drivers.{IsDrafted};
ghost use Rattle.ca_linked.specs.Instances.{if_gate, if_scan, gates_of, scans_of, net_of_pin, pin_nets};
ghost use Rattle.ca_linked.specs.Instances.{HasOnPin, IsScan};

use crate::chip::Chip;
use crate::draft::Draft;
use crate::instances::{InstanceId, InstanceList};
use crate::parts::{Body, NetId, ScanNets};
use ca_base::NoMemory;
use ca_lex::Text;
use std::alloc::Global;

/// A pin of a scan cell.
#[derive(Clone, Copy, Debug, PartialEq, Eq)]
pub enum ScanPin {
    D,
    Q,
    Si,
    So,
    Se,
    Ck,
    Hold,
}

impl ScanNets {
    // The net of a pin.
    fn pin(&self, pin: ScanPin) -> u32
        ensures { result ≡ net_of_pin self.now pin }
    {
        match pin {
            ScanPin::D => self.d,
            ScanPin::Q => self.q,
            ScanPin::Si => self.si,
            ScanPin::So => self.so,
            ScanPin::Se => self.se,
            ScanPin::Ck => self.ck,
            ScanPin::Hold => self.hold,
        }
    }
}

// Appends an instance, if it is one of the library.
fn push_gate(list: &mut InstanceList, u: u32, body: &Body) -> Result<(), NoMemory>
    ensures { OnOk result (list.new ≡ list.old ++ if_gate u body.now) }
{
    match body {
        Body::Gate { .. } => list.push(InstanceId(u)),
        Body::Scan(_) => Ok(()),
    }
}

// Appends an instance, if it is a scan instance.
fn push_scan(list: &mut InstanceList, u: u32, body: &Body) -> Result<(), NoMemory>
    ensures { OnOk result (list.new ≡ list.old ++ if_scan u body.now) }
{
    match body {
        Body::Gate { .. } => Ok(()),
        Body::Scan(_) => list.push(InstanceId(u)),
    }
}

/// The library instances, in netlist order.
pub(crate) fn gates_of(alloc: Global, draft: &Draft) -> Result<InstanceList, NoMemory>
    requires { IsDrafted draft.now }
    ensures { IfOk result (λ list. list ≡ gates_of draft.now) }
{
    let mut list = InstanceList::new(alloc);
    for u in 0..draft.parts() {
        push_gate(&mut list, u as u32, &draft.part(u).body)?;
    }
    Ok(list)
}

/// The scan instances, in netlist order.
pub(crate) fn scans_of(alloc: Global, draft: &Draft) -> Result<InstanceList, NoMemory>
    requires { IsDrafted draft.now }
    ensures { IfOk result (λ list. list ≡ scans_of draft.now) }
{
    let mut list = InstanceList::new(alloc);
    for u in 0..draft.parts() {
        push_scan(&mut list, u as u32, &draft.part(u).body)?;
    }
    Ok(list)
}

impl Chip {
    /// The number of library instances.
    pub fn instances(&self) -> usize
        ensures { result ≡ length (gates_of self.now) }
    {
        self.gates.len()
    }

    /// The k-th library instance.
    pub fn instance(&self, k: usize) -> InstanceId
        requires { k < length (gates_of self.now) }
        ensures { slice_get (gates_of self.now) k ≡ Some result.0 }
    {
        self.gates.get(k)
    }

    /// The number of scan instances.
    pub fn scan_count(&self) -> usize
        ensures { result ≡ length (scans_of self.now) }
    {
        self.scans.len()
    }

    /// The k-th scan instance.
    pub fn scan(&self, k: usize) -> InstanceId
        requires { k < length (scans_of self.now) }
        ensures { slice_get (scans_of self.now) k ≡ Some result.0 }
    {
        self.scans.get(k)
    }

    /// The name of an instance.
    pub fn instance_name(&self, u: InstanceId) -> &Text
        requires { u.0 < length self.now.parts }
        ensures { IsSomeAnd (slice_get self.now.parts u.0) (λ part. part.name ≡ result.now) }
    {
        &self.parts[u.0 as usize].name
    }

    /// The name of an instance's cell.
    pub fn cell_name(&self, u: InstanceId) -> &Text
        requires { u.0 < length self.now.parts }
        ensures { IsSomeAnd (slice_get self.now.parts u.0) (λ part. part.cell ≡ result.now) }
    {
        &self.parts[u.0 as usize].cell
    }

    /// The name of an instance's data pin; it is empty where the instance is of a library cell.
    pub fn data_name(&self, u: InstanceId) -> &Text
        requires { u.0 < length self.now.parts }
        ensures { IsSomeAnd (slice_get self.now.parts u.0) (λ part. part.data ≡ result.now) }
    {
        &self.parts[u.0 as usize].data
    }

    /// The name of a port bit.
    pub fn port_name(&self, p: usize) -> &Text
        requires { p < length self.now.ports }
        ensures { IsSomeAnd (slice_get self.now.ports p) (λ port. port.name ≡ result.now) }
    {
        &self.ports[p].name
    }

    /// Whether an instance is of a library cell.
    pub fn is_library(&self, u: InstanceId) -> bool
        requires { u.0 < length self.now.parts }
        ensures { IsTrue result ↔ IsLibrary self.now u.0 }
    {
        self.parts[u.0 as usize].body.is_gate()
    }

    /// The net of a pin of an instance: the input pins come first, each kind in pin order.
    pub fn pin_net(&self, u: InstanceId, pin: usize) -> NetId
        requires { IsSomeAnd (slice_get self.now.parts u.0) (λ part. pin < length (pin_nets part.body)) }
        ensures { IsSomeAnd (slice_get self.now.parts u.0) (λ part. slice_get (pin_nets part.body) pin
            ≡ Some result.0) }
    {
        NetId(self.parts[u.0 as usize].body.pin(pin))
    }

    /// The net of a pin of a scan instance.
    pub fn scan_net(&self, u: InstanceId, pin: ScanPin) -> NetId
        requires { IsSomeAnd (slice_get self.now.parts u.0) (λ part. IsScan part.body) }
        ensures { IsSomeAnd (slice_get self.now.parts u.0) (λ part. HasOnPin pin result.0 part.body) }
    {
        match &self.parts[u.0 as usize].body {
            Body::Scan(nets) => NetId(nets.pin(pin)),
            Body::Gate { .. } => unreachable!(),
        }
    }
}

//! The cluster's cell.

ghost use Rattle.std.specs.Prelude.{◌≡◌, ◌+◌, ◌<◌, ◌≤◌, ◌^◌, [], ◌++◌, length, replicate, IfOk, IfErr, OnOk};
ghost use Rattle.std.specs.List.{sum_by};
ghost use Rattle.ca_cell.specs.Rules.{KeepsRules, node_count};
ghost use Rattle.ca_cell.specs.declared.rule.TheConstants.{MOST_DEVICES};
ghost use Rattle.ca_flat.specs.Chip.{cell_at};
ghost use Rattle.ca_flat.specs.Flat.{inner_count};
ghost use Rattle.ca_view.specs.Core.{core_of};
ghost use Rattle.ca_merged.specs.Cluster.{bare_pin, pins_of, cluster_cell};
ghost use Rattle.ca_merged.specs.Merged.{AreMembers};
ghost use Rattle.ca_merge.specs.Draft.{AreGates};
ghost use Rattle.ca_merge.specs.code.Pins.{AreClusterNets};
ghost use Rattle.ca_merge.specs.code.Seats.{AreSeated};
ghost use Rattle.ca_merge.specs.Merge.{IsCause};
ghost use Rattle.ca_merge.specs.declared.cell.MergeFault.TheVariants as fault;

use crate::seats::{Cluster, devices_of, inner_count};
use ca_base::NoMemory;
use ca_cell::{
    Cell, CellFault, CellRule, MOST_DEVICES, MOST_NODES, RawCell, RawPin, RawPins, Role,
};
use ca_lex::{Names, Text};
use ca_net::Network;
use std::alloc::Global;

/// Why instances aren't merged: the first rule that their cluster's cell breaks, or no memory.
#[derive(Clone, Copy, Debug, PartialEq, Eq)]
pub enum MergeFault {
    Rule(CellRule),
    NoMemory,
}

impl From<NoMemory> for MergeFault {
    ghost from_gives = { λ _ e. e ≡ fault.NoMemory };

    fn from(_: NoMemory) -> Self {
        MergeFault::NoMemory
    }
}

// How many devices and inner nodes the cells of members have.
#[derive(Clone, Copy)]
struct Sizes {
    devices: usize,
    inner: usize,
}

// Those of all members.
fn sizes_of(of: &Cluster<'_>) -> Sizes
    requires gates { AreGates of.now.chip.now of.now.members.now }
    requires are { AreMembers (core_of of.now.chip.now) of.now.members.now }
    ensures devices { result.devices
        ≡ sum_by (λ u. length (cell_at (core_of of.now.chip.now) u).devices) of.now.members.now }
    ensures inner { result.inner ≡ sum_by (inner_count (core_of of.now.chip.now)) of.now.members.now }
    ensures few { result.inner < 2 ^ 40 }
{
    of.chip.wired();
    let mut devices = 0;
    let mut inner = 0;
    for k in 0..of.members.len() {
        let cell = of.chip.cell_of(of.members.get(k));
        let _raw = cell.raw();
        devices += cell.device_count();
        inner += inner_count(cell);
    }
    Sizes { devices, inner }
}

// The number of nodes of the cluster.
fn node_sum(of: &Cluster<'_>, inner: usize) -> usize
    requires gates { AreGates of.now.chip.now of.now.members.now }
    requires tables { AreClusterNets of.now.chip.now of.now.members.now of.now.nets.now }
    requires inner { inner ≡ sum_by (inner_count (core_of of.now.chip.now)) of.now.members.now }
    requires few { inner < 2 ^ 40 }
    ensures { result ≡ node_count (cluster_cell (core_of of.now.chip.now) of.now.members.now) }
{
    of.chip.wired();
    2 + of.nets.inputs.nets.len() + of.nets.outputs.nets.len() + inner
}

// Appends pins of one role, without names.
fn push_pins(alloc: Global, pins: &mut RawPins, count: usize, role: Role) -> Result<(), NoMemory>
    ensures { OnOk result (pins.new ≡ pins.old ++ replicate count (bare_pin role)) }
{
    for _pin in 0..count {
        pins.push(RawPin {
            name: Text::new(alloc),
            role,
        })?;
    }
    Ok(())
}

// Power, ground, and pins without names.
fn bare_pins(alloc: Global, inputs: usize, outputs: usize) -> Result<RawPins, NoMemory>
    ensures { IfOk result (λ pins. pins ≡ pins_of inputs outputs) }
{
    let mut pins = RawPins::new(alloc);
    push_pins(alloc, &mut pins, 1, Role::Power)?;
    push_pins(alloc, &mut pins, 1, Role::Ground)?;
    push_pins(alloc, &mut pins, inputs, Role::Input)?;
    push_pins(alloc, &mut pins, outputs, Role::Output)?;
    Ok(pins)
}

// Empty names.
fn bare_names(alloc: Global, count: usize) -> Result<Names, NoMemory>
    ensures { IfOk result (λ names. names ≡ replicate count []) }
{
    let mut names = Names::new(alloc);
    for _name in 0..count {
        names.push(Text::new(alloc))?;
    }
    Ok(names)
}

// The cluster's subcircuit, which has this number of nodes.
fn raw_cell(alloc: Global, of: &Cluster<'_>, nodes: usize) -> Result<RawCell, NoMemory>
    requires seated { AreSeated of.now.chip.now of.now.members.now of.now.nets.now }
    requires nodes { nodes ≡ node_count (cluster_cell (core_of of.now.chip.now) of.now.members.now) }
    ensures { IfOk result (λ raw. raw ≡ cluster_cell (core_of of.now.chip.now) of.now.members.now) }
{
    of.chip.wired();
    let inputs = of.nets.inputs.nets.len();
    let outputs = of.nets.outputs.nets.len();
    Ok(RawCell {
        pins: bare_pins(alloc, inputs, outputs)?,
        nets: bare_names(alloc, nodes)?,
        devices: devices_of(alloc, of)?,
    })
}

// The cell of a cluster that isn't too large, or the first rule that it breaks.
fn small_cell(alloc: Global, of: &Cluster<'_>, nodes: usize) -> Result<Cell, MergeFault>
    requires seated { AreSeated of.now.chip.now of.now.members.now of.now.nets.now }
    requires nodes { nodes ≡ node_count (cluster_cell (core_of of.now.chip.now) of.now.members.now) }
    requires few { length (cluster_cell (core_of of.now.chip.now) of.now.members.now).devices ≤ MOST_DEVICES }
    ensures ok { IfOk result (λ cell. cell ≡ cluster_cell (core_of of.now.chip.now) of.now.members.now) }
    ensures kept { OnOk result (KeepsRules (cluster_cell (core_of of.now.chip.now) of.now.members.now)) }
    ensures cause { IfErr result (IsCause of.now.chip.now of.now.members.now) }
{
    of.chip.wired();
    let raw = raw_cell(alloc, of, nodes)?;
    match Cell::check(alloc, &raw) {
        Ok(cell) => Ok(cell),
        Err(CellFault::Rule(rule)) => Err(MergeFault::Rule(rule)),
        Err(CellFault::NoMemory) => Err(MergeFault::NoMemory),
    }
}

/// The cluster's cell, or the first rule that it breaks. One that is too large isn't built.
pub(crate) fn cluster_cell(alloc: Global, of: &Cluster<'_>) -> Result<Cell, MergeFault>
    requires gates { AreGates of.now.chip.now of.now.members.now }
    requires are { AreMembers (core_of of.now.chip.now) of.now.members.now }
    requires tables { AreClusterNets of.now.chip.now of.now.members.now of.now.nets.now }
    ensures ok { IfOk result (λ cell. cell ≡ cluster_cell (core_of of.now.chip.now) of.now.members.now) }
    ensures kept { OnOk result (KeepsRules (cluster_cell (core_of of.now.chip.now) of.now.members.now)) }
    ensures cause { IfErr result (IsCause of.now.chip.now of.now.members.now) }
{
    of.chip.wired();
    let sizes = sizes_of(of);
    let nodes = node_sum(of, sizes.inner);
    if sizes.devices > MOST_DEVICES {
        let count = sizes.devices;
        Err(MergeFault::Rule(CellRule::TooManyDevices { count }))
    } else if nodes > MOST_NODES {
        Err(MergeFault::Rule(CellRule::TooManyNodes { count: nodes }))
    } else {
        small_cell(alloc, of, nodes)
    }
}

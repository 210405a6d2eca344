//! The nets of the pins of the core's instances.

ghost use Rattle.std.specs.Prelude.{◌≡◌, ◌<◌, ◌≤◌, ◌+◌, length, slice_get, IsSomeAnd, IfOk};
ghost use Rattle.std.specs.List.{All};
ghost use Rattle.ca_cell.specs.declared.rule.TheConstants.{MOST_INPUTS, MOST_OUTPUTS};
ghost use Rattle.ca_flat.specs.Chip.{inputs_at, outputs_at};
ghost use Rattle.ca_linked.specs.Linked.{IsLibrary};
ghost use Rattle.ca_linked.specs.Instances.{IsScan};
ghost use Rattle.ca_view.specs.Core.{core_of};
ghost use Rattle.ca_view.specs.Numbers.{AreCoreNumbers};
ghost use Rattle.ca_view.specs.NetLists.{ArePinNets};
ghost use Rattle.ca_view.specs.code.Pins.{inputs_of, outputs_of, items_of};
ghost use Rattle.ca_view.specs.code.Pins.{AreCorePins, AreInputNets, AreOutputNets, IsInverted};

use crate::nets::CoreNets;
use ca_base::NoMemory;
use ca_linked::{Chip, InstanceId, NetId};
use std::alloc::Global;
use std::marker::Model;

// A scan instance's pin after its five input pins and its output: the inverted output, if it has one, or
// else the scan output.
const INVERTED_PIN: usize = 6;

/// The nets of the input pins and of the output pins of each instance.
#[derive(Drop)]
pub(crate) struct CorePins {
    nets: usize,
    inputs: Vec<Vec<u32>>,
    outputs: Vec<Vec<u32>>,
}

impl Model for CorePins {
    ghost use Rattle.std.specs.Prelude.{◌≡◌, vec_len};
    ghost use Rattle.ca_view.specs.Pins.{Pins};
    ghost use Rattle.ca_view.specs.code.Pins.{items_of, AreBelow};

    ghost Value = { Pins };

    ghost view = { λ pins. record {
      nets = pins.nets;
      count = vec_len pins.inputs;
      inputs = items_of pins.inputs.items;
      outputs = items_of pins.outputs.items;
    } };

    ghost invariant = { λ pins. (vec_len pins.outputs ≡ vec_len pins.inputs)
        × AreBelow pins.nets (items_of pins.inputs.items)
        × AreBelow pins.nets (items_of pins.outputs.items) };
}

impl CorePins {
    /// The pins of the core of a chip.
    pub(crate) fn of(alloc: Global, chip: &Chip, numbers: &CoreNets) -> Result<Self, NoMemory>
        requires { AreCoreNumbers chip.now numbers.now }
        ensures { IfOk result (AreCorePins (core_of chip.now)) }
    {
        chip.wired();
        let inputs = all_inputs(alloc, chip, numbers)?;
        let outputs = all_outputs(alloc, chip, numbers)?;
        Ok(CorePins {
            nets: numbers.count() as usize,
            inputs,
            outputs,
        })
    }

    /// The number of nets.
    pub(crate) fn net_count(&self) -> usize
        ensures { result ≡ self.now.nets }
    {
        self.nets
    }

    /// The number of instances.
    pub(crate) fn count(&self) -> usize
        ensures { result ≡ self.now.count }
    {
        self.inputs.len()
    }

    /// The nets of an instance's input pins.
    pub(crate) fn inputs(&self, instance: usize) -> &[u32]
        requires { instance < self.now.count }
        ensures same { result.now ≡ inputs_of self.now instance }
        ensures within { All (λ net. net < self.now.nets) result.now }
    {
        &self.inputs[instance]
    }

    /// The nets of an instance's output pins.
    pub(crate) fn outputs(&self, instance: usize) -> &[u32]
        requires { instance < self.now.count }
        ensures same { result.now ≡ outputs_of self.now instance }
        ensures within { All (λ net. net < self.now.nets) result.now }
    {
        &self.outputs[instance]
    }
}

// The net of a scan instance's inverted output, if it has one: that of the scan output is on the scan path.
fn inverted_net(chip: &Chip, u: InstanceId) -> Option<u32>
    requires { IsSomeAnd (slice_get chip.now.parts u.0) (λ part. IsScan part.body) }
    ensures { IsInverted chip.now u.0 result }
{
    chip.wired();
    let net = chip.pin_net(u, INVERTED_PIN);
    if chip.is_scan_path(net) {
        None
    } else {
        Some(net.0)
    }
}

// The nets of `count` pins of a library instance after the first ones.
fn gate_pins(
    alloc: Global,
    chip: &Chip,
    numbers: &CoreNets,
    u: InstanceId,
    before: usize,
    count: usize,
) -> Result<Vec<u32>, NoMemory>
    requires numbers { AreCoreNumbers chip.now numbers.now }
    requires library { IsLibrary chip.now u.0 }
    requires few { before + count ≤ MOST_INPUTS + MOST_OUTPUTS }
    requires within { before + count
        ≤ inputs_at (core_of chip.now) u.0 + outputs_at (core_of chip.now) u.0 }
    ensures { IfOk result (λ nets. ArePinNets (core_of chip.now) u.0 before count nets.items) }
{
    chip.wired();
    let mut nets = Vec::new(alloc);
    for pin in 0..count {
        nets.push(numbers.get(chip.pin_net(u, before + pin)))?;
    }
    Ok(nets)
}

// The nets of a scan instance's output pins.
fn scan_outputs(
    alloc: Global,
    chip: &Chip,
    numbers: &CoreNets,
    u: InstanceId,
) -> Result<Vec<u32>, NoMemory>
    requires numbers { AreCoreNumbers chip.now numbers.now }
    requires scan { IsSomeAnd (slice_get chip.now.parts u.0) (λ part. IsScan part.body) }
    ensures { IfOk result (λ nets. ArePinNets (core_of chip.now) u.0 (inputs_at (core_of chip.now) u.0)
        (outputs_at (core_of chip.now) u.0) nets.items) }
{
    chip.wired();
    let net = match inverted_net(chip, u) {
        Some(net) => net,
        None => return Ok(Vec::new(alloc)),
    };
    let mut nets = Vec::new(alloc);
    nets.push(numbers.get(NetId(net)))?;
    Ok(nets)
}

// The nets of an instance's input pins.
fn input_nets(
    alloc: Global,
    chip: &Chip,
    numbers: &CoreNets,
    u: InstanceId,
) -> Result<Vec<u32>, NoMemory>
    requires numbers { AreCoreNumbers chip.now numbers.now }
    requires known { u.0 < length chip.now.parts }
    ensures { IfOk result (λ nets. ArePinNets (core_of chip.now) u.0 0
        (inputs_at (core_of chip.now) u.0) nets.items) }
{
    if !chip.is_library(u) {
        return Ok(Vec::new(alloc));
    }
    gate_pins(alloc, chip, numbers, u, 0, chip.cell_of(u).inputs())
}

// The nets of an instance's output pins.
fn output_nets(
    alloc: Global,
    chip: &Chip,
    numbers: &CoreNets,
    u: InstanceId,
) -> Result<Vec<u32>, NoMemory>
    requires numbers { AreCoreNumbers chip.now numbers.now }
    requires known { u.0 < length chip.now.parts }
    ensures { IfOk result (λ nets. ArePinNets (core_of chip.now) u.0 (inputs_at (core_of chip.now) u.0)
        (outputs_at (core_of chip.now) u.0) nets.items) }
{
    if !chip.is_library(u) {
        return scan_outputs(alloc, chip, numbers, u);
    }
    let cell = chip.cell_of(u);
    gate_pins(alloc, chip, numbers, u, cell.inputs(), cell.outputs())
}

// The nets of the input pins of all instances.
fn all_inputs(alloc: Global, chip: &Chip, numbers: &CoreNets) -> Result<Vec<Vec<u32>>, NoMemory>
    requires { AreCoreNumbers chip.now numbers.now }
    ensures { IfOk result (λ rows. AreInputNets (core_of chip.now) (length chip.now.parts)
        (items_of rows.items)) }
{
    chip.wired();
    let mut rows = Vec::new(alloc);
    for u in 0..chip.parts() {
        rows.push(input_nets(alloc, chip, numbers, InstanceId(u as u32))?)?;
    }
    Ok(rows)
}

// The nets of the output pins of all instances.
fn all_outputs(alloc: Global, chip: &Chip, numbers: &CoreNets) -> Result<Vec<Vec<u32>>, NoMemory>
    requires { AreCoreNumbers chip.now numbers.now }
    ensures { IfOk result (λ rows. AreOutputNets (core_of chip.now) (length chip.now.parts)
        (items_of rows.items)) }
{
    chip.wired();
    let mut rows = Vec::new(alloc);
    for u in 0..chip.parts() {
        rows.push(output_nets(alloc, chip, numbers, InstanceId(u as u32))?)?;
    }
    Ok(rows)
}

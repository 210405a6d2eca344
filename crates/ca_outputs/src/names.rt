//! The names of the observed outputs.

ghost use Rattle.std.specs.Prelude.{◌≡◌, ◌<◌, ◌++◌, length, slice_get, IsSomeAnd, IfOk, OnOk};
ghost use Rattle.ca_linked.specs.Linked.{outputs_of};
ghost use Rattle.ca_outputs.specs.Outputs.{is_observed, observed_ports, names_of, pin_name, output_names};
ghost use Rattle.ca_outputs.specs.code.Kept.{port_names, part_names};

use ca_base::NoMemory;
use ca_lex::{Names, Text};
use ca_linked::{Chip, InstanceId};
use std::alloc::Global;

// Whether a port bit is an observed output: of an output port, and off the scan path.
fn is_observed(chip: &Chip, p: usize) -> bool
    requires { p < length chip.now.ports }
    ensures { IsSomeAnd (slice_get chip.now.ports p) (λ port. is_observed chip.now port ≡ result) }
{
    chip.wired();
    !chip.port_is_input(p) && !chip.is_scan_path(chip.port_net(p))
}

// Appends the name of a port bit, if it is an observed output.
fn push_port(alloc: Global, names: &mut Names, chip: &Chip, p: usize) -> Result<(), NoMemory>
    requires { p < length chip.now.ports }
    ensures { OnOk result (IsSomeAnd (slice_get chip.now.ports p)
        (λ port. names.new ≡ names.old ++ port_names chip.now port)) }
{
    if is_observed(chip, p) {
        names.push(chip.port_name(p).copy(alloc)?)
    } else {
        Ok(())
    }
}

// The name of an instance, a slash, and the name of its data pin.
fn pin_name(alloc: Global, chip: &Chip, u: InstanceId) -> Result<Text, NoMemory>
    requires { u.0 < length chip.now.parts }
    ensures { IfOk result (λ name. IsSomeAnd (slice_get chip.now.parts u.0) (λ part. name ≡ pin_name part)) }
{
    let mut name = chip.instance_name(u).copy(alloc)?;
    name.push(b'/')?;
    name.append(chip.data_name(u).as_bytes())?;
    Ok(name)
}

// Appends the name of the data pin of an instance, if it is a scan instance.
fn push_part(alloc: Global, names: &mut Names, chip: &Chip, u: InstanceId) -> Result<(), NoMemory>
    requires { u.0 < length chip.now.parts }
    ensures { OnOk result (IsSomeAnd (slice_get chip.now.parts u.0)
        (λ part. names.new ≡ names.old ++ part_names part)) }
{
    if chip.is_library(u) {
        Ok(())
    } else {
        names.push(pin_name(alloc, chip, u)?)
    }
}

// The names of the port bits that are observed outputs.
fn port_bits(alloc: Global, chip: &Chip) -> Result<Names, NoMemory>
    ensures { IfOk result (λ names. names ≡ names_of (observed_ports chip.now)) }
{
    let mut names = Names::new(alloc);
    for p in 0..chip.ports() {
        push_port(alloc, &mut names, chip, p)?;
    }
    Ok(names)
}

/// The names of the observed outputs, in their order: of the bits of output ports off the scan path in header
/// order, and then of the data pins of scan instances in netlist order, as `INSTANCE/PIN`.
pub fn output_names(alloc: Global, chip: &Chip) -> Result<Names, NoMemory>
    ensures names { IfOk result (λ names. names ≡ output_names chip.now) }
    ensures count { IfOk result (λ names. length names ≡ length (outputs_of chip.now)) }
{
    chip.wired();
    let mut names = port_bits(alloc, chip)?;
    for u in 0..chip.parts() {
        push_part(alloc, &mut names, chip, InstanceId(u as u32))?;
    }
    Ok(names)
}

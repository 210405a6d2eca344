//! The names of ports.

ghost use Rattle.std.specs.Prelude.{◌≡◌, ◌++◌, ◌<◌, Bool, length, map, slice_get, IsSomeAnd, IfOk, OnOk};
ghost use Rattle.ca_linked.specs.Instances.{scans_of};
ghost use Rattle.ca_scan.specs.Chain.{IsScanAt};
ghost use Rattle.ca_chip_stil.specs.Sites.{is_data_port, if_data_port, data_ports};
ghost use Rattle.ca_chip_stil.specs.ChipStil.{signal_of, names_of, name_at, controls_of};
ghost use Rattle.ca_chip_stil.specs.code.Kept.{ArePorts};

use crate::ports::{Ports, is_directed};
use ca_base::{List, NoMemory};
use ca_lex::{Names, Text};
use ca_linked::{Chip, InstanceId, ScanPin};
use ca_stil::Signal;
use std::alloc::Global;

// A bit of a port, with its name and its direction.
fn signal_of(alloc: Global, chip: &Chip, p: usize) -> Result<Signal, NoMemory>
    requires { p < length chip.now.ports }
    ensures { IfOk result (λ signal. IsSomeAnd (slice_get chip.now.ports p)
        (λ port. signal ≡ signal_of port)) }
{
    let name = chip.port_name(p).copy(alloc)?;
    Ok(Signal {
        name,
        is_input: chip.port_is_input(p),
    })
}

/// The bits of all ports, in header order.
pub(crate) fn signals_of(alloc: Global, chip: &Chip) -> Result<List<Signal>, NoMemory>
    ensures { IfOk result (λ signals. signals ≡ map signal_of chip.now.ports) }
{
    let mut signals = List::with_room(alloc, chip.ports())?;
    for p in 0..chip.ports() {
        signals.push(signal_of(alloc, chip, p)?)?;
    }
    Ok(signals)
}

// Whether a port bit is of a port of this direction, and off the scan path.
fn is_data_port(chip: &Chip, input: bool, p: usize) -> bool
    requires { p < length chip.now.ports }
    ensures { IsSomeAnd (slice_get chip.now.ports p) (λ port. is_data_port chip.now input port ≡ result) }
{
    chip.wired();
    is_directed(chip, input, p) && !chip.is_scan_path(chip.port_net(p))
}

// Appends the name of a port bit, if it is of a port of this direction and off the scan path.
fn push_port(
    alloc: Global,
    names: &mut Names,
    chip: &Chip,
    input: bool,
    p: usize,
) -> Result<(), NoMemory>
    requires { p < length chip.now.ports }
    ensures { OnOk result (IsSomeAnd (slice_get chip.now.ports p)
        (λ port. names.new ≡ names.old ++ names_of (if_data_port chip.now input port))) }
{
    if is_data_port(chip, input, p) {
        names.push(chip.port_name(p).copy(alloc)?)
    } else {
        Ok(())
    }
}

/// The names of the bits of the ports of this direction that are off the scan path, in header order.
pub(crate) fn data_names(alloc: Global, chip: &Chip, input: bool) -> Result<Names, NoMemory>
    ensures { IfOk result (λ names. names ≡ names_of (data_ports chip.now input)) }
{
    let mut names = Names::new(alloc);
    for p in 0..chip.ports() {
        push_port(alloc, &mut names, chip, input, p)?;
    }
    Ok(names)
}

/// The name of the port of this direction at a pin of a scan instance.
pub(crate) fn name_at(
    alloc: Global,
    chip: &Chip,
    ports: &Ports,
    input: bool,
    pin: ScanPin,
    u: InstanceId,
) -> Result<Text, NoMemory>
    requires ports { ArePorts chip.now ports.now }
    requires scan { IsScanAt chip.now u.0 }
    ensures { IfOk result (λ name. name ≡ name_at chip.now input pin u.0) }
{
    let net = chip.scan_net(u, pin);
    match ports.get(chip, input, net) {
        None => Ok(Text::new(alloc)),
        Some(p) => chip.port_name(p as usize).copy(alloc),
    }
}

/// The names of the ports of the scan enable, the clock and the hold of all scan instances, if there are any.
pub(crate) fn controls_of(alloc: Global, chip: &Chip, ports: &Ports) -> Result<Names, NoMemory>
    requires { ArePorts chip.now ports.now }
    ensures { IfOk result (λ names. names ≡ controls_of chip.now (scans_of chip.now)) }
{
    let mut names = Names::new(alloc);
    if chip.scan_count() > 0 {
        let u = chip.scan(0);
        names.push(name_at(alloc, chip, ports, true, ScanPin::Se, u)?)?;
        names.push(name_at(alloc, chip, ports, true, ScanPin::Ck, u)?)?;
        names.push(name_at(alloc, chip, ports, true, ScanPin::Hold, u)?)?;
    }
    Ok(names)
}

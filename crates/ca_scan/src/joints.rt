//! What is on each net of the scan path.

ghost use Rattle.std.specs.Prelude.{◌<◌, ◌++◌, map, length, IfOk, OnOk, IsSomeAnd, slice_get};
ghost use Rattle.std.specs.List.{flat_map};
ghost use Rattle.ca_linked.specs.Instances.{scans_of};
ghost use Rattle.ca_scan.specs.code.Kept.{nets_of, out_nets, Counts, Adds, AreJoints};

use crate::pins::add_scan;
use crate::takers::{Takers, takers_of};
use crate::tally::Tally;
use ca_base::NoMemory;
use ca_linked::Chip;
use std::alloc::Global;

/// How many pins and ports are on each net of the scan path, how many output ports on each net, and for each
/// net a scan instance that has its scan-in there.
#[derive(Drop)]
pub(crate) struct Joints {
    pub(crate) ends: Tally,
    pub(crate) outs: Tally,
    pub(crate) takers: Takers,
}

// The nets that scan instances put on the scan path.
fn pins_of(alloc: Global, chip: &Chip) -> Result<Tally, NoMemory>
    ensures { IfOk result (λ tally. Counts tally (nets_of chip.now (scans_of chip.now))) }
{
    let mut tally = Tally::new(alloc);
    for k in 0..chip.scan_count() {
        add_scan(&mut tally, chip, k)?;
    }
    Ok(tally)
}

// Those and the nets of ports.
fn ends_of(alloc: Global, chip: &Chip) -> Result<Tally, NoMemory>
    ensures { IfOk result (λ tally. Counts tally
        (nets_of chip.now (scans_of chip.now) ++ map (λ port. port.net) chip.now.ports)) }
{
    let mut tally = pins_of(alloc, chip)?;
    for p in 0..chip.ports() {
        tally.add(chip.port_net(p).0)?;
    }
    Ok(tally)
}

// Adds the net of a port bit, if it is of an output port.
fn add_out(tally: &mut Tally, chip: &Chip, p: usize) -> Result<(), NoMemory>
    requires { p < length chip.now.ports }
    ensures { OnOk result (IsSomeAnd (slice_get chip.now.ports p) (λ port. Adds (out_nets port) tally.old
        tally.new)) }
{
    if chip.port_is_input(p) {
        return tally.add_all(&[]);
    }
    tally.add(chip.port_net(p).0)
}

// The nets of output ports.
fn outs_of(alloc: Global, chip: &Chip) -> Result<Tally, NoMemory>
    ensures { IfOk result (λ tally. Counts tally (flat_map out_nets chip.now.ports)) }
{
    let mut tally = Tally::new(alloc);
    for p in 0..chip.ports() {
        add_out(&mut tally, chip, p)?;
    }
    Ok(tally)
}

/// What is on the nets of a chip.
pub(crate) fn joints_of(alloc: Global, chip: &Chip) -> Result<Joints, NoMemory>
    ensures { IfOk result (AreJoints chip.now) }
{
    Ok(Joints {
        ends: ends_of(alloc, chip)?,
        outs: outs_of(alloc, chip)?,
        takers: takers_of(alloc, chip)?,
    })
}

//! Following a chain from a net to the next.

ghost use Rattle.std.specs.Prelude.{◌≡◌, ◌≤◌, ◌<◌, true, length, IfOk};
ghost use Rattle.ca_linked.specs.Linked.{is_scan_path};
ghost use Rattle.ca_scan.specs.Chain.{IsAtPort, IsChainAt};
ghost use Rattle.ca_scan.specs.code.Kept.{drivers_of, AreJoints, IsStep, IsRun};

use crate::joints::Joints;
use ca_base::NoMemory;
use ca_linked::{Chip, InstanceId, InstanceList, NetId, ScanPin};
use std::alloc::Global;

/// Where a net of the scan path leads.
#[derive(Clone, Copy)]
enum Step {
    /// To no chain: something else is on the net, or nothing.
    Broken,
    /// To an output port.
    Out,
    /// To the scan-in of an instance.
    Taken(InstanceId),
}

// Where a net leads.
fn next_step(chip: &Chip, joints: &Joints, net: NetId) -> Step
    requires joints { AreJoints chip.now joints.now }
    requires on_path { is_scan_path chip.now net.0 ≡ true }
    ensures { IsStep chip.now net.0 result }
{
    chip.wired();
    if joints.ends.get(net.0) != 2 {
        return Step::Broken;
    }
    if joints.outs.get(net.0) != 0 {
        return Step::Out;
    }
    match joints.takers.get(net.0) {
        None => Step::Broken,
        Some(u) => Step::Taken(InstanceId(u)),
    }
}

// The run from a net to an output port, if there is one.
fn follow(
    alloc: Global,
    chip: &Chip,
    joints: &Joints,
    start: NetId,
) -> Result<Option<InstanceList>, NoMemory>
    requires joints { AreJoints chip.now joints.now }
    requires driven { 1 ≤ drivers_of chip.now start.0 }
    requires on_path { is_scan_path chip.now start.0 ≡ true }
    ensures { IfOk result (IsRun chip.now start.0) }
{
    let mut chain = InstanceList::new(alloc);
    let mut net = start;
    'steps: while chain.len() <= chip.parts() {
        match next_step(chip, joints, net) {
            Step::Broken => return Ok(None),
            Step::Out => return Ok(Some(chain)),
            Step::Taken(u) => {
                chain.push(u)?;
                net = chip.scan_net(u, ScanPin::So);
            }
        }
    }
    Ok(None)
}

/// The whole chain that begins at a port bit, if there is one.
pub(crate) fn chain_at(
    alloc: Global,
    chip: &Chip,
    joints: &Joints,
    p: usize,
) -> Result<Option<InstanceList>, NoMemory>
    requires joints { AreJoints chip.now joints.now }
    requires within { p < length chip.now.ports }
    ensures { IfOk result (IsChainAt chip.now p) }
{
    chip.wired();
    let net = chip.port_net(p);
    if !chip.port_is_input(p) {
        return Ok(None);
    }
    if !chip.is_scan_path(net) {
        return Ok(None);
    }
    let Some(chain) = follow(alloc, chip, joints, net)? else {
        return Ok(None);
    };
    if chain.len() == 0 {
        return Ok(None);
    }
    Ok(Some(chain))
}

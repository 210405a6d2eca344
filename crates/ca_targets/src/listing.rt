//! The targets of bridges.

ghost use Rattle.std.specs.Prelude.{IfOk, OnOk};
ghost use Rattle.std.specs.List.{All};
ghost use Rattle.ca_cluster.specs.Bridges.{IsKnown};
ghost use Rattle.ca_targets.specs.Targets.{AreKnown, IsCluster, AreTargetsOf};
ghost use Rattle.ca_targets.specs.code.Steps.{AreFew, Steps, IsNext};

use crate::clusters::inner_target;
use crate::target::{BridgeTargets, Cluster, Target, TargetList};
use ca_base::NoMemory;
use ca_cluster::{Bridge, BridgeList, is_at_port, is_one_node};
use ca_flatten::judge_size;
use ca_linked::Chip;
use std::alloc::Global;

// The target of a bridge.
fn target_of(
    alloc: Global,
    chip: &Chip,
    bridge: Bridge,
    clusters: &mut Vec<Cluster>,
) -> Result<Target, NoMemory>
    requires known { IsKnown chip.now bridge }
    requires few { AreFew chip.now }
    requires clusters { All (IsCluster chip.now) clusters.old.items }
    ensures { IfOk result
        (λ target. Steps chip.now bridge clusters.old.items target clusters.new.items) }
{
    if is_at_port(chip, bridge) {
        return Ok(Target::Port);
    }
    if is_one_node(chip, bridge) {
        return Ok(Target::OneNode);
    }
    inner_target(alloc, chip, bridge, clusters)
}

// Appends the target of a bridge.
fn add_target(
    alloc: Global,
    chip: &Chip,
    bridge: Bridge,
    all: &mut BridgeTargets,
) -> Result<(), NoMemory>
    requires known { IsKnown chip.now bridge }
    requires few { AreFew chip.now }
    requires clusters { All (IsCluster chip.now) all.old.clusters.items }
    ensures { OnOk result (IsNext chip.now bridge all.old.targets all.old.clusters.items
        all.new.targets all.new.clusters.items) }
{
    let target = target_of(alloc, chip, bridge, &mut all.clusters)?;
    all.targets.push(target)?;
    Ok(())
}

/// What these bridges of library instances are as targets, each different cluster merged once; the bridges of
/// one instance have at most 27. It takes time in proportion to the chip for each bridge, and to its library
/// too for each cluster. Also answers out of memory for a chip whose flat network may have 2^32 nodes or
/// devices.
pub fn targets(alloc: Global, chip: &Chip, bridges: &BridgeList) -> Result<BridgeTargets, NoMemory>
    requires { AreKnown chip.now bridges.now }
    ensures { IfOk result
        (λ all. AreTargetsOf chip.now bridges.now all.targets all.clusters.items) }
{
    judge_size(alloc, chip)?;
    let mut all = BridgeTargets {
        targets: TargetList::new(alloc),
        clusters: Vec::new(alloc),
    };
    for k in 0..bridges.len() {
        add_target(alloc, chip, bridges.get(k), &mut all)?;
    }
    Ok(all)
}

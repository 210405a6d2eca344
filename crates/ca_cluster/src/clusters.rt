//! The cluster of a bridge.

ghost use Rattle.std.specs.Prelude.{IfOk};
ghost use Rattle.ca_merge.specs.Draft.{AreGates};
ghost use Rattle.ca_cluster.specs.Bridges.{IsKnown};
ghost use Rattle.ca_cluster.specs.Clusters.{AreMembersOf, IsInside, IsClustered};

use crate::bridge::Bridge;
use crate::ends::{is_at_port, is_one_node};
use crate::members::members_of;
use crate::short::short_for;
use ca_base::NoMemory;
use ca_cell::CellRule;
use ca_flat::ChipDefect;
use ca_flatten::judge_size;
use ca_linked::{Chip, InstanceList};
use ca_merge::{MergeFault, merged};
use std::alloc::Global;

/// What the cluster of a bridge is. There is none where an input pin among the ends is on a chip input or a
/// constant, or else where both ends are one node. Else the members of the cluster as one cell break a rule,
/// or are the last instance of a merged chip, one short of which is the bridge.
#[derive(Drop)]
pub enum Clustered {
    Port,
    OneNode,
    Wide { rule: CellRule },
    Merged { chip: Chip, defect: ChipDefect },
}

// The merged chip for a bridge that has two ends inside the chip, or the rule that the cluster breaks.
fn merged_by(
    alloc: Global,
    chip: &Chip,
    bridge: Bridge,
    members: &InstanceList,
) -> Result<Clustered, NoMemory>
    requires known { IsKnown chip.now bridge }
    requires are { AreMembersOf chip.now bridge members.now }
    requires gates { AreGates chip.now members.now }
    requires inside { IsInside chip.now bridge }
    ensures { IfOk result (IsClustered chip.now bridge) }
{
    chip.wired();
    judge_size(alloc, chip)?;
    match merged(alloc, chip, members) {
        Ok((made, last)) => {
            let defect = short_for(chip, bridge, members, &made, last);
            Ok(Clustered::Merged { chip: made, defect })
        }
        Err(MergeFault::Rule(rule)) => Ok(Clustered::Wide { rule }),
        Err(MergeFault::NoMemory) => Err(NoMemory),
    }
}

/// The cluster of a bridge. It takes time in proportion to the chip and its library. Also answers out of
/// memory for a chip whose flat network may have 2^32 nodes or devices.
pub fn cluster(alloc: Global, chip: &Chip, bridge: Bridge) -> Result<Clustered, NoMemory>
    requires { IsKnown chip.now bridge }
    ensures { IfOk result (IsClustered chip.now bridge) }
{
    if is_at_port(chip, bridge) {
        return Ok(Clustered::Port);
    }
    if is_one_node(chip, bridge) {
        return Ok(Clustered::OneNode);
    }
    let members = members_of(alloc, chip, bridge)?;
    let answer = merged_by(alloc, chip, bridge, &members);
    drop(members);
    answer
}

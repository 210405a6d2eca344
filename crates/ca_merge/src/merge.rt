//! Merging library instances of a linked chip into one.

ghost use Rattle.std.specs.Prelude.{IfOk, IfErr, OnOk};
ghost use Rattle.ca_cell.specs.Rules.{KeepsRules};
ghost use Rattle.ca_view.specs.Core.{core_of};
ghost use Rattle.ca_merged.specs.Cluster.{cluster_cell};
ghost use Rattle.ca_merge.specs.Merge.{CanMerge, IsMergedOf, IsCause};

use crate::cell::{MergeFault, cluster_cell};
use crate::draft::merged_draft;
use crate::pins::{cluster_nets, lists_of};
use crate::seats::Cluster;
use ca_linked::{Chip, InstanceId, InstanceList, wire_draft};
use std::alloc::Global;

/// The chip in which these library instances are one, with that instance, which is the last. The members are
/// in netlist order, with every instance on a chain between two of them. The limits of linking aren't asked.
pub fn merged(
    alloc: Global,
    chip: &Chip,
    members: &InstanceList,
) -> Result<(Chip, InstanceId), MergeFault>
    requires { CanMerge chip.now members.now }
    ensures ok { IfOk result (λ made. IsMergedOf chip.now members.now made.0 made.1.0) }
    ensures kept { OnOk result (KeepsRules (cluster_cell (core_of chip.now) members.now)) }
    ensures cause { IfErr result (IsCause chip.now members.now) }
{
    chip.wired();
    let nets = cluster_nets(alloc, chip, members)?;
    let cluster = Cluster {
        chip,
        members,
        nets: &nets,
    };
    let cell = cluster_cell(alloc, &cluster)?;
    let (inputs, outputs) = lists_of(nets);
    let draft = merged_draft(alloc, chip, members, inputs, outputs, cell)?;
    let last = draft.parts() - 1;
    let made = wire_draft(alloc, draft)?;
    Ok((made, InstanceId(last as u32)))
}

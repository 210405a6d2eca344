//! The short of a merged chip that is a bridge of the chip.

ghost use Rattle.std.specs.Prelude.{◌≡◌, ◌+◌, ◌<◌, ◌≤◌, eqb, length, min, max};
ghost use Rattle.ca_cell.specs.declared.defect.Defect.TheVariants.{Short};
ghost use Rattle.std.specs.List.{Contains, position_or_len};
ghost use Rattle.ca_cell.specs.declared.rule.TheConstants.{MOST_NODES};
ghost use Rattle.ca_cell.specs.Rules.{KeepsRules};
ghost use Rattle.ca_flat.specs.Chip.{circuit_at};
ghost use Rattle.ca_flat.specs.Flat.{inner_count};
ghost use Rattle.ca_linked.specs.Linked.{IsLibrary};
ghost use Rattle.ca_view.specs.Core.{core_of};
ghost use Rattle.ca_merged.specs.Blocks.{block_start};
ghost use Rattle.ca_merged.specs.Cluster.{seat, cluster_cell};
ghost use Rattle.ca_merged.specs.Bridge.{IsInCluster, short_of};
ghost use Rattle.ca_merge.specs.Draft.{cluster_input_nets, cluster_output_nets};
ghost use Rattle.ca_merge.specs.Merge.{IsMergedOf};
ghost use Rattle.ca_cluster.specs.Bridges.{IsKnown};
ghost use Rattle.ca_cluster.specs.Clusters.{AreMembersOf, IsInside};
ghost use Rattle.ca_cluster.specs.code.Hands.{IsInHand};

use crate::bridge::Bridge;
use ca_cell::{Defect, MOST_NODES};
use ca_flat::ChipDefect;
use ca_flatten::cell_at;
use ca_linked::{Body, Chip, InstanceId, InstanceList, NetList};
use ca_net::{Network, NodeId};

// A chip, some instances of it, and the chip in which these are the one last instance.
#[derive(Clone, Copy)]
struct Hand<'a> {
    chip: &'a Chip,
    members: &'a InstanceList,
    made: &'a Chip,
    last: InstanceId,
}

// The place of a net in a list.
fn place_in(nets: &NetList, net: u32) -> usize
    ensures { result ≡ position_or_len (eqb net) nets.now }
{
    for k in 0..nets.len() {
        if nets.get(k) == net {
            return k;
        }
    }
    nets.len()
}

// The cluster's node of a net that a member drives.
fn net_seat(of: &Hand<'_>, net: u32) -> usize
    requires { IsInHand of.now.chip.now of.now.members.now of.now.made.now of.now.last.0 }
    ensures { result ≡ 2 + length (cluster_input_nets of.now.chip.now of.now.members.now)
        + position_or_len (eqb net) (cluster_output_nets of.now.chip.now of.now.members.now) }
{
    of.chip.wired();
    match &of.made.part(of.last).body {
        Body::Gate {
            inputs,
            outputs,
            ..
        } => 2 + inputs.len() + place_in(outputs, net),
        Body::Scan(_) => unreachable!(),
    }
}

// The number of the rails and pins of the cluster.
fn outer_count(of: &Hand<'_>) -> usize
    requires { IsInHand of.now.chip.now of.now.members.now of.now.made.now of.now.last.0 }
    ensures { result ≡ 2 + length (cluster_input_nets of.now.chip.now of.now.members.now)
        + length (cluster_output_nets of.now.chip.now of.now.members.now) }
{
    of.chip.wired();
    match &of.made.part(of.last).body {
        Body::Gate {
            inputs,
            outputs,
            ..
        } => 2 + inputs.len() + outputs.len(),
        Body::Scan(_) => unreachable!(),
    }
}

// The number of inner nodes of a library instance.
fn inner_count(chip: &Chip, u: InstanceId) -> usize
    requires { IsLibrary chip.now u.0 }
    ensures count { result ≡ inner_count (core_of chip.now) u.0 }
    ensures few { result ≤ MOST_NODES }
{
    let cell = cell_at(chip, u);
    cell.node_count() - (2 + cell.inputs() + cell.outputs())
}

// The number of inner nodes of the members before one.
fn inner_before(of: &Hand<'_>, u: InstanceId) -> usize
    requires hand { IsInHand of.now.chip.now of.now.members.now of.now.made.now of.now.last.0 }
    requires member { Contains of.now.members.now u.0 }
    ensures { result ≡ block_start (inner_count (core_of of.now.chip.now)) of.now.members.now u.0 }
{
    of.chip.wired();
    let mut before = 0;
    for k in 0..of.members.len() {
        let w = of.members.get(k);
        if w.0 == u.0 {
            return before;
        }
        before += inner_count(of.chip, w);
    }
    before
}

// The cluster's node of a node of an instance, which is a rail, on a net that a member drives, or an inner
// node of a member.
fn seat(of: &Hand<'_>, u: InstanceId, n: NodeId) -> u32
    requires hand { IsInHand of.now.chip.now of.now.members.now of.now.made.now of.now.last.0 }
    requires library { IsLibrary of.now.chip.now u.0 }
    requires within { n.0 < length (circuit_at (core_of of.now.chip.now) u.0).nodes }
    requires inside { IsInCluster (core_of of.now.chip.now) of.now.members.now u.0 n.0 }
    ensures { result ≡ seat (core_of of.now.chip.now) of.now.members.now u.0 n.0 }
{
    of.chip.wired();
    let cell = cell_at(of.chip, u);
    let outer = 2 + cell.inputs() + cell.outputs();
    let n = n.0 as usize;
    if n < 2 {
        n as u32
    } else if n < outer {
        net_seat(of, of.chip.pin_net(u, n - 2).0) as u32
    } else {
        (outer_count(of) + inner_before(of, u) + (n - outer)) as u32
    }
}

// The short of two nodes of the last instance, in their order.
fn short_between(of: &Hand<'_>, one: u32, other: u32) -> ChipDefect
    requires { IsInHand of.now.chip.now of.now.members.now of.now.made.now of.now.last.0 }
    ensures { result ≡ record {
      instance = of.now.last.0;
      defect = Short (record { 0 = min one other }) (record { 0 = max one other });
    } }
{
    ChipDefect {
        instance: of.last.0,
        defect: Defect::Short(NodeId(one.min(other)), NodeId(one.max(other))),
    }
}

/// The short of a merged chip that is a bridge of the chip, if the last instance of the merged chip is the
/// cluster of the bridge.
pub fn short_for(
    chip: &Chip,
    bridge: Bridge,
    members: &InstanceList,
    made: &Chip,
    last: InstanceId,
) -> ChipDefect
    requires known { IsKnown chip.now bridge }
    requires are { AreMembersOf chip.now bridge members.now }
    requires inside { IsInside chip.now bridge }
    requires keeps { KeepsRules (cluster_cell (core_of chip.now) members.now) }
    requires merged { IsMergedOf chip.now members.now made.now last.0 }
    ensures { result ≡ short_of (core_of chip.now) members.now bridge.instance.0 bridge.m.0 bridge.n.0 }
{
    chip.wired();
    let of = Hand {
        chip,
        members,
        made,
        last,
    };
    let one = seat(&of, bridge.instance, bridge.m);
    let other = seat(&of, bridge.instance, bridge.n);
    short_between(&of, one, other)
}

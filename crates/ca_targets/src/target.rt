//! Targets, and the clusters of which they are shorts.

use ca_base::List;
use ca_cell::CellRule;
use ca_flat::ChipDefect;
use ca_linked::{Chip, InstanceId, InstanceList};

/// What a bridge is as a target. It is none where an input pin among its ends is on a chip input or a
/// constant, or else where both ends are one node, or else where the members of its cluster as one cell break
/// a rule. Else it is the short at a place of the shorts of a cluster, both counted from 0.
#[derive(Clone, Copy, Debug)]
pub enum Target {
    Port,
    OneNode,
    Wide { rule: CellRule },
    Short { cluster: usize, place: usize },
}

/// Targets in order.
pub type TargetList = List<Target>;

/// Shorts of one instance, in order.
pub type ShortList = List<ChipDefect>;

/// The members of a cluster, the chip in which they are one instance, that instance, which is the last, and
/// those of its shorts that are bridges.
#[derive(Drop)]
pub struct Cluster {
    pub members: InstanceList,
    pub chip: Chip,
    pub last: InstanceId,
    pub shorts: ShortList,
}

/// What bridges are as targets, one for each, in order, and the clusters of which they are shorts.
#[derive(Drop)]
pub struct BridgeTargets {
    pub targets: TargetList,
    pub clusters: Vec<Cluster>,
}

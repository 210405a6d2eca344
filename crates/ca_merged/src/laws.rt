//! Laws of the definitions, each the contract of a function that does nothing.

ghost use Rattle.ca_merged.specs.Laws.{MergedIsChip, MergedFlatIsRenumbered, ShortIsBridge, MergedStandsFor};
ghost use Rattle.ca_merged.specs.Laws.{BridgedIsWellFormed, ClusterHoldsBridge, ClusterIsOne};
ghost use Rattle.ca_merged.specs.Laws.{MarksGiveCluster};

/// A merged chip is a chip.
pub fn merged_is_chip()
    ensures { MergedIsChip }
{}

/// The flat network of the merged chip is the chip's, renumbered.
pub fn merged_flat_is_renumbered()
    ensures { MergedFlatIsRenumbered }
{}

/// With the short it is the chip's with the bridge, renumbered.
pub fn short_is_bridge()
    ensures { ShortIsBridge }
{}

/// The flat network with a bridge is a network.
pub fn bridged_is_well_formed()
    ensures { BridgedIsWellFormed }
{}

/// A merged chip stands for the chip with the bridge.
pub fn merged_stands_for()
    ensures { MergedStandsFor }
{}

/// The cluster of a bridge holds it.
pub fn cluster_holds_bridge()
    ensures { ClusterHoldsBridge }
{}

/// A bridge has one cluster.
pub fn cluster_is_one()
    ensures { ClusterIsOne }
{}

/// Marks give the cluster of a bridge.
pub fn marks_give_cluster()
    ensures { MarksGiveCluster }
{}

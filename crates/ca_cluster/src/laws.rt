//! Laws of the definitions, each the contract of a function that does nothing.

ghost use Rattle.ca_cluster.specs.Laws.{MembersCanMerge, MergedIsFor};

/// The members of a cluster may be merged.
pub fn members_can_merge()
    ensures { MembersCanMerge }
{}

/// The merged chip stands for the chip with the bridge.
pub fn merged_is_for()
    ensures { MergedIsFor }
{}

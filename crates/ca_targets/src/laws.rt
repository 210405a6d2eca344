//! Laws of the definitions, each the contract of a function that does nothing.

ghost use Rattle.ca_targets.specs.Laws.{OneCluster, LibraryDefectsArePlaced};

/// Two merged chips for a bridge have the same core, and one short is the bridge.
pub fn one_cluster()
    ensures { OneCluster }
{}

/// The shorts of a cluster can be aimed at in each view of its chip.
pub fn library_defects_are_placed()
    ensures { LibraryDefectsArePlaced }
{}

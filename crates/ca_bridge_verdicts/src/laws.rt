//! Laws of the definitions, each the contract of a function that does nothing.

ghost use Rattle.ca_bridge_verdicts.specs.Laws.{BridgesAreTargets, GoodTargetsAreBridges};

/// Shorts that stand for bridges of a chip are targets.
pub fn bridges_are_targets()
    ensures { BridgesAreTargets }
{}

/// What is promised of their verdicts is so of the bridges.
pub fn good_targets_are_bridges()
    ensures { GoodTargetsAreBridges }
{}

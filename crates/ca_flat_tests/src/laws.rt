//! Examples of the definitions of chips and codes, each the contract of a function that does nothing.

ghost use Rattle.ca_flat_tests.specs.Inverter.{InverterIsChip, InverterIsFlat};
ghost use Rattle.ca_flat_tests.specs.Bare.{BareCellsAreCells};
ghost use Rattle.ca_flat_tests.specs.ByHand.{AreByHand};
ghost use Rattle.ca_flat_tests.specs.Keeper.{KeeperIsByHand};
ghost use Rattle.ca_flat_tests.specs.Blind.{BlindIsRuledOut};
ghost use Rattle.ca_flat_tests.specs.Tied.{TiedSupport, TiedReads};

/// A chip of one inverter is a chip.
pub fn inverter_is_chip()
    ensures { InverterIsChip }
{}

/// With the open gate of a transistor, its flat networks are networks.
pub fn inverter_is_flat()
    ensures { InverterIsFlat }
{}

/// Cells without devices may be in a chip, with one output pin or with none.
pub fn bare_cells_are_cells()
    ensures { BareCellsAreCells }
{}

/// Both bits of the tied netlist are in the support.
pub fn tied_support()
    ensures { TiedSupport }
{}

/// A whole code of the tied netlist, read token by token, and codes that are none.
pub fn tied_reads()
    ensures { TiedReads }
{}

/// Where nothing is observed, a leaf is a whole code.
pub fn blind_is_ruled_out()
    ensures { BlindIsRuledOut }
{}

/// Flat networks, good and with defects, are those that were worked out by hand.
pub fn are_by_hand()
    ensures { AreByHand }
{}

/// The flat network that the tests build by hand is that of a chip.
pub fn keeper_is_by_hand()
    ensures { KeeperIsByHand }
{}

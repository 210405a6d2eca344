//! A law of listed pairs, the contract of a function that does nothing.

ghost use Rattle.ca_expected.specs.Laws.{AimedPairsAreWhole};

/// Pairs that were found for targets have all pattern bits of the chip.
pub fn aimed_pairs_are_whole()
    ensures { AimedPairsAreWhole }
{}

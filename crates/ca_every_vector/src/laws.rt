//! The law of possible rows, the contract of a function that does nothing.

ghost use Rattle.ca_every_vector.specs.Laws.{ImpossibleIsUntestable};

/// A defect that no possible row exposes is one that no pair of the chip detects.
pub fn impossible_is_untestable()
    ensures { ImpossibleIsUntestable }
{}

ghost use Rattle.ca_every_vector.specs.Inside.{OutsideIsUntestable};

/// A defect none of whose exposing rows comes last where a flip leaves what is known is one that no pair of
/// the chip detects.
pub fn outside_is_untestable()
    ensures { OutsideIsUntestable }
{}

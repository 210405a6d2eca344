//! Laws of the flat network of a linked chip.

ghost use Rattle.ca_flatten.specs.Laws.{FlatIsWellFormed, FlatHasLines};

/// The flat network of a wired chip, good or with one of its defects, is one where it isn't too large.
pub fn flat_is_well_formed()
    ensures { FlatIsWellFormed }
{}

/// Each device of the flat network has a line in its text.
pub fn flat_has_lines()
    ensures { FlatHasLines }
{}

//! Laws of the texts of generated chips, each the contract of a function that does nothing.

ghost use Rattle.ca_make_laws.specs.Laws.{LibraryIsRead, NetlistIsRead, ChipHasTree};

/// The text of the cells reads as the three cells that are written out.
pub fn library_is_read()
    ensures { LibraryIsRead }
{}

/// The text of each generated chip reads as its netlist in numbers of bits, which is that of its tree.
pub fn netlist_is_read()
    ensures read { NetlistIsRead }
    ensures tree { ChipHasTree }
{}

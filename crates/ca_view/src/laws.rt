//! Laws of the core of a linked chip.

ghost use Rattle.ca_view.specs.Laws.{CoreIsChip};

/// The core of a chip that links is one that a flat network can be built on.
pub fn core_is_chip()
    ensures { CoreIsChip }
{}

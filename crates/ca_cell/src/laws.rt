//! The law of the limits, the contract of a function that does nothing.

ghost use Rattle.ca_cell.specs.Limits.{Limits};

/// The limits of used cells and of libraries.
pub fn limits()
    ensures { Limits }
{}

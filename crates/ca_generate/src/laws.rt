//! Laws of the definitions, each the contract of a function that does nothing.

ghost use Rattle.ca_generate.specs.Laws.{TooManyNeedsExposable};

/// Too many pairs are found only where more defects can be exposed than pairs may be listed: with at most
/// 65,536 defects that can be exposed, never.
pub fn too_many_needs_exposable()
    ensures { TooManyNeedsExposable }
{}

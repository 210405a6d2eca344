//! Laws of the words for input pins' sets. There is no code.

ghost use Rattle.ca_pin_sets.specs.Reached.{HomeIsFirstReaching};
ghost use Rattle.ca_pin_sets.specs.Resolved.{ResolvedStays};

/// The net whose node a net is, is the first input pin, in pin order, from which a chain of resistors leads
/// to it through inner nets alone, or the net itself where there is no such pin.
pub fn home_is_first_reaching()
    ensures { HomeIsFirstReaching }
{}

/// The resolved subcircuit of a resolved one is itself.
pub fn resolved_stays()
    ensures { ResolvedStays }
{}

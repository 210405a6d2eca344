//! Laws of linked chips and their wirings.

ghost use Rattle.ca_wiring.specs.Same.{HasSameDrivers, HasSameFirstTwo};

/// What drives a net of a chip is what drives the wires of that net in its wiring.
pub fn drivers_are_the_wirings()
    ensures drivers { HasSameDrivers }
    ensures first { HasSameFirstTwo }
{}

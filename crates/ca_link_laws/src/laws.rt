//! What the definitions imply, each law the contract of a function that does nothing.

ghost use Rattle.ca_link_laws.specs.Laws.{AlikeHaveOnePorts, AlikeHaveOneTrace, FirstBrokenIsOne};
ghost use Rattle.ca_link_laws.specs.Laws.{LinksAreAlike, LinksHaveOneCell};

/// Links of one wiring have the same instances on the same nets, and the same ports.
pub fn links_are_alike()
    ensures { LinksAreAlike }
{}

/// Over the same cells their library instances are of the same subcircuits.
pub fn links_have_one_cell()
    ensures { LinksHaveOneCell }
{}

/// Chips that are alike have the same chip inputs and the same observed outputs.
pub fn alike_have_one_ports()
    ensures { AlikeHaveOnePorts }
{}

/// They have the same chains, and the same causes to have none.
pub fn alike_have_one_trace()
    ensures { AlikeHaveOneTrace }
{}

/// The first rule that a netlist breaks is one, with all that its fault carries; of several loops any may be
/// reported.
pub fn first_broken_is_one()
    ensures { FirstBrokenIsOne }
{}

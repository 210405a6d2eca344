//! The law of the names of ports.

ghost use Rattle.ca_stil_laws.specs.Names.{PortsAreNamed};

use ca_syntax::read_text_has_tree;
use ca_token::names_are_plain;

/// Each port bit of a chip that was linked from a text has a name of the STIL form.
pub fn ports_are_named()
    ensures { PortsAreNamed }
{
    names_are_plain();
    read_text_has_tree();
}

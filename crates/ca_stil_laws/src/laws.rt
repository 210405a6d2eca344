//! The laws of the STIL texts of linked chips.

ghost use Rattle.ca_stil_laws.specs.Laws.{ChipValuesAreAllowed, ChipTextIsRead};

use ca_chip_stil::sites_are_ends;
use ca_stil_form::{chip_text_is_of_the_form, named_values_are_allowed};

/// The STIL form allows the values of a linked chip whose ports have names of the form, of its chains, its
/// pairs and their expected values.
pub fn chip_values_are_allowed()
    ensures { ChipValuesAreAllowed }
{
    sites_are_ends();
    named_values_are_allowed();
}

/// The STIL text of such a chip reads as these values.
pub fn chip_text_is_read()
    ensures { ChipTextIsRead }
{
    sites_are_ends();
    chip_values_are_allowed();
    chip_text_is_of_the_form();
}

//! The law of the patterns that `atpg` writes.

ghost use Rattle.ca_flow_laws.specs.Patterns.{AtpgTextIsRead};

use ca_chip_pairs::written_chip_is_read_back;
use ca_stil_laws::{chip_text_is_read, ports_are_named};

/// The STIL text of each answer of `atpg` reads as its pairs and their expected values, and is read back as
/// these.
pub fn atpg_text_is_read()
    ensures { AtpgTextIsRead }
{
    chip_text_is_read();
    ports_are_named();
    written_chip_is_read_back();
}

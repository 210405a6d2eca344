//! What the definitions imply.

ghost use Rattle.ca_stil_pairs.specs.Laws.{HasOneFile, WrittenIsReadBack, TextOfChipIsFile};

use ca_stil_form::chip_text_is_of_the_form;

/// A text is one file of a chip at most.
pub fn text_is_one_file()
    ensures { HasOneFile }
{}

/// The text that is written of a chip is the file of its pairs and expected values, and has no fault.
pub fn written_is_read_back()
    ensures { WrittenIsReadBack }
{
    chip_text_is_of_the_form();
    text_is_one_file();
}

/// A text of the form whose signals, groups and chains are those of a chip is a file of the chip.
pub fn text_of_chip_is_file()
    ensures { TextOfChipIsFile }
{}

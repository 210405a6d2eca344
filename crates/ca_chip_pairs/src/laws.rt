//! The laws of the chains of a linked chip, and of its STIL text.

ghost use Rattle.ca_chip_pairs.specs.Laws.{ChainsCover, TextOfLinkedChipIsFile, WrittenChipIsReadBack};

use ca_chip_stil::sites_are_ends;
use ca_stil_laws::chip_text_is_read;
use ca_stil_pairs::text_of_chip_is_file;

/// Each scan instance of a chip with whole chains is on one of them, once.
pub fn chains_cover()
    ensures { ChainsCover }
{}

/// The STIL text that is written of a linked chip, whose ports have names of the form, is the file of its
/// pairs and expected values, and has no fault.
pub fn written_chip_is_read_back()
    ensures { WrittenChipIsReadBack }
{
    sites_are_ends();
    chip_text_is_read();
    chains_cover();
}

/// A text of the form whose signals, groups and chains are those of a linked chip is a file of its pairs.
pub fn text_of_linked_chip_is_file()
    ensures { TextOfLinkedChipIsFile }
{
    sites_are_ends();
    chains_cover();
    text_of_chip_is_file();
}

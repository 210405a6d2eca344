//! The text of a fault, of which parts may be a word or numbers.
ghost use Rattle.std.specs.Prelude.{◌≡◌, ◌++◌, []};
ghost use Rattle.ca_fault.specs.FaultLine.{indented};
ghost use Rattle.ca_fault.specs.code.FaultLine.{joined_of};

use ca_lex::Text;

/// The text of a fault in four parts, the second a word or a number, and the last a number or nothing.
#[derive(Clone, Copy)]
pub(crate) struct FaultText<'a> {
    pub start: &'a [u8],
    pub word: &'a [u8],
    pub end: &'a [u8],
    pub last: &'a [u8],
}

impl<'a> FaultText<'a> {
    pub(crate) fn plain(start: &'a [u8]) -> Self
        ensures { joined_of result ≡ start.now }
    {
        FaultText::between(start, &[], &[])
    }

    /// A word or a number between two texts.
    pub(crate) fn between(start: &'a [u8], word: &'a [u8], end: &'a [u8]) -> Self
        ensures { joined_of result ≡ start.now ++ (word.now ++ end.now) }
    {
        FaultText {
            start,
            word,
            end,
            last: &[],
        }
    }

    pub(crate) fn with_word(start: &'a [u8], word: &'a Text) -> Self
        ensures { joined_of result ≡ start.now ++ word.now }
    {
        FaultText::between(start, word.as_bytes(), &[])
    }

    /// A line of its own, after two blanks; nothing where there is no word.
    pub(crate) fn indented(word: &'a Text) -> Self
        ensures { joined_of result ≡ indented word.now }
    {
        if word.is_empty() {
            return FaultText::plain(&[]);
        }
        FaultText::between(b"  ", word.as_bytes(), b"\n")
    }
}

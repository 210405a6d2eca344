//! Which words may be in a text, which are names, and sets of words.
ghost use Rattle.std.specs.Prelude.{◌≡◌, ◌<◌, ◌^◌, length, IfOk, Ok};
ghost use Rattle.std.specs.List.{list_all};
ghost use Rattle.ca_lex.specs.Reading.{Gives, unless};
ghost use Rattle.ca_names.specs.Names.{has_double};
ghost use Rattle.ca_spice.specs.declared.fault.SpiceKind.TheVariants.{DoubleName};
ghost use Rattle.ca_spice.specs.code.SpiceFault.{kind_reported};
ghost use Rattle.ca_spice.specs.Names.{is_text_byte, is_text, is_name_byte, is_name};
ghost use Rattle.ca_spice.specs.code.Names.{texts};

use crate::fault::{Refusal, SpiceKind};
use ca_names::NameSet;
use std::alloc::Global;

fn is_text_byte(byte: u8) -> bool
    ensures { result ≡ is_text_byte byte }
{
    33 <= byte && byte <= 126
}

fn is_text(word: &[u8]) -> bool
    ensures { result ≡ is_text word.now }
{
    word.iter().all(|byte| is_text_byte(*byte))
}

fn is_name_byte(byte: u8) -> bool
    ensures { result ≡ is_name_byte byte }
{
    !(byte == b'(' || byte == b')' || byte == b',' || byte == b'"' || byte == b'\'')
}

pub(crate) fn is_name(word: &[u8]) -> bool
    ensures { result ≡ is_name word.now }
{
    word.iter().all(|byte| is_name_byte(*byte))
}

pub(crate) fn all_text(words: &[&[u8]]) -> bool
    ensures { result ≡ list_all is_text (texts words.now) }
{
    let mut rest = words;
    'words: while let [word, more @ ..] = rest {
        if !is_text(word) {
            return false;
        }
        rest = more;
    }
    true
}

pub(crate) fn all_names(words: &[&[u8]]) -> bool
    ensures { result ≡ list_all is_name (texts words.now) }
{
    let mut rest = words;
    'words: while let [word, more @ ..] = rest {
        if !is_name(word) {
            return false;
        }
        rest = more;
    }
    true
}

/// The set of these words, if none occurs twice.
#[tactic(auto, unfolding(ca_names::specs::Names::repeats))]
pub(crate) fn set_of(alloc: Global, words: &[&[u8]]) -> Result<NameSet, Refusal>
    ensures read { Gives kind_reported (λ names. names) result
        (unless (has_double (texts words.now)) DoubleName (Ok (texts words.now))) }
    ensures few { IfOk result (λ names. length names < 2 ^ 32) }
{
    let mut names = NameSet::new(alloc);
    let mut rest = words;
    'words: while let [word, more @ ..] = rest {
        if names.has(word) {
            return Err(Refusal::Kind(SpiceKind::DoubleName));
        }
        names.add(alloc, word)?;
        rest = more;
    }
    Ok(names)
}

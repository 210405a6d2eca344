//! Words of a STIL text.

ghost use Rattle.std.specs.Prelude.{◌≡◌, ◌++◌, length, map, OnOk, decimal, replicate, codes};
ghost use Rattle.ca_stil.specs.Chip.{end_of, ends_of};
ghost use Rattle.ca_stil.specs.Words.{quoted, joined, joined_more, digit_of, level_of, key_text};

use crate::chip::{End, StilChain};
use ca_base::NoMemory;
use ca_lex::Text;
use ca_net::Trit;
use itoa::Buffer;

pub(crate) fn digit_of(bit: bool) -> u8
    ensures { result ≡ digit_of bit }
{
    if bit { b'1' } else { b'0' }
}

pub(crate) fn level_of(value: Trit) -> u8
    ensures { result ≡ level_of value }
{
    match value {
        Trit::Zero => b'L',
        Trit::One => b'H',
        Trit::X => b'X',
    }
}

/// Appends a name in double quotes.
pub(crate) fn push_quoted(text: &mut Text, name: &[u8]) -> Result<(), NoMemory>
    ensures { OnOk result (text.new ≡ text.old ++ quoted name.now) }
{
    text.append(b"\"")?;
    text.append(name)?;
    text.append(b"\"")
}

/// Appends a number.
pub(crate) fn push_decimal(text: &mut Text, number: usize) -> Result<(), NoMemory>
    ensures { OnOk result (text.new ≡ text.old ++ decimal number) }
{
    let mut buffer = Buffer::new();
    text.append(buffer.format(number).as_bytes())
}

/// Appends a word and a number after it, in double quotes.
pub(crate) fn push_numbered(text: &mut Text, word: &[u8], number: usize) -> Result<(), NoMemory>
    ensures { OnOk result (text.new ≡ text.old ++ quoted (word.now ++ decimal number)) }
{
    text.append(b"\"")?;
    text.append(word)?;
    push_decimal(text, number)?;
    text.append(b"\"")
}

/// Appends `count` copies of a letter.
pub(crate) fn push_letters(text: &mut Text, letter: u8, count: usize) -> Result<(), NoMemory>
    ensures { OnOk result (text.new ≡ text.old ++ replicate count letter) }
{
    for k in 0..count {
        text.push(letter)?;
    }
    Ok(())
}

// Appends names to others of their group.
#[tactic(auto, unfolding(crate::specs::Words::joined_more))]
fn push_more_names(text: &mut Text, names: &[Text]) -> Result<(), NoMemory>
    ensures { OnOk result (text.new ≡ text.old ++ joined_more names.now) }
{
    let mut rest = names;
    'names: while let [name, more @ ..] = rest {
        text.append(b" + ")?;
        push_quoted(text, name.as_bytes())?;
        rest = more;
    }
    Ok(())
}

/// Appends the names of a group.
pub(crate) fn push_names(text: &mut Text, names: &[Text]) -> Result<(), NoMemory>
    ensures { OnOk result (text.new ≡ text.old ++ joined names.now) }
{
    match names {
        [] => Ok(()),
        [name, more @ ..] => {
            push_quoted(text, name.as_bytes())?;
            push_more_names(text, more)
        }
    }
}

/// The port at an end of a chain.
pub(crate) fn end_of(chain: &StilChain, end: End) -> &[u8]
    ensures { result.now ≡ end_of end chain.now }
{
    match end {
        End::In => chain.scan_in.as_bytes(),
        End::Out => chain.scan_out.as_bytes(),
    }
}

// Appends the ports of chains to others.
#[tactic(auto, unfolding(crate::specs::Words::joined_more))]
fn push_more_ends(text: &mut Text, chains: &[StilChain], end: End) -> Result<(), NoMemory>
    ensures { OnOk result (text.new ≡ text.old ++ joined_more (ends_of end chains.now)) }
{
    let mut rest = chains;
    'chains: while let [chain, more @ ..] = rest {
        text.append(b" + ")?;
        push_quoted(text, end_of(chain, end))?;
        rest = more;
    }
    Ok(())
}

/// Appends the ports of the chains at one end.
pub(crate) fn push_ends(text: &mut Text, chains: &[StilChain], end: End) -> Result<(), NoMemory>
    ensures { OnOk result (text.new ≡ text.old ++ joined (ends_of end chains.now)) }
{
    match chains {
        [] => Ok(()),
        [chain, more @ ..] => {
            push_quoted(text, end_of(chain, end))?;
            push_more_ends(text, more, end)
        }
    }
}

/// Appends what a member of a statement begins with.
#[tactic(auto, unfolding(crate::specs::Words::key_text))]
pub(crate) fn push_key(text: &mut Text, name: &[u8]) -> Result<(), NoMemory>
    ensures { OnOk result (text.new ≡ text.old ++ key_text name.now) }
{
    text.append(b" ")?;
    push_quoted(text, name)?;
    text.append(b"=")
}

//! Tokens that are due.

ghost use Rattle.std.specs.Prelude.{◌≡◌, ◌++◌, ◌∷◌, [], length, decimal, replicate, OnOk};
ghost use Rattle.ca_stil_form.specs.Form.{read_fixed};
ghost use Rattle.ca_stil_form.specs.Frame.{quoted};
ghost use Rattle.ca_stil_form.specs.Tokens.{tokens_of};
ghost use Rattle.ca_stil_read.specs.code.Views.{IsPassed};

use crate::stop::Stop;
use crate::token::first_token;
use ca_base::NoMemory;
use ca_lex::{Names, Text};
use itoa::Buffer;
use std::alloc::Global;

/// The text after the tokens that are due.
pub(crate) fn pass<'a>(due: &[Text], text: &'a [u8]) -> Result<&'a [u8], Stop<'a>>
    ensures { IsPassed result (read_fixed due.now (tokens_of text.now)) }
{
    let mut wanted = due;
    let mut rest = text;
    'tokens: while let [want, more @ ..] = wanted {
        let Some((token, after)) = first_token(rest) else {
            return Err(Stop::Stuck(rest));
        };
        if want.as_bytes() != token {
            return Err(Stop::Stuck(rest));
        }
        wanted = more;
        rest = after;
    }
    Ok(rest)
}

/// Adds a token.
pub(crate) fn push_token(alloc: Global, due: &mut Names, token: &[u8]) -> Result<(), NoMemory>
    ensures { OnOk result (due.new ≡ due.old ++ token.now ∷ []) }
{
    due.push(Text::from_bytes(alloc, token)?)
}

/// Adds the tokens of a text.
pub(crate) fn push_fixed(alloc: Global, due: &mut Names, text: &[u8]) -> Result<(), NoMemory>
    ensures { OnOk result (due.new ≡ due.old ++ tokens_of text.now) }
{
    let mut rest = text;
    'tokens: loop {
        let Some((token, after)) = first_token(rest) else {
            return Ok(());
        };
        push_token(alloc, due, token)?;
        rest = after;
    }
}

/// Adds a name in double quotes.
pub(crate) fn push_quoted(alloc: Global, due: &mut Names, name: &[u8]) -> Result<(), NoMemory>
    ensures { OnOk result (due.new ≡ due.old ++ quoted name.now ∷ []) }
{
    let mut token = Text::new(alloc);
    token.append(b"\"")?;
    token.append(name)?;
    token.append(b"\"")?;
    due.push(token)
}

/// Adds a word and a number after it, in double quotes.
pub(crate) fn push_numbered(
    alloc: Global,
    due: &mut Names,
    word: &[u8],
    number: usize,
) -> Result<(), NoMemory>
    ensures { OnOk result (due.new ≡ due.old ++ quoted (word.now ++ decimal number) ∷ []) }
{
    let mut name = Text::from_bytes(alloc, word)?;
    let mut buffer = Buffer::new();
    name.append(buffer.format(number).as_bytes())?;
    push_quoted(alloc, due, name.as_bytes())
}

/// Adds a token of `count` times a letter.
pub(crate) fn push_letters(
    alloc: Global,
    due: &mut Names,
    letter: u8,
    count: usize,
) -> Result<(), NoMemory>
    ensures { OnOk result (due.new ≡ due.old ++ replicate count letter ∷ []) }
{
    let mut token = Text::new(alloc);
    for k in 0..count {
        token.push(letter)?;
    }
    due.push(token)
}

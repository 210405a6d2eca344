//! The line of a group.

ghost use Rattle.std.specs.Prelude.{◌≡◌, ◌++◌, ◌∷◌, ◌==◌, ℕ, List, [], length, not, codes, None, IfOk, OnOk};
ghost use Rattle.ca_stil_form.specs.Form.{read_fixed};
ghost use Rattle.ca_stil_form.specs.Frame.{quoted, joined, joined_more, group_word, quoted_from};
ghost use Rattle.ca_stil_form.specs.Frame.{fits_in_order};
ghost use Rattle.ca_stil_form.specs.Grammar.{word, fixed, before};
ghost use Rattle.ca_stil_form.specs.Tokens.{tokens_of};
ghost use Rattle.ca_stil_form.specs.Whole.{group_form};
ghost use Rattle.ca_stil_read.specs.code.Groups.{fits_of};
ghost use Rattle.ca_stil_read.specs.code.Kept.{open_of};
ghost use Rattle.ca_stil_read.specs.Onward.{begins_with, read_optional};
ghost use Rattle.ca_stil_read.specs.code.Views.{IsRead};

use crate::due::{pass, push_fixed, push_token};
use crate::expect::expect;
use crate::pool::{Fit, fits};
use crate::stop::Stop;
use crate::token::first_token;
use ca_base::NoMemory;
use ca_lex::{Names, Text};
use std::alloc::Global;

// Takes a byte of a group's token; answers whether it stands between double quotes, where `name` is the name
// up to it.
#[tactic(auto, unfolding(ca_stil_form::specs::Frame::quoted_from))]
fn take_byte(
    alloc: Global,
    names: &mut Names,
    name: &mut Text,
    inside: bool,
    byte: u8,
) -> Result<bool, NoMemory>
    ensures { OnOk result ((rest : List ℕ) → (now : _) → result ≡ Ok now
        → names.new ++ quoted_from (open_of now name.new) rest
        ≡ names.old ++ quoted_from (open_of inside name.old) (byte ∷ rest)) }
{
    if byte != b'"' {
        if inside {
            name.push(byte)?;
        }
        return Ok(inside);
    }
    if inside {
        names.push(name.copy(alloc)?)?;
        return Ok(false);
    }
    *name = Text::new(alloc);
    Ok(true)
}

// The texts between double quotes in a token.
#[tactic(auto, unfolding(ca_stil_form::specs::Frame::quoted_from))]
fn names_in(alloc: Global, token: &[u8]) -> Result<Names, NoMemory>
    ensures { IfOk result (λ names. names ≡ quoted_from None token.now) }
{
    let mut names = Names::new(alloc);
    let mut name = Text::new(alloc);
    let mut inside = false;
    let mut rest = token;
    'bytes: while let [byte, more @ ..] = rest {
        inside = take_byte(alloc, &mut names, &mut name, inside, *byte)?;
        rest = more;
    }
    Ok(names)
}

fn push_quoted(text: &mut Text, name: &[u8]) -> Result<(), NoMemory>
    ensures { OnOk result (text.new ≡ text.old ++ quoted name.now) }
{
    text.append(b"\"")?;
    text.append(name)?;
    text.append(b"\"")
}

#[tactic(auto, unfolding(ca_stil::specs::Words::joined_more))]
fn push_more(text: &mut Text, names: &[Text]) -> Result<(), NoMemory>
    ensures { OnOk result (text.new ≡ text.old ++ joined_more names.now) }
{
    let mut rest = names;
    'names: while let [name, more @ ..] = rest {
        text.append(b" + ")?;
        push_quoted(text, name.as_bytes())?;
        rest = more;
    }
    Ok(())
}

fn push_joined(text: &mut Text, names: &[Text]) -> Result<(), NoMemory>
    ensures { OnOk result (text.new ≡ text.old ++ joined names.now) }
{
    match names {
        [] => Ok(()),
        [name, more @ ..] => {
            push_quoted(text, name.as_bytes())?;
            push_more(text, more)
        }
    }
}

// A group's names in single quotes.
fn group_word(alloc: Global, names: &[Text]) -> Result<Text, NoMemory>
    ensures { IfOk result (λ text. text ≡ group_word names.now) }
{
    let mut text = Text::new(alloc);
    text.append(b"'")?;
    push_joined(&mut text, names)?;
    text.append(b"'")?;
    Ok(text)
}

// A group's names, and the text after them.
fn next_names<'a>(
    alloc: Global,
    fit: Fit<'_>,
    text: &'a [u8],
) -> Result<(Names, &'a [u8]), Stop<'a>>
    ensures { IsRead (λ names. names) result
        ((word (fits_of fit.entry) group_word (quoted_from None)).read (tokens_of text.now)) }
{
    let Some((token, after)) = first_token(text) else {
        return Err(Stop::Stuck(text));
    };
    let names = names_in(alloc, token)?;
    let spelled = group_word(alloc, names.as_slice())?;
    if !fits(fit, names.as_slice()) {
        return Err(Stop::Stuck(text));
    }
    if spelled.as_bytes() != token {
        return Err(Stop::Stuck(text));
    }
    Ok((names, after))
}

// A group's names with what closes its line, and the text after that.
fn names_line<'a>(
    alloc: Global,
    fit: Fit<'_>,
    text: &'a [u8],
) -> Result<(Names, &'a [u8]), Stop<'a>>
    ensures { IsRead (λ names. names) result
        ((before (word (fits_of fit.entry) group_word (quoted_from None)) (fixed (codes ";\n"))).read
        (tokens_of text.now)) }
{
    let (names, rest) = next_names(alloc, fit, text)?;
    let rest = expect(b";\n", rest)?;
    Ok((names, rest))
}

// What a group's line begins with.
fn line_begins(alloc: Global, key: &[u8]) -> Result<Names, NoMemory>
    ensures { IfOk result (λ due. due ≡ key.now ∷ tokens_of (codes "=")) }
{
    let mut due = Names::new(alloc);
    push_token(alloc, &mut due, key)?;
    push_fixed(alloc, &mut due, b"=")?;
    Ok(due)
}

/// The names of the group of this key, and the text after its line.
pub(crate) fn next_group<'a>(
    alloc: Global,
    key: &[u8],
    fit: Fit<'_>,
    text: &'a [u8],
) -> Result<(Names, &'a [u8]), Stop<'a>>
    ensures { IsRead (λ names. names) result
        ((group_form key.now (fits_of fit.entry)).read (tokens_of text.now)) }
{
    let due = line_begins(alloc, key)?;
    let rest = pass(due.as_slice(), text)?;
    names_line(alloc, fit, rest)
}

/// Whether a text begins with this token.
pub(crate) fn begins_with(key: &[u8], text: &[u8]) -> bool
    ensures { result ≡ begins_with key.now (tokens_of text.now) }
{
    match first_token(text) {
        None => false,
        Some((token, _)) => key == token,
    }
}

/// The names of the group of this key, which may be left out, and the text after it. They are some of these
/// names, in their order.
pub(crate) fn group_if_any<'a>(
    alloc: Global,
    key: &[u8],
    pool: &[Text],
    text: &'a [u8],
) -> Result<(Option<Names>, &'a [u8]), Stop<'a>>
    ensures { IsRead (λ names. names) result (read_optional (not (length pool.now == 0)) key.now
        (group_form key.now (fits_in_order pool.now)).read (tokens_of text.now)) }
{
    if pool.len() == 0 {
        return Ok((None, text));
    }
    if !begins_with(key, text) {
        return Ok((None, text));
    }
    let (names, rest) = next_group(alloc, key, Fit::InOrder(pool), text)?;
    Ok((Some(names), rest))
}

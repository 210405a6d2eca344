//! Words of bits and of expected values.

ghost use Rattle.std.specs.Prelude.{◌≡◌, ◌++◌, ◌==◌, ◌≤◌, [], map, length, take, drop, MatchOption, OnOk};
ghost use Rattle.std.specs.Prelude.{None, Some};
ghost use Rattle.std.specs.List.{list_all};
ghost use Rattle.ca_stil_form.specs.Form.{read_one};
ghost use Rattle.ca_stil_form.specs.Pattern.{level_at};
ghost use Rattle.ca_stil_form.specs.Tokens.{tokens_of};
ghost use Rattle.ca_stil_read.specs.Plan.{bits_of, levels_of};
ghost use Rattle.ca_stil_read.specs.code.Kept.{is_bit, is_level, is_one, IsTaken};

use crate::stop::Stop;
use crate::token::first_token;
use ca_base::{List, NoMemory};
use ca_net::Trit;
use ca_pair::Pair;

// Whether all bytes are this letter.
fn all_are(letter: u8, text: &[u8]) -> bool
    ensures { result ≡ list_all (λ byte. byte == letter) text.now }
{
    let mut rest = text;
    'bytes: while let [byte, more @ ..] = rest {
        if *byte != letter {
            return false;
        }
        rest = more;
    }
    true
}

fn all_bits(text: &[u8]) -> bool
    ensures { result ≡ list_all is_bit text.now }
{
    let mut rest = text;
    'bytes: while let [byte, more @ ..] = rest {
        if *byte != b'0' && *byte != b'1' {
            return false;
        }
        rest = more;
    }
    true
}

fn all_levels(text: &[u8]) -> bool
    ensures { result ≡ list_all is_level text.now }
{
    let mut rest = text;
    'bytes: while let [byte, more @ ..] = rest {
        if *byte != b'L' && *byte != b'H' && *byte != b'X' {
            return false;
        }
        rest = more;
    }
    true
}

// The digits of the bits that a token spells, after zeros that fill up.
fn bits_in(token: &[u8], used: usize, filled: usize) -> Option<&[u8]>
    ensures { MatchOption result (bits_of used filled token.now ≡ None)
        (λ digits. bits_of used filled token.now ≡ Some (map is_one digits.now)) }
{
    if token.len() < filled {
        return None;
    }
    let (fill, digits) = token.split_at(filled);
    if digits.len() != used {
        return None;
    }
    if !all_are(b'0', fill) {
        return None;
    }
    if !all_bits(digits) {
        return None;
    }
    Some(digits)
}

// The letters of the values that a token spells, before X that fill up.
fn levels_in(token: &[u8], used: usize, filled: usize) -> Option<&[u8]>
    ensures { MatchOption result (levels_of used filled token.now ≡ None)
        (λ letters. levels_of used filled token.now ≡ Some (map level_at letters.now)) }
{
    if token.len() < used {
        return None;
    }
    let (letters, fill) = token.split_at(used);
    if fill.len() != filled {
        return None;
    }
    if !all_are(b'X', fill) {
        return None;
    }
    if !all_levels(letters) {
        return None;
    }
    Some(letters)
}

// Adds the bits of digits.
fn push_bits(bits: &mut Pair, digits: &[u8]) -> Result<(), NoMemory>
    ensures { OnOk result (bits.new ≡ bits.old ++ map is_one digits.now) }
{
    let mut rest = digits;
    'digits: while let [digit, more @ ..] = rest {
        bits.push(*digit == b'1')?;
        rest = more;
    }
    Ok(())
}

// The value of a letter.
fn level_at(letter: u8) -> Trit
    ensures { result ≡ level_at letter }
{
    if letter == b'L' {
        Trit::Zero
    } else if letter == b'H' {
        Trit::One
    } else {
        Trit::X
    }
}

// Adds the values of letters.
fn push_levels(levels: &mut List<Trit>, letters: &[u8]) -> Result<(), NoMemory>
    ensures { OnOk result (levels.new ≡ levels.old ++ map level_at letters.now) }
{
    let mut rest = letters;
    'letters: while let [letter, more @ ..] = rest {
        levels.push(level_at(*letter))?;
        rest = more;
    }
    Ok(())
}

/// Takes a word of `used` bits after `filled` zeros, adds the bits, and answers the text after it.
pub(crate) fn take_bits<'a>(
    bits: &mut Pair,
    used: usize,
    filled: usize,
    text: &'a [u8],
) -> Result<&'a [u8], Stop<'a>>
    ensures { IsTaken bits.old bits.new result (read_one (bits_of used filled) (tokens_of text.now)) }
{
    let Some((token, after)) = first_token(text) else {
        return Err(Stop::Stuck(text));
    };
    let Some(digits) = bits_in(token, used, filled) else {
        return Err(Stop::Stuck(text));
    };
    push_bits(bits, digits)?;
    Ok(after)
}

/// Takes a word of `used` expected values before `filled` X, adds the values, and answers the text after it.
pub(crate) fn take_levels<'a>(
    levels: &mut List<Trit>,
    used: usize,
    filled: usize,
    text: &'a [u8],
) -> Result<&'a [u8], Stop<'a>>
    ensures { IsTaken levels.old levels.new result (read_one (levels_of used filled) (tokens_of text.now)) }
{
    let Some((token, after)) = first_token(text) else {
        return Err(Stop::Stuck(text));
    };
    let Some(letters) = levels_in(token, used, filled) else {
        return Err(Stop::Stuck(text));
    };
    push_levels(levels, letters)?;
    Ok(after)
}

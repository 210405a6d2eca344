//! Tokens that are fixed, and words.
ghost use Rattle.std.specs.Prelude.{◌≡◌, map, codes};
ghost use Rattle.ca_stil_form.specs.Form.{read_fixed};
ghost use Rattle.ca_stil_form.specs.Tokens.{tokens_of};
ghost use Rattle.ca_stil_read.specs.code.Views.{IsPassed, IsRead};
ghost use Rattle.ca_stil_form.specs.Grammar.{before, fixed};
ghost use Rattle.ca_stil_form.specs.Whole.{direction_form};

use crate::stop::Stop;
use crate::token::first_token;

/// The text after the tokens of a fixed text.
pub(crate) fn expect<'a>(due: &[u8], text: &'a [u8]) -> Result<&'a [u8], Stop<'a>>
    ensures { IsPassed result (read_fixed (tokens_of due.now) (tokens_of text.now)) }
{
    let mut wanted = due;
    let mut rest = text;
    'tokens: loop {
        let Some((want, more)) = first_token(wanted) else {
            return Ok(rest);
        };
        let Some((token, after)) = first_token(rest) else {
            return Err(Stop::Stuck(rest));
        };
        if want != token {
            return Err(Stop::Stuck(rest));
        }
        wanted = more;
        rest = after;
    }
}

/// The direction of a signal, and the text after it.
pub(crate) fn direction<'a>(text: &'a [u8]) -> Result<(bool, &'a [u8]), Stop<'a>>
    ensures { IsRead (λ input. input) result (direction_form.read (tokens_of text.now)) }
{
    let Some((token, after)) = first_token(text) else {
        return Err(Stop::Stuck(text));
    };
    if token == b"In".as_slice() {
        return Ok((true, after));
    }
    if token == b"Out".as_slice() {
        return Ok((false, after));
    }
    Err(Stop::Stuck(text))
}

/// The direction of a signal with what closes it, and the text after that.
pub(crate) fn signal_end<'a>(text: &'a [u8]) -> Result<(bool, &'a [u8]), Stop<'a>>
    ensures { IsRead (λ input. input) result
        ((before direction_form (fixed (codes ";\n"))).read (tokens_of text.now)) }
{
    let (input, rest) = direction(text)?;
    let rest = expect(b";\n", rest)?;
    Ok((input, rest))
}

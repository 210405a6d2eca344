//! Signals.

ghost use Rattle.std.specs.Prelude.{◌≡◌, map, codes};
ghost use Rattle.ca_stil_form.specs.Form.{read_items};
ghost use Rattle.ca_stil_form.specs.Tokens.{tokens_of};
ghost use Rattle.ca_stil_form.specs.Value.{signal_seen};
ghost use Rattle.ca_stil_form.specs.Whole.{name_form, signal_form};
ghost use Rattle.ca_stil_read.specs.code.Views.{IsRead};
ghost use Rattle.ca_stil_read.specs.Whole.{read_signals};

use crate::expect::{expect, signal_end};
use crate::name::name_of;
use crate::stop::Stop;
use crate::token::first_token;
use ca_base::List;
use ca_lex::Text;
use ca_stil::Signal;
use std::alloc::Global;

// A name, and the text after it.
fn next_name<'a>(alloc: Global, text: &'a [u8]) -> Result<(Text, &'a [u8]), Stop<'a>>
    ensures { IsRead (λ name. name) result (name_form.read (tokens_of text.now)) }
{
    let Some((token, after)) = first_token(text) else {
        return Err(Stop::Stuck(text));
    };
    let Some(bytes) = name_of(token) else {
        return Err(Stop::Stuck(text));
    };
    let name = Text::from_bytes(alloc, bytes)?;
    Ok((name, after))
}

// A signal, and the text after it.
#[tactic(auto, unfolding(ca_stil_form::specs::Form::read_fixed))]
fn next_signal<'a>(alloc: Global, text: &'a [u8]) -> Result<(Signal, &'a [u8]), Stop<'a>>
    ensures { IsRead signal_seen result (signal_form.read (tokens_of text.now)) }
{
    let (name, rest) = next_name(alloc, text)?;
    let (is_input, rest) = signal_end(rest)?;
    Ok((Signal { name, is_input }, rest))
}

// The signals up to the brace that closes them, and the text after it.
fn all_signals<'a>(alloc: Global, text: &'a [u8]) -> Result<(List<Signal>, &'a [u8]), Stop<'a>>
    ensures { IsRead (λ signals. map signal_seen signals) result
        (read_items (codes "}") (λ number. signal_form.read) 0 (tokens_of text.now)) }
{
    let mut signals = List::new(alloc);
    let mut rest = text;
    'signals: loop {
        let Some((token, after)) = first_token(rest) else {
            return Err(Stop::Stuck(rest));
        };
        if token == b"}".as_slice() {
            return Ok((signals, after));
        }
        let (signal, more) = next_signal(alloc, rest)?;
        signals.push(signal)?;
        rest = more;
    }
}

/// The signals of a text, and the text from its groups on.
#[tactic(auto, unfolding(crate::specs::Whole::read_signals))]
pub(crate) fn signals_of<'a>(
    alloc: Global,
    text: &'a [u8],
) -> Result<(List<Signal>, &'a [u8]), Stop<'a>>
    ensures { IsRead (λ signals. map signal_seen signals) result (read_signals (tokens_of text.now)) }
{
    let rest = expect(b"STIL 1.0;\nSignals {\n", text)?;
    let (signals, rest) = all_signals(alloc, rest)?;
    let rest = expect(b"SignalGroups {\n", rest)?;
    Ok((signals, rest))
}

//! Pairs of vectors, and the values that are expected under each.

ghost use Rattle.std.specs.Prelude.{◌≡◌, ◌≤◌, ◌^◌, [], map, length, codes};
ghost use Rattle.ca_stil_form.specs.Frame.{longest};
ghost use Rattle.ca_stil_form.specs.Tokens.{tokens_of};
ghost use Rattle.ca_stil_read.specs.code.Frames.{frame_seen};
ghost use Rattle.ca_stil_read.specs.Kept.{pair_seen};
ghost use Rattle.ca_stil_read.specs.code.Kept.{IsAdded};
ghost use Rattle.ca_stil_read.specs.Plan.{read_step, read_steps, pair_steps, read_pair};
ghost use Rattle.ca_stil_read.specs.code.Views.{IsRead};
ghost use Rattle.ca_stil_read.specs.Whole.{read_pairs};

use crate::due::pass;
use crate::frame::Frame;
use crate::plan::{Step, pair_begins, pair_steps};
use crate::stop::Stop;
use crate::token::first_token;
use crate::word::{take_bits, take_levels};
use ca_base::List;
use ca_net::Trit;
use ca_pair::Pair;
use std::alloc::Global;

/// A pair as its text has it: all bits, one after another, and all expected values.
#[derive(Drop)]
pub struct TextPair {
    pub bits: Pair,
    pub levels: List<Trit>,
}

// Takes what a step wants, and answers the text after it.
fn take_step<'a>(step: &Step, pair: &mut TextPair, text: &'a [u8]) -> Result<&'a [u8], Stop<'a>>
    ensures { IsAdded (pair_seen pair.old) (pair_seen pair.new) result
        (read_step step.now (tokens_of text.now)) }
{
    match step {
        Step::Due(due) => pass(due.as_slice(), text),
        Step::Bits { used, filled } => take_bits(&mut pair.bits, *used, *filled, text),
        Step::Levels { used, filled } => take_levels(&mut pair.levels, *used, *filled, text),
    }
}

// What the steps of a pair read, and the text after it.
#[tactic(auto, unfolding(crate::specs::Plan::read_steps))]
fn take_steps<'a>(
    alloc: Global,
    steps: &[Step],
    text: &'a [u8],
) -> Result<(TextPair, &'a [u8]), Stop<'a>>
    ensures { IsRead pair_seen result (read_steps steps.now (tokens_of text.now)) }
{
    let mut pair = TextPair {
        bits: Pair::new(alloc),
        levels: List::new(alloc),
    };
    let mut rest = text;
    let mut left = steps;
    'steps: while let [step, more @ ..] = left {
        rest = take_step(step, &mut pair, rest)?;
        left = more;
    }
    Ok((pair, rest))
}

// The pair of this number, and the text after it.
fn next_pair<'a>(
    alloc: Global,
    frame: &Frame,
    steps: &[Step],
    number: usize,
    text: &'a [u8],
) -> Result<(TextPair, &'a [u8]), Stop<'a>>
    requires { steps.now ≡ pair_steps (frame_seen frame.now) }
    ensures { IsRead pair_seen result (read_pair (frame_seen frame.now) number (tokens_of text.now)) }
{
    let due = pair_begins(alloc, frame, number)?;
    let rest = pass(due.as_slice(), text)?;
    take_steps(alloc, steps, rest)
}

/// The pairs up to the brace that closes them, and the text after it.
pub(crate) fn pairs_of<'a>(
    alloc: Global,
    frame: &Frame,
    text: &'a [u8],
) -> Result<(List<TextPair>, &'a [u8]), Stop<'a>>
    ensures { IsRead (λ pairs. map pair_seen pairs) result
        (read_pairs (frame_seen frame.now) 0 (tokens_of text.now)) }
{
    let steps = pair_steps(alloc, frame)?;
    let mut pairs = List::new(alloc);
    let mut rest = text;
    'pairs: loop {
        let Some((token, after)) = first_token(rest) else {
            return Err(Stop::Stuck(rest));
        };
        if token == b"}".as_slice() {
            return Ok((pairs, after));
        }
        let (pair, more) = next_pair(alloc, frame, steps.as_slice(), pairs.len(), rest)?;
        pairs.push(pair)?;
        rest = more;
    }
}

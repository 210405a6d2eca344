//! A STIL text as its values.

ghost use Rattle.std.specs.Prelude.{◌≡◌, ◌++◌, map, IfOk, IfErr, OnOk, codes};
ghost use Rattle.ca_stil_form.specs.Tokens.{tokens_of};
ghost use Rattle.ca_stil_form.specs.Value.{signal_seen};
ghost use Rattle.ca_stil_form.specs.Whole.{timing, pattern_begins, frame_of, input_waves, output_waves};
ghost use Rattle.ca_stil_form.specs.Whole.{scan_waves};
ghost use Rattle.ca_stil_form.specs.Whole.{chains_begin, chains_end, macro, shifted};
ghost use Rattle.ca_stil_form.specs.Grammar.{pieces};
ghost use Rattle.ca_stil_read.specs.Groups.{scan_in};
ghost use Rattle.ca_stil_read.specs.code.Groups.{groups_seen};
ghost use Rattle.ca_stil_read.specs.Kept.{pair_seen};
ghost use Rattle.ca_stil_read.specs.Text.{text_seen, ReadsAs, IsCause};
ghost use Rattle.ca_stil_read.specs.code.Text.{rest_seen, IsWhole};
ghost use Rattle.ca_stil_read.specs.code.Views.{IsRead};
ghost use Rattle.ca_stil_read.specs.Whole.{read_pairs, read_rest, read_all};
ghost use Rattle.ca_stil_read.specs.declared.read.TextFault.TheVariants as fault;

use crate::block::{pattern_begins, timing};
use crate::chain::all_cells;
use crate::due::pass;
use crate::frame::frame_of;
use crate::groups::{Groups, groups_of};
use crate::line::{count_tokens, fault_line};
use crate::long::no_pairs;
use crate::pair::{TextPair, pairs_of};
use crate::signal::signals_of;
use crate::stop::Stop;
use crate::token::first_token;
use ca_base::{List, NoMemory};
use ca_lex::Names;
use ca_stil::Signal;
use std::alloc::Global;

/// The values of a text: the signals, the groups that are there, the number of cells of each chain, and the
/// pairs.
#[derive(Drop)]
pub struct StilText {
    pub signals: List<Signal>,
    pub groups: Groups,
    pub cells: Names,
    pub pairs: List<TextPair>,
}

/// Why a text isn't read: its first faulty token is in this line.
#[derive(Drop)]
pub enum TextFault {
    At { line: usize },
    NoMemory,
}

impl From<NoMemory> for TextFault {
    ghost from_gives = { λ _ e. e ≡ fault.NoMemory };

    fn from(_: NoMemory) -> Self {
        TextFault::NoMemory
    }
}

/// What stands after the groups: the numbers of cells of the chains, and the pairs.
#[derive(Drop)]
struct TextRest {
    cells: Names,
    pairs: List<TextPair>,
}

// The pairs up to the brace that closes them, and the text after it.
fn all_pairs<'a>(
    alloc: Global,
    groups: &Groups,
    cells: &Names,
    text: &'a [u8],
) -> Result<(List<TextPair>, &'a [u8]), Stop<'a>>
    ensures { IsRead (λ pairs. map pair_seen pairs) result (read_pairs (frame_of groups.now.inputs
        groups.now.outputs (scan_in groups.now.scan) cells.now) 0 (tokens_of text.now)) }
{
    match frame_of(alloc, groups, cells)? {
        Some(frame) => pairs_of(alloc, &frame, text),
        None => no_pairs(alloc, groups, cells, text),
    }
}

// What stands after the groups, and the text after that.
#[tactic(auto, unfolding(crate::specs::Whole::read_rest))]
fn rest_of<'a>(
    alloc: Global,
    groups: &Groups,
    text: &'a [u8],
) -> Result<(TextRest, &'a [u8]), Stop<'a>>
    ensures { IsRead rest_seen result
        (read_rest groups.now.inputs groups.now.outputs (scan_in groups.now.scan) (tokens_of text.now)) }
{
    let begins = timing(alloc, groups)?;
    let rest = pass(begins.as_slice(), text)?;
    let (cells, rest) = all_cells(alloc, &groups.scan, rest)?;
    let begins = pattern_begins(alloc, &groups.scan)?;
    let rest = pass(begins.as_slice(), rest)?;
    let (pairs, rest) = all_pairs(alloc, groups, &cells, rest)?;
    Ok((TextRest { cells, pairs }, rest))
}

// The values of a text, and what stands after them.
#[tactic(auto, unfolding(crate::specs::Whole::read_all))]
fn all_of<'a>(alloc: Global, text: &'a [u8]) -> Result<(StilText, &'a [u8]), Stop<'a>>
    ensures { IsRead text_seen result (read_all (tokens_of text.now)) }
{
    let (signals, rest) = signals_of(alloc, text)?;
    let (groups, rest) = groups_of(alloc, signals.as_slice(), rest)?;
    let (more, rest) = rest_of(alloc, &groups, rest)?;
    Ok((
        StilText {
            signals,
            groups,
            cells: more.cells,
            pairs: more.pairs,
        },
        rest,
    ))
}

// The values of a text, where nothing stands after them.
fn whole_of<'a>(alloc: Global, text: &'a [u8]) -> Result<StilText, Stop<'a>>
    ensures { IsWhole result (read_all (tokens_of text.now)) }
{
    let (found, rest) = all_of(alloc, text)?;
    match first_token(rest) {
        None => Ok(found),
        Some(_) => Err(Stop::Stuck(rest)),
    }
}

/// The values of a text of the form. A line is counted from 1; it is the one in which the first token begins
/// with which no text of the form goes on, or the last one where the text ends too early. Memory is taken for
/// what is kept: a bit for each bit of a pair, a byte for each expected value.
pub fn read_text(alloc: Global, bytes: &[u8]) -> Result<StilText, TextFault>
    ensures ok { IfOk result (ReadsAs bytes.now) }
    ensures cause { IfErr result (IsCause bytes.now) }
{
    match whole_of(alloc, bytes) {
        Ok(text) => Ok(text),
        Err(Stop::NoMemory) => Err(TextFault::NoMemory),
        Err(Stop::Stuck(rest)) => Err(TextFault::At {
            line: fault_line(bytes, count_tokens(rest)),
        }),
    }
}

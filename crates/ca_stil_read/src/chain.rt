//! The blocks of the chains.

ghost use Rattle.std.specs.Prelude.{◌≡◌, ◌++◌, ◌∷◌, ◌+◌, ◌<◌, ◌≤◌, ℕ, [], length, codes, decimal, IfOk, true};
ghost use Rattle.std.specs.List.{list_all};
ghost use Rattle.ca_lex.specs.Length.{is_digit};
ghost use Rattle.ca_stil_form.specs.Form.{read_fixed, read_each};
ghost use Rattle.ca_stil_form.specs.Frame.{quoted};
ghost use Rattle.ca_stil_form.specs.Grammar.{word};
ghost use Rattle.ca_stil_form.specs.Tokens.{tokens_of};
ghost use Rattle.ca_stil_form.specs.Whole.{Ports, numbered, is_count, chain_begins, chain_ends, chain_form};
ghost use Rattle.ca_stil_read.specs.Groups.{scan_in};
ghost use Rattle.ca_stil_read.specs.code.Kept.{ports_at};
ghost use Rattle.ca_stil_read.specs.code.Views.{IsRead};
ghost use Rattle.ca_stil_read.specs.Whole.{read_cells};

use crate::due::{pass, push_fixed, push_numbered, push_quoted};
use crate::groups::ScanGroups;
use crate::stop::Stop;
use crate::token::first_token;
use ca_base::NoMemory;
use ca_lex::{Names, Text};
use std::alloc::Global;

fn is_digit(byte: u8) -> bool
    ensures { result ≡ is_digit byte }
{
    48 <= byte && byte <= 57
}

fn all_digits(text: &[u8]) -> bool
    ensures { result ≡ list_all is_digit text.now }
{
    let mut rest = text;
    'bytes: while let [byte, more @ ..] = rest {
        if !is_digit(*byte) {
            return false;
        }
        rest = more;
    }
    true
}

// Whether a token is a number of cells.
fn is_count(token: &[u8]) -> bool
    ensures { result ≡ is_count token.now }
{
    match token {
        [] => false,
        [digit, ..] => *digit != b'0' && all_digits(token),
    }
}

// A number of cells as its digits, and the text after it.
fn next_count<'a>(alloc: Global, text: &'a [u8]) -> Result<(Text, &'a [u8]), Stop<'a>>
    ensures { IsRead (λ digits. digits) result
        ((word is_count (λ digits. digits) (λ token. token)).read (tokens_of text.now)) }
{
    let Some((token, after)) = first_token(text) else {
        return Err(Stop::Stuck(text));
    };
    if !is_count(token) {
        return Err(Stop::Stuck(text));
    }
    let digits = Text::from_bytes(alloc, token)?;
    Ok((digits, after))
}

// What the block of a chain begins with.
fn chain_begins(
    alloc: Global,
    number: usize,
    scan_in: &[u8],
    scan_out: &[u8],
) -> Result<Names, NoMemory>
    ensures { IfOk result (λ due. due ≡ (chain_begins (ports_at number scan_in.now scan_out.now)).tokens) }
{
    let _ = scan_in;
    let _ = scan_out;
    let mut due = Names::new(alloc);
    push_fixed(alloc, &mut due, b"  ScanChain ")?;
    push_numbered(alloc, &mut due, b"chain", number)?;
    push_fixed(alloc, &mut due, b" {\n    ScanLength ")?;
    Ok(due)
}

// What it ends with.
fn chain_ends(
    alloc: Global,
    number: usize,
    scan_in: &[u8],
    scan_out: &[u8],
) -> Result<Names, NoMemory>
    ensures { IfOk result (λ due. due ≡ (chain_ends (ports_at number scan_in.now scan_out.now)).tokens) }
{
    let _ = number;
    let mut due = Names::new(alloc);
    push_fixed(alloc, &mut due, b";\n    ScanIn ")?;
    push_quoted(alloc, &mut due, scan_in)?;
    push_fixed(alloc, &mut due, b";\n    ScanOut ")?;
    push_quoted(alloc, &mut due, scan_out)?;
    push_fixed(alloc, &mut due, b";\n  }\n")?;
    Ok(due)
}

// The number of cells of a chain as its digits, and the text after the chain's block.
fn next_chain<'a>(
    alloc: Global,
    number: usize,
    scan_in: &[u8],
    scan_out: &[u8],
    text: &'a [u8],
) -> Result<(Text, &'a [u8]), Stop<'a>>
    ensures { IsRead (λ digits. digits) result
        ((chain_form (ports_at number scan_in.now scan_out.now)).read (tokens_of text.now)) }
{
    let begins = chain_begins(alloc, number, scan_in, scan_out)?;
    let ends = chain_ends(alloc, number, scan_in, scan_out)?;
    let rest = pass(begins.as_slice(), text)?;
    let (digits, rest) = next_count(alloc, rest)?;
    let rest = pass(ends.as_slice(), rest)?;
    Ok((digits, rest))
}

// The numbers of cells of the chains with these ports, and the text after their blocks.
fn cells_of<'a>(
    alloc: Global,
    scan_ins: &[Text],
    scan_outs: &[Text],
    text: &'a [u8],
) -> Result<(Names, &'a [u8]), Stop<'a>>
    ensures { IsRead (λ cells. cells) result (read_each (λ ports. (chain_form ports).read)
        (numbered 0 scan_ins.now scan_outs.now) (tokens_of text.now)) }
{
    let mut cells = Names::new(alloc);
    let mut rest = text;
    let count = scan_ins.len().min(scan_outs.len());
    for number in 0..count {
        let (digits, after) = next_chain(
            alloc,
            number,
            scan_ins[number].as_bytes(),
            scan_outs[number].as_bytes(),
            rest,
        )?;
        cells.push(digits)?;
        rest = after;
    }
    Ok((cells, rest))
}

/// The numbers of cells of all chains, and the text after their blocks.
#[tactic(auto, unfolding(crate::specs::Whole::read_cells, ca_stil_form::specs::Form::read_each))]
pub(crate) fn all_cells<'a>(
    alloc: Global,
    scan: &Option<ScanGroups>,
    text: &'a [u8],
) -> Result<(Names, &'a [u8]), Stop<'a>>
    ensures { IsRead (λ cells. cells) result (read_cells (scan_in scan.now) (tokens_of text.now)) }
{
    match scan {
        None => Ok((Names::new(alloc), text)),
        Some(groups) => cells_of(
            alloc,
            groups.scan_ins.as_slice(),
            groups.scan_outs.as_slice(),
            text,
        ),
    }
}

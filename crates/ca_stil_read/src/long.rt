//! The pairs of a text that says of a chain that it has more cells than any text has bytes.

ghost use Rattle.std.specs.Prelude.{◌≡◌, ◌++◌, ◌∷◌, ◌≤◌, ◌^◌, map, codes, decimal, IfOk};
ghost use Rattle.ca_stil_form.specs.Frame.{longest, quoted};
ghost use Rattle.ca_stil_form.specs.Tokens.{tokens_of};
ghost use Rattle.ca_stil_form.specs.Whole.{chains_of, ports_of, frame_of};
ghost use Rattle.ca_stil_read.specs.Groups.{scan_in};
ghost use Rattle.ca_stil_read.specs.Kept.{pair_seen};
ghost use Rattle.ca_stil_read.specs.code.Long.{due_before, first_due};
ghost use Rattle.ca_stil_read.specs.Plan.{read_pair};
ghost use Rattle.ca_stil_read.specs.code.Views.{IsRead, IsStopped};
ghost use Rattle.ca_stil_read.specs.Whole.{read_pairs};

use crate::due::{pass, push_fixed, push_numbered, push_quoted};
use crate::groups::{Groups, ScanGroups};
use crate::pair::TextPair;
use crate::stop::Stop;
use crate::token::first_token;
use ca_base::{List, NoMemory};
use ca_lex::{Names, Text};
use std::alloc::Global;

// The label of the first pair, and the key of the chain with the first of these scan-in ports.
fn due_before(alloc: Global, scan_ins: &[Text]) -> Result<Names, NoMemory>
    ensures { IfOk result (λ due. due ≡ due_before scan_ins.now) }
{
    match scan_ins {
        [] => Ok(Names::new(alloc)),
        [scan_in, ..] => due_of(alloc, scan_in.as_bytes()),
    }
}

// The same for this scan-in port.
fn due_of(alloc: Global, scan_in: &[u8]) -> Result<Names, NoMemory>
    ensures { IfOk result (λ due. due ≡ (quoted (codes "pair " ++ decimal 0)
        ∷ (tokens_of (codes ": ") ++ tokens_of (codes "Macro \"_shift_\" {")))
        ++ quoted scan_in.now ∷ tokens_of (codes "=")) }
{
    let mut due = Names::new(alloc);
    push_numbered(alloc, &mut due, b"pair ", 0)?;
    push_fixed(alloc, &mut due, b": ")?;
    push_fixed(alloc, &mut due, b"Macro \"_shift_\" {")?;
    push_quoted(alloc, &mut due, scan_in)?;
    push_fixed(alloc, &mut due, b"=")?;
    Ok(due)
}

// What stands before the first word of the first pair.
fn first_due(alloc: Global, scan: &Option<ScanGroups>) -> Result<Names, NoMemory>
    ensures { IfOk result (λ due. due ≡ first_due (scan_in scan.now)) }
{
    match scan {
        None => Ok(Names::new(alloc)),
        Some(groups) => due_before(alloc, groups.scan_ins.as_slice()),
    }
}

// Why no first pair is read: a token that is due is missing, or no word is long enough for the first chain.
fn no_first<'a>(alloc: Global, groups: &Groups, cells: &Names, text: &'a [u8]) -> Stop<'a>
    requires { 2 ^ 64 ≤ longest (chains_of (ports_of (scan_in groups.now.scan)) cells.now) }
    ensures { IsStopped result (read_pair (frame_of groups.now.inputs groups.now.outputs
        (scan_in groups.now.scan) cells.now) 0 (tokens_of text.now)) }
{
    let _ = cells;
    let Ok(due) = first_due(alloc, &groups.scan) else {
        return Stop::NoMemory;
    };
    match pass(due.as_slice(), text) {
        Ok(rest) => Stop::Stuck(rest),
        Err(why) => why,
    }
}

/// The pairs up to the brace that closes them, and the text after it, where a chain has more cells than any
/// text has bytes: none, or the first is faulty at its first word.
pub(crate) fn no_pairs<'a>(
    alloc: Global,
    groups: &Groups,
    cells: &Names,
    text: &'a [u8],
) -> Result<(List<TextPair>, &'a [u8]), Stop<'a>>
    requires { 2 ^ 64 ≤ longest (chains_of (ports_of (scan_in groups.now.scan)) cells.now) }
    ensures { IsRead (λ pairs. map pair_seen pairs) result (read_pairs (frame_of groups.now.inputs
        groups.now.outputs (scan_in groups.now.scan) cells.now) 0 (tokens_of text.now)) }
{
    let Some((token, after)) = first_token(text) else {
        return Err(Stop::Stuck(text));
    };
    if token == b"}".as_slice() {
        return Ok((List::new(alloc), after));
    }
    Err(no_first(alloc, groups, cells, text))
}

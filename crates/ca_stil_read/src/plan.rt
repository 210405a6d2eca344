//! The steps of a pair.

ghost use Rattle.std.specs.Prelude.{◌≡◌, ◌++◌, ◌∷◌, ◌+◌, ◌==◌, [], map, length, replicate, codes, IfOk, OnOk};
ghost use Rattle.std.specs.Prelude.{if◌then◌else◌};
ghost use Rattle.ca_stil_form.specs.Form.{read_fixed};
ghost use Rattle.ca_stil_form.specs.Frame.{quoted, longest, group_member, key_inputs, key_outputs};
ghost use Rattle.ca_stil_form.specs.Frame.{load_members};
ghost use Rattle.ca_stil_form.specs.Frame.{unload_members};
ghost use Rattle.ca_stil_form.specs.Grammar.{pieces, fixed};
ghost use Rattle.ca_stil_form.specs.Pattern.{member_begins, steady, load_ends, first_ends, last_ends};
ghost use Rattle.ca_stil_form.specs.Pattern.{unload_ends};
ghost use Rattle.ca_stil_form.specs.Pattern.{first_begins, capture, pair_begins};
ghost use Rattle.ca_stil_form.specs.Tokens.{tokens_of};
ghost use Rattle.ca_stil_read.specs.code.Frames.{member_seen, chain_seen, frame_seen};
ghost use Rattle.ca_stil_read.specs.Plan.{member_steps, bits_step, levels_step, pair_steps};
ghost use Rattle.ca_stil_read.specs.code.Frames.{first_half, last_half, expected_part};

use crate::due::{push_fixed, push_letters, push_numbered, push_quoted, push_token};
use crate::frame::{Frame, FrameChain};
use ca_base::{List, NoMemory};
use ca_lex::{Names, Text};
use std::alloc::Global;

/// A step of a pair: tokens that are due, or a word of `used` bits after `filled` zeros, or one of `used`
/// expected values before `filled` X.
#[derive(Drop)]
pub enum Step {
    Due(Names),
    Bits { used: usize, filled: usize },
    Levels { used: usize, filled: usize },
}

/// A member of a statement: its key, and how many values its word has, and how many that fill up.
#[derive(Drop)]
pub struct Member {
    pub key: Text,
    pub used: usize,
    pub filled: usize,
}

// A name in double quotes.
fn quoted(alloc: Global, name: &[u8]) -> Result<Text, NoMemory>
    ensures { IfOk result (λ text. text ≡ quoted name.now) }
{
    let mut text = Text::new(alloc);
    text.append(b"\"")?;
    text.append(name)?;
    text.append(b"\"")?;
    Ok(text)
}

/// How many cells the longest chain has.
#[tactic(auto, unfolding(ca_stil_form::specs::Frame::longest))]
fn longest(chains: &[FrameChain]) -> usize
    ensures { result ≡ longest (map chain_seen chains.now) }
{
    let mut most = 0;
    let mut rest = chains;
    'chains: while let [chain, more @ ..] = rest {
        most = most.max(chain.cells);
        rest = more;
    }
    most
}

// The members of a load.
fn load_members(alloc: Global, chains: &List<FrameChain>) -> Result<List<Member>, NoMemory>
    ensures { IfOk result (λ members. map member_seen members ≡ load_members (map chain_seen chains.now)) }
{
    let chains = chains.as_slice();
    let most = longest(chains);
    let mut members = List::new(alloc);
    for k in 0..chains.len() {
        members.push(Member {
            key: quoted(alloc, chains[k].scan_in.as_bytes())?,
            used: chains[k].cells,
            filled: most.saturating_sub(chains[k].cells),
        })?;
    }
    Ok(members)
}

// The members of an unloading.
fn unload_members(alloc: Global, chains: &List<FrameChain>) -> Result<List<Member>, NoMemory>
    ensures { IfOk result (λ members. map member_seen members ≡ unload_members (map chain_seen chains.now)) }
{
    let chains = chains.as_slice();
    let most = longest(chains);
    let mut members = List::new(alloc);
    for k in 0..chains.len() {
        members.push(Member {
            key: quoted(alloc, chains[k].scan_out.as_bytes())?,
            used: chains[k].cells,
            filled: most.saturating_sub(chains[k].cells),
        })?;
    }
    Ok(members)
}

// A group that has members, as the only member of its kind.
fn group_member(alloc: Global, key: &[u8], count: usize) -> Result<List<Member>, NoMemory>
    ensures { IfOk result (λ members. map member_seen members ≡ group_member key.now count) }
{
    let mut members = List::new(alloc);
    if count == 0 {
        return Ok(members);
    }
    members.push(Member {
        key: Text::from_bytes(alloc, key)?,
        used: count,
        filled: 0,
    })?;
    Ok(members)
}

// Adds what a member begins with.
fn push_member(alloc: Global, due: &mut Names, member: &Member) -> Result<(), NoMemory>
    ensures { OnOk result (due.new ≡ due.old ++ (member_begins (member_seen member.now)).tokens) }
{
    push_token(alloc, due, member.key.as_bytes())?;
    push_fixed(alloc, due, b"=")
}

// A letter, `filled` times and `used` times.
fn letters(alloc: Global, letter: u8, filled: usize, used: usize) -> Result<Text, NoMemory>
    ensures { IfOk result (λ text. text ≡ replicate (filled + used) letter) }
{
    let mut text = Text::new(alloc);
    for k in 0..filled {
        text.push(letter)?;
    }
    for k in 0..used {
        text.push(letter)?;
    }
    Ok(text)
}

// Adds a member of the same letter throughout.
fn push_steady(alloc: Global, due: &mut Names, letter: u8, member: &Member) -> Result<(), NoMemory>
    ensures { OnOk result (due.new ≡ due.old ++ (steady letter (member_seen member.now)).tokens) }
{
    push_member(alloc, due, member)?;
    due.push(letters(alloc, letter, member.filled, member.used)?)?;
    push_fixed(alloc, due, b";")
}

// Adds such members.
#[tactic(auto, unfolding(ca_stil_form::specs::Grammar::pieces))]
fn push_all_steady(
    alloc: Global,
    due: &mut Names,
    letter: u8,
    members: &List<Member>,
) -> Result<(), NoMemory>
    ensures { OnOk result (due.new
        ≡ due.old ++ (pieces (steady letter) (map member_seen members.now)).tokens) }
{
    let mut rest = members.as_slice();
    'members: while let [member, more @ ..] = rest {
        push_steady(alloc, due, letter, member)?;
        rest = more;
    }
    Ok(())
}

// Adds the beginning of a statement that shifts, or of one that applies a vector.
fn push_first(alloc: Global, due: &mut Names, chains: &List<FrameChain>) -> Result<(), NoMemory>
    ensures { OnOk result (due.new ≡ due.old ++ (first_begins (map chain_seen chains.now)).tokens) }
{
    match chains.as_slice() {
        [] => push_fixed(alloc, due, b"V {"),
        [_, ..] => push_fixed(alloc, due, b"Macro \"_shift_\" {"),
    }
}

/// The label of a pair, and what its first statement begins with.
pub(crate) fn pair_begins(alloc: Global, frame: &Frame, number: usize) -> Result<Names, NoMemory>
    ensures { IfOk result (λ due. due ≡ (pair_begins (frame_seen frame.now) number).tokens) }
{
    let mut due = Names::new(alloc);
    push_numbered(alloc, &mut due, b"pair ", number)?;
    push_fixed(alloc, &mut due, b": ")?;
    push_first(alloc, &mut due, &frame.chains)?;
    Ok(due)
}

// What stands after the bits of a load, where there are chains.
fn load_ends(alloc: Global, unloads: &List<Member>) -> Result<Names, NoMemory>
    ensures { IfOk result (λ due. due ≡ (pieces (steady 88) (map member_seen unloads.now)).tokens
        ++ tokens_of (codes " }\n  V { \"_ctl_\"=000;")) }
{
    let mut due = Names::new(alloc);
    push_all_steady(alloc, &mut due, b'X', unloads)?;
    push_fixed(alloc, &mut due, b" }\n  V { \"_ctl_\"=000;")?;
    Ok(due)
}

// The same for any chains.
fn load_ends_of(alloc: Global, chains: &List<FrameChain>) -> Result<Names, NoMemory>
    ensures { IfOk result (λ due. due ≡ (load_ends (map chain_seen chains.now)).tokens) }
{
    match chains.as_slice() {
        [] => Ok(Names::new(alloc)),
        [_, ..] => {
            let unloads = unload_members(alloc, chains)?;
            load_ends(alloc, &unloads)
        }
    }
}

// What stands after the first vector.
fn first_ends(alloc: Global, frame: &Frame) -> Result<Names, NoMemory>
    ensures { IfOk result (λ due. due ≡ (first_ends (frame_seen frame.now)).tokens) }
{
    let outputs = group_member(alloc, b"\"_po_\"", frame.outputs)?;
    let mut due = Names::new(alloc);
    push_all_steady(alloc, &mut due, b'X', &outputs)?;
    push_fixed(alloc, &mut due, b" }\n  ")?;
    push_first(alloc, &mut due, &frame.chains)?;
    Ok(due)
}

// Adds that the cells capture, and that zeros are shifted in.
fn push_capture(
    alloc: Global,
    due: &mut Names,
    outputs: &List<Member>,
    chains: &List<FrameChain>,
) -> Result<(), NoMemory>
    ensures { OnOk result (due.new
        ≡ due.old ++ (capture (map member_seen outputs.now) (map chain_seen chains.now)).tokens) }
{
    match chains.as_slice() {
        [] => Ok(()),
        [_, ..] => push_capture_of(alloc, due, outputs, chains),
    }
}

// The same where there are chains.
fn push_capture_of(
    alloc: Global,
    due: &mut Names,
    outputs: &List<Member>,
    chains: &List<FrameChain>,
) -> Result<(), NoMemory>
    ensures { OnOk result (due.new ≡ due.old ++ (tokens_of (codes "  V { \"_ctl_\"=0P1;")
        ++ ((pieces (steady 88) (map member_seen outputs.now)).tokens
        ++ (tokens_of (codes " }\n  ") ++ (tokens_of (codes "Macro \"_shift_\" {")
        ++ (pieces (steady 48) (load_members (map chain_seen chains.now))).tokens))))) }
{
    let loads = load_members(alloc, chains)?;
    push_fixed(alloc, due, b"  V { \"_ctl_\"=0P1;")?;
    push_all_steady(alloc, due, b'X', outputs)?;
    push_fixed(alloc, due, b" }\n  ")?;
    push_fixed(alloc, due, b"Macro \"_shift_\" {")?;
    push_all_steady(alloc, due, b'0', &loads)
}

// What stands after what is observed in the second vector.
fn last_ends(alloc: Global, frame: &Frame) -> Result<Names, NoMemory>
    ensures { IfOk result (λ due. due ≡ (last_ends (frame_seen frame.now)).tokens) }
{
    let outputs = group_member(alloc, b"\"_po_\"", frame.outputs)?;
    let mut due = Names::new(alloc);
    push_fixed(alloc, &mut due, b" }\n")?;
    push_capture(alloc, &mut due, &outputs, &frame.chains)?;
    Ok(due)
}

// What stands after what is unloaded.
fn unload_ends(alloc: Global, chains: &List<FrameChain>) -> Result<Names, NoMemory>
    ensures { IfOk result (λ due. due ≡ (unload_ends (map chain_seen chains.now)).tokens) }
{
    let mut due = Names::new(alloc);
    match chains.as_slice() {
        [] => {}
        [_, ..] => push_fixed(alloc, &mut due, b" }\n")?,
    }
    Ok(due)
}

// The tokens before a member's word.
fn member_due(alloc: Global, member: &Member) -> Result<Names, NoMemory>
    ensures { IfOk result (λ due. due ≡ (member_begins (member_seen member.now)).tokens) }
{
    let mut due = Names::new(alloc);
    push_member(alloc, &mut due, member)?;
    Ok(due)
}

// The token after it.
fn semicolon(alloc: Global) -> Result<Names, NoMemory>
    ensures { IfOk result (λ due. due ≡ tokens_of (codes ";")) }
{
    let mut due = Names::new(alloc);
    push_fixed(alloc, &mut due, b";")?;
    Ok(due)
}

// Adds the steps of members that have bits.
#[tactic(auto, unfolding(crate::specs::Plan::member_steps))]
fn push_bits(alloc: Global, steps: &mut List<Step>, members: &List<Member>) -> Result<(), NoMemory>
    ensures { OnOk result (steps.new ≡ steps.old ++ member_steps bits_step (map member_seen members.now)) }
{
    let mut rest = members.as_slice();
    'members: while let [member, more @ ..] = rest {
        steps.push(Step::Due(member_due(alloc, member)?))?;
        steps.push(Step::Bits {
            used: member.used,
            filled: member.filled,
        })?;
        steps.push(Step::Due(semicolon(alloc)?))?;
        rest = more;
    }
    Ok(())
}

// Adds the steps of members that have expected values.
#[tactic(auto, unfolding(crate::specs::Plan::member_steps))]
fn push_levels(
    alloc: Global,
    steps: &mut List<Step>,
    members: &List<Member>,
) -> Result<(), NoMemory>
    ensures { OnOk result (steps.new ≡ steps.old ++ member_steps levels_step (map member_seen members.now)) }
{
    let mut rest = members.as_slice();
    'members: while let [member, more @ ..] = rest {
        steps.push(Step::Due(member_due(alloc, member)?))?;
        steps.push(Step::Levels {
            used: member.used,
            filled: member.filled,
        })?;
        steps.push(Step::Due(semicolon(alloc)?))?;
        rest = more;
    }
    Ok(())
}

// Adds the steps of the first state and vector, up to the last state.
fn push_first_half(alloc: Global, steps: &mut List<Step>, frame: &Frame) -> Result<(), NoMemory>
    ensures { OnOk result (steps.new ≡ steps.old ++ first_half (frame_seen frame.now)) }
{
    let loads = load_members(alloc, &frame.chains)?;
    let inputs = group_member(alloc, b"\"_pi_\"", frame.inputs)?;
    push_bits(alloc, steps, &loads)?;
    steps.push(Step::Due(load_ends_of(alloc, &frame.chains)?))?;
    push_bits(alloc, steps, &inputs)?;
    steps.push(Step::Due(first_ends(alloc, frame)?))
}

// Adds the steps of the last state and vector.
fn push_last_half(alloc: Global, steps: &mut List<Step>, frame: &Frame) -> Result<(), NoMemory>
    ensures { OnOk result (steps.new ≡ steps.old ++ last_half (frame_seen frame.now)) }
{
    let loads = load_members(alloc, &frame.chains)?;
    let inputs = group_member(alloc, b"\"_pi_\"", frame.inputs)?;
    push_bits(alloc, steps, &loads)?;
    steps.push(Step::Due(load_ends_of(alloc, &frame.chains)?))?;
    push_bits(alloc, steps, &inputs)
}

// Adds the steps of the expected values.
fn push_expected(alloc: Global, steps: &mut List<Step>, frame: &Frame) -> Result<(), NoMemory>
    ensures { OnOk result (steps.new ≡ steps.old ++ expected_part (frame_seen frame.now)) }
{
    let outputs = group_member(alloc, b"\"_po_\"", frame.outputs)?;
    let unloads = unload_members(alloc, &frame.chains)?;
    push_levels(alloc, steps, &outputs)?;
    steps.push(Step::Due(last_ends(alloc, frame)?))?;
    push_levels(alloc, steps, &unloads)?;
    steps.push(Step::Due(unload_ends(alloc, &frame.chains)?))
}

/// The steps of each pair after its label.
pub(crate) fn pair_steps(alloc: Global, frame: &Frame) -> Result<List<Step>, NoMemory>
    ensures { IfOk result (λ steps. steps ≡ pair_steps (frame_seen frame.now)) }
{
    let mut steps = List::new(alloc);
    push_first_half(alloc, &mut steps, frame)?;
    push_last_half(alloc, &mut steps, frame)?;
    push_expected(alloc, &mut steps, frame)?;
    Ok(steps)
}

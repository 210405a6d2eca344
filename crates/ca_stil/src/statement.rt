//! The members of a statement that applies a vector, and the statements.

ghost use Rattle.std.specs.Prelude.{◌≡◌, ◌++◌, ◌<◌, ◌≤◌, ◌+◌, ◌==◌, length, map, replicate, OnOk, codes};
ghost use Rattle.std.specs.Prelude.{decimal, slice_get, Some};
ghost use Rattle.std.specs.List.{All};
ghost use Rattle.ca_stil.specs.Chip.{part, IsWithin};
ghost use Rattle.ca_stil.specs.code.Chip.{Spans};
ghost use Rattle.ca_stil.specs.Words.{digit_of, level_of};
ghost use Rattle.ca_stil.specs.Pair.{states_text, all_levels_text, steady_text, hold_text, vector_text};
ghost use Rattle.ca_stil.specs.Pair.{expected_text, unobserved_text, load_of_text, load_text, capture_text};
ghost use Rattle.ca_stil.specs.Pair.{unload_of_text, unload_text, label_text};

use crate::chip::{End, StilChain};
use crate::patterns::{ExpectedValues, PatternBits};
use crate::shift::{push_all_levels, push_states, push_steady};
use crate::words::{digit_of, level_of, push_letters, push_numbered};
use ca_base::NoMemory;
use ca_lex::Text;

/// Appends that the control ports hold, where there are chains.
#[tactic(auto, unfolding(crate::specs::Pair::hold_text))]
pub(crate) fn push_hold(text: &mut Text, chains: &[StilChain]) -> Result<(), NoMemory>
    ensures { OnOk result (text.new ≡ text.old ++ hold_text chains.now) }
{
    match chains {
        [] => Ok(()),
        [_, ..] => text.append(b" \"_ctl_\"=000;"),
    }
}

// Appends `count` bits.
#[tactic(auto, using(crate::proofs::CellLemmas::digits_more, crate::proofs::CellLemmas::digits_none))]
fn push_digits<P: PatternBits>(
    text: &mut Text,
    pair: &P,
    from: usize,
    count: usize,
) -> Result<(), NoMemory>
    requires long { Spans from count (P.bits pair.now) }
    ensures { OnOk result (text.new ≡ text.old ++ map digit_of (part from count (P.bits pair.now))) }
{
    for k in 0..count {
        text.push(digit_of(pair.bit(from + k)))?;
    }
    Ok(())
}

/// Appends the bits of the chip inputs.
#[tactic(auto, unfolding(crate::specs::Pair::vector_text))]
pub(crate) fn push_vector<P: PatternBits>(
    text: &mut Text,
    pair: &P,
    from: usize,
    count: usize,
) -> Result<(), NoMemory>
    requires long { Spans from count (P.bits pair.now) }
    ensures { OnOk result (text.new ≡ text.old ++ vector_text count (part from count (P.bits pair.now))) }
{
    if count == 0 {
        return Ok(());
    }
    text.append(b" \"_pi_\"=")?;
    push_digits(text, pair, from, count)?;
    text.append(b";")
}

// Appends `count` expected values.
#[tactic(auto, using(crate::proofs::CellLemmas::letters_more, crate::proofs::CellLemmas::letters_none))]
fn push_letters_of<E: ExpectedValues>(
    text: &mut Text,
    expected: &E,
    count: usize,
) -> Result<(), NoMemory>
    requires long { count ≤ length (E.values expected.now) }
    ensures { OnOk result (text.new ≡ text.old ++ map level_of (part 0 count (E.values expected.now))) }
{
    for k in 0..count {
        text.push(level_of(expected.value(k)))?;
    }
    Ok(())
}

/// Appends the expected values at the observed outputs among the ports.
#[tactic(auto, unfolding(crate::specs::Pair::expected_text))]
pub(crate) fn push_expected<E: ExpectedValues>(
    text: &mut Text,
    expected: &E,
    count: usize,
) -> Result<(), NoMemory>
    requires long { count ≤ length (E.values expected.now) }
    ensures { OnOk result (text.new
        ≡ text.old ++ expected_text count (part 0 count (E.values expected.now))) }
{
    if count == 0 {
        return Ok(());
    }
    text.append(b" \"_po_\"=")?;
    push_letters_of(text, expected, count)?;
    text.append(b";")
}

/// Appends that nothing is compared at the observed outputs among the ports.
#[tactic(auto, unfolding(crate::specs::Pair::unobserved_text))]
pub(crate) fn push_unobserved(text: &mut Text, count: usize) -> Result<(), NoMemory>
    ensures { OnOk result (text.new ≡ text.old ++ unobserved_text count) }
{
    if count == 0 {
        return Ok(());
    }
    text.append(b" \"_po_\"=")?;
    push_letters(text, b'X', count)?;
    text.append(b";")
}

// Appends that a state is loaded into these chains.
#[tactic(auto, unfolding(crate::specs::Pair::load_of_text))]
fn push_load_of<P: PatternBits>(
    text: &mut Text,
    most: usize,
    pair: &P,
    from: usize,
    count: usize,
    chains: &[StilChain],
) -> Result<(), NoMemory>
    requires within { All (IsWithin count) chains.now }
    requires long { Spans from count (P.bits pair.now) }
    ensures { OnOk result (text.new
        ≡ text.old ++ load_of_text most (part from count (P.bits pair.now)) chains.now) }
{
    text.append(b"Macro \"_shift_\" {")?;
    push_states(text, most, pair, from, count, chains)?;
    push_steady(text, b'X', most, chains, End::Out)?;
    text.append(b" }\n  ")
}

/// Appends that a state is loaded into the chains, where there are some.
#[tactic(auto, unfolding(crate::specs::Pair::load_text))]
pub(crate) fn push_load<P: PatternBits>(
    text: &mut Text,
    most: usize,
    pair: &P,
    from: usize,
    count: usize,
    chains: &[StilChain],
) -> Result<(), NoMemory>
    requires within { All (IsWithin count) chains.now }
    requires long { Spans from count (P.bits pair.now) }
    ensures { OnOk result (text.new
        ≡ text.old ++ load_text most (part from count (P.bits pair.now)) chains.now) }
{
    match chains {
        [] => Ok(()),
        [_, ..] => push_load_of(text, most, pair, from, count, chains),
    }
}

// Appends that the cells capture.
#[tactic(auto, unfolding(crate::specs::Pair::capture_text))]
fn push_capture(text: &mut Text, outputs: usize) -> Result<(), NoMemory>
    ensures { OnOk result (text.new ≡ text.old ++ capture_text outputs) }
{
    text.append(b"  V { \"_ctl_\"=0P1;")?;
    push_unobserved(text, outputs)?;
    text.append(b" }\n")
}

// Appends that these chains are unloaded and compared.
#[tactic(auto, unfolding(crate::specs::Pair::unload_of_text))]
fn push_unload_of<E: ExpectedValues>(
    text: &mut Text,
    most: usize,
    expected: &E,
    from: usize,
    count: usize,
    chains: &[StilChain],
) -> Result<(), NoMemory>
    requires within { All (IsWithin count) chains.now }
    requires long { Spans from count (E.values expected.now) }
    ensures { OnOk result (text.new
        ≡ text.old ++ unload_of_text most (part from count (E.values expected.now)) chains.now) }
{
    text.append(b"  Macro \"_shift_\" {")?;
    push_steady(text, b'0', most, chains, End::In)?;
    push_all_levels(text, most, expected, from, count, chains)?;
    text.append(b" }\n")
}

/// Appends that the cells capture and the chains are unloaded, where there are some; `from` is the number of
/// observed outputs among the ports.
#[tactic(auto, unfolding(crate::specs::Pair::unload_text))]
pub(crate) fn push_unload<E: ExpectedValues>(
    text: &mut Text,
    most: usize,
    expected: &E,
    from: usize,
    count: usize,
    chains: &[StilChain],
) -> Result<(), NoMemory>
    requires within { All (IsWithin count) chains.now }
    requires long { Spans from count (E.values expected.now) }
    ensures { OnOk result (text.new
        ≡ text.old ++ unload_text from most (part from count (E.values expected.now)) chains.now) }
{
    match chains {
        [] => Ok(()),
        [_, ..] => {
            push_capture(text, from)?;
            push_unload_of(text, most, expected, from, count, chains)
        }
    }
}

/// Appends the label of a pair.
#[tactic(auto, unfolding(crate::specs::Pair::label_text))]
pub(crate) fn push_label(text: &mut Text, number: usize) -> Result<(), NoMemory>
    ensures { OnOk result (text.new ≡ text.old ++ label_text number) }
{
    push_numbered(text, b"pair ", number)?;
    text.append(b": ")
}

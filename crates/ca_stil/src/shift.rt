//! The members of a statement that shifts the chains.

ghost use Rattle.std.specs.Prelude.{◌≡◌, ◌++◌, ◌<◌, ◌≤◌, ◌+◌, ◌-◌, ◌∷◌, [], length, map, max, replicate};
ghost use Rattle.std.specs.Prelude.{OnOk, codes, slice_get, Some};
ghost use Rattle.std.specs.List.{All};
ghost use Rattle.ca_stil.specs.Chip.{part, longest, end_of, IsWithin};
ghost use Rattle.ca_stil.specs.code.Chip.{Spans};
ghost use Rattle.ca_stil.specs.Words.{digit_of, level_of, key_text, cell_bits, cell_levels};
ghost use Rattle.ca_stil.specs.Pair.{state_text, states_text, levels_text, all_levels_text, steady_text};

use crate::chip::{End, StilChain};
use crate::patterns::{ExpectedValues, PatternBits};
use crate::words::{digit_of, end_of, level_of, push_key, push_letters};
use ca_base::NoMemory;
use ca_lex::Text;

/// How many cells the longest chain has.
#[tactic(auto, unfolding(crate::specs::Chip::longest))]
pub(crate) fn longest(chains: &[StilChain]) -> usize
    ensures { result ≡ longest chains.now }
{
    let mut most = 0;
    let mut rest = chains;
    'chains: while let [chain, more @ ..] = rest {
        most = most.max(chain.places.len());
        rest = more;
    }
    most
}

// Appends the bits of the scan instances at these places, the last one first; those of all scan instances are
// `count` from `from` on.
#[tactic(auto, using(crate::proofs::CellLemmas::take_all))]
fn push_bits<P: PatternBits>(
    text: &mut Text,
    pair: &P,
    from: usize,
    count: usize,
    places: &[usize],
) -> Result<(), NoMemory>
    requires within { All (λ place. place < count) places.now }
    requires long { Spans from count (P.bits pair.now) }
    ensures { OnOk result (text.new ≡ text.old ++ cell_bits (part from count (P.bits pair.now)) places.now) }
{
    let mut left = places.len();
    'places: while left > 0 {
        left -= 1;
        text.push(digit_of(pair.bit(from + places[left])))?;
    }
    Ok(())
}

// Appends the bits of a chain.
#[tactic(auto, unfolding(crate::specs::Pair::state_text))]
fn push_state<P: PatternBits>(
    text: &mut Text,
    most: usize,
    pair: &P,
    from: usize,
    count: usize,
    chain: &StilChain,
) -> Result<(), NoMemory>
    requires within { IsWithin count chain.now }
    requires long { Spans from count (P.bits pair.now) }
    ensures { OnOk result (text.new
        ≡ text.old ++ state_text most (part from count (P.bits pair.now)) chain.now) }
{
    let places = chain.places.as_slice();
    push_key(text, chain.scan_in.as_bytes())?;
    push_letters(text, b'0', most.saturating_sub(places.len()))?;
    push_bits(text, pair, from, count, places)?;
    text.append(b";")
}

/// Appends the bits of the chains.
#[tactic(auto, unfolding(crate::specs::Pair::states_text))]
pub(crate) fn push_states<P: PatternBits>(
    text: &mut Text,
    most: usize,
    pair: &P,
    from: usize,
    count: usize,
    chains: &[StilChain],
) -> Result<(), NoMemory>
    requires within { All (IsWithin count) chains.now }
    requires long { Spans from count (P.bits pair.now) }
    ensures { OnOk result (text.new
        ≡ text.old ++ states_text most (part from count (P.bits pair.now)) chains.now) }
{
    let mut rest = chains;
    'chains: while let [chain, more @ ..] = rest {
        push_state(text, most, pair, from, count, chain)?;
        rest = more;
    }
    Ok(())
}

// Appends the values that are expected in the scan instances at these places, the last one first.
#[tactic(auto, using(crate::proofs::CellLemmas::take_all))]
fn push_cell_levels<E: ExpectedValues>(
    text: &mut Text,
    expected: &E,
    from: usize,
    count: usize,
    places: &[usize],
) -> Result<(), NoMemory>
    requires within { All (λ place. place < count) places.now }
    requires long { Spans from count (E.values expected.now) }
    ensures { OnOk result (text.new
        ≡ text.old ++ cell_levels (part from count (E.values expected.now)) places.now) }
{
    let mut left = places.len();
    'places: while left > 0 {
        left -= 1;
        text.push(level_of(expected.value(from + places[left])))?;
    }
    Ok(())
}

// Appends the values that are expected in a chain.
#[tactic(auto, unfolding(crate::specs::Pair::levels_text))]
fn push_levels<E: ExpectedValues>(
    text: &mut Text,
    most: usize,
    expected: &E,
    from: usize,
    count: usize,
    chain: &StilChain,
) -> Result<(), NoMemory>
    requires within { IsWithin count chain.now }
    requires long { Spans from count (E.values expected.now) }
    ensures { OnOk result (text.new
        ≡ text.old ++ levels_text most (part from count (E.values expected.now)) chain.now) }
{
    let places = chain.places.as_slice();
    push_key(text, chain.scan_out.as_bytes())?;
    push_cell_levels(text, expected, from, count, places)?;
    push_letters(text, b'X', most.saturating_sub(places.len()))?;
    text.append(b";")
}

/// Appends the values that are expected in the chains.
#[tactic(auto, unfolding(crate::specs::Pair::all_levels_text))]
pub(crate) fn push_all_levels<E: ExpectedValues>(
    text: &mut Text,
    most: usize,
    expected: &E,
    from: usize,
    count: usize,
    chains: &[StilChain],
) -> Result<(), NoMemory>
    requires within { All (IsWithin count) chains.now }
    requires long { Spans from count (E.values expected.now) }
    ensures { OnOk result (text.new
        ≡ text.old ++ all_levels_text most (part from count (E.values expected.now)) chains.now) }
{
    let mut rest = chains;
    'chains: while let [chain, more @ ..] = rest {
        push_levels(text, most, expected, from, count, chain)?;
        rest = more;
    }
    Ok(())
}

/// Appends for each chain the same letter throughout.
#[tactic(auto, unfolding(crate::specs::Pair::steady_text))]
pub(crate) fn push_steady(
    text: &mut Text,
    letter: u8,
    most: usize,
    chains: &[StilChain],
    end: End,
) -> Result<(), NoMemory>
    ensures { OnOk result (text.new ≡ text.old ++ steady_text letter end most chains.now) }
{
    let mut rest = chains;
    'chains: while let [chain, more @ ..] = rest {
        push_key(text, end_of(chain, end))?;
        push_letters(text, letter, most)?;
        text.append(b";")?;
        rest = more;
    }
    Ok(())
}

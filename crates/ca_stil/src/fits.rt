//! Whether pairs and expected values are of a chip.

ghost use Rattle.std.specs.Prelude.{◌≡◌, ◌<◌, ◌+◌, ◌↔◌, IsTrue, length, map};
ghost use Rattle.std.specs.List.{All};
ghost use Rattle.ca_stil.specs.Chip.{IsWithin, IsStilChip, AreOf};

use crate::chip::{StilChain, StilChip};
use crate::patterns::{ExpectedValues, PatternBits};

fn is_within(chain: &StilChain, count: usize) -> bool
    ensures { IsTrue result ↔ IsWithin count chain.now }
{
    chain.places.as_slice().iter().all(|place| *place < count)
}

fn are_within(chip: &StilChip) -> bool
    ensures { IsTrue result ↔ IsStilChip chip.now }
{
    let count = chip.scan_count;
    chip.chains
        .as_slice()
        .iter()
        .all(|chain| is_within(chain, count))
}

/// Whether each of the pairs has `count` bits.
pub fn have_bits<P: PatternBits>(pairs: &[P], count: u128) -> bool
    ensures { IsTrue result ↔ All (λ pair. length (P.bits pair) ≡ count) pairs.now }
{
    pairs.iter().all(|pair| pair.len() as u128 == count)
}

/// Whether there are `count` expected values under each pair.
pub fn have_values<E: ExpectedValues>(expected: &[E], count: u128) -> bool
    ensures { IsTrue result ↔ All (λ values. length (E.values values) ≡ count) expected.now }
{
    expected.iter().all(|values| values.len() as u128 == count)
}

/// Whether the chains are of the chip's scan instances, each pair has the chip's pattern bits, and there is
/// an expected value for each observed output under each pair: what the text is asked of.
#[tactic(auto, using(crate::proofs::FitLemmas::of_pairs, crate::proofs::FitLemmas::of_counted))]
pub fn are_of<P: PatternBits, E: ExpectedValues>(
    chip: &StilChip,
    pairs: &[P],
    expected: &[E],
) -> bool
    ensures { IsTrue result ↔ AreOf chip.now (map P.bits pairs.now) (map E.values expected.now) }
{
    let width = chip.inputs.len() as u128 + chip.scan_count as u128;
    let outputs = chip.outputs.len() as u128 + chip.scan_count as u128;
    if pairs.len() != expected.len() {
        return false;
    }
    if !are_within(chip) {
        return false;
    }
    if !have_bits(pairs, width + width) {
        return false;
    }
    have_values(expected, outputs)
}

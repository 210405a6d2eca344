//! Whether pairs and expected values are of a linked chip.

ghost use Rattle.std.specs.Prelude.{◌↔◌, IsTrue, map};
ghost use Rattle.ca_scan.specs.ChainFault.{AreAllChains};
ghost use Rattle.ca_chip_stil.specs.ChipStil.{AreOfChip};

use ca_linked::Chip;
use ca_scan::Chains;
use ca_stil::{ExpectedValues, PatternBits, have_bits, have_values};

/// Whether each pair has the chip's pattern bits, and there is an expected value for each observed output
/// under each pair: what the text is asked of.
#[tactic(auto, using(crate::proofs::FitLemmas::of_bits, crate::proofs::FitLemmas::of_counted))]
pub fn are_of_chip<P: PatternBits, E: ExpectedValues>(
    chip: &Chip,
    chains: &Chains,
    pairs: &[P],
    expected: &[E],
) -> bool
    requires { AreAllChains chip.now chains.now }
    ensures { IsTrue result ↔ AreOfChip chip.now chains.now
        (map P.bits pairs.now) (map E.values expected.now) }
{
    let _ = chains;
    let width = chip.inputs() as u128;
    let outputs = chip.outputs() as u128;
    if pairs.len() != expected.len() {
        return false;
    }
    if !have_bits(pairs, width + width) {
        return false;
    }
    have_values(expected, outputs)
}

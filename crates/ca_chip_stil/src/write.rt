//! The pairs of a linked chip as a STIL text.

ghost use Rattle.std.specs.Prelude.{◌≡◌, map, IfOk};
ghost use Rattle.ca_stil.specs.Text.{stil_text};
ghost use Rattle.ca_chip_stil.specs.ChipStil.{stil_chip, AreOfChip};

use crate::build::stil_chip;
use ca_base::NoMemory;
use ca_lex::Text;
use ca_linked::Chip;
use ca_scan::Chains;
use ca_stil::{ExpectedValues, PatternBits, write_stil};
use std::alloc::Global;

/// The STIL text of pairs of a chip, and of the values that its observed outputs end with under each. The
/// sites of the chip say which bit of a pair is where.
pub fn write_chip_stil<P: PatternBits, E: ExpectedValues>(
    alloc: Global,
    chip: &Chip,
    chains: &Chains,
    pairs: &[P],
    expected: &[E],
) -> Result<Text, NoMemory>
    requires { AreOfChip chip.now chains.now (map P.bits pairs.now) (map E.values expected.now) }
    ensures exact { IfOk result (λ text. text ≡ stil_text (stil_chip chip.now chains.now)
        (map P.bits pairs.now) (map E.values expected.now)) }
{
    let made = stil_chip(alloc, chip, chains)?;
    write_stil(alloc, &made, pairs, expected)
}

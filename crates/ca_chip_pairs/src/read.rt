//! A STIL text as the pairs of a linked chip.

ghost use Rattle.std.specs.Prelude.{IfOk, IfErr};
ghost use Rattle.ca_scan.specs.ChainFault.{AreAllChains};
ghost use Rattle.ca_chip_stil.specs.ChipStil.{stil_chip, AreOfChip};
ghost use Rattle.ca_stil_pairs.specs.File.{IsFileOf, IsCause};

use crate::laws::chains_cover;
use ca_chip_stil::{sites_are_ends, stil_chip};
use ca_linked::Chip;
use ca_scan::Chains;
use ca_stil_pairs::{StilFault, StilFile, read_stil};
use std::alloc::Global;

/// The pairs of a linked chip with these whole chains that a STIL text has, and the values that are expected
/// under each. The sites of the chip (`ca_chip_stil`) say which bit of a pair is where.
pub fn read_chip_stil(
    alloc: Global,
    chip: &Chip,
    chains: &Chains,
    bytes: &[u8],
) -> Result<StilFile, StilFault>
    requires { AreAllChains chip.now chains.now }
    ensures ok { IfOk result (IsFileOf (stil_chip chip.now chains.now) bytes.now) }
    ensures fits { IfOk result (λ file. AreOfChip chip.now chains.now file.pairs file.expected) }
    ensures cause { IfErr result (IsCause (stil_chip chip.now chains.now) bytes.now) }
{
    sites_are_ends();
    chains_cover();
    let made = stil_chip(alloc, chip, chains)?;
    let file = read_stil(alloc, &made, bytes)?;
    Ok(file)
}

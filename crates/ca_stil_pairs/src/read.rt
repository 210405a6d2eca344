//! A STIL text as the pairs of a chip.

ghost use Rattle.std.specs.Prelude.{◌≡◌, IfOk, IfErr};
ghost use Rattle.std.specs.List.{All};
ghost use Rattle.ca_stil_read.specs.Text.{ReadsAs};
ghost use Rattle.ca_stil_pairs.specs.Chip.{IsCovered, order_of};
ghost use Rattle.ca_stil_pairs.specs.File.{IsFileOf, IsCause};
ghost use Rattle.ca_stil_pairs.specs.code.File.{IsMadeFrom};
ghost use Rattle.ca_stil_pairs.specs.code.Places.{IsPairFor};
ghost use Rattle.ca_stil_pairs.specs.declared.read.StilFault.TheVariants as fault;

use crate::chip::is_of_chip;
use crate::file::{StilFile, file_of};
use crate::order::{order_of, sites_of};
use ca_base::NoMemory;
use ca_stil::StilChip;
use ca_stil_read::{StilText, TextFault, TextPair, read_text};
use std::alloc::Global;

/// Why a text isn't a file of a chip's pairs: its first faulty token is in this line; or it is of the form,
/// and of another chip.
#[derive(Drop)]
pub enum StilFault {
    At { line: usize },
    OtherChip,
    NoMemory,
}

impl From<NoMemory> for StilFault {
    ghost from_gives = { λ _ e. e ≡ fault.NoMemory };

    fn from(_: NoMemory) -> Self {
        StilFault::NoMemory
    }
}

// The pairs of a text by place.
fn made_of(
    alloc: Global,
    chip: &StilChip,
    order: &[usize],
    pairs: &[TextPair],
) -> Result<StilFile, NoMemory>
    requires covered { IsCovered chip.now }
    requires order { order.now ≡ order_of chip.now.chains }
    requires pairs { All (IsPairFor chip.now) pairs.now }
    ensures { IfOk result (IsMadeFrom chip.now pairs.now) }
{
    let sites = sites_of(alloc, chip, order)?;
    file_of(alloc, chip, order.len(), &sites, pairs)
}

// The file that a text is which was read, if it is of the chip.
fn file_in(
    alloc: Global,
    chip: &StilChip,
    bytes: &[u8],
    text: &StilText,
) -> Result<StilFile, StilFault>
    requires covered { IsCovered chip.now }
    requires reads { ReadsAs bytes.now text.now }
    ensures ok { IfOk result (IsFileOf chip.now bytes.now) }
    ensures cause { IfErr result (IsCause chip.now bytes.now) }
{
    let _ = bytes;
    if !is_of_chip(text, chip) {
        return Err(StilFault::OtherChip);
    }
    let order = order_of(alloc, chip.chains.as_slice())?;
    let file = made_of(alloc, chip, order.as_slice(), text.pairs.as_slice())?;
    Ok(file)
}

/// The pairs of a chip that a STIL text has, with the values that are expected under each. A line is counted
/// from 1; where the text is faulty and of another chip, it is faulty.
pub fn read_stil(alloc: Global, chip: &StilChip, bytes: &[u8]) -> Result<StilFile, StilFault>
    requires { IsCovered chip.now }
    ensures ok { IfOk result (IsFileOf chip.now bytes.now) }
    ensures cause { IfErr result (IsCause chip.now bytes.now) }
{
    match read_text(alloc, bytes) {
        Ok(text) => file_in(alloc, chip, bytes, &text),
        Err(TextFault::At { line }) => Err(StilFault::At { line }),
        Err(TextFault::NoMemory) => Err(StilFault::NoMemory),
    }
}

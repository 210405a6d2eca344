//! The pairs and expected values of a text that is of a chip.

ghost use Rattle.std.specs.Prelude.{◌≡◌, ◌<◌, length, map, IfOk};
ghost use Rattle.std.specs.List.{All};
ghost use Rattle.ca_stil_pairs.specs.Chip.{order_of};
ghost use Rattle.ca_stil_pairs.specs.code.Places.{cell_count, chip_bits, chip_levels, IsPairFor};
ghost use Rattle.ca_stil_pairs.specs.code.File.{IsMade};

use crate::places::{bits_by_place, levels_by_place};
use ca_base::{List, NoMemory};
use ca_net::Trit;
use ca_pair::Pairs;
use ca_stil::StilChip;
use ca_stil_read::TextPair;
use std::alloc::Global;

/// The pairs of a file, and for each the values that are expected at the observed outputs, X where none is.
#[derive(Drop)]
pub struct StilFile {
    pub pairs: Pairs,
    pub expected: List<List<Trit>>,
}

fn pairs_of(
    alloc: Global,
    chip: &StilChip,
    cells: usize,
    sites: &[usize],
    pairs: &[TextPair],
) -> Result<Pairs, NoMemory>
    requires cells { cells ≡ cell_count chip.now }
    requires within { All (λ site. site < cells) sites.now }
    requires pairs { All (IsPairFor chip.now) pairs.now }
    ensures { IfOk result (λ list. list ≡ map (chip_bits chip.now sites.now) pairs.now) }
{
    let ports = chip.inputs.len();
    let mut list = List::with_room(alloc, pairs.len())?;
    for k in 0..pairs.len() {
        list.push(bits_by_place(alloc, ports, cells, sites, &pairs[k].bits)?)?;
    }
    Ok(list)
}

fn expected_of(
    alloc: Global,
    chip: &StilChip,
    cells: usize,
    sites: &[usize],
    pairs: &[TextPair],
) -> Result<List<List<Trit>>, NoMemory>
    requires cells { cells ≡ cell_count chip.now }
    requires within { All (λ site. site < cells) sites.now }
    requires pairs { All (IsPairFor chip.now) pairs.now }
    ensures { IfOk result (λ list. list ≡ map (chip_levels chip.now sites.now) pairs.now) }
{
    let outputs = chip.outputs.len();
    let mut list = List::with_room(alloc, pairs.len())?;
    for k in 0..pairs.len() {
        list.push(levels_by_place(alloc, outputs, cells, sites, &pairs[k].levels)?)?;
    }
    Ok(list)
}

/// The pairs of the text by place.
pub(crate) fn file_of(
    alloc: Global,
    chip: &StilChip,
    cells: usize,
    sites: &[usize],
    pairs: &[TextPair],
) -> Result<StilFile, NoMemory>
    requires cells { cells ≡ cell_count chip.now }
    requires within { All (λ site. site < cells) sites.now }
    requires pairs { All (IsPairFor chip.now) pairs.now }
    ensures { IfOk result (IsMade chip.now sites.now pairs.now) }
{
    let made = pairs_of(alloc, chip, cells, sites, pairs)?;
    let expected = expected_of(alloc, chip, cells, sites, pairs)?;
    Ok(StilFile {
        pairs: made,
        expected,
    })
}

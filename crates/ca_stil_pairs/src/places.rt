//! The bits and the expected values of a pair by place.

ghost use Rattle.std.specs.Prelude.{◌≡◌, ◌++◌, ◌<◌, ◌+◌, Bool, false, length, map, IfOk, OnOk};
ghost use Rattle.std.specs.List.{All};
ghost use Rattle.ca_net.specs.declared.trit.Trit.TheVariants.{X};
ghost use Rattle.ca_stil.specs.Chip.{part};
ghost use Rattle.ca_stil.specs.code.Chip.{Spans};
ghost use Rattle.ca_stil_pairs.specs.code.Places.{sited, bits_from, levels_from};

use ca_base::{List, NoMemory};
use ca_net::Trit;
use ca_pair::Pair;
use std::alloc::Global;

// Appends the bits from a place on.
fn push_bits(pair: &mut Pair, bits: &Pair, from: usize, count: usize) -> Result<(), NoMemory>
    requires { Spans from count bits.now }
    ensures { OnOk result (pair.new ≡ pair.old ++ part from count bits.now) }
{
    for k in 0..count {
        pair.push(bits.get(from + k))?;
    }
    Ok(())
}

// Appends those at these sites, counted from a place on.
fn push_bits_at(
    pair: &mut Pair,
    bits: &Pair,
    from: usize,
    count: usize,
    sites: &[usize],
) -> Result<(), NoMemory>
    requires within { All (λ site. site < count) sites.now }
    requires spans { Spans from count bits.now }
    ensures { OnOk result (pair.new ≡ pair.old ++ sited false from sites.now bits.now) }
{
    for k in 0..sites.len() {
        pair.push(bits.get(from + sites[k]))?;
    }
    Ok(())
}

// Appends the values from a place on.
fn push_levels(
    list: &mut List<Trit>,
    levels: &List<Trit>,
    from: usize,
    count: usize,
) -> Result<(), NoMemory>
    requires { Spans from count levels.now }
    ensures { OnOk result (list.new ≡ list.old ++ part from count levels.now) }
{
    for k in 0..count {
        list.push(levels.get(from + k))?;
    }
    Ok(())
}

// Appends those at these sites, counted from a place on.
fn push_levels_at(
    list: &mut List<Trit>,
    levels: &List<Trit>,
    from: usize,
    count: usize,
    sites: &[usize],
) -> Result<(), NoMemory>
    requires within { All (λ site. site < count) sites.now }
    requires spans { Spans from count levels.now }
    ensures { OnOk result (list.new ≡ list.old ++ sited X from sites.now levels.now) }
{
    for k in 0..sites.len() {
        list.push(levels.get(from + sites[k]))?;
    }
    Ok(())
}

/// The bits of a pair by place, where the text has `cells` of the scan instances and `ports` of the ports, in
/// both vectors.
pub(crate) fn bits_by_place(
    alloc: Global,
    ports: usize,
    cells: usize,
    sites: &[usize],
    bits: &Pair,
) -> Result<Pair, NoMemory>
    requires within { All (λ site. site < cells) sites.now }
    requires bits { length bits.now ≡ (cells + ports) + (cells + ports) }
    ensures { IfOk result (λ pair. pair ≡ bits_from ports cells sites.now bits.now) }
{
    let half = bits.len() / 2;
    let mut pair = Pair::new(alloc);
    push_bits(&mut pair, bits, cells, ports)?;
    push_bits_at(&mut pair, bits, 0, cells, sites)?;
    push_bits(&mut pair, bits, half + cells, ports)?;
    push_bits_at(&mut pair, bits, half, cells, sites)?;
    Ok(pair)
}

/// The expected values of a pair by place.
pub(crate) fn levels_by_place(
    alloc: Global,
    outputs: usize,
    cells: usize,
    sites: &[usize],
    levels: &List<Trit>,
) -> Result<List<Trit>, NoMemory>
    requires within { All (λ site. site < cells) sites.now }
    requires levels { length levels.now ≡ outputs + cells }
    ensures { IfOk result (λ list. list ≡ levels_from outputs sites.now levels.now) }
{
    let mut list = List::with_room(alloc, levels.len())?;
    push_levels(&mut list, levels, 0, outputs)?;
    push_levels_at(&mut list, levels, outputs, cells, sites)?;
    Ok(list)
}

//! The scan chains of a chip, as the text describes them.

ghost use Rattle.std.specs.Prelude.{◌≡◌, ◌<◌, length, map, IfOk};
ghost use Rattle.std.specs.List.{All};
ghost use Rattle.ca_scan.specs.ChainFault.{AreAllChains};
ghost use Rattle.ca_chip_stil.specs.ChipStil.{place_of, chain_of};
ghost use Rattle.ca_chip_stil.specs.code.Kept.{ArePorts, ArePlacesFrom, AreScans, IsRun};

use crate::names::name_at;
use crate::ports::Ports;
use ca_base::{List, NoMemory};
use ca_linked::{Chip, InstanceList, ScanPin};
use ca_scan::Chains;
use ca_stil::StilChain;
use std::alloc::Global;

// For each scan instance its place among them, by its number among all instances.
#[tactic(auto, using(crate::proofs::PlaceLemmas::places_none))]
fn places_of(alloc: Global, chip: &Chip) -> Result<Vec<usize>, NoMemory>
    ensures { IfOk result (λ table. ArePlacesFrom chip.now 0 table.items) }
{
    let count = chip.scan_count();
    let mut places = vec![in alloc; count; chip.parts()]?;
    let mut left = count;
    'scans: while left > 0 {
        left -= 1;
        places[chip.scan(left).0 as usize] = left;
    }
    Ok(places)
}

// The places of the scan instances of a chain.
fn places_on(
    alloc: Global,
    chip: &Chip,
    places: &[usize],
    chain: &InstanceList,
) -> Result<List<usize>, NoMemory>
    requires places { ArePlacesFrom chip.now 0 places.now }
    requires scans { AreScans chip.now chain.now }
    ensures { IfOk result (λ list. list ≡ map (place_of chip.now) chain.now) }
{
    let _ = chip;
    let mut list = List::with_room(alloc, chain.len())?;
    for k in 0..chain.len() {
        list.push(places[chain.get(k).0 as usize])?;
    }
    Ok(list)
}

// A chain with its ports.
fn chain_of(
    alloc: Global,
    chip: &Chip,
    ports: &Ports,
    places: &[usize],
    chain: &InstanceList,
) -> Result<StilChain, NoMemory>
    requires ports { ArePorts chip.now ports.now }
    requires places { ArePlacesFrom chip.now 0 places.now }
    requires run { IsRun chip.now chain.now }
    ensures { IfOk result (λ made. made ≡ chain_of chip.now chain.now) }
{
    let last = chain.len() - 1;
    let scan_in = name_at(alloc, chip, ports, true, ScanPin::Si, chain.get(0))?;
    let scan_out = name_at(alloc, chip, ports, false, ScanPin::So, chain.get(last))?;
    let places = places_on(alloc, chip, places, chain)?;
    Ok(StilChain {
        scan_in,
        scan_out,
        places,
    })
}

/// The chains with their ports.
pub(crate) fn chains_of(
    alloc: Global,
    chip: &Chip,
    ports: &Ports,
    chains: &Chains,
) -> Result<List<StilChain>, NoMemory>
    requires ports { ArePorts chip.now ports.now }
    requires chains { AreAllChains chip.now chains.now }
    ensures { IfOk result (λ list. list ≡ map (chain_of chip.now) chains.now) }
{
    let places = places_of(alloc, chip)?;
    let chains = chains.as_slice();
    let mut list = List::with_room(alloc, chains.len())?;
    for k in 0..chains.len() {
        list.push(chain_of(alloc, chip, ports, &places, &chains[k])?)?;
    }
    Ok(list)
}

//! Where each scan instance's value stands in a text.

ghost use Rattle.std.specs.Prelude.{◌≡◌, ◌++◌, ◌<◌, reverse, IfOk, OnOk};
ghost use Rattle.ca_stil_pairs.specs.Chip.{order_of, IsCovered};
ghost use Rattle.ca_stil_pairs.specs.code.Places.{AreSites};

use ca_base::{List, NoMemory};
use ca_stil::{StilChain, StilChip};
use std::alloc::Global;

// Appends the scan instances of a chain, the last one first.
fn push_chain(order: &mut List<usize>, chain: &StilChain) -> Result<(), NoMemory>
    ensures { OnOk result (order.new ≡ order.old ++ reverse chain.now.places) }
{
    let places = chain.places.as_slice();
    let mut left = places.len();
    'places: while left > 0 {
        left -= 1;
        order.push(places[left])?;
    }
    Ok(())
}

/// The scan instances in the order of a text.
pub(crate) fn order_of(alloc: Global, chains: &[StilChain]) -> Result<List<usize>, NoMemory>
    ensures { IfOk result (λ order. order ≡ order_of chains.now) }
{
    let mut order = List::new(alloc);
    for chain in chains {
        push_chain(&mut order, chain)?;
    }
    Ok(order)
}

/// For each scan instance its place in this order.
pub(crate) fn sites_of(
    alloc: Global,
    chip: &StilChip,
    order: &[usize],
) -> Result<Vec<usize>, NoMemory>
    requires covered { IsCovered chip.now }
    requires order { order.now ≡ order_of chip.now.chains }
    ensures { IfOk result (λ sites. AreSites order.now chip.now.scan_count sites.items) }
{
    let mut sites = vec![in alloc; 0; chip.scan_count]?;
    for i in 0..order.len() {
        sites[order[i]] = i;
    }
    Ok(sites)
}

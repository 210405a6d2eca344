//! Wiring of a draft that is known to keep the rules on nets, as that of a merged chip.

ghost use Rattle.std.specs.Prelude.{◌≡◌, IfOk};
ghost use Rattle.ca_linked.specs.Linked.{Feeds, IsLibrary, IsWired};
ghost use Rattle.ca_linked.specs.Drivers.{IsDrafted};
ghost use Rattle.ca_linked.specs.Feeding.{AreSingle};
ghost use Rattle.ca_linked.specs.Order.{HasNoLoop, IsOrder};
ghost use Rattle.ca_linked.specs.Wired.{AreDriven, IsFound, IsReady};

use crate::chip::Chip;
use crate::draft::Draft;
use crate::drivers::{Drivers, drivers_of};
use crate::feeding::order_of;
use crate::instances::InstanceList;
use crate::order::SortFault;
use crate::paths::path_of;
use crate::wiring::{Judged, chip_of, tables_of};
use ca_base::NoMemory;
use std::alloc::Global;

// The driver of each net.
fn single_drivers(alloc: Global, draft: &Draft) -> Result<Drivers, NoMemory>
    requires drafted { IsDrafted draft.now }
    requires driven { AreDriven draft.now }
    ensures { IfOk result (AreSingle draft.now) }
{
    let drivers = drivers_of(alloc, draft)?;
    Ok(drivers)
}

// An order of the library instances.
fn known_order(alloc: Global, draft: &Draft, drivers: &Drivers) -> Result<InstanceList, NoMemory>
    requires drafted { IsDrafted draft.now }
    requires single { AreSingle draft.now drivers.now }
    requires no_loop { HasNoLoop (Feeds draft.now) }
    ensures { IfOk result (IsOrder (Feeds draft.now) (IsLibrary draft.now)) }
{
    match order_of(alloc, draft, drivers) {
        Ok(order) => Ok(order),
        Err(SortFault::NoMemory) => Err(NoMemory),
        Err(SortFault::Loop(_)) => unreachable!(),
    }
}

// What `tables_of` and `chip_of` need of a draft.
fn find(alloc: Global, draft: &Draft) -> Result<Judged, NoMemory>
    requires { IsReady draft.now }
    ensures { IfOk result (IsFound draft.now) }
{
    let drivers = single_drivers(alloc, draft)?;
    let path = path_of(alloc, draft)?;
    match known_order(alloc, draft, &drivers) {
        Ok(order) => Ok(Judged {
            drivers,
            path,
            order,
        }),
        Err(_) => Err(NoMemory),
    }
}

/// The chip of a draft that needs no judgement: it is known to keep the rules on nets.
pub fn wire_draft(alloc: Global, draft: Draft) -> Result<Chip, NoMemory>
    requires { IsReady draft }
    ensures ok { IfOk result (λ chip. chip ≡ record draft { order = chip.order }) }
    ensures wired { IfOk result IsWired }
{
    let found = find(alloc, &draft)?;
    match tables_of(alloc, &draft, &found) {
        Ok(tables) => Ok(chip_of(draft, found, tables)),
        Err(_) => Err(NoMemory),
    }
}

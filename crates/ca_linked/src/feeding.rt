//! Which library instances feed which, and their order.

ghost use Rattle.std.specs.Prelude.{◌≡◌, ◌<◌, length, IfOk, IfErr};
ghost use Rattle.ca_linked.specs.Linked.{net_count, Feeds, IsLibrary};
ghost use Rattle.ca_linked.specs.Drivers.{IsDrafted};
ghost use Rattle.ca_linked.specs.Order.{IsOrder};
ghost use Rattle.ca_linked.specs.Feeding.{AreSingle};
ghost use Rattle.ca_linked.specs.code.Feeding.{IsGateOn, FeedsPin, IsRow, HaveFeeders, HasGates};
ghost use Rattle.ca_linked.specs.code.Feeding.{IsOrderCause};

use crate::draft::Draft;
use crate::drivers::Drivers;
use crate::instances::{InstanceId, InstanceList};
use crate::order::{Feeders, SortFault, sort};
use ca_base::NoMemory;
use std::alloc::Global;

// The library instance that drives a net, if one does.
fn gate_on(draft: &Draft, drivers: &Drivers, net: u32) -> Option<u32>
    requires single { AreSingle draft.now drivers.now }
    requires within { net < net_count draft.now }
    ensures { IsGateOn draft.now net result }
{
    match drivers.get(net).instance() {
        None => None,
        Some(w) => {
            if draft.part(w as usize).body.is_gate() {
                Some(w)
            } else {
                None
            }
        }
    }
}

// Those that feed an instance.
fn row(alloc: Global, draft: &Draft, drivers: &Drivers, u: usize) -> Result<InstanceList, NoMemory>
    requires drafted { IsDrafted draft.now }
    requires single { AreSingle draft.now drivers.now }
    requires within { u < length draft.now.parts }
    ensures { IfOk result (IsRow draft.now u) }
{
    let mut row = InstanceList::new(alloc);
    let body = &draft.part(u).body;
    if body.is_gate() {
        for pin in 0..body.input_count() {
            if let Some(w) = gate_on(draft, drivers, body.input(pin)) {
                row.push(InstanceId(w))?;
            }
        }
    }
    Ok(row)
}

// For each instance those that feed it.
fn feeders_of(alloc: Global, draft: &Draft, drivers: &Drivers) -> Result<Feeders, NoMemory>
    requires drafted { IsDrafted draft.now }
    requires single { AreSingle draft.now drivers.now }
    ensures { IfOk result (HaveFeeders draft.now (length draft.now.parts)) }
{
    let mut feeders = Feeders::new(alloc);
    for u in 0..draft.parts() {
        let row = row(alloc, draft, drivers, u)?;
        feeders.push(row)?;
    }
    Ok(feeders)
}

// The library instances.
fn gates_of(alloc: Global, draft: &Draft) -> Result<InstanceList, NoMemory>
    requires { IsDrafted draft.now }
    ensures { IfOk result (HasGates draft.now (length draft.now.parts)) }
{
    let mut gates = InstanceList::new(alloc);
    for u in 0..draft.parts() {
        if draft.part(u).body.is_gate() {
            gates.push(InstanceId(u as u32))?;
        }
    }
    Ok(gates)
}

/// An order of the library instances in which each comes after those that feed it; or a loop among them.
pub(crate) fn order_of(
    alloc: Global,
    draft: &Draft,
    drivers: &Drivers,
) -> Result<InstanceList, SortFault>
    requires drafted { IsDrafted draft.now }
    requires single { AreSingle draft.now drivers.now }
    ensures ok { IfOk result (IsOrder (Feeds draft.now) (IsLibrary draft.now)) }
    ensures cause { IfErr result (IsOrderCause draft.now) }
{
    let feeders = feeders_of(alloc, draft, drivers)?;
    let gates = gates_of(alloc, draft)?;
    sort(alloc, &feeders, gates.as_slice())
}

//! Wiring: the drivers of the nets, the scan path, and the order of the library instances.

ghost use Rattle.std.specs.Prelude.{◌≡◌, ◌<◌, length, IfOk, OnOk, IfErr};
ghost use Rattle.std.specs.List.{All};
ghost use Rattle.ca_linked.specs.Linked.{net_count, is_scan_path, IsWired};
ghost use Rattle.ca_linked.specs.Drivers.{IsDrafted};
ghost use Rattle.ca_linked.specs.code.Drivers.{AreDrivers};
ghost use Rattle.ca_linked.specs.Feeding.{AreSingle};
ghost use Rattle.ca_linked.specs.Paths.{AreMarks};
ghost use Rattle.ca_linked.specs.code.Kept.{ArePlaces};
ghost use Rattle.ca_linked.specs.Order.{IsOnce};
ghost use Rattle.ca_linked.specs.Wired.{KeepsNetRules, IsWireCause, IsFound, IsJudged};
ghost use Rattle.ca_linked.specs.code.Wired.{wire_fault, AreTables};

use crate::chip::Chip;
use crate::controls::{Misused, first_misused};
use crate::draft::Draft;
use crate::drivers::{Drivers, Sources, drivers_of};
use crate::ends::{inputs_of, outputs_of};
use crate::feeding::order_of;
use crate::instances::InstanceList;
use crate::marks::NetMarks;
use crate::order::SortFault;
use crate::parts::NetList;
use crate::paths::{first_observed, path_of};
use crate::pins::{gates_of, scans_of};
use crate::readers::{Readers, readers_of};
use crate::used::used_of;
use ca_base::NoMemory;
use std::alloc::Global;

/// The first rule on nets that a netlist breaks.
#[derive(Drop)]
pub enum WireFault {
    /// Nothing drives the net, or two do.
    Misdriven(u32, Sources),
    /// A control pin of a scan instance is not on the input port that it is to be on, or its inverted output
    /// has a load.
    Misused(Misused),
    /// The net is of the scan path, and is on a data pin or leads from an input port to an output port.
    Observed(u32),
    /// Each of these drives the next, and the last the first.
    Loop(InstanceList),
    NoMemory,
}

/// What was found of a draft that keeps the rules on nets: its drivers, its scan path, and an order of its
/// library instances.
#[derive(Drop)]
pub struct Judged {
    pub(crate) drivers: Drivers,
    pub(crate) path: NetMarks,
    pub(crate) order: InstanceList,
}

impl From<NoMemory> for WireFault {
    ghost use Rattle.ca_linked.specs.declared.wiring.WireFault.TheVariants as fault;

    ghost from_gives = { λ _ e. e ≡ fault.NoMemory };

    fn from(_: NoMemory) -> Self {
        WireFault::NoMemory
    }
}

impl WireFault {
    // Why there is no order.
    fn of(fault: SortFault) -> Self
        ensures { result ≡ wire_fault fault }
    {
        match fault {
            SortFault::Loop(instances) => WireFault::Loop(instances),
            SortFault::NoMemory => WireFault::NoMemory,
        }
    }
}

// The place of each instance in the order.
fn places_of(alloc: Global, order: &InstanceList, instances: usize) -> Result<Vec<usize>, NoMemory>
    requires within { All (λ u. u < instances) order.now }
    requires once { IsOnce order.now }
    ensures { IfOk result (λ places. ArePlaces order.now (length order.now) instances places.items) }
{
    let mut places = vec![in alloc; 0; instances]?;
    for k in 0..order.len() {
        places[order.get(k).0 as usize] = k;
    }
    Ok(places)
}

// The rules on nets but that on loops, in the order in which they are tried.
fn judge_nets(
    alloc: Global,
    draft: &Draft,
    drivers: &Drivers,
    path: &NetMarks,
) -> Result<(), WireFault>
    requires drafted { IsDrafted draft.now }
    requires drivers { AreDrivers draft.now drivers.now }
    requires path { AreMarks (net_count draft.now) (is_scan_path draft.now) path.now }
    ensures ok { OnOk result (KeepsNetRules draft.now) }
    ensures single { OnOk result (AreSingle draft.now drivers.now) }
    ensures cause { IfErr result (IsWireCause draft.now) }
{
    if let Some(net) = drivers.first_flaw() {
        return Err(WireFault::Misdriven(net, drivers.get(net)));
    }
    if let Some(misused) = first_misused(alloc, draft)? {
        return Err(WireFault::Misused(misused));
    }
    if let Some(net) = first_observed(alloc, draft, path)? {
        return Err(WireFault::Observed(net));
    }
    Ok(())
}

/// The first rule on nets that a draft breaks; or what `wire` needs, where it breaks none.
pub fn judge(alloc: Global, draft: &Draft) -> Result<Judged, WireFault>
    requires { IsDrafted draft.now }
    ensures ok { IfOk result (IsJudged draft.now) }
    ensures kept { OnOk result (KeepsNetRules draft.now) }
    ensures cause { IfErr result (IsWireCause draft.now) }
{
    let drivers = drivers_of(alloc, draft)?;
    let path = path_of(alloc, draft)?;
    if let Err(fault) = judge_nets(alloc, draft, &drivers, &path) {
        return Err(fault);
    }
    match order_of(alloc, draft, &drivers) {
        Err(fault) => Err(WireFault::of(fault)),
        Ok(order) => Ok(Judged {
            drivers,
            path,
            order,
        }),
    }
}

// What a chip keeps beside its draft and what was judged.
#[derive(Drop)]
pub(crate) struct Tables {
    readers: Readers,
    inputs: NetList,
    outputs: NetList,
    gates: InstanceList,
    scans: InstanceList,
    used: Vec<u32>,
    places: Vec<usize>,
}

/// The tables of a draft.
pub(crate) fn tables_of(alloc: Global, draft: &Draft, judged: &Judged) -> Result<Tables, NoMemory>
    requires drafted { IsDrafted draft.now }
    requires found { IsFound draft.now judged.now }
    ensures { IfOk result (λ tables. AreTables draft.now judged.now tables) }
{
    Ok(Tables {
        readers: readers_of(alloc, draft)?,
        inputs: inputs_of(alloc, draft, &judged.path)?,
        outputs: outputs_of(alloc, draft, &judged.path)?,
        gates: gates_of(alloc, draft)?,
        scans: scans_of(alloc, draft)?,
        used: used_of(alloc, draft)?,
        places: places_of(alloc, &judged.order, draft.parts())?,
    })
}

/// The chip of a draft, of what was found and of the tables.
pub(crate) fn chip_of(draft: Draft, judged: Judged, tables: Tables) -> Chip
    requires wired { IsWired (record draft { order = judged.order }) }
    requires found { IsFound draft judged }
    requires tables { AreTables draft judged tables }
    ensures chip { result ≡ record draft { order = judged.order } }
    ensures wired { IsWired result }
{
    Chip {
        library: draft.library,
        nets: draft.nets,
        zero: draft.zero,
        one: draft.one,
        parts: draft.parts,
        ports: draft.ports,
        order: judged.order,
        path: judged.path,
        drivers: judged.drivers,
        places: tables.places,
        readers: tables.readers,
        inputs: tables.inputs,
        outputs: tables.outputs,
        gates: tables.gates,
        scans: tables.scans,
        used: tables.used,
    }
}

/// The chip of a draft that keeps the rules on nets.
pub fn wire(alloc: Global, draft: Draft, judged: Judged) -> Result<Chip, NoMemory>
    requires drafted { IsDrafted draft }
    requires judged { IsJudged draft judged }
    ensures ok { IfOk result (λ chip. chip ≡ record draft { order = chip.order }) }
    ensures wired { IfOk result IsWired }
{
    match tables_of(alloc, &draft, &judged) {
        Ok(tables) => Ok(chip_of(draft, judged, tables)),
        Err(_) => Err(NoMemory),
    }
}

//! What is reported about a fault of nets.

ghost use Rattle.std.specs.Prelude.{◌≡◌, ◌<◌, Some, IfOk, slice_get, IsSomeAnd};
ghost use Rattle.ca_linked.specs.Linked.{Drives};
ghost use Rattle.ca_linked.specs.Drivers.{AreFirst};
ghost use Rattle.ca_linked.specs.Instances.{IsScan};
ghost use Rattle.ca_linked.specs.Wired.{IsWireCause};
ghost use Rattle.ca_link.specs.code.Names.{HaveNames, ReportsSource};
ghost use Rattle.ca_link.specs.code.Reported.{ReportsMisdriven, ReportsMisused, ReportsFault, IsControlName};

use crate::controls::control_name;
use crate::names::{output_name, row_of};
use ca_base::NoMemory;
use ca_lex::Text;
use ca_linked::{Draft, Misused, Source, Sources, WireFault};
use ca_wiring::{ChipFault, Driver, InstanceId, NetId, ScanRow};
use std::alloc::Global;

// How a fault names what drives a net.
fn driver_of(
    alloc: Global,
    draft: &Draft,
    scan: &[ScanRow],
    net: u32,
    source: Source,
) -> Result<Driver, NoMemory>
    requires names { HaveNames draft.now scan.now }
    requires drives { Drives draft.now net source }
    ensures { IfOk result (ReportsSource draft.now scan.now net source) }
{
    match source {
        Source::FromPort(_) => Ok(Driver::Port(NetId(net))),
        Source::FromConstant(value) => Ok(Driver::Constant(value)),
        Source::FromPin(u, pin) => {
            let pin = output_name(alloc, draft, scan, u, pin)?;
            Ok(Driver::Pin {
                instance: InstanceId(u),
                pin,
            })
        }
    }
}

// A net that nothing drives, or two do.
fn tell_misdriven(
    alloc: Global,
    draft: &Draft,
    scan: &[ScanRow],
    net: u32,
    sources: Sources,
) -> Result<ChipFault, NoMemory>
    requires names { HaveNames draft.now scan.now }
    requires first { AreFirst (Drives draft.now net) sources.first sources.second }
    ensures { IfOk result (ReportsMisdriven draft.now scan.now net sources.first sources.second) }
{
    match (sources.first, sources.second) {
        (Some(one), Some(two)) => {
            let first = driver_of(alloc, draft, scan, net, one)?;
            let second = driver_of(alloc, draft, scan, net, two)?;
            Ok(ChipFault::DoubleDriven {
                net: NetId(net),
                first,
                second,
            })
        }
        (Some(_), None) => Ok(ChipFault::Undriven { net: NetId(net) }),
        (None, _) => Ok(ChipFault::Undriven { net: NetId(net) }),
    }
}

// The name of a control pin, by the place of its instance.
fn control_of(
    alloc: Global,
    draft: &Draft,
    scan: &[ScanRow],
    u: u32,
    k: u32,
) -> Result<Text, NoMemory>
    requires names { HaveNames draft.now scan.now }
    requires scan { IsSomeAnd (slice_get draft.now.parts u) (λ part. IsScan part.body) }
    requires few { k < 3 }
    ensures { IfOk result (IsControlName draft.now scan.now u k) }
{
    match row_of(scan, &draft.part(u as usize).cell) {
        Some(row) => control_name(alloc, row, k),
        None => unreachable!(),
    }
}

// A pin of a scan instance that breaks its rule.
fn tell_misused(
    alloc: Global,
    draft: &Draft,
    scan: &[ScanRow],
    misused: Misused,
) -> Result<ChipFault, NoMemory>
    requires names { HaveNames draft.now scan.now }
    requires scan { IsSomeAnd (slice_get draft.now.parts misused.instance) (λ part. IsScan part.body) }
    requires few { misused.pin < 4 }
    ensures { IfOk result (ReportsMisused draft.now scan.now misused) }
{
    let instance = InstanceId(misused.instance);
    if misused.pin == 3 {
        Ok(ChipFault::QnUsed { instance })
    } else {
        let pin = control_of(alloc, draft, scan, misused.instance, misused.pin)?;
        Ok(ChipFault::ControlPin { instance, pin })
    }
}

/// What is reported about a fault of nets.
pub(crate) fn tell(
    alloc: Global,
    draft: &Draft,
    scan: &[ScanRow],
    fault: WireFault,
) -> Result<ChipFault, NoMemory>
    requires names { HaveNames draft.now scan.now }
    requires cause { IsWireCause draft.now fault }
    ensures { IfOk result (ReportsFault draft.now scan.now fault) }
{
    match fault {
        WireFault::Misdriven(net, sources) => tell_misdriven(alloc, draft, scan, net, sources),
        WireFault::Misused(misused) => tell_misused(alloc, draft, scan, misused),
        WireFault::Observed(net) => Ok(ChipFault::ControlObserved { net: NetId(net) }),
        WireFault::Loop(instances) => Ok(ChipFault::Loop { instances }),
        WireFault::NoMemory => Ok(ChipFault::NoMemory),
    }
}

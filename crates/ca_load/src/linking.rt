//! The chip of what was read, and its chains.
ghost use Rattle.std.specs.Prelude.{◌≡◌, ◌<◌, ℕ, List, map, length, Some, IsSomeAnd, slice_get};
ghost use Rattle.std.specs.Prelude.{IfErr, IfOk, OnOk};
ghost use Rattle.std.specs.List.{IsDistinct};
ghost use Rattle.std.specs.Str.{bytes_eq};
ghost use Rattle.ca_verilog.specs.IsNetlist.{IsNetlist};
ghost use Rattle.ca_cell.specs.Library.{Named};
ghost use Rattle.ca_wiring.specs.declared.scan_row.ScanRow.{ScanRow};
ghost use Rattle.ca_wiring.specs.InstanceRules.{AreSound};
ghost use Rattle.ca_wiring.specs.Rules.{IsCause};
ghost use Rattle.ca_fault_place.specs.Place.{IsOfNetlist};
ghost use Rattle.ca_scan.specs.ChainFault.{AreAllChains, IsChainCause};
ghost use Rattle.ca_load.specs.Chips.{IsChipOf, IsOfCell};
ghost use Rattle.ca_load.specs.code.Stages.{inputs_of, IsLinkStage, IsTraceStage, IsLinkedStage};

use crate::loading::Loaded;
use crate::reading::Read;
use ca_base::NoMemory;
use ca_cell::Library;
use ca_fault::{Fault, LimitKind};
use ca_fault_place::{place_of, refused_place};
use ca_lex::{Text, fold};
use ca_link::link_instances;
use ca_linked::{Chip, InstanceId};
use ca_scan::{ChainFault, Chains, ScanTable, trace};
use ca_verilog::RawNetlist;
use ca_wiring::{ChipFault, ScanRow, judge_instances};
use std::alloc::Global;

/// The chip of what was read, with its chains.
pub(crate) fn link_all(alloc: Global, read: Read) -> Result<Loaded, Fault>
    requires rules { IsNetlist read.netlist }
    requires distinct { IsDistinct bytes_eq (map (λ row. row.cell) read.scan) }

    ensures ok { IfOk result (λ loaded. IsChipOf (inputs_of read) loaded.chip) }
    ensures chains { IfOk result (λ loaded. AreAllChains loaded.chip loaded.chains) }
    ensures cause { IfErr result (IsLinkedStage (inputs_of read)) }
{
    let Read {
        library,
        netlist,
        scan,
    } = read;
    let loaded = loaded_from(alloc, library, &netlist, &scan);
    drop(netlist);
    drop(scan);
    loaded
}

// The chip that a library gives with a netlist and a table of scan cells, and its chains.
#[tactic(auto, using(crate::proofs::LinkLemmas::at_link, crate::proofs::LinkLemmas::at_trace))]
fn loaded_from(
    alloc: Global,
    library: Library,
    netlist: &RawNetlist,
    scan: &ScanTable,
) -> Result<Loaded, Fault>
    requires rules { IsNetlist netlist.now }
    requires distinct { IsDistinct bytes_eq (map (λ row. row.cell) scan.now) }

    ensures ok { IfOk result (λ loaded. IsChipOf
        (record { library = library; netlist = netlist.now; rows = scan.now }) loaded.chip) }
    ensures chains { IfOk result (λ loaded. AreAllChains loaded.chip loaded.chains) }
    ensures cause { IfErr result (IsLinkedStage
        (record { library = library; netlist = netlist.now; rows = scan.now })) }
{
    let chip = linked(alloc, library, netlist, scan)?;
    traced(alloc, chip)
}

// The chip that a library gives with a netlist and a table of scan cells.
fn linked(
    alloc: Global,
    library: Library,
    netlist: &RawNetlist,
    scan: &ScanTable,
) -> Result<Chip, Fault>
    requires rules { IsNetlist netlist.now }
    requires distinct { IsDistinct bytes_eq (map (λ row. row.cell) scan.now) }

    ensures ok { IfOk result (IsChipOf
        (record { library = library; netlist = netlist.now; rows = scan.now })) }
    ensures cause { IfErr result (IsLinkStage
        (record { library = library; netlist = netlist.now; rows = scan.now })) }
{
    match judge_cells(alloc, &library, netlist, scan.as_slice()) {
        Ok(()) => chip_of(alloc, library, netlist, scan),
        Err(fault) => {
            drop(library);
            Err(fault)
        }
    }
}

// A chip with its chains.
fn traced(alloc: Global, chip: Chip) -> Result<Loaded, Fault>
    ensures ok { IfOk result (λ loaded. loaded.chip ≡ chip) }
    ensures chains { IfOk result (λ loaded. AreAllChains loaded.chip loaded.chains) }
    ensures cause { IfErr result (IsTraceStage chip) }
{
    match chains_of(alloc, &chip) {
        Ok(chains) => Ok(Loaded { chip, chains }),
        Err(fault) => {
            drop(chip);
            Err(fault)
        }
    }
}

// The rules on instances are tried before linking takes the library over, which has the names of the pins and
// transistors of a cell that breaks a rule.
fn judge_cells(
    alloc: Global,
    library: &Library,
    netlist: &RawNetlist,
    scan: &[ScanRow],
) -> Result<(), Fault>
    requires rules { IsNetlist netlist.now }
    requires distinct { IsDistinct bytes_eq (map (λ row. row.cell) scan.now) }

    ensures sound { OnOk result (AreSound netlist.now library.now scan.now) }
    ensures cause { IfErr result (IsLinkStage
        (record { library = library.now; netlist = netlist.now; rows = scan.now })) }
{
    match judge_instances(alloc, netlist, library, scan) {
        Ok(()) => Ok(()),
        Err(ChipFault::Cell { instance, rule }) => Err(Fault::Cell {
            cell: cell_name(alloc, netlist, instance)?,
            rule,
            place: refused_place(alloc, netlist, library, instance, rule)?,
        }),
        Err(fault) => Err(broken_rule(alloc, netlist, fault)),
    }
}

// The chip of a netlist whose instances keep their rules.
#[tactic(auto, using(crate::proofs::SoundLemmas::of_netlist))]
fn chip_of(
    alloc: Global,
    library: Library,
    netlist: &RawNetlist,
    scan: &ScanTable,
) -> Result<Chip, Fault>
    requires rules { IsNetlist netlist.now }
    requires distinct { IsDistinct bytes_eq (map (λ row. row.cell) scan.now) }
    requires sound { AreSound netlist.now library scan.now }

    ensures ok { IfOk result (IsChipOf
        (record { library = library; netlist = netlist.now; rows = scan.now })) }
    ensures cause { IfErr result (IsLinkStage
        (record { library = library; netlist = netlist.now; rows = scan.now })) }
{
    match link_instances(alloc, netlist, library, scan) {
        Ok(chip) => {
            chip.wired();
            Ok(chip)
        }
        Err(fault) => Err(broken_rule(alloc, netlist, fault)),
    }
}

// The fault for a broken rule other than that of an instance's cell: the rule and its place, or the limit
// that is passed.
fn broken_rule(alloc: Global, netlist: &RawNetlist, fault: ChipFault) -> Fault
    requires rules { IsNetlist netlist.now }
    requires of_netlist { IsOfNetlist fault }
    ensures { (library : List Named) (scan : List ScanRow) → IsCause netlist.now library scan fault
        → IsLinkStage (record { library = library; netlist = netlist.now; rows = scan }) result }
{
    match fault {
        ChipFault::TooManyInstances { count } => passed(LimitKind::Instances, count),
        ChipFault::TooManyInputs { count } => passed(LimitKind::Inputs, count),
        ChipFault::TooManyOutputs { count } => passed(LimitKind::Outputs, count),
        ChipFault::TooManyDefects { count } => passed(LimitKind::Defects, count),
        ChipFault::NoMemory => Fault::NoMemory,
        rule => match place_of(alloc, netlist, &rule) {
            Ok(place) => Fault::Chip { rule, place },
            Err(NoMemory) => Fault::NoMemory,
        },
    }
}

// A limit that is passed.
fn passed(kind: LimitKind, count: usize) -> Fault
    ensures { result ≡ Fault.Limit kind count }
{
    Fault::Limit { kind, count }
}

// The name of an instance's cell, in upper case.
fn cell_name(alloc: Global, netlist: &RawNetlist, u: InstanceId) -> Result<Text, NoMemory>
    requires { u.0 < length netlist.now.instances }
    ensures { IfOk result (IsOfCell netlist.now u) }
{
    fold(
        alloc,
        netlist.instances.as_slice()[u.0 as usize].cell.as_bytes(),
    )
}

// The chains of a chip.
fn chains_of(alloc: Global, chip: &Chip) -> Result<Chains, Fault>
    ensures ok { IfOk result (AreAllChains chip.now) }
    ensures cause { IfErr result (IsTraceStage chip.now) }
{
    match trace(alloc, chip) {
        Ok(chains) => Ok(chains),
        Err(ChainFault::ChainBroken { instance }) => Err(Fault::Chain {
            instance: chip.instance_name(instance).copy(alloc)?,
        }),
        Err(ChainFault::TooManyChains { count }) => Err(Fault::Limit {
            kind: LimitKind::Chains,
            count,
        }),
        Err(ChainFault::NoMemory) => Err(Fault::NoMemory),
    }
}

//! Linking.

ghost use Rattle.std.specs.Prelude.{◌≡◌, map, IfOk, IfErr, OnOk};
ghost use Rattle.std.specs.List.{IsDistinct};
ghost use Rattle.std.specs.Str.{bytes_eq};
ghost use Rattle.ca_cell.specs.Library.{raw_of};
ghost use Rattle.ca_verilog.specs.IsNetlist.{IsNetlist};
ghost use Rattle.ca_wiring.specs.Wiring.{wiring_of};
ghost use Rattle.ca_wiring.specs.Linking.{IsLinkOf};
ghost use Rattle.ca_wiring.specs.InstanceRules.{AreSound};
ghost use Rattle.ca_wiring.specs.Rules.{KeepsRules, IsCause};

use crate::limits::{defects_of, first_limit};
use crate::telling::tell;
use ca_cell::Library;
use ca_draft::draft_of;
use ca_linked::{Chip, judge, wire};
use ca_verilog::RawNetlist;
use ca_wiring::{ChipFault, ScanTable, judge_instances};
use std::alloc::Global;

/// The chip of a netlist, which takes the library over; or the first rule that is broken, and then the
/// library is dropped. Different rows of the scan table are of different cells.
pub fn link(
    alloc: Global,
    netlist: &RawNetlist,
    library: Library,
    scan: &ScanTable,
) -> Result<Chip, ChipFault>
    requires netlist { IsNetlist netlist.now }
    requires rows { IsDistinct bytes_eq (map (λ row. row.cell) scan.now) }
    ensures ok { IfOk result (IsLinkOf (wiring_of netlist.now library scan.now)) }
    ensures cells { IfOk result (λ chip. chip.cells ≡ map (λ named. raw_of named.entry) library) }
    ensures kept { OnOk result (KeepsRules netlist.now library scan.now) }
    ensures cause { IfErr result (IsCause netlist.now library scan.now) }
{
    match judge_instances(alloc, netlist, &library, scan.as_slice()) {
        Ok(()) => link_instances(alloc, netlist, library, scan),
        Err(fault) => {
            drop(library);
            Err(fault)
        }
    }
}

/// The same where the instances were judged: each keeps its rules. So a caller that finds the place of a
/// fault by the library, which is gone afterwards, judges the instances itself, and they are judged once.
pub fn link_instances(
    alloc: Global,
    netlist: &RawNetlist,
    library: Library,
    scan: &ScanTable,
) -> Result<Chip, ChipFault>
    requires netlist { IsNetlist netlist.now }
    requires rows { IsDistinct bytes_eq (map (λ row. row.cell) scan.now) }
    requires sound { AreSound netlist.now library scan.now }
    ensures ok { IfOk result (IsLinkOf (wiring_of netlist.now library scan.now)) }
    ensures cells { IfOk result (λ chip. chip.cells ≡ map (λ named. raw_of named.entry) library) }
    ensures kept { OnOk result (KeepsRules netlist.now library scan.now) }
    ensures cause { IfErr result (IsCause netlist.now library scan.now) }
{
    let draft = draft_of(alloc, library, netlist, scan)?;
    match judge(alloc, &draft) {
        Err(fault) => {
            let reported = tell(alloc, &draft, scan.as_slice(), fault);
            drop(draft);
            Err(reported?)
        }
        Ok(judged) => {
            let defects = defects_of(&draft);
            let chip = wire(alloc, draft, judged)?;
            match first_limit(&chip, defects) {
                Some(fault) => {
                    drop(chip);
                    Err(fault)
                }
                None => Ok(chip),
            }
        }
    }
}

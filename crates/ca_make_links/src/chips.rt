//! Generated chips, linked.

ghost use Rattle.std.specs.Prelude.{◌≡◌, ◌≤◌, [], map, IfOk, OnOk};
ghost use Rattle.ca_wiring.specs.declared.fault.ChipFault.TheVariants as fault;
ghost use Rattle.std.specs.List.{All};
ghost use Rattle.ca_cell.specs.Library.{raw_of, IsEntry};
ghost use Rattle.ca_wiring.specs.Wiring.{wiring_of};
ghost use Rattle.ca_wiring.specs.Linking.{IsLinkOf};
ghost use Rattle.ca_make.specs.declared.gate.TheConstants.{MOST_GATES};
ghost use Rattle.ca_make_laws.specs.Cells.{sound_library};
ghost use Rattle.ca_make_laws.specs.ChipNetlist.{chip_netlist};

use ca_base::NoMemory;
use ca_link::link;
use ca_linked::Chip;
use ca_make_laws::{made_library, made_netlist};
use ca_wiring::{ChipFault, ScanTable};
use std::alloc::Global;

// The only fault that linking meets here.
fn want_of_memory(reported: ChipFault) -> NoMemory
    requires { reported ≡ fault.NoMemory }
{
    let _ = reported;
    NoMemory
}

/// The generated chip of a number, read from its texts and linked without scan cells. Fails only when out of
/// memory.
pub fn made_chip(alloc: Global, n: u32) -> Result<Chip, NoMemory>
    requires { n ≤ MOST_GATES }
    ensures link { IfOk result (IsLinkOf (wiring_of (chip_netlist n) sound_library [])) }
    ensures entries { OnOk result (All (λ named. IsEntry named.entry) sound_library) }
    ensures cells { IfOk result (λ chip. chip.cells ≡ map (λ named. raw_of named.entry) sound_library) }
{
    let library = made_library(alloc)?;
    let netlist = made_netlist(alloc, n)?;
    let scan = ScanTable::new(alloc);
    match link(alloc, &netlist, library, &scan) {
        Ok(chip) => Ok(chip),
        Err(fault) => Err(want_of_memory(fault)),
    }
}

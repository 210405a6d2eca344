//! The texts of generated chips, read.

ghost use Rattle.std.specs.Prelude.{◌≡◌, ◌≤◌, IfOk};
ghost use Rattle.std.specs.List.{All};
ghost use Rattle.ca_cell.specs.Library.{IsEntry};
ghost use Rattle.ca_verilog.specs.IsNetlist.{IsNetlist};
ghost use Rattle.ca_make.specs.declared.gate.TheConstants.{MOST_GATES};
ghost use Rattle.ca_make_laws.specs.Cells.{sound_library};
ghost use Rattle.ca_make_laws.specs.ChipNetlist.{chip_netlist};

use ca_base::NoMemory;
use ca_cell::{Library, StrengthTable};
use ca_make::{library, netlist};
use ca_spice::{SpiceFault, read_library};
use ca_verilog::{RawNetlist, VerilogFault, read_netlist};
use std::alloc::Global;

/// The cells of generated chips, read from their text; each keeps the rules. Fails only when out of memory.
pub fn made_library(alloc: Global) -> Result<Library, NoMemory>
    ensures sound { IfOk result (λ library. library ≡ sound_library) }
    ensures entries { IfOk result (λ library. All (λ named. IsEntry named.entry) library) }
{
    let text = library(alloc)?;
    match read_library(alloc, &StrengthTable::default_table(), text.as_bytes()) {
        Ok(library) => Ok(library),
        Err(SpiceFault::NoMemory) => Err(NoMemory),
        Err(SpiceFault::At { .. }) => unreachable!(),
        Err(SpiceFault::TooManyCells { .. }) => unreachable!(),
    }
}

/// The netlist of the generated chip of a number, read from its text. Fails only when out of memory.
pub fn made_netlist(alloc: Global, n: u32) -> Result<RawNetlist, NoMemory>
    requires { n ≤ MOST_GATES }
    ensures netlist { IfOk result (λ raw. raw ≡ chip_netlist n) }
    ensures kept { IfOk result IsNetlist }
{
    let text = netlist(alloc, n)?;
    match read_netlist(alloc, text.as_bytes()) {
        Ok(raw) => Ok(raw),
        Err(VerilogFault::NoMemory) => Err(NoMemory),
        Err(VerilogFault::At { .. }) => unreachable!(),
        Err(VerilogFault::TooManyNets { .. }) => unreachable!(),
    }
}

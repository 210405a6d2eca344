//! The names of control pins.

ghost use Rattle.std.specs.Prelude.{◌≡◌, ◌<◌, IfOk, Some, slice_get};
ghost use Rattle.ca_wiring.specs.Wiring.{ScanCell};
ghost use Rattle.ca_wiring.specs.Rules.{control_names};

use ca_base::NoMemory;
use ca_lex::Text;
use ca_wiring::ScanRow;
use std::alloc::Global;

/// The name of a control pin of a scan cell: 0, 1 and 2 are the scan enable, the clock and the hold.
pub(crate) fn control_name(alloc: Global, row: &ScanRow, k: u32) -> Result<Text, NoMemory>
    requires { k < 3 }
    ensures { IfOk result (λ name. slice_get (control_names (ScanCell row.now)) k ≡ Some name) }
{
    match k {
        0 => row.se.copy(alloc),
        1 => row.ck.copy(alloc),
        _ => row.hold.copy(alloc),
    }
}

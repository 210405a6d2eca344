//! The subcircuit that a name begins.
ghost use Rattle.std.specs.Prelude.{◌≡◌, ◌||◌, [], ◌∷◌, ◌++◌, Ok, IfOk, OnOk};
ghost use Rattle.ca_lex.specs.Reading.{Gives, unless};
ghost use Rattle.ca_names.specs.Names.{has_name, has_double};
ghost use Rattle.ca_spice.specs.declared.fault.SpiceKind.TheVariants.{DoubleName};
ghost use Rattle.ca_spice.specs.code.Names.{texts};
ghost use Rattle.ca_spice.specs.OpenCell.{new_cell};
ghost use Rattle.ca_spice.specs.code.SpiceFault.{kind_reported};
ghost use Rattle.ca_spice.specs.code.Views.{cell_seen};

use crate::fault::{Refusal, SpiceKind};
use crate::open_cell::OpenCell;
use ca_names::NameSet;
use std::alloc::Global;

/// The subcircuit of this name, which none of the names is; from now on it is one of them. The owner of the
/// names drops them in one place: more places are slow to prove.
pub(crate) fn opened(
    alloc: Global,
    names: &mut NameSet,
    line: usize,
    name: &[u8],
    pins: &[&[u8]],
) -> Result<OpenCell, Refusal>
    ensures read { Gives kind_reported cell_seen result
        (unless (has_name name.now names.old || has_double (texts pins.now)) DoubleName
        (Ok (new_cell line name.now (texts pins.now)))) }
    ensures names { OnOk result (names.new ≡ names.old ++ name.now ∷ []) }
    ensures same_name { IfOk result (λ cell. cell.name ≡ name.now) }
{
    if names.has(name) {
        return Err(Refusal::Kind(SpiceKind::DoubleName));
    }
    names.add(alloc, name)?;
    OpenCell::new(alloc, line, name, pins)
}

//! The pins of a subcircuit that is being read.
ghost use Rattle.std.specs.Prelude.{◌≡◌, ◌∷◌, ◌++◌, [], map, IfOk};
ghost use Rattle.ca_spice.specs.code.Names.{texts};
ghost use Rattle.ca_spice.specs.OpenCell.{pin_of, pins_after};

use ca_base::NoMemory;
use ca_cell::{RawPin, RawPins, Role};
use ca_lex::Text;
use std::alloc::Global;

/// A pin, with its role once a `*.PININFO` has given it.
#[derive(Drop)]
pub(crate) struct Pin {
    pub name: Text,
    pub role: Option<Role>,
}

/// Pins of these names that have no roles.
pub(crate) fn pins_of(alloc: Global, names: &[&[u8]]) -> Result<Vec<Pin>, NoMemory>
    ensures { IfOk result (λ pins. pins.items ≡ map pin_of (texts names.now)) }
{
    let mut pins = Vec::new(alloc);
    let mut rest = names;
    'names: while let [name, more @ ..] = rest {
        let name = Text::from_bytes(alloc, name)?;
        pins.push(Pin { name, role: None })?;
        rest = more;
    }
    Ok(pins)
}

/// The pins with their roles, if each has one.
#[tactic(auto, unfolding(crate::specs::OpenCell::pins_after))]
pub(crate) fn raw_pins(alloc: Global, pins: &[Pin]) -> Result<Option<RawPins>, NoMemory>
    ensures { IfOk result (λ raw. raw ≡ pins_after [] pins.now) }
{
    let mut raw = RawPins::new(alloc);
    let mut rest = pins;
    'pins: while let [pin, more @ ..] = rest {
        let Some(role) = pin.role else {
            return Ok(None);
        };
        let name = pin.name.copy(alloc)?;
        raw.push(RawPin { name, role })?;
        rest = more;
    }
    Ok(Some(raw))
}

//! The values to which the output pins of a cell settle.
ghost use Rattle.std.specs.Prelude.{◌≡◌, length, map, IfOk};
ghost use Rattle.ca_cell.specs.Raw.{is_input, role_count};
ghost use Rattle.ca_on_cell.specs.Outputs.{trit_of, AreEnds};

use crate::pin_values::{PinValue, PinValues};
use ca_base::NoMemory;
use ca_net::Trit;
use ca_request::trit;
use ca_response::{CellNet, pairs, respond};
use ca_settle::Work;
use std::alloc::Global;

/// The values of the output pins under two vectors that have one letter per input pin, in pin order.
pub fn values_of<N: CellNet>(
    alloc: Global,
    net: &N,
    first: &[u8],
    last: &[u8],
) -> Result<PinValues, NoMemory>
    requires first { length first.now ≡ role_count is_input (N.subcircuit net.now).pins }
    requires last { length last.now ≡ role_count is_input (N.subcircuit net.now).pins }

    ensures values { IfOk result (λ values.
        AreEnds (N.subcircuit net.now) (map trit_of first.now) (map trit_of last.now) values
        (N.circuit net.now)) }
{
    let first = trits(alloc, first)?;
    let last = trits(alloc, last)?;
    let cell = net.cell();
    let pins = cell.raw().output_names(alloc)?;
    let mut work = Work::reserve(alloc, net.node_count(), net.device_count())?;
    let waves = respond(net, pairs(&first, &last).as_slice(), &mut work);
    // What isn't needed any more is dropped here, and not wherever memory runs out below.
    drop(work);
    drop(first);
    drop(last);
    let mut values = PinValues::new(alloc);
    for place in 0..cell.outputs() {
        let wave = waves[place];
        values.push(PinValue {
            pin: pins.get(place).copy(alloc)?,
            value: wave.last,
        })?;
    }
    Ok(values)
}

// The values of letters.
fn trits(alloc: Global, letters: &[u8]) -> Result<Vec<Trit>, NoMemory>
    ensures { IfOk result (λ values. values.items ≡ map trit_of letters.now) }
{
    let mut values = Vec::new(alloc);
    for letter in letters {
        values.push(trit(*letter))?;
    }
    Ok(values)
}

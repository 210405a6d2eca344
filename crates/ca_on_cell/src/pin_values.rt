//! The values of a cell's output pins.
ghost use Rattle.std.specs.Prelude.{◌≡◌, ◌++◌, flat_map, IfOk, OnOk};
ghost use Rattle.ca_on_cell.specs.Lines.{line_of_pin};

use ca_base::{List, NoMemory};
use ca_lex::Text;
use ca_net::{Trit, letter};
use std::alloc::Global;

/// An output pin, and the value to which it settles.
#[derive(Drop)]
pub struct PinValue {
    pub pin: Text,
    pub value: Trit,
}

/// The values of output pins, in pin order.
pub type PinValues = List<PinValue>;

/// One line for each pin.
pub fn lines_of_values(alloc: Global, values: &PinValues) -> Result<Text, NoMemory>
    ensures { IfOk result (λ text. text ≡ flat_map line_of_pin values.now) }
{
    let mut text = Text::new(alloc);
    let values = values.as_slice();
    for value in values {
        add_line(&mut text, value)?;
    }
    Ok(text)
}

// Appends the line of a pin.
fn add_line(text: &mut Text, value: &PinValue) -> Result<(), NoMemory>
    ensures { OnOk result (text.new ≡ text.old ++ line_of_pin value.now) }
{
    text.append(value.pin.as_bytes())?;
    text.append(b"=")?;
    text.push(letter(value.value))?;
    text.append(b"\n")
}

//! What is said of a rule that a cell breaks.

ghost use Rattle.std.specs.Prelude.{◌≡◌, ◌++◌, [], codes, decimal, slice_get, IfOk, OnOk};
ghost use Rattle.ca_cell.specs.Raw.{is_input};
ghost use Rattle.ca_wiring.specs.Wiring.{names_with};
ghost use Rattle.ca_fault_place.specs.Names.{name_or_none, input_pin_name, device_name};
ghost use Rattle.ca_fault_place.specs.Place.{count_text, rule_text};

use ca_base::NoMemory;
use ca_cell::{CellRule, MOST_DEVICES, MOST_INPUTS, MOST_NODES, MOST_OUTPUTS, RawCell, RawPin};
use ca_lex::Text;
use ca_net::{DeviceId, NodeId};
use itoa::Buffer;
use std::alloc::Global;

/// What a rule carries that the cell breaks; an empty text where the rule carries nothing.
pub fn rule_place(alloc: Global, raw: &RawCell, rule: CellRule) -> Result<Text, NoMemory>
    ensures { IfOk result (λ text. text ≡ rule_text raw.now rule) }
{
    match rule {
        CellRule::NoRail | CellRule::NoOutput => Ok(Text::new(alloc)),
        CellRule::TooManyDevices { count } => {
            count_text(alloc, count, b" devices, at most ", MOST_DEVICES)
        }
        CellRule::TooManyNodes { count } => {
            count_text(alloc, count, b" nodes, at most ", MOST_NODES)
        }
        CellRule::TooManyInputs { count } => {
            count_text(alloc, count, b" inputs, at most ", MOST_INPUTS)
        }
        CellRule::TooManyOutputs { count } => {
            count_text(alloc, count, b" outputs, at most ", MOST_OUTPUTS)
        }
        CellRule::InputDrivesChannel { pin, device } => channel_text(alloc, raw, pin, device),
    }
}

// So many of something, and how many there may be.
fn count_text(alloc: Global, count: usize, what: &[u8], most: usize) -> Result<Text, NoMemory>
    ensures { IfOk result (λ text. text ≡ count_text count what.now most) }
{
    let mut text = Text::new(alloc);
    add_number(&mut text, count)?;
    text.append(what)?;
    add_number(&mut text, most)?;
    Ok(text)
}

/// Appends a number's digits.
pub(crate) fn add_number(text: &mut Text, number: usize) -> Result<(), NoMemory>
    ensures { OnOk result (text.new ≡ text.old ++ decimal number) }
{
    text.append(Buffer::new().format(number).as_bytes())
}

// The input pin and the device on it.
fn channel_text(
    alloc: Global,
    raw: &RawCell,
    pin: NodeId,
    device: DeviceId,
) -> Result<Text, NoMemory>
    ensures { IfOk result (λ text. text
        ≡ codes "pin " ++ (input_pin_name raw.now pin.0
        ++ (codes ", device " ++ device_name raw.now device.0))) }
{
    let mut text = Text::from_bytes(alloc, b"pin ")?;
    text.append(input_name(raw.pins.as_slice(), pin.0.saturating_sub(2)))?;
    text.append(b", device ")?;
    text.append(device_name(raw, device.0))?;
    Ok(text)
}

// The name of an input pin by its place among the input pins.
fn input_name(pins: &[RawPin], place: u32) -> &[u8]
    ensures { result.now ≡ name_or_none (slice_get (names_with is_input pins.now) place) }
{
    let mut left = place;
    for k in 0..pins.len() {
        if pins[k].role.is_input() {
            if left == 0 {
                return pins[k].name.as_bytes();
            }
            left -= 1;
        }
    }
    &[]
}

// The name of the device at a place.
fn device_name(raw: &RawCell, device: u32) -> &[u8]
    ensures { result.now ≡ device_name raw.now device }
{
    match raw.devices.as_slice().get(device as usize) {
        Some(found) => found.name.as_bytes(),
        None => &[],
    }
}

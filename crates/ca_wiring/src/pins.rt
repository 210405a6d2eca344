//! What the pins of an instance are connected to.

ghost use Rattle.std.specs.Prelude.{◌≡◌, ◌<◌, ◌+◌, ◌^◌};
ghost use Rattle.std.specs.Option.{option_copied};
ghost use Rattle.ca_names.specs.Names.{has_name};
ghost use Rattle.ca_cell.specs.Raw.{is_input};
ghost use Rattle.ca_wiring.specs.Wiring.{Library, ScanCell, bit_on, input_names, names_with, wire_of};
ghost use Rattle.ca_wiring.specs.InstanceRules.{pin_names};
ghost use Rattle.ca_wiring.specs.code.Pins.{first_open, first_stray, has_pin};

use crate::scan_row::ScanRow;
use ca_cell::{RawCell, RawPin};
use ca_lex::Text;
use ca_verilog::{RawBit, RawUse};

/// What is on the pin of this name, if anything is.
pub fn bit_on(uses: &[RawUse], pin: &Text) -> Option<RawBit>
    ensures { result ≡ bit_on uses.now pin.now }
{
    for k in 0..uses.len() {
        if *pin == uses[k].pin {
            return uses[k].bit;
        }
    }
    None
}

/// The wire of a bit, where this many bits are declared.
pub fn wire_of(bits: u32, bit: RawBit) -> u32
    requires { bits + 1 < 2 ^ 32 }
    ensures { result ≡ wire_of bits bit }
{
    match bit {
        RawBit::Bit(number) => number,
        RawBit::Constant(false) => bits,
        RawBit::Constant(true) => bits + 1,
    }
}

// The first input pin of a library cell that is connected to nothing.
fn first_open_input<'a>(pins: &'a [RawPin], uses: &[RawUse]) -> Option<&'a Text>
    ensures { option_copied result ≡ first_open uses.now (names_with is_input pins.now) }
{
    for k in 0..pins.len() {
        let pin = &pins[k];
        if pin.role.is_input() && bit_on(uses, &pin.name).is_none() {
            return Some(&pin.name);
        }
    }
    None
}

// Whether a library cell has an input or output pin of this name.
fn has_pin(pins: &[RawPin], name: &Text) -> bool
    ensures { result ≡ has_pin pins.now name.now }
{
    for k in 0..pins.len() {
        let pin = &pins[k];
        if (pin.role.is_input() || pin.role.is_output()) && *name == pin.name {
            return true;
        }
    }
    false
}

// Whether a library cell has a pin of this name that a netlist may connect.
fn library_has(raw: &RawCell, name: &Text) -> bool
    ensures { result ≡ has_name name.now (pin_names (Library raw.now)) }
{
    has_pin(raw.pins.as_slice(), name)
}

/// The pin of the first connection to a pin that a library cell doesn't have.
pub(crate) fn library_stray<'a>(raw: &RawCell, uses: &'a [RawUse]) -> Option<&'a Text>
    ensures { option_copied result ≡ first_stray (pin_names (Library raw.now)) uses.now }
{
    for k in 0..uses.len() {
        if !library_has(raw, &uses[k].pin) {
            return Some(&uses[k].pin);
        }
    }
    None
}

/// The first input pin of a library cell that is connected to nothing.
pub(crate) fn library_open<'a>(raw: &'a RawCell, uses: &[RawUse]) -> Option<&'a Text>
    ensures { option_copied result ≡ first_open uses.now (input_names (Library raw.now)) }
{
    first_open_input(raw.pins.as_slice(), uses)
}

// Whether a scan cell has a pin of this name.
fn scan_has(row: &ScanRow, name: &Text) -> bool
    ensures { result ≡ has_name name.now (pin_names (ScanCell row.now)) }
{
    *name == row.d
        || *name == row.si
        || *name == row.se
        || *name == row.ck
        || *name == row.hold
        || *name == row.q
        || !row.qn.is_empty() && *name == row.qn
        || *name == row.so
}

/// The pin of the first connection to a pin that a scan cell doesn't have.
pub(crate) fn scan_stray<'a>(row: &ScanRow, uses: &'a [RawUse]) -> Option<&'a Text>
    ensures { option_copied result ≡ first_stray (pin_names (ScanCell row.now)) uses.now }
{
    for k in 0..uses.len() {
        if !scan_has(row, &uses[k].pin) {
            return Some(&uses[k].pin);
        }
    }
    None
}

/// The first input pin of a scan cell that is connected to nothing.
pub(crate) fn scan_open<'a>(row: &'a ScanRow, uses: &[RawUse]) -> Option<&'a Text>
    ensures { option_copied result ≡ first_open uses.now (input_names (ScanCell row.now)) }
{
    if bit_on(uses, &row.d).is_none() {
        Some(&row.d)
    } else if bit_on(uses, &row.si).is_none() {
        Some(&row.si)
    } else if bit_on(uses, &row.se).is_none() {
        Some(&row.se)
    } else if bit_on(uses, &row.ck).is_none() {
        Some(&row.ck)
    } else if bit_on(uses, &row.hold).is_none() {
        Some(&row.hold)
    } else {
        None
    }
}

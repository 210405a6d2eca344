//! The wires of the input pins of an instance.

ghost use Rattle.std.specs.Prelude.{◌≡◌, ◌<◌, ◌+◌, ◌^◌, IfOk};
ghost use Rattle.ca_cell.specs.Raw.{is_input};
ghost use Rattle.ca_wiring.specs.Wiring.{ScanCell, input_names, input_wire, input_wires, names_with};

use crate::pins::{bit_on, wire_of};
use crate::scan_row::ScanRow;
use ca_base::NoMemory;
use ca_cell::RawPin;
use ca_linked::NetList;
use ca_verilog::{RawBit, RawUse};
use std::alloc::Global;

/// The wire of an input pin; one that is connected to nothing breaks a rule.
pub fn input_wire(bits: u32, bit: Option<RawBit>) -> u32
    requires { bits + 1 < 2 ^ 32 }
    ensures { result ≡ input_wire bits bit }
{
    match bit {
        None => bits,
        Some(bit) => wire_of(bits, bit),
    }
}

/// The wires of the input pins of a library cell, in pin order.
pub fn library_inputs(
    alloc: Global,
    bits: u32,
    pins: &[RawPin],
    uses: &[RawUse],
) -> Result<NetList, NoMemory>
    requires { bits + 1 < 2 ^ 32 }
    ensures { IfOk result (λ wires. wires ≡ input_wires bits uses.now (names_with is_input pins.now)) }
{
    let mut wires = NetList::new(alloc);
    for k in 0..pins.len() {
        let pin = &pins[k];
        let wire = input_wire(bits, bit_on(uses, &pin.name));
        wires.push_if(pin.role.is_input(), wire)?;
    }
    Ok(wires)
}

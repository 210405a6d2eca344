//! The pins of an instance on their wires.

ghost use Rattle.std.specs.Prelude.{◌≡◌, ◌<◌, ◌+◌, ◌++◌, ◌^◌, ◌↔◌, [], ◌∷◌, Some, IsNone, option_to_list};
ghost use Rattle.std.specs.Prelude.{if◌then◌else◌, IfOk, OnOk};
ghost use Rattle.ca_cell.specs.Raw.{is_output};
ghost use Rattle.ca_linked.specs.declared.parts.Body.TheVariants.{Scan};
ghost use Rattle.ca_linked.specs.Linked.{input_nets, output_nets};
ghost use Rattle.ca_wiring.specs.Wiring.{ScanCell, bit_on, input_names, input_wires, inverted_name};
ghost use Rattle.ca_wiring.specs.Wiring.{names_with};
ghost use Rattle.ca_wiring.specs.Wiring.{open_count, output_names, output_wires};
ghost use Rattle.ca_draft.specs.code.OnWires.{next_own, output_wire};

use ca_base::NoMemory;
use ca_cell::RawPin;
use ca_lex::Text;
use ca_linked::{NetList, ScanNets};
use ca_verilog::{RawBit, RawUse};
use ca_wiring::{ScanRow, bit_on, input_wire, wire_of};
use std::alloc::Global;

// The wire of an output pin, where the next wire of its own has the number `own`. The last number isn't
// given, so that the number of wires fits too: the answer for a netlist that reaches it is out of memory.
fn output_wire(bits: u32, own: &mut u32, bit: Option<RawBit>) -> Result<u32, NoMemory>
    requires { bits + 1 < 2 ^ 32 }
    ensures wire { IfOk result (λ wire. wire ≡ output_wire bits own.old bit) }
    ensures next { OnOk result (own.new ≡ next_own own.old bit) }
{
    match bit {
        Some(bit) => Ok(wire_of(bits, bit)),
        None => {
            let wire = *own;
            if wire == u32::MAX {
                return Err(NoMemory);
            }
            *own = wire + 1;
            Ok(wire)
        }
    }
}

// Adds the wire of a library cell's pin, if it is an output pin.
fn add_output(
    bits: u32,
    own: &mut u32,
    wires: &mut NetList,
    pin: &RawPin,
    uses: &[RawUse],
) -> Result<(), NoMemory>
    requires { bits + 1 < 2 ^ 32 }
    ensures wires { OnOk result (wires.new ≡ wires.old ++ (if is_output pin.now.role
        then output_wire bits own.old (bit_on uses.now pin.now.name) ∷ [] else [])) }
    ensures next { OnOk result (own.new ≡
        (if is_output pin.now.role then next_own own.old (bit_on uses.now pin.now.name) else own.old)) }
{
    if pin.role.is_output() {
        let wire = output_wire(bits, own, bit_on(uses, &pin.name))?;
        wires.push(wire)
    } else {
        Ok(())
    }
}

/// The wires of the output pins of a library cell, in pin order, where the next wire of its own has the
/// number `own`.
pub(crate) fn library_outputs(
    alloc: Global,
    bits: u32,
    own: &mut u32,
    pins: &[RawPin],
    uses: &[RawUse],
) -> Result<NetList, NoMemory>
    requires { bits + 1 < 2 ^ 32 }
    ensures wires { IfOk result (λ wires.
        wires ≡ output_wires bits uses.now own.old (names_with is_output pins.now)) }
    ensures next { OnOk result (own.new ≡ own.old + open_count uses.now (names_with is_output pins.now)) }
{
    let mut wires = NetList::new(alloc);
    for k in 0..pins.len() {
        add_output(bits, own, &mut wires, &pins[k], uses)?;
    }
    Ok(wires)
}

// The wire of a scan cell's inverted output, if its row names one.
fn inverted_wire(
    bits: u32,
    own: &mut u32,
    name: &Text,
    uses: &[RawUse],
) -> Result<Option<u32>, NoMemory>
    requires { bits + 1 < 2 ^ 32 }
    ensures wires { IfOk result (λ wire.
        option_to_list wire ≡ output_wires bits uses.now own.old (inverted_name name.now)) }
    ensures next { OnOk result (own.new ≡ own.old + open_count uses.now (inverted_name name.now)) }
    ensures named { IfOk result (λ wire. IsNone wire ↔ (name.now ≡ [])) }
{
    if name.is_empty() {
        return Ok(None);
    }
    let wire = output_wire(bits, own, bit_on(uses, name))?;
    Ok(Some(wire))
}

/// The wires of a scan cell's pins, where the next wire of its own has the number `own`.
pub(crate) fn scan_pins(
    bits: u32,
    own: &mut u32,
    row: &ScanRow,
    uses: &[RawUse],
) -> Result<ScanNets, NoMemory>
    requires { bits + 1 < 2 ^ 32 }
    ensures inputs { IfOk result (λ pins.
        input_nets (Scan pins) ≡ input_wires bits uses.now (input_names (ScanCell row.now))) }
    ensures outputs { IfOk result (λ pins.
        output_nets (Scan pins) ≡ output_wires bits uses.now own.old (output_names (ScanCell row.now))) }
    ensures next { OnOk result (own.new ≡ own.old + open_count uses.now (output_names (ScanCell row.now))) }
    ensures named { IfOk result (λ pins. IsNone pins.qn ↔ (row.now.qn ≡ [])) }
{
    let q = output_wire(bits, own, bit_on(uses, &row.q))?;
    let qn = inverted_wire(bits, own, &row.qn, uses)?;
    let so = output_wire(bits, own, bit_on(uses, &row.so))?;
    Ok(ScanNets {
        d: input_wire(bits, bit_on(uses, &row.d)),
        si: input_wire(bits, bit_on(uses, &row.si)),
        se: input_wire(bits, bit_on(uses, &row.se)),
        ck: input_wire(bits, bit_on(uses, &row.ck)),
        hold: input_wire(bits, bit_on(uses, &row.hold)),
        q,
        qn,
        so,
    })
}

//! The netlist of a generated chip.

ghost use Rattle.std.specs.Prelude.{◌≡◌, ◌≤◌, ◌++◌, length, codes, decimal, IfOk, OnOk};
ghost use Rattle.ca_make.specs.declared.gate.TheConstants.{MOST_GATES};
ghost use Rattle.ca_make.specs.NetlistText.{numbered, candidate, counted, listed_from, output_port};
ghost use Rattle.ca_make.specs.NetlistText.{declaration_line, two_pins, input_pins, cell_of, instance_line};
ghost use Rattle.ca_make.specs.NetlistText.{assign_line};
ghost use Rattle.ca_make.specs.NetlistText.{header_text, names_text, netlist_text};

use crate::draw::gates;
use crate::gate::{Gate, INPUTS};
use crate::loads::outputs;
use ca_base::{List, NoMemory};
use ca_lex::Text;
use itoa::Buffer;
use std::alloc::Global;

// Appends letters and a number.
fn push_numbered(text: &mut Text, letters: &[u8], number: u32) -> Result<(), NoMemory>
    ensures { OnOk result (text.new ≡ text.old ++ numbered letters.now number) }
{
    text.append(letters)?;
    let mut buffer = Buffer::new();
    text.append(buffer.format(number).as_bytes())
}

// Appends the name of the candidate at this place.
fn push_candidate(text: &mut Text, place: u32) -> Result<(), NoMemory>
    ensures { OnOk result (text.new ≡ text.old ++ candidate place) }
{
    if place < INPUTS {
        push_numbered(text, b"i", place)
    } else {
        push_numbered(text, b"w", place - INPUTS)
    }
}

// Appends the chip outputs to the header.
fn push_output_ports(text: &mut Text, count: u32) -> Result<(), NoMemory>
    ensures { OnOk result (text.new ≡ text.old ++ counted output_port count) }
{
    for j in 0..count {
        push_numbered(text, b", o", j)?;
    }
    Ok(())
}

// Appends the line that declares a name.
fn push_declaration(text: &mut Text, letters: &[u8], number: u32) -> Result<(), NoMemory>
    ensures { OnOk result (text.new ≡ text.old ++ declaration_line letters.now number) }
{
    push_numbered(text, letters, number)?;
    text.append(b";\n")
}

// Appends the lines that declare the names of these letters, as many as this.
fn push_declarations(text: &mut Text, letters: &[u8], count: u32) -> Result<(), NoMemory>
    ensures { OnOk result (text.new ≡ text.old ++ counted (declaration_line letters.now) count) }
{
    for number in 0..count {
        push_declaration(text, letters, number)?;
    }
    Ok(())
}

// Appends the two inputs of a gate with their pins.
fn push_two_pins(text: &mut Text, a: u32, b: u32) -> Result<(), NoMemory>
    ensures { OnOk result (text.new ≡ text.old ++ two_pins a b) }
{
    text.append(b".A1(")?;
    push_candidate(text, a)?;
    text.append(b"), .A2(")?;
    push_candidate(text, b)?;
    text.append(b")")
}

// Appends the inputs of a gate with their pins.
fn push_input_pins(text: &mut Text, gate: Gate) -> Result<(), NoMemory>
    ensures { OnOk result (text.new ≡ text.old ++ input_pins gate) }
{
    match gate {
        Gate::Inv(a) => {
            text.append(b".A(")?;
            push_candidate(text, a)?;
            text.append(b")")
        }
        Gate::Nand2(a, b) | Gate::Nor2(a, b) => push_two_pins(text, a, b),
    }
}

// Appends the cell of a gate.
fn push_cell(text: &mut Text, gate: Gate) -> Result<(), NoMemory>
    ensures { OnOk result (text.new ≡ text.old ++ cell_of gate) }
{
    match gate {
        Gate::Inv(_) => text.append(b"INV"),
        Gate::Nand2(_, _) => text.append(b"NAND2"),
        Gate::Nor2(_, _) => text.append(b"NOR2"),
    }
}

// Appends the line of a gate.
fn push_instance(text: &mut Text, k: u32, gate: Gate) -> Result<(), NoMemory>
    ensures { OnOk result (text.new ≡ text.old ++ instance_line k gate) }
{
    text.append(b"  ")?;
    push_cell(text, gate)?;
    push_numbered(text, b" u", k)?;
    text.append(b" (")?;
    push_input_pins(text, gate)?;
    push_numbered(text, b", .ZN(w", k)?;
    text.append(b"));\n")
}

// Appends the lines of the gates.
fn push_instances(text: &mut Text, gates: &List<Gate>) -> Result<(), NoMemory>
    requires { length gates.now ≤ MOST_GATES }
    ensures { OnOk result (text.new ≡ text.old ++ listed_from instance_line 0 gates.now) }
{
    for k in 0..gates.len() {
        push_instance(text, k as u32, gates.get(k))?;
    }
    Ok(())
}

// Appends the line that joins a chip output to the output of a gate.
fn push_assign(text: &mut Text, j: u32, k: u32) -> Result<(), NoMemory>
    ensures { OnOk result (text.new ≡ text.old ++ assign_line j k) }
{
    push_numbered(text, b"  assign o", j)?;
    push_numbered(text, b" = w", k)?;
    text.append(b";\n")
}

// Appends the lines that join the chip outputs.
fn push_assigns(text: &mut Text, outputs: &List<u32>) -> Result<(), NoMemory>
    requires { length outputs.now ≤ MOST_GATES }
    ensures { OnOk result (text.new ≡ text.old ++ listed_from assign_line 0 outputs.now) }
{
    for j in 0..outputs.len() {
        push_assign(text, j as u32, outputs.get(j))?;
    }
    Ok(())
}

// Appends the header.
#[tactic(auto, unfolding(crate::specs::NetlistText::header_text))]
fn push_header(text: &mut Text, outputs: u32) -> Result<(), NoMemory>
    ensures { OnOk result (text.new ≡ text.old ++ header_text outputs) }
{
    text.append(b"module gen(i0, i1, i2, i3, i4, i5, i6, i7")?;
    push_output_ports(text, outputs)?;
    text.append(b");\n")
}

// Appends the declarations of a chip with `outputs` outputs and `gates` gates.
#[tactic(auto, unfolding(crate::specs::NetlistText::names_text))]
fn push_names(text: &mut Text, outputs: u32, gates: u32) -> Result<(), NoMemory>
    ensures { OnOk result (text.new ≡ text.old ++ names_text outputs gates) }
{
    push_declarations(text, b"  input i", INPUTS)?;
    push_declarations(text, b"  output o", outputs)?;
    push_declarations(text, b"  wire w", gates)
}

/// The text of the generated chip of a number, which is how many gates it has and where its draws begin. Each
/// gate takes its inputs from the last twelve nets before it, and the output of one without a load is a chip
/// output.
pub fn netlist(alloc: Global, n: u32) -> Result<Text, NoMemory>
    requires { n ≤ MOST_GATES }
    ensures { IfOk result (λ text. text ≡ netlist_text n) }
{
    let gates = gates(alloc, n)?;
    let outputs = outputs(alloc, &gates)?;
    let count = outputs.len() as u32;
    let mut text = Text::new(alloc);
    push_header(&mut text, count)?;
    push_names(&mut text, count, n)?;
    push_instances(&mut text, &gates)?;
    push_assigns(&mut text, &outputs)?;
    text.append(b"endmodule\n")?;
    Ok(text)
}

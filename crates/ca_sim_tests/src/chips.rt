//! Chips for tests: netlists of instances with one output pin each, linked.

ghost use Rattle.ca_verilog.specs.IsNetlist.{IsNetlist};

use ca_base::NoMemory;
use ca_cell::StrengthTable;
use ca_lex::Text;
use ca_link::link;
use ca_linked::Chip;
use ca_spice::read_library;
use ca_verilog::{RawNetlist, read_netlist};
use ca_wiring::ScanTable;
use itoa::Buffer;
use std::alloc::Global;
use std::process::Abort;

const CELLS: &[u8] = b"
.SUBCKT INV A ZN VDD VSS
*.PININFO A:I ZN:O VDD:P VSS:G
MP1 ZN A VDD VDD PCH W=630n L=50n
MN1 ZN A VSS VSS NCH W=415n L=50n
.ENDS
.SUBCKT NAND2 A1 A2 ZN VDD VSS
*.PININFO A1:I A2:I ZN:O VDD:P VSS:G
MP1 ZN A1 VDD VDD PCH W=630n L=50n
MP2 ZN A2 VDD VDD PCH W=630n L=50n
MN1 ZN A1 N1 VSS NCH W=415n L=50n
MN2 N1 A2 VSS VSS NCH W=415n L=50n
.ENDS
.SUBCKT NOR4 A1 A2 A3 A4 ZN VDD VSS
*.PININFO A1:I A2:I A3:I A4:I ZN:O VDD:P VSS:G
MP1 N1 A1 VDD VDD PCH W=630n L=50n
MP2 N2 A2 N1 VDD PCH W=630n L=50n
MP3 N3 A3 N2 VDD PCH W=630n L=50n
MP4 ZN A4 N3 VDD PCH W=630n L=50n
MN1 ZN A1 VSS VSS NCH W=415n L=50n
MN2 ZN A2 VSS VSS NCH W=415n L=50n
MN3 ZN A3 VSS VSS NCH W=415n L=50n
MN4 ZN A4 VSS VSS NCH W=415n L=50n
.ENDS
.SUBCKT KEEP A B K VDD VSS
*.PININFO A:I B:I K:O VDD:P VSS:G
MP1 K A VDD VDD PCH W=630n L=50n
MN1 K B VSS VSS NCH W=415n L=50n
.ENDS
";

pub(crate) const INV: usize = 0;

pub(crate) const NAND2: usize = 1;

pub(crate) const NOR4: usize = 2;

pub(crate) const KEEP: usize = 3;

// Of each cell its name and its pins, the output pin last.
const PINS: [(&[u8], &[&[u8]]); 4] = [
    (b"INV", &[b"A", b"ZN"]),
    (b"NAND2", &[b"A1", b"A2", b"ZN"]),
    (b"NOR4", &[b"A1", b"A2", b"A3", b"A4", b"ZN"]),
    (b"KEEP", &[b"A", b"B", b"K"]),
];

// Appends the name of a net: the last one is the output port.
fn push_net(text: &mut Text, net: usize, inputs: usize, last: usize) -> Result<(), NoMemory> {
    if net == 0 {
        return text.append(b"1'b0");
    }
    if net == last {
        return text.append(b"z");
    }
    text.append(if net < inputs { b"i" } else { b"n" })?;
    text.append(Buffer::new().format(net).as_bytes())
}

/// The instances of a netlist. Its nets have numbers: 0 is the constant 0, the next ones are the chip inputs,
/// and each instance drives the net after all nets before it. `inputs` counts the nets before those of the
/// instances, of which there are to be `count`.
#[derive(Drop)]
pub(crate) struct Instances {
    inputs: usize,
    last: usize,
    next: usize,
    text: Text,
}

impl Instances {
    /// None of them yet.
    pub(crate) fn new(alloc: Global, inputs: usize, count: usize) -> Self {
        Instances {
            inputs,
            last: inputs.saturating_add(count).saturating_sub(1),
            next: inputs,
            text: Text::new(alloc),
        }
    }

    // Appends a pin on a net.
    fn push_pin(&mut self, name: &[u8], net: usize) -> Result<(), NoMemory> {
        self.text.append(b" .")?;
        self.text.append(name)?;
        self.text.append(b"(")?;
        push_net(&mut self.text, net, self.inputs, self.last)?;
        self.text.append(b")")
    }

    /// Appends an instance of a cell, and the nets that it reads.
    pub(crate) fn push(&mut self, cell: usize, reads: &[u32]) -> Result<(), NoMemory> {
        let (name, pins) = PINS[cell % 4];
        self.text.append(name)?;
        self.text.append(b" u")?;
        self.text
            .append(Buffer::new().format(self.next).as_bytes())?;
        self.text.append(b" (")?;
        for (pin, name) in pins.iter().enumerate() {
            match reads.get(pin) {
                Some(net) => {
                    self.push_pin(name, *net as usize)?;
                    self.text.append(b",")?;
                }
                None => self.push_pin(name, self.next)?,
            }
        }
        self.next = self.next.saturating_add(1);
        self.text.append(b");\n")
    }

    // Appends the nets from a number on up to another, with a comma after each.
    fn push_nets(&self, text: &mut Text, from: usize, to: usize) -> Result<(), NoMemory> {
        for net in from..to {
            push_net(text, net, self.inputs, self.last)?;
            text.append(b", ")?;
        }
        Ok(())
    }

    // The netlist. The last chip input and the last net inside are declared after the others.
    fn netlist(&self, alloc: Global) -> Result<Text, NoMemory> {
        let mut text = Text::new(alloc);
        text.append(b"module m(")?;
        self.push_nets(&mut text, 1, self.inputs)?;
        text.append(b"z);\ninput ")?;
        let input = self.inputs.saturating_sub(1);
        self.push_nets(&mut text, 1, input)?;
        push_net(&mut text, input, self.inputs, self.last)?;
        text.append(b";\noutput z;\n")?;
        if self.inputs < self.last {
            text.append(b"wire ")?;
            let wire = self.last.saturating_sub(1);
            self.push_nets(&mut text, self.inputs, wire)?;
            push_net(&mut text, wire, self.inputs, self.last)?;
            text.append(b";\n")?;
        }
        text.append(self.text.as_bytes())?;
        text.append(b"endmodule\n")?;
        Ok(text)
    }

    /// Their chip.
    pub(crate) fn linked(&self, rt: &impl Abort, alloc: Global) -> Chip {
        let text = self.netlist(alloc).expect(rt, "memory");
        let raw = read_netlist(alloc, text.as_bytes()).expect(rt, "a netlist");
        let chip = linked_netlist(rt, alloc, &raw);
        drop(raw);
        chip
    }
}

// The chip of a netlist that was read. Each value is dropped in one place here and above: more places are
// slow to prove.
fn linked_netlist(rt: &impl Abort, alloc: Global, raw: &RawNetlist) -> Chip
    requires { IsNetlist raw.now }
{
    let library = read_library(alloc, &StrengthTable::default_table(), CELLS).expect(
        rt,
        "a library",
    );
    match link(alloc, raw, library, &ScanTable::new(alloc)) {
        Ok(chip) => chip,
        Err(_) => panic!(rt; "no chip"),
    }
}

/// The chip of these instances: of each its cell and the nets that it reads.
pub(crate) fn chip(
    rt: &impl Abort,
    alloc: Global,
    inputs: usize,
    table: &[(usize, &[u32])],
) -> Chip {
    let mut instances = Instances::new(alloc, inputs, table.len());
    for (cell, nets) in table {
        instances.push(*cell, nets).expect(rt, "memory");
    }
    instances.linked(rt, alloc)
}

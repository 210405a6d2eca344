//! Cells that are written, and read again.

use ca_cell::{Entry, StrengthTable};
use ca_lex::Text;
use ca_spice::{read_library, write_cell};
use std::alloc::Global;
use std::test::Fail;

/// Each text with a name of one of its cells, and the text of that cell as it is written.
static WRITTEN: [(&[u8], &[u8], &[u8]); 6] = [
    // Lower case, lengths in other units, and an inner net.
    (
        b".subckt nand2 a1 a2 zn vdd vss
*.pininfo a1:i a2:i zn:o vdd:p vss:g
c1 zn vss 5f
mp1 zn a1 vdd vdd pch w=0.63u l=0.05u
mp2 zn a2 vdd vdd pch w=6.3e-7 l=50n
mn1 zn a1 n1 vss nch w=415n l=0.05u
mn2 n1 a2 vss vss nch w=415n
+ l=50n
.ends nand2
",
        b"Nand2",
        b".SUBCKT NAND2 A1 A2 ZN VDD VSS
*.PININFO A1:I A2:I ZN:O VDD:P VSS:G
MP1 ZN A1 VDD VDD PCH W=630000000000e-18 L=50000000000e-18
MP2 ZN A2 VDD VDD PCH W=630000000000e-18 L=50000000000e-18
MN1 ZN A1 N1 VSS NCH W=415000000000e-18 L=50000000000e-18
MN2 N1 A2 VSS VSS NCH W=415000000000e-18 L=50000000000e-18
.ENDS
",
    ),
    // Roles in another order, a bulk on an inner net, a net `=`, a pin with a `:`, and a second name of power
    // and ground.
    (
        b"*.PININFO X
.SUBCKT A Z V2 B: G2 V1 G1
M1 = B: V1 N2 PXY W=2U L=1U AD=1
*.PININFO V1:P V2:P G1:G
*.PININFO G2:G B::I Z:O
M2 Z = G1 = N L=2U W=1U
.ENDS
.SUBCKT B B
*.PININFO B:O
.ENDS
",
        b"a",
        b".SUBCKT A Z V2 B: G2 V1 G1
*.PININFO Z:O V2:P B::I G2:G V1:P G1:G
M1 = B: V1 V2 PCH W=2000000000000e-18 L=1000000000000e-18
M2 Z = G1 G2 NCH W=1000000000000e-18 L=2000000000000e-18
.ENDS
",
    ),
    // The least and the greatest length.
    (
        b".SUBCKT A Z V G\n*.PININFO Z:O V:P G:G\nM1 Z G V V P W=1E-18 L=1E6\nM Z G V V N W=1000000 L=0.001F\n.ENDS\n",
        b"A",
        b".SUBCKT A Z V G
*.PININFO Z:O V:P G:G
M1 Z G V V PCH W=1e-18 L=1000000000000000000000000e-18
M Z G V G NCH W=1000000000000000000000000e-18 L=1e-18
.ENDS
",
    ),
    // No device, and names with a `$` inside.
    (
        b".SUBCKT A$ Z+ V* G$.1\n*.PININFO Z+:O V*:P G$.1:G\n.ENDS A$\n",
        b"a$",
        b".SUBCKT A$ Z+ V* G$.1\n*.PININFO Z+:O V*:P G$.1:G\n.ENDS\n",
    ),
    // Resistors in front of an input pin, and one at the output.
    (
        b".SUBCKT RINV A ZN VDD VSS
*.PININFO A:I ZN:O VDD:P VSS:G
R1 A A:1 12.5
MP1 ZN:1 A:1 VDD VDD pch W=0.63u L=0.05u
MN1 ZN:1 A:1 VSS VSS nch W=0.415u L=0.05u
R2 ZN:1 ZN 40
.ENDS
",
        b"RINV",
        b".SUBCKT RINV A ZN VDD VSS
*.PININFO A:I ZN:O VDD:P VSS:G
MP1 ZN:1 A VDD VDD PCH W=630000000000e-18 L=50000000000e-18
MN1 ZN:1 A VSS VSS NCH W=415000000000e-18 L=50000000000e-18
R2 ZN:1 ZN 1
.ENDS
",
    ),
    // Nets that are reached in two steps, by cards in another order; a resistor on one pin; two rails that
    // resistors join to inner nets of their own; words that are not judged.
    (
        b".SUBCKT C A B ZN VDD VSS
*.PININFO A:I B:I ZN:O VDD:P VSS:G
M1 ZN N3 N5 VSS N W=1U L=1U
R1 N3 N2 = ( \"
R2 N1 N2 1
R3 N1 A 1
R4 N6 N5 1
M2 N6 N4 VSS VSS N W=1U L=1U
R5 B N4 1
R6 N4 B 1
R7 B B 1
R8 VDD VDD 1
.ENDS
",
        b"C",
        b".SUBCKT C A B ZN VDD VSS
*.PININFO A:I B:I ZN:O VDD:P VSS:G
M1 ZN A N5 VSS NCH W=1000000000000e-18 L=1000000000000e-18
R4 N6 N5 1
M2 N6 B VSS VSS NCH W=1000000000000e-18 L=1000000000000e-18
R8 VDD VDD 1
.ENDS
",
    ),
];

/// The text of a cell that is read from a text.
#[tactic(auto, using(ca_spice::proofs::FoundLemmas::found))]
pub(crate) fn rewritten(alloc: Global, text: &[u8], name: &[u8]) -> Result<Text, Fail> {
    let Ok(library) = read_library(alloc, &StrengthTable::default_table(), text) else {
        return Err(Fail::from("the text reads"));
    };
    let Some(Entry::Sound(cell)) = library.get(name) else {
        return Err(Fail::from("the cell is there"));
    };
    Ok(write_cell(alloc, cell, name)?)
}

#[test]
fn what_is_written_reads_as_the_cell(rt: HostRuntime) -> Result<(), Fail> {
    for (text, name, written) in WRITTEN {
        let once = rewritten(rt.alloc(), text, name)?;
        assert!(rt; once.is(written), "{text:?}");
        let twice = rewritten(rt.alloc(), once.as_bytes(), name)?;
        assert!(rt; twice.is(written), "{text:?}");
    }
    Ok(())
}

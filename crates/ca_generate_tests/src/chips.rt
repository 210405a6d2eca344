//! Netlists, and what is generated for their chips.

/// An inverter, two gates of two inputs, a cell that leads its input to one of two outputs, and one that
/// keeps a value.
pub(crate) const LIBRARY: &[u8] = b"
.SUBCKT INV A ZN VDD VSS
*.PININFO A:I ZN:O VDD:P VSS:G
MP1 ZN A VDD VDD pch W=0.63u L=0.05u
MN1 ZN A VSS VSS nch W=0.415u L=0.05u
.ENDS
.SUBCKT NAND2 A1 A2 ZN VDD VSS
*.PININFO A1:I A2:I ZN:O VDD:P VSS:G
MP1 ZN A1 VDD VDD pch W=0.63u L=0.05u
MP2 ZN A2 VDD VDD pch W=0.63u L=0.05u
MN1 ZN A1 n1 VSS nch W=0.415u L=0.05u
MN2 n1 A2 VSS VSS nch W=0.415u L=0.05u
.ENDS
.SUBCKT NOR2 A1 A2 ZN VDD VSS
*.PININFO A1:I A2:I ZN:O VDD:P VSS:G
MP1 p1 A1 VDD VDD pch W=0.63u L=0.05u
MP2 ZN A2 p1 VDD pch W=0.63u L=0.05u
MN1 ZN A1 VSS VSS nch W=0.415u L=0.05u
MN2 ZN A2 VSS VSS nch W=0.415u L=0.05u
.ENDS
.SUBCKT LEAD A C P S VDD VSS
*.PININFO A:I C:I P:O S:O VDD:P VSS:G
MP1 w C VDD VDD pch W=0.63u L=0.05u
MN1 w C VSS VSS nch W=0.415u L=0.05u
MP2 v w VDD VDD pch W=0.63u L=0.05u
MN2 v w VSS VSS nch W=0.415u L=0.05u
MP3 P A VDD VDD pch W=0.63u L=0.05u
MP4 P v VDD VDD pch W=0.63u L=0.05u
MN3 P A n1 VSS nch W=0.415u L=0.05u
MN4 n1 v VSS VSS nch W=0.415u L=0.05u
MP5 t A VDD VDD pch W=0.63u L=0.05u
MP6 t w VDD VDD pch W=0.63u L=0.05u
MN5 t A n2 VSS nch W=0.415u L=0.05u
MN6 n2 w VSS VSS nch W=0.415u L=0.05u
MP7 S t VDD VDD pch W=0.63u L=0.05u
MN7 S t VSS VSS nch W=0.415u L=0.05u
.ENDS
.SUBCKT KEEP P S Y VDD VSS
*.PININFO P:I S:I Y:O VDD:P VSS:G
MP1 Y P VDD VDD pch W=0.63u L=0.05u
MN1 Y S VSS VSS nch W=0.415u L=0.05u
.ENDS
";

/// One inverter.
pub(crate) const INV: &[u8] = b"module inv1(a, z); input a; output z;
INV u1 (.A(a), .ZN(z)); endmodule";

/// One inverter, and many inputs that nothing reads.
const WIDE: &[u8] = b"module wide(p, a, z); input [69:0] p; input a; output z;
INV u1 (.A(a), .ZN(z)); endmodule";

/// A gate with both inputs on one net, so that its pins never have unequal values.
const TIED: &[u8] = b"module tied(a, z); input a; output z;
NAND2 u1 (.A1(a), .A2(a), .ZN(z)); endmodule";

/// A multiplexer with a hazard.
const GLITCH: &[u8] = b"module glitch(a, s, d, z); input a, s, d; output z; wire sn, w1, w2, y;
INV u1 (.A(s), .ZN(sn));
NAND2 u2 (.A1(s), .A2(d), .ZN(w1));
NAND2 u3 (.A1(sn), .A2(d), .ZN(w2));
NAND2 u4 (.A1(w1), .A2(w2), .ZN(y));
NAND2 u5 (.A1(a), .A2(y), .ZN(z)); endmodule";

/// The netlist that ISCAS calls c17.
const C17: &[u8] = b"module c17(N1, N2, N3, N6, N7, N22, N23);
input N1, N2, N3, N6, N7; output N22, N23; wire N10, N11, N16, N19;
NAND2 g0 (.A1(N1), .A2(N3), .ZN(N10));
NAND2 g1 (.A1(N3), .A2(N6), .ZN(N11));
NAND2 g2 (.A1(N2), .A2(N11), .ZN(N16));
NAND2 g3 (.A1(N11), .A2(N7), .ZN(N19));
NAND2 g4 (.A1(N10), .A2(N16), .ZN(N22));
NAND2 g5 (.A1(N16), .A2(N19), .ZN(N23)); endmodule";

/// A cell that keeps a value or gives an unknown one, and gates after it.
const UNKNOWN: &[u8] = b"module unknown(p, s, a, b, z, y); input p, s, a, b; output z, y; wire k, w;
KEEP u1 (.P(p), .S(s), .Y(k));
NAND2 u2 (.A1(k), .A2(a), .ZN(z));
NOR2 u3 (.A1(k), .A2(b), .ZN(w));
INV u4 (.A(w), .ZN(y)); endmodule";

/// Netlists, each with the number of bits of a pair and how many credits 257 pairs give.
pub(crate) const CREDITED: [(&[u8], usize, &[u8]); 2] = [(C17, 10, b"66 "), (UNKNOWN, 8, b"34 ")];

/// Netlists, each with a budget and the counts of what is generated for its chip. The last needs ways that
/// are made shorter: where none has more bits than the budget, four defects are aborted.
pub(crate) const COUNTED: [(&[u8], u32, &[u8]); 6] = [
    (
        INV,
        3,
        b"defects 9, credited 6, unexposable 3, untestable 0, aborted 0, empty 0, pairs 2",
    ),
    (
        INV,
        0,
        b"defects 9, credited 0, unexposable 3, untestable 0, aborted 6, empty 6, pairs 0",
    ),
    (
        WIDE,
        64,
        b"defects 9, credited 6, unexposable 3, untestable 0, aborted 0, empty 0, pairs 2",
    ),
    (
        TIED,
        3,
        b"defects 19, credited 7, unexposable 8, untestable 4, aborted 0, empty 0, pairs 2",
    ),
    (
        C17,
        1023,
        b"defects 114, credited 66, unexposable 48, untestable 0, aborted 0, empty 0, pairs 13",
    ),
    (
        C17,
        5,
        b"defects 114, credited 66, unexposable 48, untestable 0, aborted 0, empty 0, pairs 11",
    ),
];

/// Netlists, each with a budget, and the pairs and verdicts that are generated for its chip.
pub(crate) const SPELT: [(&[u8], u32, &[u8]); 2] = [
    (
        INV,
        3,
        b"pair 10 0
pair 01 3
c 0 0
c 0 0
x
c 1 0
c 1 0
x
x
c 1 0
c 0 0
",
    ),
    (
        TIED,
        3,
        b"pair 01 6
pair 00 16
u
u
x
u
u
x
c 0 0
c 0 0
x
c 0 0
c 0 0
x
x
x
c 0 0
c 0 0
c 1 0
x
x
",
    ),
];

/// A chip in which a defect shows by what a cell keeps of the first vector.
const KEPT: &[u8] = b"module kept(a, c, z); input a, c; output z; wire p, s, y;
LEAD u1 (.A(a), .C(c), .P(p), .S(s));
KEEP u2 (.P(p), .S(s), .Y(y));
NOR2 u3 (.A1(y), .A2(a), .ZN(z)); endmodule";

/// A chip with a hazard, a budget, the place of a defect, and what is reported about its verdict. The defect,
/// the open drain of `MP1` in `u5`, is shown where `a` falls while `y` stays at 1: with `d` at 1, and `s` at
/// rest, since a change of `s` would let `y` fall for a while.
pub(crate) const HAZARD: (&[u8], u32, usize, &[u8]) = (GLITCH, 63, HAZARD_PLACE, b"c 111011");

// The place of that defect: one for each of the defects of the inverter, and then those of gates.
const HAZARD_PLACE: usize = 66;

/// The same of a search that sets the lowest bit first, to 0 and then to 1, and ends after one branch. In the
/// one row that exposes the defect `a` is 1 in the first vector. So the search branches on bit 0, which is
/// that value; with 0 the row is out of reach, and with 1 there is more to set.
pub(crate) const ONE_BRANCH: (&[u8], u32, usize, &[u8]) = (GLITCH, 1, HAZARD_PLACE, b"a 0=0 -");

/// The same for the short of `VDD` and `w` in `u1`. Where `a` and `c` are 1 the good cell has 0 at both
/// outputs, and the defective one 1, so that `y` is 1 and 0; but then `a` keeps `z` at 0. Where `a` falls
/// both cells have 1 at `P` and 0 at `S`, `y` keeps its value, and `z` shows it. So no row of `u1` with the
/// last vector exposes the defect, and just one of the first vector alone does.
pub(crate) const KEPT_CHARGE: (&[u8], u32, usize, &[u8]) = (KEPT, 63, 46, b"c 1101");

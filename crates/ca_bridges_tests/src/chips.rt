//! Netlists, and the verdicts on the bridges of one of their instances.

/// A library.
pub(crate) const LIBRARY: &[u8] = b"
.SUBCKT INV A ZN VDD VSS
*.PININFO A:I ZN:O VDD:P VSS:G
MP1 ZN A VDD VDD pch W=1u L=0.1u
MN1 ZN A VSS VSS nch W=1u L=0.1u
.ENDS
.SUBCKT NAND2 A1 A2 ZN VDD VSS
*.PININFO A1:I A2:I ZN:O VDD:P VSS:G
MP1 ZN A1 VDD VDD pch W=1u L=0.1u
MP2 ZN A2 VDD VDD pch W=1u L=0.1u
MN1 ZN A1 N1 VSS nch W=1u L=0.1u
MN2 N1 A2 VSS VSS nch W=1u L=0.1u
.ENDS
";

/// A netlist, an instance of it, how many branches each search may have, and the verdict on each bridge: a
/// credit with its pair and its output.
pub(crate) struct Case {
    pub(crate) netlist: &'static [u8],
    pub(crate) instance: &'static [u8],
    pub(crate) budget: u32,
    pub(crate) wanted: &'static [u8],
}

const FAR: &[u8] = b"module far(a, z); input a; output z; wire b, c, d;
INV u1 (.A(a), .ZN(b)); INV u2 (.A(b), .ZN(c)); INV u3 (.A(c), .ZN(d));
NAND2 u4 (.A1(b), .A2(d), .ZN(z)); endmodule";

const C17: &[u8] = b"module c17(N1, N2, N3, N6, N7, N22, N23);
input N1, N2, N3, N6, N7; output N22, N23; wire N10, N11, N16, N19;
NAND2 g0 (.A1(N1), .A2(N3), .ZN(N10)); NAND2 g1 (.A1(N3), .A2(N6), .ZN(N11));
NAND2 g2 (.A1(N2), .A2(N11), .ZN(N16)); NAND2 g3 (.A1(N11), .A2(N7), .ZN(N19));
NAND2 g4 (.A1(N10), .A2(N16), .ZN(N22)); NAND2 g5 (.A1(N16), .A2(N19), .ZN(N23)); endmodule";

pub(crate) static CASES: [Case; 3] = [
    Case {
        netlist: FAR,
        instance: b"u4",
        budget: 3,
        wanted: b"VDD=A1 credited 0 0
VDD=A2 untestable
VSS=A1 credited 1 0
VSS=A2 credited 1 0
A1=A2 wide
A1=ZN wide
A1=N1 wide
A2=ZN unexposable
A2=N1 unexposable
pairs 2
",
    },
    Case {
        netlist: C17,
        instance: b"g4",
        budget: 1023,
        wanted: b"VDD=A1 credited 0 0
VDD=A2 credited 1 0
VSS=A1 credited 2 0
VSS=A2 credited 0 1
A1=A2 unexposable
A1=ZN unexposable
A1=N1 unexposable
A2=ZN unexposable
A2=N1 unexposable
pairs 3
",
    },
    Case {
        netlist: C17,
        instance: b"g0",
        budget: 1023,
        wanted: b"VDD=A1 port
VDD=A2 port
VSS=A1 port
VSS=A2 port
A1=A2 port
A1=ZN port
A1=N1 port
A2=ZN port
A2=N1 port
pairs 0
",
    },
];

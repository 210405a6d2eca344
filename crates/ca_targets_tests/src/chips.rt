//! Netlists, and what the bridges of one of their instances are as targets.

/// A library.
pub(crate) const LIBRARY: &[u8] = b"
.SUBCKT INV A ZN VDD VSS
*.PININFO A:I ZN:O VDD:P VSS:G
MP1 ZN A VDD VDD pch W=1u L=0.1u
MN1 ZN A VSS VSS nch W=1u L=0.1u
.ENDS
.SUBCKT NAND2 A1 A2 ZN VDD VSS
*.PININFO A1:I A2:I ZN:O VDD:P VSS:G
MP1 ZN A1 VDD VDD pch W=1u L=0.1u
MP2 ZN A2 VDD VDD pch W=1u L=0.1u
MN1 ZN A1 N1 VSS nch W=1u L=0.1u
MN2 N1 A2 VSS VSS nch W=1u L=0.1u
.ENDS
";

/// A netlist, an instance of it, and what each of its bridges is as a target: `port`, `one`, the output pins
/// of a cell that has too many, or the number of a cluster and the place of the short there, the input and
/// output pins of the cluster's cell and the two nodes of the short.
pub(crate) struct Case {
    pub(crate) netlist: &'static [u8],
    pub(crate) instance: &'static [u8],
    pub(crate) wanted: &'static [u8],
}

const FAR: &[u8] = b"module far(a, z); input a; output z; wire b, c, d;
INV u1 (.A(a), .ZN(b)); INV u2 (.A(b), .ZN(c)); INV u3 (.A(c), .ZN(d));
NAND2 u4 (.A1(b), .A2(d), .ZN(z)); endmodule";

const C17: &[u8] = b"module c17(N1, N2, N3, N6, N7, N22, N23);
input N1, N2, N3, N6, N7; output N22, N23; wire N10, N11, N16, N19;
NAND2 g0 (.A1(N1), .A2(N3), .ZN(N10)); NAND2 g1 (.A1(N3), .A2(N6), .ZN(N11));
NAND2 g2 (.A1(N2), .A2(N11), .ZN(N16)); NAND2 g3 (.A1(N11), .A2(N7), .ZN(N19));
NAND2 g4 (.A1(N10), .A2(N16), .ZN(N22)); NAND2 g5 (.A1(N16), .A2(N19), .ZN(N23)); endmodule";

pub(crate) static CASES: [Case; 5] = [
    // The chain from u1 through u2 to u3 is between u1 and u3.
    Case {
        netlist: FAR,
        instance: b"u4",
        wanted: b"VDD=A1 0.0 1/1 0=3
VDD=A2 1.0 1/1 0=3
VSS=A1 0.1 1/1 1=3
VSS=A2 1.1 1/1 1=3
A1=A2 outputs 3
A1=ZN outputs 4
A1=N1 outputs 4
A2=ZN 2.0 2/2 4=5
A2=N1 2.1 2/2 5=6
",
    },
    // g4 is fed by g0 and g2: N22 is before N10 and N16 in net order.
    Case {
        netlist: C17,
        instance: b"g4",
        wanted: b"VDD=A1 0.0 2/1 0=4
VDD=A2 1.0 2/1 0=4
VSS=A1 0.1 2/1 1=4
VSS=A2 1.1 2/1 1=4
A1=A2 2.0 4/2 6=7
A1=ZN 3.0 3/2 5=6
A1=N1 3.1 3/2 6=8
A2=ZN 4.0 3/2 5=6
A2=N1 4.1 3/2 6=8
",
    },
    Case {
        netlist: C17,
        instance: b"g0",
        wanted: b"VDD=A1 port
VDD=A2 port
VSS=A1 port
VSS=A2 port
A1=A2 port
A1=ZN port
A1=N1 port
A2=ZN port
A2=N1 port
",
    },
    // Both input pins of v are on one net.
    Case {
        netlist: b"module twin(a, z); input a; output z; wire b;
INV u (.A(a), .ZN(b)); NAND2 v (.A1(b), .A2(b), .ZN(z)); endmodule",
        instance: b"v",
        wanted: b"VDD=A1 0.0 1/1 0=3
VDD=A2 0.1 1/1 0=3
VSS=A1 0.2 1/1 1=3
VSS=A2 0.3 1/1 1=3
A1=A2 one
A1=ZN 1.0 1/2 3=4
A1=N1 1.1 1/2 4=5
A2=ZN 1.2 1/2 3=4
A2=N1 1.3 1/2 4=5
",
    },
    // A2 of v is on a constant.
    Case {
        netlist: b"module tied(a, z); input a; output z; wire b;
INV u (.A(a), .ZN(b)); NAND2 v (.A1(b), .A2(1'b1), .ZN(z)); endmodule",
        instance: b"v",
        wanted: b"VDD=A1 0.0 1/1 0=3
VDD=A2 port
VSS=A1 0.1 1/1 1=3
VSS=A2 port
A1=A2 port
A1=ZN 1.0 2/2 4=5
A1=N1 1.1 2/2 5=6
A2=ZN port
A2=N1 port
",
    },
];

//! Netlists, and the cells into which their instances are merged.

/// A library.
pub(crate) const LIBRARY: &[u8] = b"
.SUBCKT INV A ZN VDD VSS
*.PININFO A:I ZN:O VDD:P VSS:G
MP1 ZN A VDD VDD pch W=1u L=0.1u
MN1 ZN A VSS VSS nch W=1u L=0.1u
.ENDS
.SUBCKT NAND2 A1 A2 ZN VDD VSS
*.PININFO A1:I A2:I ZN:O VDD:P VSS:G
MP1 ZN A1 VDD VDD pch W=1u L=0.1u
MP2 ZN A2 VDD VDD pch W=1u L=0.1u
MN1 ZN A1 N1 VSS nch W=1u L=0.1u
MN2 N1 A2 VSS VSS nch W=1u L=0.1u
.ENDS
";

/// Each netlist with the cell of all its instances, or with the rule that this cell breaks: how many input
/// pins, output pins and nodes it has, and its devices as drain, gate and source.
pub(crate) static CHIPS: [(&[u8], &[u8]); 5] = [
    // 2 is a and 3 is z.
    (
        b"module one(a, z); input a; output z; INV u (.A(a), .ZN(z)); endmodule",
        b"114 3-2-0 3-2-1",
    ),
    // 2 is a, 3 is b, 4 is z and 5 is y: outputs are in net order, and not in that of the instances.
    (
        b"module two(a, b, z, y); input a, b; output z, y;
INV u (.A(a), .ZN(y)); NAND2 v (.A1(y), .A2(b), .ZN(z)); endmodule",
        b"227 5-2-0 5-2-1 4-5-0 4-3-0 4-5-6 6-3-1",
    ),
    // 2 is a, 3 is z and 4 is y; 5 and 6 are the inner nodes of the two gates.
    (
        b"module pair(a, z, y); input a; output z, y;
NAND2 u (.A1(a), .A2(a), .ZN(z)); NAND2 v (.A1(z), .A2(a), .ZN(y)); endmodule",
        b"127 3-2-0 3-2-0 3-2-5 5-2-1 4-3-0 4-2-0 4-3-6 6-2-1",
    ),
    // The end of the chip below: 2 is b, 3 is c, 4 is z and 5 is d.
    (
        b"module end(b, c, z); input b, c; output z; wire d;
INV u3 (.A(c), .ZN(d)); NAND2 u4 (.A1(b), .A2(d), .ZN(z)); endmodule",
        b"227 5-3-0 5-3-1 4-2-0 4-5-0 4-2-6 6-5-1",
    ),
    // All four nets that are driven are output pins.
    (
        b"module far(a, z); input a; output z; wire b, c, d;
INV u1 (.A(a), .ZN(b)); INV u2 (.A(b), .ZN(c)); INV u3 (.A(c), .ZN(d));
NAND2 u4 (.A1(b), .A2(d), .ZN(z)); endmodule",
        b"outputs 4",
    ),
];

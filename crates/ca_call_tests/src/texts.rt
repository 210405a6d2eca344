//! Netlists, and what the calls of their chips answer.

/// A library. Linking doesn't look at what cells compute, so the full adder is a stand-in with its pins.
pub(crate) const LIBRARY: &[u8] = b"
.SUBCKT INV A ZN VDD VSS
*.PININFO A:I ZN:O VDD:P VSS:G
MP1 ZN A VDD VDD pch W=1u L=0.1u
MN1 ZN A VSS VSS nch W=1u L=0.1u
.ENDS
.SUBCKT NAND2 A1 A2 ZN VDD VSS
*.PININFO A1:I A2:I ZN:O VDD:P VSS:G
MP1 ZN A1 VDD VDD pch W=1u L=0.1u
MP2 ZN A2 VDD VDD pch W=1u L=0.1u
MN1 ZN A1 N1 VSS nch W=1u L=0.1u
MN2 N1 A2 VSS VSS nch W=1u L=0.1u
.ENDS
.SUBCKT FA28 A B CI CO S VDD VSS
*.PININFO A:I B:I CI:I CO:O S:O VDD:P VSS:G
MP1 CO A VDD VDD pch W=1u L=0.1u
MN1 CO B VSS VSS nch W=1u L=0.1u
MP2 S B VDD VDD pch W=1u L=0.1u
MN2 S CI VSS VSS nch W=1u L=0.1u
.ENDS
";

/// A multiplexer with a hazard.
const GLITCH: &[u8] = b"module glitch(a, s, d, z); input a, s, d; output z; wire sn, w1, w2, y;
INV u1 (.A(s), .ZN(sn));
NAND2 u2 (.A1(s), .A2(d), .ZN(w1));
NAND2 u3 (.A1(sn), .A2(d), .ZN(w2));
NAND2 u4 (.A1(w1), .A2(w2), .ZN(y));
NAND2 u5 (.A1(a), .A2(y), .ZN(z)); endmodule";

/// The netlist that ISCAS calls c17.
const C17: &[u8] = b"module c17(N1, N2, N3, N6, N7, N22, N23);
input N1, N2, N3, N6, N7; output N22, N23; wire N10, N11, N16, N19;
NAND2 g0 (.A1(N1), .A2(N3), .ZN(N10));
NAND2 g1 (.A1(N3), .A2(N6), .ZN(N11));
NAND2 g2 (.A1(N2), .A2(N11), .ZN(N16));
NAND2 g3 (.A1(N11), .A2(N7), .ZN(N19));
NAND2 g4 (.A1(N10), .A2(N16), .ZN(N22));
NAND2 g5 (.A1(N16), .A2(N19), .ZN(N23)); endmodule";

/// An accumulator of two bits, with a scan chain.
const ACC: &[u8] = b"module acc(x, se, ck, hold, si, y, so);
input [1:0] x; input se, ck, hold, si; output [1:0] y; output so;
wire [1:0] x, y; wire q0, q1, c, s, t;
FA28 u1 (.A(x[0]), .B(q0), .CI(q1), .CO(c), .S(s));
SFF r0 (.D(s), .Q(q0), .SI(si), .SO(t), .SE(se), .CK(ck), .HOLD(hold));
SFF r1 (.D(c), .Q(q1), .QN(), .SI(t), .SO(so), .SE(se), .CK(ck), .HOLD(hold));
assign y[0] = s; assign y[1] = c; endmodule";

/// Buses with a descending and an ascending range, a constant, and gates that come before their drivers.
const BUSES: &[u8] =
    b"module buses(a, b, z, y); input [2:1] a; input [0:1] b; output [1:0] z; output [3:4] y; wire w;
NAND2 v (.A1(w), .A2(b[0]), .ZN(z[1]));
NAND2 u (.A1(a[2]), .A2(1'b1), .ZN(w));
INV t (.A(a[1]), .ZN(y[3]));
assign z[0] = b[1]; assign y[4] = 1'b0; endmodule";

// What is reported about `glitch`.
const GLITCH_TOLD: &[u8] = b"nets 8, instances 5, scan 0, inputs 3, outputs 1
in  a 0
in  s 1
in  d 2
out z 3
 0: port 0 read 4
 1: port 1 read 0 1
 2: port 2 read 1 2
 3: pin 4 0 read
 4: pin 0 0 read 2
 5: pin 1 0 read 3
 6: pin 2 0 read 3
 7: pin 3 0 read 4
inputs 0 1 2
outputs 3 z
u1 INV cell 0 of 2 place 0 pins 1 4 found
u2 NAND2 cell 1 of 2 place 1 pins 1 2 5 found
u3 NAND2 cell 1 of 2 place 2 pins 4 2 6 found
u4 NAND2 cell 1 of 2 place 3 pins 5 6 7 found
u5 NAND2 cell 1 of 2 place 4 pins 0 7 3 found
";

// What is reported about `c17`.
const C17_TOLD: &[u8] = b"nets 11, instances 6, scan 0, inputs 5, outputs 2
in  N1 0
in  N2 1
in  N3 2
in  N6 3
in  N7 4
out N22 5
out N23 6
 0: port 0 read 0
 1: port 1 read 2
 2: port 2 read 0 1
 3: port 3 read 1
 4: port 4 read 3
 5: pin 4 0 read
 6: pin 5 0 read
 7: pin 0 0 read 4
 8: pin 1 0 read 2 3
 9: pin 2 0 read 4 5
 10: pin 3 0 read 5
inputs 0 1 2 3 4
outputs 5 6 N22 N23
g0 NAND2 cell 0 of 1 place 0 pins 0 2 7 found
g1 NAND2 cell 0 of 1 place 1 pins 2 3 8 found
g2 NAND2 cell 0 of 1 place 2 pins 1 8 9 found
g3 NAND2 cell 0 of 1 place 3 pins 8 4 10 found
g4 NAND2 cell 0 of 1 place 4 pins 7 9 5 found
g5 NAND2 cell 0 of 1 place 5 pins 9 10 6 found
";

// What is reported about `acc`.
const ACC_TOLD: &[u8] = b"nets 14, instances 1, scan 2, inputs 4, outputs 4
in  x[1] 0
in  x[0] 1
in  se 2
in  ck 3
in  hold 4
in  si 5
out y[1] 6
out y[0] 7
out so 8
 0: port 0 read
 1: port 1 read 0
 2: port 2 path read
 3: port 3 path read
 4: port 4 path read
 5: port 5 path read
 6: pin 0 0 read
 7: pin 0 1 read
 8: pin 2 2 path read
 9: pin 1 0 read 0
 10: pin 2 0 read 0
 11: pin 1 2 path read
 12: pin 1 1 read
 13: pin 2 1 read
inputs 0 1 9 10
outputs 6 7 7 6 y[1] y[0] r0/D r1/D
u1 FA28 cell 0 of 1 place 0 pins 1 9 10 6 7 found
r0 SFF/D 7 9 5 11 2 3 4
r1 SFF/D 6 10 11 8 2 3 4
";

// What is reported about `buses`.
const BUSES_TOLD: &[u8] = b"nets 9, instances 3, scan 0, inputs 4, outputs 4
in  a[2] 0
in  a[1] 1
in  b[0] 2
in  b[1] 3
out z[1] 4
out z[0] 3
out y[3] 5
out y[4] 6
 0: port 0 read 1
 1: port 1 read 2
 2: port 2 read 0
 3: port 3 read
 4: pin 0 0 read
 5: pin 2 0 read
 6: constant 0 is 0 read
 7: pin 1 0 read 0
 8: constant 1 is 1 read 1
inputs 0 1 2 3
outputs 4 3 5 6 z[1] z[0] y[3] y[4]
v NAND2 cell 0 of 2 place 1 pins 7 2 4 found
u NAND2 cell 0 of 2 place 0 pins 0 8 7 found
t INV cell 1 of 2 place 2 pins 1 5 found
";

/// Netlists, each with what is reported about its chip.
pub(crate) const CHIPS: [(&[u8], &[u8]); 4] = [
    (GLITCH, GLITCH_TOLD),
    (C17, C17_TOLD),
    (ACC, ACC_TOLD),
    (BUSES, BUSES_TOLD),
];

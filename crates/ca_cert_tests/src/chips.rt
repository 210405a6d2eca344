//! Two chips, pairs, certificates, and what the check answers.

/// An inverter, and a gate of two inputs.
pub(crate) const LIBRARY: &[u8] = b"
.SUBCKT INV A ZN VDD VSS
*.PININFO A:I ZN:O VDD:P VSS:G
MP1 ZN A VDD VDD pch W=0.63u L=0.05u
MN1 ZN A VSS VSS nch W=0.415u L=0.05u
.ENDS
.SUBCKT NAND2 A1 A2 ZN VDD VSS
*.PININFO A1:I A2:I ZN:O VDD:P VSS:G
MP1 ZN A1 VDD VDD pch W=0.63u L=0.05u
MP2 ZN A2 VDD VDD pch W=0.63u L=0.05u
MN1 ZN A1 n1 VSS nch W=0.415u L=0.05u
MN2 n1 A2 VSS VSS nch W=0.415u L=0.05u
.ENDS
";

/// One inverter. Bit 0 is its input in the first vector, bit 1 in the last. Its defects are the opens of
/// drain, source and gate of MP1, then of MN1, the open of A, and the shorts of the output with power and
/// ground. The first two and the last are shown by a falling input, the fourth, fifth and eighth by a rising
/// one.
const INV: &[u8] = b"module inv1(a, z); input a; output z;
INV u1 (.A(a), .ZN(z)); endmodule";

/// A gate with both inputs on one net. The opens of drain and source of its p-transistors are exposed where
/// the pins end with different values alone, which they never have.
const TIED: &[u8] = b"module tied(a, z); input a; output z;
NAND2 u1 (.A1(a), .A2(a), .ZN(z)); endmodule";

/// A chip's netlist, listed pairs, the lines of a certificate, and the first claim that doesn't stand.
pub(crate) type Claimed = (
    &'static [u8],
    &'static [&'static [u8]],
    &'static [u8],
    Option<u32>,
);

/// Certificates of the inverter.

/// Certificates of the inverter.
pub(crate) static OF_INVERTER: [Claimed; 24] = [
    // the first detections
    (
        INV,
        &[b"10", b"01"],
        b"cellaware certificate 1 budget 3\nc 0 0\nc 0 0\nx\nc 1 0\nc 1 0\nx\nx\nc 1 0\nc 0 0\n",
        None,
    ),
    // a credit to a later pair
    (
        INV,
        &[b"10", b"10", b"01"],
        b"cellaware certificate 1 budget 3\nc 1 0\nc 0 0\nx\nc 2 0\nc 2 0\nx\nx\nc 2 0\nc 0 0\n",
        Some(0),
    ),
    // a credit to a later output
    (
        INV,
        &[b"10", b"01"],
        b"cellaware certificate 1 budget 3\nc 0 0\nc 0 1\nx\nc 1 0\nc 1 0\nx\nx\nc 1 0\nc 0 0\n",
        Some(1),
    ),
    // a credit to a pair that shows nothing
    (
        INV,
        &[b"10", b"01"],
        b"cellaware certificate 1 budget 3\nc 0 0\nc 0 0\nx\nc 0 0\nc 1 0\nx\nx\nc 1 0\nc 0 0\n",
        Some(3),
    ),
    // a credit to a pair that isn't listed
    (
        INV,
        &[b"10"],
        b"cellaware certificate 1 budget 3\nc 0 0\nc 0 0\nx\nc 1 0\nc 1 0\nx\nx\nc 1 0\nc 0 0\n",
        Some(3),
    ),
    // an exposable defect as unexposable
    (
        INV,
        &[b"10", b"01"],
        b"cellaware certificate 1 budget 3\nc 0 0\nc 0 0\nx\nc 1 0\nc 1 0\nx\nx\nc 1 0\nx\n",
        Some(8),
    ),
    // unexposable ones as credited, untestable and aborted
    (
        INV,
        &[b"10", b"01"],
        b"cellaware certificate 1 budget 3\nc 0 0\nc 0 0\nc 0 0\nc 1 0\nc 1 0\nx\nx\nc 1 0\nc 0 0\n",
        Some(2),
    ),
    (
        INV,
        &[b"10", b"01"],
        b"cellaware certificate 1 budget 3\nc 0 0\nc 0 0\nx\nc 1 0\nc 1 0\nu .\nx\nc 1 0\nc 0 0\n",
        Some(5),
    ),
    (
        INV,
        &[b"10", b"01"],
        b"cellaware certificate 1 budget 0\nc 0 0\nc 0 0\nx\nc 1 0\nc 1 0\nx\na\nc 1 0\nc 0 0\n",
        Some(6),
    ),
    // a defect that a listed pair detects as aborted
    (
        INV,
        &[b"10", b"01"],
        b"cellaware certificate 1 budget 0\nc 0 0\nc 0 0\nx\nc 1 0\nc 1 0\nx\nx\na\nc 0 0\n",
        Some(7),
    ),
    // detected ones as untestable
    (
        INV,
        &[b"10", b"01"],
        b"cellaware certificate 1 budget 3\nu .\nc 0 0\nx\nc 1 0\nc 1 0\nx\nx\nc 1 0\nc 0 0\n",
        Some(0),
    ),
    (
        INV,
        &[b"10", b"01"],
        b"cellaware certificate 1 budget 3\nu -0 . +1 . .\nc 0 0\nx\nc 1 0\nc 1 0\nx\nx\nc 1 0\nc 0 0\n",
        Some(0),
    ),
    // without pairs and branches
    (
        INV,
        &[],
        b"cellaware certificate 1 budget 0\na\na\nx\na\na\nx\nx\na\na\n",
        None,
    ),
    // a code one branch short
    (
        INV,
        &[],
        b"cellaware certificate 1 budget 1\na\na\nx\na\na\nx\nx\na\na\n",
        Some(0),
    ),
    // with one branch
    (
        INV,
        &[],
        b"cellaware certificate 1 budget 1\na +0\na +0\nx\na +0\na +0\nx\nx\na +0\na +0\n",
        None,
    ),
    // a code one branch too long
    (
        INV,
        &[],
        b"cellaware certificate 1 budget 1\na +0\na +0 +1\nx\na +0\na +0\nx\nx\na +0\na +0\n",
        Some(1),
    ),
    // the budget is another
    (
        INV,
        &[],
        b"cellaware certificate 1 budget 0\na +0\na +0\nx\na +0\na +0\nx\nx\na +0\na +0\n",
        Some(0),
    ),
    // a leaf where the rows rule out
    (
        INV,
        &[],
        b"cellaware certificate 1 budget 1\na -0 .\na +0\nx\na +0\na +0\nx\nx\na +0\na +0\n",
        None,
    ),
    // a leaf at an open pair
    (
        INV,
        &[],
        b"cellaware certificate 1 budget 1\na +0\na +0\nx\na -0 .\na +0\nx\nx\na +0\na +0\n",
        Some(3),
    ),
    // a branch on a bit that is set
    (
        INV,
        &[],
        b"cellaware certificate 1 budget 2\na +0 +0\na +0 +0\nx\na +0 +0\na +0 +0\nx\nx\na +0 +0\na +0 +0\n",
        Some(0),
    ),
    // a branch on a bit that the chip doesn't have
    (
        INV,
        &[],
        b"cellaware certificate 1 budget 1\na +0\na +0\nx\na +0\na +2\nx\nx\na +0\na +0\n",
        Some(4),
    ),
    (
        INV,
        &[],
        b"cellaware certificate 1 budget 1\na +0\na +0\nx\na +0\na +8191\nx\nx\na +0\na +0\n",
        Some(4),
    ),
    // a whole code isn't spent
    (
        INV,
        &[],
        b"cellaware certificate 1 budget 0\na .\na\nx\na\na\nx\nx\na\na\n",
        Some(0),
    ),
    // no bit is left to set
    (
        INV,
        &[],
        b"cellaware certificate 1 budget 2\na +0 +1\na +0 +1\nx\na +0 +1\na +0 +1\nx\nx\na +0 +1\na +0 +1\n",
        Some(0),
    ),
];

/// Certificates of the gate.
pub(crate) static OF_TIED: [Claimed; 8] = [
    // whole codes
    (
        TIED,
        &[b"01", b"00"],
        b"cellaware certificate 1 budget 3\nu -1 . .\nu -1 . .\nx\nu -1 . .\nu -1 . .\nx\nc 0 0\n\
        c 0 0\nx\nc 0 0\nc 0 0\nx\nx\nx\nc 0 0\nc 0 0\nc 1 0\nx\nx\n",
        None,
    ),
    // a leaf where nothing is set
    (
        TIED,
        &[b"01", b"00"],
        b"cellaware certificate 1 budget 3\nu .\nu -1 . .\nx\nu -1 . .\nu -1 . .\nx\nc 0 0\nc 0 0\n\
        x\nc 0 0\nc 0 0\nx\nx\nx\nc 0 0\nc 0 0\nc 1 0\nx\nx\n",
        Some(0),
    ),
    // a code one leaf short
    (
        TIED,
        &[b"01", b"00"],
        b"cellaware certificate 1 budget 3\nu -1 . .\nu -1 .\nx\nu -1 . .\nu -1 . .\nx\nc 0 0\n\
        c 0 0\nx\nc 0 0\nc 0 0\nx\nx\nx\nc 0 0\nc 0 0\nc 1 0\nx\nx\n",
        Some(1),
    ),
    // a code one leaf too long
    (
        TIED,
        &[b"01", b"00"],
        b"cellaware certificate 1 budget 3\nu -1 . .\nu -1 . .\nx\nu -1 . . .\nu -1 . .\nx\nc 0 0\n\
        c 0 0\nx\nc 0 0\nc 0 0\nx\nx\nx\nc 0 0\nc 0 0\nc 1 0\nx\nx\n",
        Some(3),
    ),
    // no code
    (
        TIED,
        &[b"01", b"00"],
        b"cellaware certificate 1 budget 3\nu -1 . .\nu -1 . .\nx\nu -1 . .\nu\nx\nc 0 0\nc 0 0\nx\n\
        c 0 0\nc 0 0\nx\nx\nx\nc 0 0\nc 0 0\nc 1 0\nx\nx\n",
        Some(4),
    ),
    // a branch where the pair is settled
    (
        TIED,
        &[b"01", b"00"],
        b"cellaware certificate 1 budget 3\nu -1 . -0 . .\nu -1 . .\nx\nu -1 . .\nu -1 . .\nx\n\
        c 0 0\nc 0 0\nx\nc 0 0\nc 0 0\nx\nx\nx\nc 0 0\nc 0 0\nc 1 0\nx\nx\n",
        Some(0),
    ),
    // the other order
    (
        TIED,
        &[b"01", b"00"],
        b"cellaware certificate 1 budget 3\nu +1 . .\nu -1 . .\nx\nu -1 . .\nu -1 . .\nx\nc 0 0\n\
        c 0 0\nx\nc 0 0\nc 0 0\nx\nx\nx\nc 0 0\nc 0 0\nc 1 0\nx\nx\n",
        None,
    ),
    // a branch on the first vector first
    (
        TIED,
        &[b"01", b"00"],
        b"cellaware certificate 1 budget 3\nu -0 -1 . . -1 . .\nu -1 . .\nx\nu -1 . .\nu -1 . .\nx\n\
        c 0 0\nc 0 0\nx\nc 0 0\nc 0 0\nx\nx\nx\nc 0 0\nc 0 0\nc 1 0\nx\nx\n",
        None,
    ),
];

//! Texts that have a reading, with what they read as.

use ca_base::NoMemory;
use ca_verilog::{
    Direction, RawBit, RawBus, RawInstance, RawNetlist, RawSpan, RawUse, read_netlist,
};
use std::alloc::Global;
use std::test::Fail;

/// Each text with its declared names, the places of its ports, what it joins and its instances. A bit is
/// given by its number, and a join by its first two bits and the number of pairs.
const READINGS: [(&[u8], &str); 17] = [
    (
        b"module inv1(a, z); input a; output z;
  INV u1 (.A(a), .ZN(z)); endmodule",
        "in a, out z; ports 0 1; u1 INV A=0 ZN=1;",
    ),
    (
        b"module wide(p, a, z); input [69:0] p; input a; output z;
  INV u1 (.A(a), .ZN(z)); endmodule",
        "in p[69:0], in a, out z; ports 0 1 2; u1 INV A=70 ZN=71;",
    ),
    (
        b"module tied(a, z); input a; output z;
  NAND2 u1 (.A1(a), .A2(a), .ZN(z)); endmodule",
        "in a, out z; ports 0 1; u1 NAND2 A1=0 A2=0 ZN=1;",
    ),
    (
        b"module glitch(a, s, d, z); input a, s, d; output z; wire sn, w1, w2, y;
  INV u1 (.A(s), .ZN(sn));
  NAND2 u2 (.A1(s), .A2(d), .ZN(w1));
  NAND2 u3 (.A1(sn), .A2(d), .ZN(w2));
  NAND2 u4 (.A1(w1), .A2(w2), .ZN(y));
  NAND2 u5 (.A1(a), .A2(y), .ZN(z)); endmodule",
        "in a, in s, in d, out z, sn, w1, w2, y; ports 0 1 2 3; u1 INV A=1 ZN=4; u2 NAND2 A1=1 A2=2 ZN=5; u3 NAND2 A1=4 A2=2 ZN=6; u4 NAND2 A1=5 A2=6 ZN=7; u5 NAND2 A1=0 A2=7 ZN=3;",
    ),
    (
        b"module c17(N1, N2, N3, N6, N7, N22, N23);
  input N1, N2, N3, N6, N7; output N22, N23; wire N10, N11, N16, N19;
  NAND2 g0 (.A1(N1), .A2(N3), .ZN(N10));
  NAND2 g1 (.A1(N3), .A2(N6), .ZN(N11));
  NAND2 g2 (.A1(N2), .A2(N11), .ZN(N16));
  NAND2 g3 (.A1(N11), .A2(N7), .ZN(N19));
  NAND2 g4 (.A1(N10), .A2(N16), .ZN(N22));
  NAND2 g5 (.A1(N16), .A2(N19), .ZN(N23)); endmodule",
        "in N1, in N2, in N3, in N6, in N7, out N22, out N23, N10, N11, N16, N19; ports 0 1 2 3 4 5 6; g0 NAND2 A1=0 A2=2 ZN=7; g1 NAND2 A1=2 A2=3 ZN=8; g2 NAND2 A1=1 A2=8 ZN=9; g3 NAND2 A1=8 A2=4 ZN=10; g4 NAND2 A1=7 A2=9 ZN=5; g5 NAND2 A1=9 A2=10 ZN=6;",
    ),
    (
        b"module acc(x, se, ck, hold, si, y, so);
  input [1:0] x; input se, ck, hold, si; output [1:0] y; output so;
  wire [1:0] x, y; wire q0, q1, c, s, t;
  FA28 u1 (.A(x[0]), .B(q0), .CI(q1), .CO(c), .S(s));
  SFF r0 (.D(s), .Q(q0), .SI(si), .SO(t), .SE(se), .CK(ck), .HOLD(hold));
  SFF r1 (.D(c), .Q(q1), .QN(), .SI(t), .SO(so), .SE(se), .CK(ck), .HOLD(hold));
  assign y[0] = s; assign y[1] = c; endmodule
",
        "in x[1:0], in se, in ck, in hold, in si, out y[1:0], out so, q0, q1, c, s, t; ports 0 1 2 3 4 5 6; join 7=12x1; join 6=11x1; u1 FA28 A=1 B=9 CI=10 CO=11 S=12; r0 SFF D=12 Q=9 SI=5 SO=13 SE=2 CK=3 HOLD=4; r1 SFF D=11 Q=10 QN= SI=13 SO=8 SE=2 CK=3 HOLD=4;",
    ),
    (b"module m; endmodule", "; ports;"),
    (b"module m(); endmodule\n`resetall", "; ports;"),
    (
        b"`timescale 1ns/1ps\n \t`celldefine\r\nmodule m (* top *) ; // a \x80 comment\n/* \x80 */ endmodule\n`endcelldefine",
        "; ports;",
    ),
    (
        b"module m(z, a); wire z; output [0:0] a; output z; endmodule",
        "out z, out a[0:0]; ports 0 1;",
    ),
    (
        b"module m(z, a); output a; output z; endmodule",
        "out a, out z; ports 1 0;",
    ),
    (
        b"module m; wire [2:5] a; wire \\a[2] ; wire [131071:131068] b; INV u (.a(a[2]), .b(a[5]), .c(\\a[2] ), .d(b[131068]), .e(1'B1), .f(1'b0), .g()); endmodule",
        "a[2:5], a[2], b[131071:131068]; ports; u INV A=0 B=3 C=4 D=8 E=one F=zero G=;",
    ),
    (
        b"module m; wire [3:0] a; wire [0:3] b; assign a = b; assign b = a; assign a[0] = 1'b1; assign 1'b0 = b[3]; assign a = b; endmodule",
        "a[3:0], b[0:3]; ports; join 0=4x4; join 4=0x4; join 3=onex1; join zero=7x1; join 0=4x4;",
    ),
    (
        b"module m; wire a, A, a$1, _; nand2 \\u\\ (.A1(a),.a2(A)); nand2 U(); endmodule",
        "a, A, a$1, _; ports; u\\ NAND2 A1=0 A2=1; U NAND2;",
    ),
    (b"module m; wire [007:00] a; endmodule", "a[7:0]; ports;"),
    (
        b"module m; wire [131071:0] a; endmodule",
        "a[131071:0]; ports;",
    ),
    (b"module\\endmodule ;endmodule", "; ports;"),
];

fn bit_shown(alloc: Global, bit: RawBit) -> Result<String, NoMemory> {
    match bit {
        RawBit::Bit(number) => Ok(format!(in alloc; "{number}")?),
        RawBit::Constant(true) => Ok(format!(in alloc; "one")?),
        RawBit::Constant(false) => Ok(format!(in alloc; "zero")?),
    }
}

fn add_bus(shown: &mut Vec<u8>, alloc: Global, bus: &RawBus) -> Result<(), NoMemory> {
    match bus.direction {
        Direction::Input => shown.extend_from_slice(b"in ")?,
        Direction::Output => shown.extend_from_slice(b"out ")?,
        Direction::Inner => {}
    }
    shown.extend_from_slice(bus.name.as_bytes())?;
    if let Some((left, right)) = bus.range {
        shown.extend_from_slice(format!(in alloc; "[{left}:{right}]")?.as_bytes())?;
    }
    Ok(())
}

fn add_buses(shown: &mut Vec<u8>, alloc: Global, buses: &[RawBus]) -> Result<(), NoMemory> {
    let mut following = false;
    for bus in buses {
        if following {
            shown.extend_from_slice(b", ")?;
        }
        following = true;
        add_bus(shown, alloc, bus)?;
    }
    Ok(())
}

fn add_ports(shown: &mut Vec<u8>, alloc: Global, ports: &[u32]) -> Result<(), NoMemory> {
    shown.extend_from_slice(b"; ports")?;
    for place in ports {
        shown.extend_from_slice(format!(in alloc; " {place}")?.as_bytes())?;
    }
    Ok(())
}

fn add_span(shown: &mut Vec<u8>, alloc: Global, span: RawSpan) -> Result<(), NoMemory> {
    let left = bit_shown(alloc, span.left)?;
    let right = bit_shown(alloc, span.right)?;
    let count = span.count;
    Ok(shown.extend_from_slice(format!(in alloc; "; join {left}={right}x{count}")?.as_bytes())?)
}

fn add_use(shown: &mut Vec<u8>, alloc: Global, used: &RawUse) -> Result<(), NoMemory> {
    shown.extend_from_slice(b" ")?;
    shown.extend_from_slice(used.pin.as_bytes())?;
    shown.extend_from_slice(b"=")?;
    if let Some(bit) = used.bit {
        shown.extend_from_slice(bit_shown(alloc, bit)?.as_bytes())?;
    }
    Ok(())
}

fn add_instance(
    shown: &mut Vec<u8>,
    alloc: Global,
    instance: &RawInstance,
) -> Result<(), NoMemory> {
    shown.extend_from_slice(b"; ")?;
    shown.extend_from_slice(instance.name.as_bytes())?;
    shown.extend_from_slice(b" ")?;
    shown.extend_from_slice(instance.cell.as_bytes())?;
    for used in instance.pins.as_slice() {
        add_use(shown, alloc, used)?;
    }
    Ok(())
}

fn shown(alloc: Global, netlist: &RawNetlist) -> Result<Vec<u8>, NoMemory> {
    let mut shown = Vec::new(alloc);
    add_buses(&mut shown, alloc, netlist.buses.as_slice())?;
    add_ports(&mut shown, alloc, netlist.ports.as_slice())?;
    for span in netlist.joins.spans() {
        add_span(&mut shown, alloc, *span)?;
    }
    for instance in netlist.instances.as_slice() {
        add_instance(&mut shown, alloc, instance)?;
    }
    shown.push(b';')?;
    Ok(shown)
}

// What a text reads as, or its fault, written out.
fn answer(alloc: Global, text: &[u8]) -> Result<Vec<u8>, NoMemory> {
    match read_netlist(alloc, text) {
        Ok(netlist) => shown(alloc, &netlist),
        Err(fault) => Ok(format!(in alloc; "{fault:?}")?.into_bytes()),
    }
}

#[test]
fn readings(rt: HostRuntime) -> Result<(), Fail> {
    for (text, expected) in READINGS {
        let answer = answer(rt.alloc(), text)?;
        assert!(rt; answer.as_slice() == expected.as_bytes(), "{expected}");
    }
    Ok(())
}

// A text with `count` copies of a part between its front and its end.
fn repeated(
    alloc: Global,
    front: &[u8],
    part: &[u8],
    count: u32,
    end: &[u8],
) -> Result<Vec<u8>, NoMemory> {
    let mut text = front.to_vec(alloc)?;
    for _ in 0..count {
        text.extend_from_slice(part)?;
    }
    text.extend_from_slice(end)?;
    Ok(text)
}

// How many bytes the name of the first bus has, and how many spans there are.
fn sizes(alloc: Global, text: &[u8]) -> Option<(usize, usize)> {
    let Ok(netlist) = read_netlist(alloc, text) else {
        return None;
    };
    let spans = netlist.joins.spans().len();
    match netlist.buses.as_slice() {
        [] => None,
        [bus, ..] => Some((bus.name.as_bytes().len(), spans)),
    }
}

/// Names of a million bytes, and long vectors that are joined a hundred thousand times.
#[test]
fn long_texts(rt: HostRuntime) -> Result<(), Fail> {
    let alloc = rt.alloc();
    let names = repeated(alloc, b"module m; wire ", b"b", 1_000_000, b"; endmodule")?;
    assert_eq!(rt; sizes(alloc, &names), Some((1_000_000, 0)));

    let front = b"module m; wire [65535:0] a, b; ".as_slice();
    let joins = repeated(alloc, front, b"assign a = b; ", 100_000, b"endmodule")?;
    assert_eq!(rt; sizes(alloc, &joins), Some((1, 100_000)));
    Ok(())
}

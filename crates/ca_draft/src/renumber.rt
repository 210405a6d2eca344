//! The numbers of nets in place of those of wires.

ghost use Rattle.std.specs.Prelude.{◌≡◌, ◌<◌, length, map, option_to_list, IfOk, OnOk};
ghost use Rattle.std.specs.List.{All};
ghost use Rattle.ca_linked.specs.declared.parts.Body.TheVariants.{Scan};
ghost use Rattle.ca_linked.specs.Linked.{input_nets, output_nets};
ghost use Rattle.ca_draft.specs.code.OnWires.{constant_number, number_of, numbered, numbered_option};
ghost use Rattle.ca_draft.specs.code.OnWires.{numbered_part, numbered_port, pins_of};

use ca_base::NoMemory;
use ca_linked::{Body, NetList, Part, PortBit, ScanNets};
use ca_wiring::NetTable;
use std::alloc::Global;

// The nets of wires.
fn number_list(alloc: Global, wires: &NetList, table: &NetTable) -> Result<NetList, NoMemory>
    requires { All (λ wire. wire < length table.now.numbers) wires.now }
    ensures { IfOk result (λ nets. nets ≡ map (number_of table.now.numbers) wires.now) }
{
    let mut nets = NetList::new(alloc);
    for k in 0..wires.len() {
        nets.push(table.number(wires.get(k)))?;
    }
    Ok(nets)
}

// The net of a wire, if there is one.
fn number_option(wire: Option<u32>, table: &NetTable) -> Option<u32>
    requires { All (λ wire. wire < length table.now.numbers) (option_to_list wire) }
    ensures { result ≡ numbered_option table.now.numbers wire }
{
    match wire {
        None => None,
        Some(wire) => Some(table.number(wire)),
    }
}

// The nets of a scan cell's pins.
fn number_pins(pins: &ScanNets, table: &NetTable) -> ScanNets
    requires { All (λ wire. wire < length table.now.numbers) (pins_of (Scan pins.now)) }
    ensures { Scan result ≡ numbered table.now.numbers (Scan pins.now) }
{
    ScanNets {
        d: table.number(pins.d),
        si: table.number(pins.si),
        se: table.number(pins.se),
        ck: table.number(pins.ck),
        hold: table.number(pins.hold),
        q: table.number(pins.q),
        qn: number_option(pins.qn, table),
        so: table.number(pins.so),
    }
}

// The body of an instance on nets.
fn number_body(alloc: Global, body: &Body, table: &NetTable) -> Result<Body, NoMemory>
    requires { All (λ wire. wire < length table.now.numbers) (pins_of body.now) }
    ensures { IfOk result (λ new. new ≡ numbered table.now.numbers body.now) }
{
    match body {
        Body::Gate {
            cell,
            inputs,
            outputs,
        } => Ok(Body::Gate {
            cell: *cell,
            inputs: number_list(alloc, inputs, table)?,
            outputs: number_list(alloc, outputs, table)?,
        }),
        Body::Scan(pins) => Ok(Body::Scan(number_pins(pins, table))),
    }
}

/// Puts the instances on nets.
pub(crate) fn number_parts(
    alloc: Global,
    parts: &mut Vec<Part>,
    table: &NetTable,
) -> Result<(), NoMemory>
    requires { All (λ part. All (λ wire. wire < length table.now.numbers) (pins_of part.body))
        parts.old.items }
    ensures { OnOk result (parts.new.items ≡ map (numbered_part table.now.numbers) parts.old.items) }
{
    for u in 0..parts.len() {
        let body = number_body(alloc, &parts[u].body, table)?;
        parts[u].body = body;
    }
    Ok(())
}

/// Puts the port bits on nets.
pub(crate) fn number_ports(ports: &mut Vec<PortBit>, table: &NetTable)
    requires { All (λ port. port.net < length table.now.numbers) ports.old.items }
    ensures { ports.new.items ≡ map (numbered_port table.now.numbers) ports.old.items }
{
    for p in 0..ports.len() {
        let net = table.number(ports[p].net);
        ports[p].net = net;
    }
}

/// The net of a constant's wire, if the constant is named.
pub(crate) fn number_constant(is_named: bool, wire: u32, table: &NetTable) -> Option<u32>
    requires { wire < length table.now.numbers }
    ensures { result ≡ constant_number table.now.numbers is_named wire }
{
    if is_named {
        Some(table.number(wire))
    } else {
        None
    }
}

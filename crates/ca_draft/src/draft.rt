//! The draft of a netlist.

ghost use Rattle.std.specs.Prelude.{◌≡◌, ◌<◌, ◌+◌, ◌^◌, map, IfOk};
ghost use Rattle.std.specs.List.{All, IsDistinct};
ghost use Rattle.std.specs.Str.{bytes_eq};
ghost use Rattle.ca_cell.specs.Library.{raw_of};
ghost use Rattle.ca_verilog.specs.IsNetlist.{IsJoinOf, IsNetlist};
ghost use Rattle.ca_linked.specs.Drivers.{IsDrafted};
ghost use Rattle.ca_wiring.specs.Wiring.{joins_of, wiring_of};
ghost use Rattle.ca_wiring.specs.InstanceRules.{AreSound};
ghost use Rattle.ca_wiring.specs.Linking.{IsLinkOf};
ghost use Rattle.ca_draft.specs.code.OnWires.{IsNetlistOnWires, IsNumbering};

use crate::header::{bits_of, ports_of};
use crate::instances::instances_of;
use crate::marks::marks_of;
use crate::renumber::{number_constant, number_parts, number_ports};
use crate::touched::{Touched, touched_of};
use ca_base::NoMemory;
use ca_cell::Library;
use ca_linked::{Draft, Part, PortBit};
use ca_verilog::{RawJoins, RawNetlist};
use ca_wiring::{NetTable, ScanRow, ScanTable, earliest_wires, number_nets};
use std::alloc::Global;

/// A netlist on its wires: the numbers of declared bits and of wires, the instances and port bits, and what
/// nets are on.
#[derive(Drop)]
pub(crate) struct OnWires {
    pub bits: u32,
    pub wires: u32,
    pub parts: Vec<Part>,
    pub ports: Vec<PortBit>,
    pub touched: Touched,
}

// The netlist on its wires.
fn on_wires(
    alloc: Global,
    library: &Library,
    netlist: &RawNetlist,
    scan: &[ScanRow],
) -> Result<OnWires, NoMemory>
    requires netlist { IsNetlist netlist.now }
    requires rows { IsDistinct bytes_eq (map (λ row. row.cell) scan.now) }
    requires sound { AreSound netlist.now library.now scan.now }
    ensures { IfOk result (IsNetlistOnWires netlist.now library.now scan.now) }
{
    let buses = netlist.buses.as_slice();
    let bits = bits_of(alloc, buses)?;
    let ports = ports_of(alloc, buses, &bits.firsts, netlist.ports.as_slice())?;
    let made = instances_of(
        alloc,
        library,
        scan,
        bits.count,
        netlist.instances.as_slice(),
    )?;
    let touched = touched_of(
        alloc,
        bits.count,
        &made.parts,
        &ports,
        netlist.joins.spans(),
    )?;
    Ok(OnWires {
        bits: bits.count,
        wires: made.wires,
        parts: made.parts,
        ports,
        touched,
    })
}

// The nets that are on these wires.
fn numbering_of(
    alloc: Global,
    bits: u32,
    wires: u32,
    joins: &RawJoins,
    touched: &[u32],
) -> Result<NetTable, NoMemory>
    requires constants { bits + 1 < wires }
    requires joined { All (IsJoinOf bits) joins.now }
    requires within { All (λ wire. wire < wires) touched.now }
    ensures numbering { IfOk result (IsNumbering (joins_of bits joins.now) wires touched.now) }
    ensures few { wires < 2 ^ 32 }
{
    let earliest = earliest_wires(alloc, bits, wires as usize, joins)?;
    let used = marks_of(alloc, &earliest, touched)?;
    let table = number_nets(alloc, &earliest, &used)?;
    Ok(table)
}

/// The draft of a netlist whose instances keep their rules. Also answers out of memory for a netlist with
/// 2^32 wires or port bits.
pub fn draft_of(
    alloc: Global,
    library: Library,
    netlist: &RawNetlist,
    scan: &ScanTable,
) -> Result<Draft, NoMemory>
    requires netlist { IsNetlist netlist.now }
    requires rows { IsDistinct bytes_eq (map (λ row. row.cell) scan.now) }
    requires sound { AreSound netlist.now library scan.now }
    ensures link { IfOk result (IsLinkOf (wiring_of netlist.now library scan.now)) }
    ensures drafted { IfOk result IsDrafted }
    ensures cells { IfOk result (λ draft. draft.cells ≡ map (λ named. raw_of named.entry) library) }
{
    let made = on_wires(alloc, &library, netlist, scan.as_slice())?;
    let table = numbering_of(
        alloc,
        made.bits,
        made.wires,
        &netlist.joins,
        &made.touched.wires,
    )?;
    let zero = number_constant(made.touched.zero, made.bits, &table);
    let one = number_constant(made.touched.one, made.bits + 1, &table);
    let OnWires {
        mut parts,
        mut ports,
        ..
    } = made;
    number_parts(alloc, &mut parts, &table)?;
    number_ports(&mut ports, &table);
    Ok(Draft::new(library, table.nets(), zero, one, parts, ports))
}

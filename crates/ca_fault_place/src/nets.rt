//! The wire by which a net is known.

ghost use Rattle.std.specs.Prelude.{◌≡◌, ◌<◌, ◌^◌, length, slice_index, IfOk};
ghost use Rattle.std.specs.List.{All};
ghost use Rattle.ca_verilog.specs.IsNetlist.{IsNetlist};
ghost use Rattle.ca_draft.specs.code.OnWires.{AreMarks};
ghost use Rattle.ca_fault_place.specs.code.Touched.{IsFoundAmong, IsFoundFor};

use crate::touched::touched_of;
use ca_base::NoMemory;
use ca_draft::bits_of;
use ca_verilog::RawNetlist;
use ca_wiring::earliest_wires;
use std::alloc::Global;

// Marks the earliest wire of each that is listed.
fn marks_of(alloc: Global, earliest: &[u32], wires: &[u32]) -> Result<Vec<bool>, NoMemory>
    requires listed { All (λ wire. slice_index earliest.now wire < length earliest.now) wires.now }
    requires within { All (λ wire. wire < length earliest.now) wires.now }
    ensures { IfOk result (λ used. AreMarks earliest.now wires.now used.items) }
{
    let mut used = vec![in alloc; false; earliest.len()]?;
    for k in 0..wires.len() {
        let first = earliest[wires[k] as usize];
        used[first as usize] = true;
    }
    Ok(used)
}

// The wire by which the net of this number is known, if there is one.
fn nth_wire(earliest: &[u32], used: &[bool], net: u32) -> Option<u32>
    requires few { length earliest.now < 2 ^ 32 }
    requires marks { length used.now ≡ length earliest.now }
    ensures { IsFoundAmong (record { earliest = earliest.now; used = used.now })
        (length earliest.now) net result }
{
    let mut left = net;
    for w in 0..earliest.len() {
        if earliest[w] == w as u32 && used[w] {
            if left == 0 {
                return Some(w as u32);
            }
            left -= 1;
        }
    }
    None
}

/// The wire by which the net of this number is known, if it is that of a declared bit or of a constant.
pub(crate) fn net_wire(
    alloc: Global,
    netlist: &RawNetlist,
    net: u32,
) -> Result<Option<u32>, NoMemory>
    requires { IsNetlist netlist.now }
    ensures { IfOk result (IsFoundFor netlist.now net) }
{
    let bits = bits_of(alloc, netlist.buses.as_slice())?;
    let wires = bits.count as usize + 2;
    let earliest = earliest_wires(alloc, bits.count, wires, &netlist.joins)?;
    let touched = touched_of(alloc, netlist, &bits)?;
    let used = marks_of(alloc, &earliest, &touched)?;
    Ok(nth_wire(&earliest, &used, net))
}

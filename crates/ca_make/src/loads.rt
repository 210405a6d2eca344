//! Which candidates have a load.

ghost use Rattle.std.specs.Prelude.{◌≡◌, ◌+◌, ◌≤◌, IfOk, length};
ghost use Rattle.std.specs.List.{All};
ghost use Rattle.ca_make.specs.declared.gate.TheConstants.{INPUTS, MOST_GATES};
ghost use Rattle.ca_make.specs.Chip.{unloaded};
ghost use Rattle.ca_make.specs.code.Chip.{IsWithin};
ghost use Rattle.ca_make.specs.code.Kept.{marked_by, AreLoads};

use crate::gate::{Gate, INPUTS};
use ca_base::{List, NoMemory};
use std::alloc::Global;

// Marks the inputs of a gate.
fn mark(loads: &mut Vec<bool>, gate: Gate)
    requires { IsWithin (length loads.old.items) gate }
    ensures { loads.new.items ≡ marked_by gate loads.old.items }
{
    match gate {
        Gate::Inv(a) => loads[a as usize] = true,
        Gate::Nand2(a, b) | Gate::Nor2(a, b) => {
            loads[a as usize] = true;
            loads[b as usize] = true;
        }
    }
}

// Whether each of the first candidates, as many as this, has a load.
fn loads(alloc: Global, gates: &List<Gate>, candidates: usize) -> Result<Vec<bool>, NoMemory>
    requires { All (IsWithin candidates) gates.now }
    ensures { IfOk result (λ loads. AreLoads gates.now candidates loads.items) }
{
    let mut loads = vec![in alloc; false; candidates]?;
    for gate in gates.as_slice() {
        mark(&mut loads, *gate);
    }
    Ok(loads)
}

/// The numbers of the gates whose outputs have no load.
pub(crate) fn outputs(alloc: Global, gates: &List<Gate>) -> Result<List<u32>, NoMemory>
    requires few { length gates.now ≤ MOST_GATES }
    requires within { All (IsWithin (INPUTS + length gates.now)) gates.now }
    ensures outputs { IfOk result (λ outputs. outputs ≡ unloaded gates.now) }
    ensures count { IfOk result (λ outputs. length outputs ≤ length gates.now) }
{
    let count = gates.len() as u32;
    let loads = loads(alloc, gates, (INPUTS + count) as usize)?;
    let mut outputs = List::with_room(alloc, count as usize)?;
    for k in 0..count {
        if !loads[(INPUTS + k) as usize] {
            outputs.push(k)?;
        }
    }
    Ok(outputs)
}

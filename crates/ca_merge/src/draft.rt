//! The draft of the merged chip.

ghost use Rattle.std.specs.Prelude.{◌≡◌, ◌<◌, ◌^◌, [], ◌∷◌, ◌++◌, length, if◌then◌else◌, IfOk, OnOk};
ghost use Rattle.ca_view.specs.Core.{core_of};
ghost use Rattle.ca_merged.specs.Cluster.{cluster_cell};
ghost use Rattle.ca_merge.specs.Draft.{AreGates, bare_part, cluster_part, cluster_input_nets};
ghost use Rattle.ca_merge.specs.Draft.{cluster_output_nets, other_parts, merged_draft};

use ca_base::NoMemory;
use ca_cell::Cell;
use ca_lex::Text;
use ca_linked::{Body, Chip, Draft, InstanceId, InstanceList, NetList, NetMarks, Part, PortBit};
use std::alloc::Global;

// Appends a copy of an instance, unless it is skipped.
fn push_part(
    alloc: Global,
    parts: &mut Vec<Part>,
    skipped: bool,
    part: &Part,
) -> Result<(), NoMemory>
    ensures { OnOk result (parts.new.items ≡ parts.old.items ++ (if skipped then [] else part.now ∷ [])) }
{
    if skipped {
        return Ok(());
    }
    let copied = part.copy(alloc)?;
    parts.push(copied)?;
    Ok(())
}

// The instances that aren't members.
fn other_parts(alloc: Global, chip: &Chip, members: &InstanceList) -> Result<Vec<Part>, NoMemory>
    requires { AreGates chip.now members.now }
    ensures { IfOk result (λ parts. parts.items ≡ other_parts chip.now members.now) }
{
    chip.wired();
    let mut marks = NetMarks::new(alloc, chip.parts())?;
    marks.mark_all(members.as_slice());
    let mut parts = Vec::new(alloc);
    for k in 0..chip.parts() {
        let u = k as u32;
        push_part(alloc, &mut parts, marks.get(u), chip.part(InstanceId(u)))?;
    }
    Ok(parts)
}

// Copies of the port bits.
fn ports_of(alloc: Global, chip: &Chip) -> Result<Vec<PortBit>, NoMemory>
    ensures { IfOk result (λ ports. ports.items ≡ chip.now.ports) }
{
    let mut ports = Vec::new(alloc);
    for p in 0..chip.ports() {
        let port = chip.port(p).copy(alloc)?;
        ports.push(port)?;
    }
    Ok(ports)
}

// The cluster as an instance, of the cell at this place, with the nets of its pins.
fn cluster_part(alloc: Global, cell: u32, inputs: NetList, outputs: NetList) -> Part
    ensures { result ≡ bare_part cell inputs outputs }
{
    Part {
        name: Text::new(alloc),
        cell: Text::new(alloc),
        data: Text::new(alloc),
        body: Body::Gate {
            cell,
            inputs,
            outputs,
        },
    }
}

// The instances of the merged chip.
fn merged_parts(
    alloc: Global,
    chip: &Chip,
    members: &InstanceList,
    inputs: NetList,
    outputs: NetList,
) -> Result<Vec<Part>, NoMemory>
    requires gates { AreGates chip.now members.now }
    requires inputs { inputs ≡ cluster_input_nets chip.now members.now }
    requires outputs { outputs ≡ cluster_output_nets chip.now members.now }
    ensures { IfOk result (λ parts. parts.items
        ≡ other_parts chip.now members.now ++ (cluster_part chip.now members.now ∷ [])) }
{
    // A library has fewer than 2^32 cells.
    let _ = chip.library().len();
    let cell = chip.library_cells() as u32;
    let mut parts = other_parts(alloc, chip, members)?;
    parts.push(cluster_part(alloc, cell, inputs, outputs))?;
    Ok(parts)
}

/// The draft of the merged chip.
pub(crate) fn merged_draft(
    alloc: Global,
    chip: &Chip,
    members: &InstanceList,
    inputs: NetList,
    outputs: NetList,
    cell: Cell,
) -> Result<Draft, NoMemory>
    requires gates { AreGates chip.now members.now }
    requires inputs { inputs ≡ cluster_input_nets chip.now members.now }
    requires outputs { outputs ≡ cluster_output_nets chip.now members.now }
    requires cell { cell ≡ cluster_cell (core_of chip.now) members.now }
    ensures { IfOk result (λ draft. draft ≡ merged_draft chip.now members.now) }
{
    let parts = merged_parts(alloc, chip, members, inputs, outputs)?;
    let ports = ports_of(alloc, chip)?;
    let library = chip.library().with_cell(alloc, cell)?;
    let zero = chip.constant_net(false);
    let one = chip.constant_net(true);
    Ok(Draft::new(library, chip.nets(), zero, one, parts, ports))
}

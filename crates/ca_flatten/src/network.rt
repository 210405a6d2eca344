//! The flat network of a linked chip.

ghost use Rattle.std.specs.Prelude.{◌≡◌, Option, IfOk, OnOk};
ghost use Rattle.ca_flat.specs.declared.chip_defect.ChipDefect.{ChipDefect};
ghost use Rattle.ca_flat.specs.Chip.{IsChipDefect};
ghost use Rattle.ca_flat.specs.Flat.{flat};
ghost use Rattle.ca_view.specs.Core.{core_of};
ghost use Rattle.ca_flatten.specs.Few.{IsFew};

use crate::devices::devices_of;
use crate::gates::gates_of;
use crate::nodes::nodes_of;
use crate::sizes::sizes_of;
use ca_base::NoMemory;
use ca_flat::ChipDefect;
use ca_linked::Chip;
use ca_net::{DeviceList, FlatNet, NetFault, NodeList};
use ca_view::core_nets;
use std::alloc::Global;

// The network of these nodes and devices, which are those of the flat network.
fn network_of(
    chip: &Chip,
    defect: Option<ChipDefect>,
    nodes: NodeList,
    devices: DeviceList,
) -> Result<FlatNet, NoMemory>
    requires defect { IsChipDefect (core_of chip.now) defect }
    requires few { IsFew (core_of chip.now) defect }
    requires nodes { nodes ≡ (flat (core_of chip.now) defect).nodes }
    requires devices { devices ≡ (flat (core_of chip.now) defect).devices }
    ensures { IfOk result (λ net. net ≡ flat (core_of chip.now) defect) }
{
    chip.wired();
    match FlatNet::new(nodes, devices) {
        Ok(net) => Ok(net),
        Err(NetFault::BadNode { .. }) => unreachable!(),
        Err(NetFault::NoMemory) => Err(NoMemory),
    }
}

/// Whether the flat networks of a chip, good and with each of its defects, are small enough for their nodes
/// and devices to have numbers of 32 bits. Answers out of memory where one of them may be too large.
pub fn judge_size(alloc: Global, chip: &Chip) -> Result<(), NoMemory>
    ensures { OnOk result ((given : Option ChipDefect) → IsFew (core_of chip.now) given) }
{
    let nets = core_nets(alloc, chip)?;
    let gates = gates_of(alloc, chip)?;
    match sizes_of(chip, &nets, &gates) {
        Some(_) => Ok(()),
        None => Err(NoMemory),
    }
}

/// The flat network of a linked chip, good or with one of its defects: power, ground, the nets off the scan
/// path in net order, the inner nodes by instance and the node that the defect adds; the devices by instance,
/// and the bridge of a short. Also answers out of memory for a network that may have 2^32 nodes or devices.
pub fn flatten(alloc: Global, chip: &Chip, defect: Option<ChipDefect>) -> Result<FlatNet, NoMemory>
    requires defect { IsChipDefect (core_of chip.now) defect }
    ensures { IfOk result (λ net. net ≡ flat (core_of chip.now) defect) }
{
    let nets = core_nets(alloc, chip)?;
    let gates = gates_of(alloc, chip)?;
    let Some(sizes) = sizes_of(chip, &nets, &gates) else {
        return Err(NoMemory);
    };
    let nodes = nodes_of(alloc, chip, &nets, &gates, sizes, defect)?;
    let devices = devices_of(alloc, chip, &nets, &gates, sizes, defect)?;
    network_of(chip, defect, nodes, devices)
}

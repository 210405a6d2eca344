//! The nodes of the flat network.

ghost use Rattle.std.specs.Prelude.{◌≡◌, ◌++◌, ◌<◌, length, replicate, false, IfOk, OnOk};
ghost use Rattle.ca_net.specs.declared.scale.TheConstants.{INNER_NODE};
ghost use Rattle.ca_net.specs.declared.node.NodeKind.TheVariants.{Storage};
ghost use Rattle.ca_flat.specs.Flat.{flat, new_nodes, defect_of};
ghost use Rattle.ca_linked.specs.Linked.{net_count, is_scan_path};
ghost use Rattle.ca_view.specs.Core.{core_of, kind_of};
ghost use Rattle.ca_view.specs.Numbers.{AreCoreNumbers};
ghost use Rattle.ca_flatten.specs.code.Kept.{AreGateMarks, AreSizes, core_kind};

use crate::gates::Gates;
use crate::sizes::Sizes;
use ca_base::NoMemory;
use ca_flat::ChipDefect;
use ca_linked::{Chip, InstanceId, NetId, Source};
use ca_net::{INNER_NODE, NodeKind, NodeList, OUTPUT_NET};
use ca_view::CoreNets;
use std::alloc::Global;

// The kind of a net: that of an output net where a library instance or an inverted output drives it.
fn kind_of(chip: &Chip, gates: &Gates, net: NetId) -> NodeKind
    requires gates { AreGateMarks chip.now gates.now }
    requires within { net.0 < net_count chip.now }
    requires off_path { is_scan_path chip.now net.0 ≡ false }
    ensures { result ≡ kind_of chip.now net.0 }
{
    chip.wired();
    match chip.driver(net) {
        Source::FromPort(_) | Source::FromConstant(_) => NodeKind::Input,
        Source::FromPin(u, pin) => {
            if pin == 0 && !gates.has(InstanceId(u)) {
                NodeKind::Input
            } else {
                NodeKind::Storage(OUTPUT_NET)
            }
        }
    }
}

// Appends the kind of a net that is off the scan path.
fn push_net(nodes: &mut NodeList, chip: &Chip, gates: &Gates, net: NetId) -> Result<(), NoMemory>
    requires gates { AreGateMarks chip.now gates.now }
    requires within { net.0 < net_count chip.now }
    ensures { OnOk result (nodes.new ≡ nodes.old ++ core_kind chip.now net.0) }
{
    if chip.is_scan_path(net) {
        Ok(())
    } else {
        nodes.push(kind_of(chip, gates, net))
    }
}

// Appends the kinds of the nets that are off the scan path.
fn push_nets(
    nodes: &mut NodeList,
    chip: &Chip,
    nets: &CoreNets,
    gates: &Gates,
) -> Result<(), NoMemory>
    requires nets { AreCoreNumbers chip.now nets.now }
    requires gates { AreGateMarks chip.now gates.now }
    ensures { OnOk result (nodes.new ≡ nodes.old ++ (core_of chip.now).nets) }
{
    let _count = nets.count();
    for net in 0..chip.nets() {
        push_net(nodes, chip, gates, NetId(net as u32))?;
    }
    Ok(())
}

// Appends `count` inner nodes.
fn push_inner(nodes: &mut NodeList, count: usize) -> Result<(), NoMemory>
    ensures { OnOk result (nodes.new ≡ nodes.old ++ replicate count (Storage INNER_NODE)) }
{
    for _node in 0..count {
        nodes.push(NodeKind::Storage(INNER_NODE))?;
    }
    Ok(())
}

// Appends the node that a defect adds.
fn push_new(nodes: &mut NodeList, defect: Option<ChipDefect>) -> Result<(), NoMemory>
    ensures { OnOk result (nodes.new ≡ nodes.old ++ new_nodes (defect_of defect)) }
{
    let Some(given) = defect else {
        return Ok(());
    };
    match given.defect.new_node() {
        Some(kind) => nodes.push(kind),
        None => Ok(()),
    }
}

/// Power, ground, the nets that are off the scan path, the inner nodes of all instances, and the node that
/// the defect adds. The memory for all of them is taken at once.
pub(crate) fn nodes_of(
    alloc: Global,
    chip: &Chip,
    nets: &CoreNets,
    gates: &Gates,
    sizes: Sizes,
    defect: Option<ChipDefect>,
) -> Result<NodeList, NoMemory>
    requires nets { AreCoreNumbers chip.now nets.now }
    requires gates { AreGateMarks chip.now gates.now }
    requires sizes { AreSizes (core_of chip.now) sizes }
    ensures { IfOk result (λ nodes. nodes ≡ (flat (core_of chip.now) defect).nodes) }
{
    let room = 3 + nets.count() as usize + sizes.inner;
    let mut nodes = NodeList::with_room(alloc, room)?;
    nodes.push(NodeKind::Input)?;
    nodes.push(NodeKind::Input)?;
    push_nets(&mut nodes, chip, nets, gates)?;
    push_inner(&mut nodes, sizes.inner)?;
    push_new(&mut nodes, defect)?;
    Ok(nodes)
}

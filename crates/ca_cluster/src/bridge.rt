//! The bridges of an instance, and their names.

ghost use Rattle.std.specs.Prelude.{◌≡◌, ◌+◌, ◌++◌, ◌<◌, ◌^◌, ◌⊎◌, ◌↔◌, length, IsTrue, IfOk, OnOk};
ghost use Rattle.ca_lex.specs.Words.{upper_case};
ghost use Rattle.ca_cell.specs.Raw.{circuit_of};
ghost use Rattle.ca_cell.specs.Name.{node_name};
ghost use Rattle.ca_linked.specs.Linked.{IsLibrary};
ghost use Rattle.ca_cluster.specs.Bridges.{IsKnown, AreBridgesOf, bridge_name};
ghost use Rattle.ca_cluster.specs.code.Pairs.{IsPin, AreFirst};

use ca_base::{List, NoMemory};
use ca_cell::Cell;
use ca_flatten::cell_at;
use ca_lex::{Text, fold};
use ca_linked::{Chip, InstanceId};
use ca_net::{Network, NodeId};
use std::alloc::Global;

/// A bridge of a library instance: a short of two nodes of its cell, the lower one first, of which one at
/// least is an input pin.
#[derive(Clone, Copy, Debug, PartialEq, Eq)]
pub struct Bridge {
    pub instance: InstanceId,
    pub m: NodeId,
    pub n: NodeId,
}

/// Bridges in order.
pub type BridgeList = List<Bridge>;

// The instance whose bridges are listed, with the numbers of its input pins and of its nodes.
#[derive(Clone, Copy)]
struct Shape {
    instance: InstanceId,
    inputs: usize,
    nodes: usize,
}

// Whether the node is that of an input pin.
fn is_pin(inputs: usize, n: usize) -> bool
    ensures { IsTrue result ↔ IsPin inputs n }
{
    2 <= n && n - 2 < inputs
}

// Whether the nodes are in their order, and one of them is an input pin.
fn is_bridge(inputs: usize, m: usize, n: usize) -> bool
    ensures { IsTrue result ↔ ((m < n) × (IsPin inputs m ⊎ IsPin inputs n)) }
{
    m < n && (is_pin(inputs, m) || is_pin(inputs, n))
}

// Appends the bridge of two nodes, if they are one.
fn push_pair(list: &mut BridgeList, of: Shape, m: usize, n: usize) -> Result<(), NoMemory>
    requires few { of.nodes < 2 ^ 32 }
    requires within { n < of.nodes }
    requires low { m < of.nodes }
    requires first { AreFirst of.instance.0 of.inputs of.nodes m n list.old }
    ensures { OnOk result (AreFirst of.instance.0 of.inputs of.nodes m (n + 1) list.new) }
{
    if !is_bridge(of.inputs, m, n) {
        return Ok(());
    }
    list.push(Bridge {
        instance: of.instance,
        m: NodeId(m as u32),
        n: NodeId(n as u32),
    })?;
    Ok(())
}

// Appends the bridges of a node with higher ones.
fn push_row(list: &mut BridgeList, of: Shape, m: usize) -> Result<(), NoMemory>
    requires few { of.nodes < 2 ^ 32 }
    requires low { m < of.nodes }
    requires first { AreFirst of.instance.0 of.inputs of.nodes m 0 list.old }
    ensures { OnOk result (AreFirst of.instance.0 of.inputs of.nodes (m + 1) 0 list.new) }
{
    for n in 0..of.nodes {
        push_pair(list, of, m, n)?;
    }
    Ok(())
}

// The bridges of an instance of this shape.
fn pairs_of(alloc: Global, of: Shape) -> Result<BridgeList, NoMemory>
    requires { of.nodes < 2 ^ 32 }
    ensures { IfOk result (AreFirst of.instance.0 of.inputs of.nodes of.nodes 0) }
{
    let mut list = BridgeList::new(alloc);
    for m in 0..of.nodes {
        push_row(&mut list, of, m)?;
    }
    Ok(list)
}

/// The bridges of a library instance: each two nodes of its cell of which one at least is an input pin, in
/// the order of the lower and then of the higher node.
pub fn bridges(alloc: Global, chip: &Chip, u: InstanceId) -> Result<BridgeList, NoMemory>
    requires { IsLibrary chip.now u.0 }
    ensures { IfOk result (AreBridgesOf chip.now u.0) }
{
    chip.wired();
    let cell = cell_at(chip, u);
    let shape = Shape {
        instance: u,
        inputs: cell.inputs(),
        nodes: cell.node_count(),
    };
    let list = pairs_of(alloc, shape)?;
    Ok(list)
}

// Appends the name of a node, in upper case.
fn put_node(alloc: Global, text: &mut Text, cell: &Cell, n: NodeId) -> Result<(), NoMemory>
    requires { n.0 < length (circuit_of cell.now).nodes }
    ensures { OnOk result (text.new ≡ text.old ++ upper_case (node_name cell.now n.0)) }
{
    let name = fold(alloc, cell.node_name(n).as_bytes())?;
    text.append(name.as_bytes())?;
    Ok(())
}

/// The name of a bridge, that of a short of its nodes.
pub fn bridge_name(alloc: Global, chip: &Chip, bridge: Bridge) -> Result<Text, NoMemory>
    requires { IsKnown chip.now bridge }
    ensures { IfOk result (λ text. text ≡ bridge_name chip.now bridge) }
{
    let cell = cell_at(chip, bridge.instance);
    let mut text = Text::new(alloc);
    put_node(alloc, &mut text, cell, bridge.m)?;
    text.append(b"=")?;
    put_node(alloc, &mut text, cell, bridge.n)?;
    Ok(text)
}

//! The nodes of the chip inputs in the flat network.

ghost use Rattle.std.specs.Prelude.{◌≡◌, ◌+◌, ◌≤◌, ◌^◌, length, IfOk};
ghost use Rattle.ca_chip_replay.specs.ChipRun.{input_nodes};

use ca_base::NoMemory;
use ca_net::NodeId;
use ca_view::View;
use std::alloc::Global;

/// The nodes of the chip inputs, in their order.
pub(crate) fn input_nodes(alloc: Global, view: &View<'_>) -> Result<Vec<NodeId>, NoMemory>
    requires { 2 + length view.now.core.nets ≤ 2 ^ 32 }
    ensures { IfOk result (λ nodes. nodes.items ≡ input_nodes view.now.core) }
{
    view.linked();
    let mut nodes = Vec::new(alloc);
    for input in 0..view.input_count() {
        nodes.push(NodeId((2 + view.input(input)) as u32))?;
    }
    Ok(nodes)
}

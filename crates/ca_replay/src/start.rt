//! The state in which a run begins.

ghost use Rattle.std.specs.Prelude.{◌≡◌, length, IfOk};
ghost use Rattle.ca_replay.specs.Replay.{IsStart};

use ca_base::NoMemory;
use ca_net::{Network, NodeId, NodeKind, State};
use std::alloc::Global;

/// The state in which the inputs are those of the vector, and no storage node is known.
pub(crate) fn start<N: Network>(alloc: Global, net: &N, vector: &State) -> Result<State, NoMemory>
    requires { length vector.now ≡ length (N.circuit net.now).nodes }
    ensures { IfOk result (IsStart (N.circuit net.now) vector.now) }
{
    let nodes = net.node_count();
    let mut at = State::unknown(alloc, nodes)?;
    for n in 0..nodes {
        match net.kind(NodeId(n as u32)) {
            NodeKind::Input => at.set(n, vector.get(n)),
            NodeKind::Storage(_) => {}
        }
    }
    Ok(at)
}

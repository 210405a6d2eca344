//! The response of a node, by listing the paths to it.

ghost use Rattle.std.specs.Prelude.{◌≡◌, ◌<◌, length};
ghost use Rattle.ca_net.specs.Response.{StorageResponse, IsResponse};

use crate::marks::Marks;
use crate::network::Network;
use crate::node::{NodeId, NodeKind};
use crate::search::{find_strongest, reaches_from};
use crate::state::State;
use crate::trit::Trit;

/// The response of the node in the state, by listing paths. It takes no memory. Every path stops at an input
/// node, so a path has no more nodes than a group of storage nodes that are joined by devices; the number of
/// paths may grow exponentially with that group.
pub fn response_by_paths<N: Network>(
    net: &N,
    state: &State,
    node: NodeId,
    marks: &mut Marks,
) -> Trit
    requires node { node.0 < length (N.circuit net.now).nodes }
    requires state { length state.now ≡ length (N.circuit net.now).nodes }
    requires marks { marks.old ≡ length (N.circuit net.now).nodes }
    ensures response { IsResponse (N.circuit net.now) state.now node.0 result }
    ensures kept { marks.new ≡ marks.old }
{
    match net.kind(node) {
        NodeKind::Input => state.get(node.0 as usize),
        NodeKind::Storage(_) => storage_response(
            net,
            state,
            node,
            &mut marks.strongest,
            &mut marks.on_path,
            &mut marks.reached,
        ),
    }
}

// The response of a storage node: a value that the roots of all paths that reach it have, else X.
fn storage_response<N: Network>(
    net: &N,
    state: &State,
    node: NodeId,
    strongest: &mut [u8],
    on_path: &mut [bool],
    reached: &mut [u8],
) -> Trit
    requires state { length state.now ≡ length (N.circuit net.now).nodes }
    requires strongest { length strongest.old ≡ length (N.circuit net.now).nodes }
    requires on_path { length on_path.old ≡ length (N.circuit net.now).nodes }
    requires reached { length reached.old ≡ length (N.circuit net.now).nodes }
    requires node { node.0 < length (N.circuit net.now).nodes }
    ensures { StorageResponse (N.circuit net.now) state.now node.0 result }
{
    strongest.fill(0);
    reached.fill(0);
    on_path.fill(false);
    find_strongest(net, state, reached, on_path, strongest);
    let mut gives_zero = true;
    let mut gives_one = true;
    for root in 0..net.node_count() {
        if reaches_from(
            net,
            state,
            strongest,
            on_path,
            reached,
            NodeId(root as u32),
            node,
        ) {
            match state.get(root) {
                Trit::Zero => gives_one = false,
                Trit::One => gives_zero = false,
                Trit::X => {
                    gives_zero = false;
                    gives_one = false;
                }
            }
        }
    }
    if gives_zero {
        Trit::Zero
    } else if gives_one {
        Trit::One
    } else {
        Trit::X
    }
}

//! The search for paths, which goes on from the end of one path by one device at a time, and stops at input
//! nodes.

ghost use Rattle.std.specs.Prelude.{◌≡◌, ◌≢◌, ◌<◌, ◌≤◌, ℕ, length, false, IsTrue, ◌↔◌, IfSome, replicate};
ghost use Rattle.ca_net.specs.Circuit.{IsWellFormed};
ghost use Rattle.ca_net.specs.Conduction.{Links};
ghost use Rattle.ca_net.specs.code.Walk.{IsHop, Explores, AreStrongest, RootReaches};

use crate::device::{Device, DeviceId};
use crate::network::Network;
use crate::node::{NodeId, NodeKind};
use crate::path_kind::PathKind;
use crate::state::State;

/// The end of a path: its node, and the strength of the path.
#[derive(Clone, Copy, Debug, PartialEq, Eq)]
pub(crate) struct PathEnd {
    pub node: NodeId,
    pub strength: u8,
}

// The node to which the device leads from another.
fn other_end(device: Device, at: NodeId) -> Option<NodeId>
    ensures linked { IfSome result (λ next. Links device at.0 next.0) }
    ensures only { (n : ℕ) → Links device at.0 n → result ≡ Some (record { 0 = n }) }
{
    if device.a == at {
        Some(device.b)
    } else if device.b == at {
        Some(device.a)
    } else {
        None
    }
}

// Whether a path may go on to a node of this kind.
fn is_storage(kind: NodeKind) -> bool
    ensures { IsTrue result ↔ (kind ≢ NodeKind.Input) }
{
    matches!(kind, NodeKind::Storage(_))
}

// The end of the path that goes on by the device at place i, if it may.
fn hop<N: Network>(
    net: &N,
    state: &State,
    kind: PathKind,
    floor: &[u8],
    on_path: &[bool],
    end: PathEnd,
    i: usize,
) -> Option<PathEnd>
    requires well_formed { IsWellFormed (N.circuit net.now) }
    requires state { length state.now ≡ length (N.circuit net.now).nodes }
    requires floor { length floor.now ≡ length (N.circuit net.now).nodes }
    requires on_path { length on_path.now ≡ length (N.circuit net.now).nodes }
    requires end { end.node.0 < length (N.circuit net.now).nodes }
    requires device { i < length (N.circuit net.now).devices }
    ensures some { IfSome result (λ next. IsHop (N.circuit net.now) state.now kind floor.now on_path.now
        end.node.0 end.strength i next.node.0 next.strength) }
    ensures only { (m l : ℕ) → IsHop (N.circuit net.now) state.now kind floor.now
        on_path.now end.node.0 end.strength i m l
        → result ≡ Some (record { node = record { 0 = m }; strength = l }) }
{
    let device = net.device(DeviceId(i as u32));
    let next = other_end(device, end.node)?;
    let strength = end.strength.min(device.strength);
    let gate = state.get(device.gate.0 as usize);
    if is_storage(net.kind(next))
        && !on_path[next.0 as usize]
        && kind.passes(device.kind, gate)
        && floor[next.0 as usize] <= strength
    {
        Some(PathEnd {
            node: next,
            strength,
        })
    } else {
        None
    }
}

// Raises the strengths with which nodes are reached by the paths that go on from the end of one.
fn spread<N: Network>(
    net: &N,
    state: &State,
    kind: PathKind,
    floor: &[u8],
    on_path: &mut [bool],
    reached: &mut [u8],
    end: PathEnd,
)
    requires state { length state.now ≡ length (N.circuit net.now).nodes }
    requires floor { length floor.now ≡ length (N.circuit net.now).nodes }
    requires on_path { length on_path.old ≡ length (N.circuit net.now).nodes }
    requires reached { length reached.old ≡ length (N.circuit net.now).nodes }
    requires end { end.node.0 < length (N.circuit net.now).nodes }
    ensures on_path { on_path.new ≡ on_path.old }
    ensures explores { Explores (N.circuit net.now) state.now kind floor.now
        on_path.old end.node.0 end.strength reached.old reached.new }
{
    let at = end.node.0 as usize;
    if reached[at] < end.strength {
        reached[at] = end.strength;
    }
    for i in 0..net.device_count() {
        if let Some(next) = hop(net, state, kind, floor, on_path, end, i) {
            let onto = next.node.0 as usize;
            on_path[onto] = true;
            spread(net, state, kind, floor, on_path, reached, next);
            on_path[onto] = false;
        }
    }
}

/// Finds the strengths of the strongest definite paths to all nodes.
pub(crate) fn find_strongest<N: Network>(
    net: &N,
    state: &State,
    zeros: &[u8],
    on_path: &mut [bool],
    strongest: &mut [u8],
)
    requires state { length state.now ≡ length (N.circuit net.now).nodes }
    requires zeros { zeros.now ≡ replicate (length (N.circuit net.now).nodes) 0 }
    requires on_path { on_path.old ≡ replicate (length (N.circuit net.now).nodes) false }
    requires strongest { strongest.old ≡ replicate (length (N.circuit net.now).nodes) 0 }
    ensures on_path { on_path.new ≡ on_path.old }
    ensures strongest { AreStrongest (N.circuit net.now) state.now strongest.new }
{
    for root in 0..net.node_count() {
        let node = NodeId(root as u32);
        let strength = net.kind(node).root_strength();
        on_path[root] = true;
        spread(
            net,
            state,
            PathKind::Definite,
            zeros,
            on_path,
            strongest,
            PathEnd { node, strength },
        );
        on_path[root] = false;
    }
}

/// Whether some path from this root reaches the node.
pub(crate) fn reaches_from<N: Network>(
    net: &N,
    state: &State,
    strongest: &[u8],
    on_path: &mut [bool],
    reached: &mut [u8],
    root: NodeId,
    node: NodeId,
) -> bool
    requires well_formed { IsWellFormed (N.circuit net.now) }
    requires state { length state.now ≡ length (N.circuit net.now).nodes }
    requires strongest { AreStrongest (N.circuit net.now) state.now strongest.now }
    requires room { length strongest.now ≡ length (N.circuit net.now).nodes }
    requires on_path { on_path.old ≡ replicate (length (N.circuit net.now).nodes) false }
    requires reached { length reached.old ≡ length (N.circuit net.now).nodes }
    requires root { root.0 < length (N.circuit net.now).nodes }
    requires node { node.0 < length (N.circuit net.now).nodes }
    ensures on_path { on_path.new ≡ on_path.old }
    ensures reaches { IsTrue result ↔ RootReaches (N.circuit net.now) state.now root.0 node.0 }
{
    let strength = net.kind(root).root_strength();
    if strength < strongest[root.0 as usize] {
        return false;
    }
    reached.fill(0);
    on_path[root.0 as usize] = true;
    spread(
        net,
        state,
        PathKind::Potential,
        strongest,
        on_path,
        reached,
        PathEnd {
            node: root,
            strength,
        },
    );
    on_path[root.0 as usize] = false;
    reached[node.0 as usize] > 0
}

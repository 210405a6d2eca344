//! Nodes that take the values of another state.

ghost use Rattle.std.specs.Prelude.{◌≡◌, ◌<◌, length, IsTrue, ◌↔◌};
ghost use Rattle.std.specs.List.{All};
ghost use Rattle.ca_replay.specs.code.Kept.{IsWithin, with_values, met_with};

use ca_net::{NodeId, State, meet};

/// Gives each of the nodes its value in the other state.
pub(crate) fn take_values(nodes: &[NodeId], from: &State, at: &mut State)
    requires nodes { All (IsWithin (length at.old)) nodes.now }
    requires from { length from.now ≡ length at.old }
    ensures values { at.new ≡ with_values from.now nodes.now at.old }
    ensures room { length at.new ≡ length at.old }
{
    let mut rest = nodes;
    'nodes: while let [node, more @ ..] = rest {
        let n = node.0 as usize;
        at.set(n, from.get(n));
        rest = more;
    }
}

/// Makes each of the nodes unknown whose value in the other state is another.
pub(crate) fn meet_with(nodes: &[NodeId], from: &State, at: &mut State)
    requires nodes { All (IsWithin (length at.old)) nodes.now }
    requires from { length from.now ≡ length at.old }
    ensures values { at.new ≡ met_with from.now nodes.now at.old }
    ensures room { length at.new ≡ length at.old }
{
    let mut rest = nodes;
    'nodes: while let [node, more @ ..] = rest {
        let n = node.0 as usize;
        let met = meet(at.get(n), from.get(n));
        at.set(n, met);
        rest = more;
    }
}

/// Whether both states are the same.
pub(crate) fn is_same(state: &State, other: &State) -> bool
    requires { length state.now ≡ length other.now }
    ensures { IsTrue result ↔ (state.now ≡ other.now) }
{
    for n in 0..state.len() {
        if state.get(n) != other.get(n) {
            return false;
        }
    }
    true
}

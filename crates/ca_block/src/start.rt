//! The states in which the phases begin.

ghost use Rattle.std.specs.Prelude.{ℕ, ◌≡◌, ◌<◌, length};
ghost use Rattle.ca_net.specs.Circuit.{IsWellFormed};
ghost use Rattle.ca_planes.specs.Trits.{HasNodes, state_in};
ghost use Rattle.ca_settle.specs.code.Phase.{IsUnknown, Begins};
ghost use Rattle.ca_settle.specs.code.Turns.{IsMetWith};

use ca_net::{Network, NodeId, NodeKind};
use ca_planes::{Block, LANES, Trits};

/// Makes every value unknown in each lane.
pub(crate) fn forget(state: &mut Block)
    requires { length state.old.ones.items ≡ length state.old.zeros.items }
    ensures unknown { (lane : ℕ) → lane < LANES → IsUnknown (state_in state.new lane) }
    ensures zeros { length state.new.zeros.items ≡ length state.old.zeros.items }
    ensures ones { length state.new.ones.items ≡ length state.old.ones.items }
{
    for n in 0..state.len() {
        state.set(n, Trits::unknown());
    }
}

/// Begins a phase in `at`: each input node has its value in `vector`, and each storage node that in `held`.
pub(crate) fn begin<N: Network>(net: &N, vector: &Block, held: &Block, at: &mut Block)
    requires vector { HasNodes (length (N.circuit net.now).nodes) vector.now }
    requires held { HasNodes (length (N.circuit net.now).nodes) held.now }
    requires at { HasNodes (length (N.circuit net.now).nodes) at.old }
    ensures begun { (lane : ℕ) → lane < LANES → Begins (N.circuit net.now)
        (state_in vector.now lane) (state_in held.now lane) (state_in at.new lane) }
    ensures room { HasNodes (length (N.circuit net.now).nodes) at.new }
    ensures well_formed { IsWellFormed (N.circuit net.now) }
{
    for n in 0..net.node_count() {
        let value = match net.kind(NodeId(n as u32)) {
            NodeKind::Input => vector.get(n),
            NodeKind::Storage(_) => held.get(n),
        };
        at.set(n, value);
    }
}

/// Leaves in `into` the meet of two states in each lane.
pub(crate) fn meet(state: &Block, other: &Block, into: &mut Block)
    requires state { length state.now.ones.items ≡ length state.now.zeros.items }
    requires other { HasNodes (length state.now.zeros.items) other.now }
    requires into { HasNodes (length state.now.zeros.items) into.old }
    ensures meets { (lane : ℕ) → lane < LANES
        → IsMetWith (state_in other.now lane) (state_in state.now lane) (state_in into.new lane) }
    ensures room { HasNodes (length state.now.zeros.items) into.new }
{
    for n in 0..state.len() {
        into.set(n, state.get(n).meet(other.get(n)));
    }
}

//! The run that events name.

ghost use Rattle.std.specs.Prelude.{◌≡◌, length, map, IfOk};
ghost use Rattle.std.specs.List.{All};
ghost use Rattle.ca_net.specs.State.{IsState};
ghost use Rattle.ca_net.specs.PairRun.{PairRun};
ghost use Rattle.ca_order.specs.Allowed.{meaning, IsAllowed};
ghost use Rattle.ca_replay.specs.Replay.{CoverInputs, IsReplay};

use crate::events::carry_out;
use crate::rounds::settle_rounds;
use crate::start::start;
use crate::values::take_values;
use ca_base::NoMemory;
use ca_net::{Network, NodeId, State};
use ca_order::Event;
use ca_relax::Scratch;
use std::alloc::Global;

/// The state in which one run of a network ends: from unknown storage nodes under the first vector, as many
/// rounds that settle all nodes as there are nodes; the events; each of the inputs that isn't at its value in
/// the last vector set to it, in the given order; and the same number of rounds. A vector has a value for
/// each node, and only those of input nodes are looked at.
pub fn replay<N: Network>(
    alloc: Global,
    net: &N,
    inputs: &[NodeId],
    first: &State,
    last: &State,
    events: &[Event],
) -> Result<State, NoMemory>
    requires first { length first.now ≡ length (N.circuit net.now).nodes }
    requires last { length last.now ≡ length (N.circuit net.now).nodes }
    requires inputs { CoverInputs (N.circuit net.now) first.now last.now inputs.now }
    requires events { All (IsAllowed (N.circuit net.now) first.now last.now) events.now }
    ensures run { IfOk result
        (IsReplay (N.circuit net.now) inputs.now first.now last.now (map meaning events.now)) }
    ensures state { IfOk result (IsState (N.circuit net.now)) }
    ensures pair { IfOk result (PairRun (N.circuit net.now) first.now last.now) }
{
    let nodes = net.node_count();
    // The largest comes last: each value that exists when memory runs out is dropped in one more place.
    let mut at = start(alloc, net, first)?;
    let mut next = State::unknown(alloc, nodes)?;
    let mut scratch = Scratch::reserve(alloc, nodes, net.device_count())?;
    scratch.group(net);
    settle_rounds(net, &mut at, &mut next, &mut scratch);
    carry_out(net, events, &mut at, &mut next, &mut scratch);
    take_values(inputs, last, &mut at);
    settle_rounds(net, &mut at, &mut next, &mut scratch);
    Ok(at)
}

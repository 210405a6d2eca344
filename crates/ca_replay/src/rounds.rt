//! Rounds, each of which settles all nodes at once.

ghost use Rattle.std.specs.Prelude.{◌≡◌, length};
ghost use Rattle.ca_net.specs.Event.{Run};
ghost use Rattle.ca_relax.specs.Groups.{AreChannelGroups};
ghost use Rattle.ca_replay.specs.Replay.{long_phase};

use crate::values::is_same;
use ca_net::{Network, State};
use ca_relax::{Scratch, response};
use std::mem;

/// Settles all nodes as many times as there are nodes. Once a round changes nothing, no later one does, and
/// the rest are left out.
pub(crate) fn settle_rounds<N: Network>(
    net: &N,
    at: &mut State,
    next: &mut State,
    scratch: &mut Scratch,
)
    requires at { length at.old ≡ length (N.circuit net.now).nodes }
    requires next { length next.old ≡ length (N.circuit net.now).nodes }
    requires groups { AreChannelGroups (N.circuit net.now) scratch.old }
    ensures run { Run (N.circuit net.now) at.old (long_phase (N.circuit net.now)) at.new }
    ensures at { length at.new ≡ length at.old }
    ensures next { length next.new ≡ length next.old }
    ensures scratch { scratch.new ≡ scratch.old }
{
    for round in 0..net.node_count() {
        response(net, at, scratch, next);
        if is_same(at, next) {
            return;
        }
        mem::swap(at, next);
    }
}

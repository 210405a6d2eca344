//! Events, carried out one after another.

ghost use Rattle.std.specs.Prelude.{◌≡◌, length, map};
ghost use Rattle.std.specs.List.{All};
ghost use Rattle.ca_net.specs.Circuit.{IsWellFormed};
ghost use Rattle.ca_net.specs.Event.{Run, Step};
ghost use Rattle.ca_relax.specs.Groups.{AreChannelGroups};
ghost use Rattle.ca_order.specs.Allowed.{meaning};
ghost use Rattle.ca_replay.specs.code.Kept.{IsEventOf};

use crate::values::{meet_with, take_values};
use ca_net::{Network, State};
use ca_order::Event;
use ca_relax::{Scratch, response};

// Does to the state what the event does; `next` is room for the responses.
fn carry_out_one<N: Network>(
    net: &N,
    event: &Event,
    at: &mut State,
    next: &mut State,
    scratch: &mut Scratch,
)
    requires well_formed { IsWellFormed (N.circuit net.now) }
    requires event { IsEventOf (N.circuit net.now) event.now }
    requires at { length at.old ≡ length (N.circuit net.now).nodes }
    requires next { length next.old ≡ length (N.circuit net.now).nodes }
    requires groups { AreChannelGroups (N.circuit net.now) scratch.old }
    ensures step { Step (N.circuit net.now) at.old (meaning event.now) at.new }
    ensures at { length at.new ≡ length at.old }
    ensures next { length next.new ≡ length next.old }
    ensures scratch { scratch.new ≡ scratch.old }
{
    match event {
        Event::Settle(nodes) => {
            response(net, at, scratch, next);
            take_values(nodes.as_slice(), next, at);
        }
        Event::Blur(nodes) => {
            response(net, at, scratch, next);
            meet_with(nodes.as_slice(), next, at);
        }
        Event::Set(node, value) => at.set(node.0 as usize, *value),
    }
}

/// Does to the state what the events do, one after another; `next` is room for responses.
pub(crate) fn carry_out<N: Network>(
    net: &N,
    events: &[Event],
    at: &mut State,
    next: &mut State,
    scratch: &mut Scratch,
)
    requires well_formed { IsWellFormed (N.circuit net.now) }
    requires events { All (IsEventOf (N.circuit net.now)) events.now }
    requires at { length at.old ≡ length (N.circuit net.now).nodes }
    requires next { length next.old ≡ length (N.circuit net.now).nodes }
    requires groups { AreChannelGroups (N.circuit net.now) scratch.old }
    ensures run { Run (N.circuit net.now) at.old (map meaning events.now) at.new }
    ensures at { length at.new ≡ length at.old }
    ensures next { length next.new ≡ length next.old }
    ensures scratch { scratch.new ≡ scratch.old }
{
    for event in events {
        carry_out_one(net, event, at, next, scratch);
    }
}

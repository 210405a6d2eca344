//! Order files.

ghost use Rattle.std.specs.Prelude.{◌≡◌, ◌≤◌, ◌^◌, length, IfOk};
ghost use Rattle.std.specs.List.{All};
ghost use Rattle.ca_order.specs.Order.{order_of};
ghost use Rattle.ca_order.specs.OrderFault.{Reads};
ghost use Rattle.ca_order.specs.Allowed.{ReadsFor, IsAllowed};

use crate::event::{Event, OrderFault, Place};
use crate::place::places;
use crate::read::event_at;
use ca_base::List;
use ca_lex::first_line;
use ca_net::{Network, State};
use std::alloc::Global;

/// The events of a text, or its first line that is none; `places` says of each node of the network whether it
/// may be set.
pub fn read_order(alloc: Global, places: &[Place], bytes: &[u8]) -> Result<List<Event>, OrderFault>
    requires few { length places.now ≤ 2 ^ 32 }
    ensures exact { Reads result (order_of places.now bytes.now) }
{
    let mut events = List::new(alloc);
    let mut rest = bytes;
    for line in 1..usize::MAX {
        if rest.is_empty() {
            return Ok(events);
        }
        let (text, following) = first_line(rest);
        let Some(event) = event_at(alloc, places, line, text)? else {
            return Err(OrderFault::At { line });
        };
        events.push(event)?;
        rest = following;
    }
    // No text has that many lines.
    Err(OrderFault::NoMemory)
}

/// The events of a text that may come in a run of the network while its inputs change from the first vector
/// to the last, or its first line that is none. A vector has a value for each node; only those of input nodes
/// are looked at.
pub fn read_order_for<N: Network>(
    alloc: Global,
    net: &N,
    first: &State,
    last: &State,
    bytes: &[u8],
) -> Result<List<Event>, OrderFault>
    requires first { length first.now ≡ length (N.circuit net.now).nodes }
    requires last { length last.now ≡ length (N.circuit net.now).nodes }
    ensures exact { ReadsFor (N.circuit net.now) first.now last.now bytes.now result }
    ensures allowed { IfOk result (All (IsAllowed (N.circuit net.now) first.now last.now)) }
{
    net.node_count();
    let places = places(alloc, net, first, last)?;
    read_order(alloc, places.as_slice(), bytes)
}

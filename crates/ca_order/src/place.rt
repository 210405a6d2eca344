//! Which nodes may be set.

ghost use Rattle.std.specs.Prelude.{◌≡◌, ◌↔◌, length, IfOk};
ghost use Rattle.ca_order.specs.declared.event.Place.TheVariants as place;
ghost use Rattle.ca_order.specs.Allowed.{ArePlaces};
ghost use Rattle.ca_order.specs.code.Allowed.{IsFree};

use crate::event::Place;
use ca_base::{List, NoMemory};
use ca_net::{Network, NodeId, NodeKind, State, Trit};
use std::alloc::Global;

// The place of a node of this kind with these values in the two vectors.
fn place_of(kind: NodeKind, first: Trit, last: Trit) -> Place
    ensures { (result ≡ place.Free) ↔ IsFree kind first last }
{
    match kind {
        NodeKind::Input if first == last && first != Trit::X => Place::Fixed,
        NodeKind::Input => Place::Free,
        NodeKind::Storage(_) => Place::Fixed,
    }
}

/// The place of each node, in the order of the nodes, where the inputs change from the first vector to the
/// last. A vector has a value for each node; only those of input nodes are looked at.
pub fn places<N: Network>(
    alloc: Global,
    net: &N,
    first: &State,
    last: &State,
) -> Result<List<Place>, NoMemory>
    requires first { length first.now ≡ length (N.circuit net.now).nodes }
    requires last { length last.now ≡ length (N.circuit net.now).nodes }
    ensures { IfOk result (ArePlaces (N.circuit net.now) first.now last.now) }
{
    let mut places = List::new(alloc);
    for n in 0..net.node_count() {
        let place = place_of(net.kind(NodeId(n as u32)), first.get(n), last.get(n));
        places.push(place)?;
    }
    Ok(places)
}

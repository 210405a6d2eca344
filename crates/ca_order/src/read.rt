//! The event of a line.

ghost use Rattle.std.specs.Prelude.{◌≡◌, ◌≤◌, ◌^◌, length, IfOk};
ghost use Rattle.ca_order.specs.Lines.{words_of, nodes_of};
ghost use Rattle.ca_order.specs.Order.{set_of, set_with, event_of, event_at, settled, blurred};

use crate::event::{Event, Place};
use crate::line::{cut_word, value_of};
use crate::node::node_of;
use ca_base::{List, NoMemory};
use ca_net::{NodeId, Trit};
use std::alloc::Global;

// The nodes of a text's words, if each is one.
fn nodes_of(alloc: Global, places: &[Place], text: &[u8]) -> Result<Option<List<NodeId>>, NoMemory>
    requires few { length places.now ≤ 2 ^ 32 }
    ensures { IfOk result (λ nodes. nodes ≡ nodes_of places.now (words_of text.now)) }
{
    let mut nodes = List::new(alloc);
    let mut rest = text;
    'words: loop {
        let (word, following) = cut_word(rest);
        let Some(node) = node_of(places, word) else {
            return Ok(None);
        };
        nodes.push(node)?;
        let Some(more) = following else {
            return Ok(Some(nodes));
        };
        rest = more;
    }
}

// The setting of a node to a value, where the node is free.
fn set_of(places: &[Place], node: Option<NodeId>, value: Option<Trit>) -> Option<Event>
    ensures { result ≡ set_of places.now node value }
{
    let Some(node) = node else {
        return None;
    };
    let Some(value) = value else {
        return None;
    };
    match places.get(node.0 as usize) {
        Some(Place::Free) => Some(Event::Set(node, value)),
        Some(Place::Fixed) => None,
        None => None,
    }
}

// The setting that the words of a text make.
#[tactic(auto, using(crate::proofs::EventLemmas::settings))]
fn set_with(places: &[Place], text: &[u8]) -> Option<Event>
    requires few { length places.now ≤ 2 ^ 32 }
    ensures { result ≡ set_with places.now (words_of text.now) }
{
    let (node, following) = cut_word(text);
    let Some(rest) = following else {
        return None;
    };
    let (value, more) = cut_word(rest);
    if more.is_some() {
        return None;
    }
    set_of(places, node_of(places, node), value_of(value))
}

// The event that settles the nodes.
fn settled(nodes: Option<List<NodeId>>) -> Option<Event>
    ensures { result ≡ settled nodes }
{
    match nodes {
        Some(nodes) => Some(Event::Settle(nodes)),
        None => None,
    }
}

// The event that blurs the nodes.
fn blurred(nodes: Option<List<NodeId>>) -> Option<Event>
    ensures { result ≡ blurred nodes }
{
    match nodes {
        Some(nodes) => Some(Event::Blur(nodes)),
        None => None,
    }
}

// The event of a line.
#[tactic(auto, using(crate::proofs::EventLemmas::lines))]
fn event_of(alloc: Global, places: &[Place], text: &[u8]) -> Result<Option<Event>, NoMemory>
    requires few { length places.now ≤ 2 ^ 32 }
    ensures { IfOk result (λ event. event ≡ event_of places.now (words_of text.now)) }
{
    let (word, following) = cut_word(text);
    let Some(rest) = following else {
        return Ok(None);
    };
    if word == b"settle".as_slice() {
        return Ok(settled(nodes_of(alloc, places, rest)?));
    }
    if word == b"blur".as_slice() {
        return Ok(blurred(nodes_of(alloc, places, rest)?));
    }
    if word == b"set".as_slice() {
        return Ok(set_with(places, rest));
    }
    Ok(None)
}

/// The event of the line with this number, unless there are too many before it.
#[tactic(auto, unfolding(crate::specs::Order::event_at))]
pub(crate) fn event_at(
    alloc: Global,
    places: &[Place],
    line: usize,
    text: &[u8],
) -> Result<Option<Event>, NoMemory>
    requires few { length places.now ≤ 2 ^ 32 }
    ensures { IfOk result (λ event. event ≡ event_at places.now line text.now) }
{
    if line <= 65_536 {
        event_of(alloc, places, text)
    } else {
        Ok(None)
    }
}

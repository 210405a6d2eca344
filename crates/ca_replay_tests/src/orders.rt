//! Texts of order files: the events that they read as, or their first line that is none.

ghost use Rattle.std.specs.Prelude.{◌≡◌, length};

use crate::networks::{GOOD, HAZARD, network, vector};
use ca_base::NoMemory;
use ca_net::Trit::{One, X, Zero};
use ca_net::{FlatNet, Network, NodeId, State, Trit};
use ca_order::{Event, OrderFault, read_order_for};
use std::alloc::Global;
use std::process::Abort;

// What a line does.
#[derive(Clone, Copy)]
enum Done {
    Settle(&'static [u32]),
    Blur(&'static [u32]),
    Set(u32, Trit),
}

fn are_nodes(nodes: &[NodeId], numbers: &[u32]) -> bool {
    if nodes.len() != numbers.len() {
        return false;
    }
    for place in 0..nodes.len() {
        if nodes[place].0 != numbers[place] {
            return false;
        }
    }
    true
}

fn is_done(event: &Event, done: Done) -> bool {
    match (event, done) {
        (Event::Settle(nodes), Done::Settle(numbers)) => are_nodes(nodes.as_slice(), numbers),
        (Event::Blur(nodes), Done::Blur(numbers)) => are_nodes(nodes.as_slice(), numbers),
        (Event::Set(node, value), Done::Set(number, wanted)) => node.0 == number
            && *value == wanted,
        _ => false,
    }
}

fn are_done(events: &[Event], done: &[Done]) -> bool {
    if events.len() != done.len() {
        return false;
    }
    for place in 0..events.len() {
        if !is_done(&events[place], done[place]) {
            return false;
        }
    }
    true
}

// The good network, its input d at 1 in both vectors, a and s at 1 and then at 0.
static READ: [(&[u8], &[Done]); 8] = [
    (b"", &[]),
    (b"settle 6", &[Done::Settle(&[6])]),
    (b"settle 6\n", &[Done::Settle(&[6])]),
    (b"settle 0 14 14", &[Done::Settle(&[0, 14, 14])]),
    (b"blur 10 9\n", &[Done::Blur(&[10, 9])]),
    (b"set 3 0", &[Done::Set(3, Zero)]),
    (b"set 2 1\nset 2 X\n", &[Done::Set(2, One), Done::Set(2, X)]),
    (
        b"set 3 0\nsettle 6\nblur 8\nset 2 0",
        &[
            Done::Set(3, Zero),
            Done::Settle(&[6]),
            Done::Blur(&[8]),
            Done::Set(2, Zero),
        ],
    ),
];

static REFUSED: [(&[u8], usize); 28] = [
    // Lines without words, and words that are none.
    (b"\n", 1),
    (b"settle 6\n\n", 2),
    (b"settle", 1),
    (b"settle ", 1),
    (b"settle  6", 1),
    (b" settle 6", 1),
    (b"settle 6 ", 1),
    (b"settle 6\r\n", 1),
    (b"Settle 6", 1),
    (b"settle 6\nset", 2),
    // Numbers.
    (b"settle 06", 1),
    (b"settle 00", 1),
    (b"settle +6", 1),
    (b"settle 6a", 1),
    (b"settle 15", 1),
    (b"set 3 0\nsettle 99\nsettle 99", 2),
    (b"settle 4294967302", 1),
    (b"settle 18446744073709551622", 1),
    (b"settle 340282366920938463463374607431768211462", 1),
    (b"blur 6 15", 1),
    // Settings: their words, a storage node, inputs with one value of 0 and 1 in both vectors.
    (b"set 3", 1),
    (b"set 3 0 1", 1),
    (b"set 3 2", 1),
    (b"set 3 x", 1),
    (b"set 15 0", 1),
    (b"set 6 0", 1),
    (b"set 4 0", 1),
    (b"settle 6\nset 0 1", 2),
];

// Whether the events that a text reads as between two vectors are these. Each value is dropped in one place
// here and below: more places are slow to prove.
fn reads_as(
    alloc: Global,
    net: &FlatNet,
    first: &State,
    last: &State,
    text: &[u8],
    done: &[Done],
) -> Result<bool, OrderFault>
    requires first { length first.now ≡ length net.now.nodes }
    requires last { length last.now ≡ length net.now.nodes }
{
    let events = read_order_for(alloc, net, first, last, text)?;
    let are = are_done(events.as_slice(), done);
    drop(events);
    Ok(are)
}

// How many events a text reads as between two vectors.
fn event_count(
    alloc: Global,
    net: &FlatNet,
    first: &State,
    last: &State,
    text: &[u8],
) -> Result<usize, OrderFault>
    requires first { length first.now ≡ length net.now.nodes }
    requires last { length last.now ≡ length net.now.nodes }
{
    let events = read_order_for(alloc, net, first, last, text)?;
    let count = events.len();
    drop(events);
    Ok(count)
}

// Reads the texts that have events.
fn read_all(rt: &impl Abort, alloc: Global, net: &FlatNet, first: &State, last: &State)
    requires first { length first.now ≡ length net.now.nodes }
    requires last { length last.now ≡ length net.now.nodes }
{
    for (text, done) in &READ {
        let are = reads_as(alloc, net, first, last, text, done).expect(rt, "events");
        assert!(rt; are, "{text:?}");
    }
}

// Reads the texts with a line that is none.
fn refuse_all(rt: &impl Abort, alloc: Global, net: &FlatNet, first: &State, last: &State)
    requires first { length first.now ≡ length net.now.nodes }
    requires last { length last.now ≡ length net.now.nodes }
{
    for (text, line) in &REFUSED {
        match event_count(alloc, net, first, last, text) {
            Err(fault) => assert_eq!(rt; fault, OrderFault::At { line: *line }, "{text:?}"),
            Ok(_) => assert!(rt; false, "{text:?}"),
        }
    }
}

// Reads all texts between the two vectors.
fn read_between(rt: &impl Abort, alloc: Global, net: &FlatNet) {
    let nodes = net.node_count();
    let first = vector(alloc, nodes, &[One, Zero, One, One, One]).expect(rt, "a vector");
    let last = vector(alloc, nodes, &[One, Zero, Zero, Zero, One]).expect(rt, "a vector");
    read_all(rt, alloc, net, &first, &last);
    refuse_all(rt, alloc, net, &first, &last);
}

#[test]
fn lines_are_read_up_to_the_first_that_is_none(rt: HostRuntime) {
    let alloc = rt.alloc();
    let net = network(alloc, &HAZARD, &GOOD).expect(&rt, "a network");
    read_between(&rt, alloc, &net);
    drop(net);
}

// `count` lines.
fn lines(alloc: Global, count: usize) -> Result<Vec<u8>, NoMemory> {
    let mut text = Vec::new(alloc);
    for _ in 0..count {
        text.extend_from_slice(b"settle 6\n")?;
    }
    Ok(text)
}

// How many events `count` lines read as, where both vectors are the same.
fn count_lines(
    rt: &impl Abort,
    alloc: Global,
    net: &FlatNet,
    inputs: &State,
    count: usize,
) -> Result<usize, OrderFault>
    requires { length inputs.now ≡ length net.now.nodes }
{
    let text = lines(alloc, count).expect(rt, "lines");
    let counted = event_count(alloc, net, inputs, inputs, &text);
    drop(text);
    counted
}

// Reads the most lines, and one more.
fn read_most(rt: &impl Abort, alloc: Global, net: &FlatNet, inputs: &State)
    requires { length inputs.now ≡ length net.now.nodes }
{
    let count = count_lines(rt, alloc, net, inputs, 65_536).expect(rt, "events");
    assert_eq!(rt; count, 65_536);
    match count_lines(rt, alloc, net, inputs, 65_537) {
        Err(fault) => assert_eq!(rt; fault, OrderFault::At { line: 65_537 }),
        Ok(_) => assert!(rt; false),
    }
}

#[test]
fn a_line_past_the_most_is_refused(rt: HostRuntime) {
    let alloc = rt.alloc();
    let net = network(alloc, &HAZARD, &GOOD).expect(&rt, "a network");
    let inputs = vector(alloc, net.node_count(), &[One, Zero, One, One, One]).expect(
        &rt, "a vector",
    );
    read_most(&rt, alloc, &net, &inputs);
    drop(inputs);
    drop(net);
}

//! The joins of a netlist over wires: each span of an `assign` once, however often it is written.

ghost use Rattle.std.specs.Prelude.{◌≡◌, ◌<◌, ◌+◌, ◌^◌, length, IfOk, OnOk};
ghost use Rattle.std.specs.List.{All};
ghost use Rattle.ca_verilog.specs.IsNetlist.{IsJoinOf};
ghost use Rattle.ca_wiring.specs.Wiring.{wire_of, joins_of};
ghost use Rattle.ca_wiring.specs.Joined.{AreEarliest};
ghost use Rattle.ca_wiring.specs.code.Spans.{is_moving, span_of, IsWith, AreSpansOf};

use crate::joined::{Span, earliest};
use crate::pins::wire_of;
use ca_base::NoMemory;
use ca_verilog::{RawBit, RawJoins, RawSpan};
use indexmap::IndexSet;
use std::alloc::Global;
use std::marker::Model;

/// Different spans in the order in which they were added. Contracts see a list.
#[derive(Drop)]
struct SpanSet {
    spans: IndexSet<Span>,
}

impl Model for SpanSet {
    ghost use Rattle.std.specs.Prelude.{List};
    ghost use Rattle.ca_wiring.specs.declared.joined.Span.{Span};

    ghost Value = { List Span };

    ghost view = { λ set. set.spans.keys };
}

impl SpanSet {
    ghost use Rattle.std.specs.Prelude.{[]};

    // The set of no spans.
    fn new(alloc: Global) -> Self
        ensures { result ≡ [] }
    {
        SpanSet {
            spans: IndexSet::new(alloc),
        }
    }

    // Adds a span, if it isn't there.
    fn add(&mut self, span: Span) -> Result<(), NoMemory>
        ensures { OnOk result (IsWith span self.old self.new) }
    {
        self.spans.insert(span)?;
        Ok(())
    }

    // The spans as a slice.
    fn as_slice(&self) -> &[Span]
        ensures { result.now ≡ self.now }
    {
        self.spans.as_slice()
    }
}

// Whether a side of a span moves.
fn is_moving(bit: RawBit) -> bool
    ensures { result ≡ is_moving bit }
{
    matches!(bit, RawBit::Bit(_))
}

// A span over wires, where this many bits are declared.
fn span_of(bits: u32, raw: &RawSpan) -> Span
    requires { bits + 1 < 2 ^ 32 }
    ensures { result ≡ span_of bits raw.now }
{
    Span {
        left: wire_of(bits, raw.left),
        right: wire_of(bits, raw.right),
        left_moves: is_moving(raw.left),
        right_moves: is_moving(raw.right),
        count: raw.count,
    }
}

// The different spans of a netlist.
fn spans_of(alloc: Global, bits: u32, raws: &[RawSpan]) -> Result<SpanSet, NoMemory>
    requires { bits + 1 < 2 ^ 32 }
    ensures { IfOk result (AreSpansOf bits raws.now (length raws.now)) }
{
    let mut spans = SpanSet::new(alloc);
    for k in 0..raws.len() {
        spans.add(span_of(bits, &raws[k]))?;
    }
    Ok(spans)
}

/// For each of `wires` wires the earliest of those that are joined with it.
pub fn earliest_wires(
    alloc: Global,
    bits: u32,
    wires: usize,
    joins: &RawJoins,
) -> Result<Vec<u32>, NoMemory>
    requires few { wires < 2 ^ 32 }
    requires constants { bits + 1 < wires }
    requires declared { All (IsJoinOf bits) joins.now }
    ensures { IfOk result (λ list. AreEarliest (joins_of bits joins.now) wires list.items) }
{
    let spans = spans_of(alloc, bits, joins.spans())?;
    let list = earliest(alloc, wires, spans.as_slice())?;
    Ok(list)
}

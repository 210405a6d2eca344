//! Wires that are joined, by links to earlier wires.

ghost use Rattle.std.specs.Prelude.{◌≡◌, ◌<◌, ◌≤◌, ◌+◌, ◌^◌, ℕ, List, [], length, Some, slice_get};
ghost use Rattle.std.specs.Prelude.{slice_index, slice_set, IfOk, OnOk};
ghost use Rattle.std.specs.List.{All, Contains};
ghost use Rattle.ca_wiring.specs.declared.joined.Join.{Join};
ghost use Rattle.ca_wiring.specs.Joined.{AreJoined, AreEarliest};
ghost use Rattle.ca_wiring.specs.code.Joined.{IsWithin};
ghost use Rattle.ca_wiring.specs.code.Spans.{wire_after, join_at, IsSpanWithin, AreJoinsOf};
ghost use Rattle.ca_wiring.specs.code.Forest.{parent_of, HasRoot, HaveOneRoot, LeadBack, IsForest, Shortens};
ghost use Rattle.ca_wiring.specs.code.Forest.{Unites};
ghost use Rattle.ca_wiring.specs.code.Forest.{UnitesSpan, UnitesFirst, AreTheirOwn, AreRoots, linked_roots};

use ca_base::NoMemory;
use std::alloc::Global;
use std::marker::Model;

/// Two wires that an `assign` joins.
#[derive(Clone, Copy, Debug)]
pub struct Join {
    pub left: u32,
    pub right: u32,
}

/// `count` joins from this one on: each is one wire to the right of the one before, on the sides that move.
#[derive(Clone, Copy, Debug, PartialEq, Eq, Hash)]
pub(crate) struct Span {
    pub left: u32,
    pub right: u32,
    pub left_moves: bool,
    pub right_moves: bool,
    pub count: u32,
}

// The wire so far to the right, on a side that moves.
fn wire_after(wire: u32, moves: bool, step: u32) -> u32
    requires { wire_after wire moves step < 2 ^ 32 }
    ensures { result ≡ wire_after wire moves step }
{
    if moves { wire + step } else { wire }
}

impl Span {
    // A join of the span, so far to the right of the first.
    fn join(self, step: u32) -> Join
        requires { IsWithin (2 ^ 32) (join_at self step) }
        ensures { result ≡ join_at self step }
    {
        Join {
            left: wire_after(self.left, self.left_moves, step),
            right: wire_after(self.right, self.right_moves, step),
        }
    }
}

/// Wires, each linked to an earlier one that it is joined with, or to itself. Contracts see the list of those
/// that they are linked to.
#[derive(Drop)]
struct Links {
    parents: Vec<u32>,
}

impl Model for Links {
    ghost use Rattle.std.specs.Prelude.{List, ℕ};

    ghost Value = { List ℕ };

    ghost view = { λ links. links.parents.items };
}

impl Links {
    // Links each wire to itself.
    fn begin(alloc: Global, wires: usize) -> Result<Self, NoMemory>
        requires { wires < 2 ^ 32 }
        ensures count { IfOk result (λ links. length links ≡ wires) }
        ensures own { IfOk result (AreTheirOwn wires) }
    {
        let mut parents = Vec::new(alloc);
        for w in 0..wires {
            parents.push(w as u32)?;
        }
        Ok(Links { parents })
    }

    // The number of wires.
    fn len(&self) -> usize
        ensures { result ≡ length self.now }
    {
        self.parents.len()
    }

    // The wire that a wire is linked to.
    fn parent(&self, w: u32) -> u32
        requires { w < length self.now }
        ensures { result ≡ parent_of self.now w }
    {
        self.parents[w as usize]
    }

    // Links a wire to another.
    fn set(&mut self, w: u32, other: u32)
        requires { w < length self.old }
        ensures { self.new ≡ slice_set self.old w other }
    {
        self.parents[w as usize] = other;
    }

    // Links a wire to the one after the next, and answers that one.
    fn halve(&mut self, w: u32) -> u32
        requires back { LeadBack self.old }
        requires within { w < length self.old }
        ensures shortens { Shortens self.old self.new }
        ensures following { result ≡ parent_of self.old (parent_of self.old w) }
    {
        let following = self.parent(self.parent(w));
        self.set(w, following);
        following
    }

    // The root of a wire. Links on the way there are shortened.
    fn find(&mut self, w: u32) -> u32
        requires back { LeadBack self.old }
        requires within { w < length self.old }
        ensures shortens { Shortens self.old self.new }
        ensures root { HasRoot self.new w result }
    {
        let mut at = w;
        'steps: while self.parent(at) != at {
            at = self.halve(at);
        }
        at
    }

    // Links the later of two roots to the earlier.
    fn link(&mut self, a: u32, b: u32)
        requires a { a < length self.old }
        requires b { b < length self.old }
        ensures { self.new ≡ linked_roots self.old a b }
    {
        if a < b {
            self.set(b, a);
        } else {
            self.set(a, b);
        }
    }

    // Brings the sides of a join together.
    fn unite(&mut self, join: Join)
        requires back { LeadBack self.old }
        requires within { IsWithin (length self.old) join }
        ensures { Unites join self.old self.new }
    {
        let left = self.find(join.left);
        let right = self.find(join.right);
        self.link(left, right);
    }

    // Brings the sides of a span's joins together.
    fn unite_span(&mut self, span: Span)
        requires back { LeadBack self.old }
        requires few { length self.old < 2 ^ 32 }
        requires within { IsSpanWithin (length self.old) span }
        ensures { UnitesSpan span span.count self.old self.new }
    {
        for step in 0..span.count {
            self.unite(span.join(step));
        }
    }

    // Brings the sides of all joins together.
    fn unite_all(&mut self, spans: &[Span])
        requires back { LeadBack self.old }
        requires few { length self.old < 2 ^ 32 }
        requires within { All (IsSpanWithin (length self.old)) spans.now }
        ensures { UnitesFirst spans.now (length spans.now) self.old self.new }
    {
        for k in 0..spans.len() {
            self.unite_span(spans[k]);
        }
    }

    // The root of a wire, with the roots of those before it.
    fn root_after(&self, roots: &[u32], w: u32) -> u32
        requires back { LeadBack self.now }
        requires within { w < length self.now }
        requires count { length roots.now ≡ w }
        requires are { AreRoots self.now w roots.now }
        ensures { HasRoot self.now w result }
    {
        let next = self.parent(w);
        if next < w { roots[next as usize] } else { w }
    }

    // The root of each wire.
    fn roots(&self, alloc: Global) -> Result<Vec<u32>, NoMemory>
        requires back { LeadBack self.now }
        requires few { length self.now < 2 ^ 32 }
        ensures count { IfOk result (λ roots. length roots.items ≡ length self.now) }
        ensures roots { IfOk result (λ roots. AreRoots self.now (length self.now) roots.items) }
    {
        let mut roots = Vec::new(alloc);
        for w in 0..self.len() {
            let root = self.root_after(&roots, w as u32);
            roots.push(root)?;
        }
        Ok(roots)
    }
}

/// For each of `wires` wires the earliest of those that are joined with it by the joins of the spans.
pub(crate) fn earliest(alloc: Global, wires: usize, spans: &[Span]) -> Result<Vec<u32>, NoMemory>
    requires few { wires < 2 ^ 32 }
    requires within { All (IsSpanWithin wires) spans.now }
    ensures { IfOk result (λ list. (joins : List Join) → AreJoinsOf spans.now joins
        → AreEarliest joins wires list.items) }
{
    let mut links = Links::begin(alloc, wires)?;
    links.unite_all(spans);
    let roots = links.roots(alloc)?;
    Ok(roots)
}

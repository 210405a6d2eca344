//! Where flips of an instance's outputs are seen.

ghost use Rattle.std.specs.Prelude.{◌≡◌, ◌<◌, ◌^◌, length, map, replicate, IfOk, IfSome, IsTrue};
ghost use Rattle.ca_net.specs.State.{value_at};
ghost use Rattle.ca_view.specs.Linked.{IsPlaced, place_in};
ghost use Rattle.ca_view.specs.Places.{cell_number};
ghost use Rattle.ca_sweep.specs.Seen.{IsSeen, IsClear, IsOfChip, lasts_in};
ghost use Rattle.ca_sweep.specs.code.Segments.{IsSegment, IsSweptFrom};

use crate::cells::{Tables, order_of, tables_of};
use crate::clear::{are_all_static, find_clear};
use crate::firsts::{first_opposite, firsts_of};
use crate::pinned::pinned_nets;
use crate::run::{Halt, sweep};
use crate::seen::{Flips, Seen};
use crate::segments::{Segment, Segments};
use crate::values::Values;
use ca_base::NoMemory;
use ca_net::{State, Trit};
use ca_sim::NetWaves;
use ca_view::View;
use std::alloc::Global;
use std::marker::Model;

/// The good last values of the nets of a chip, and values after an instance whose output pins are flipped,
/// which are the good ones between two calls. All memory is taken by `reserve`.
#[derive(Drop)]
pub struct Sweep<'a> {
    chip: &'a View<'a>,
    outputs: Vec<u32>,
    firsts: Vec<usize>,
    tables: Tables,
    is_static: bool,
    order: Vec<Option<usize>>,
    pinned: Vec<bool>,
    lasts: State,
    clear: Vec<bool>,
    passing: Vec<bool>,
    values: Values,
    segments: Segments,
}

impl<'a> Model for Sweep<'a> {
    ghost use Rattle.ca_view.specs.Linked.{place_in};
    ghost use Rattle.ca_view.specs.Places.{cell_number};
    ghost use Rattle.ca_sweep.specs.Seen.{Swept};
    ghost use Rattle.ca_sweep.specs.code.Kept.{IsKept};

    ghost Value = { Swept };

    ghost view = { λ sweep. record {
      chip = sweep.chip.now.core;
      places = sweep.chip.now.ranks;
      lasts = sweep.lasts;
    } };

    ghost invariant = { λ sweep. IsKept sweep.chip.now.core (place_in sweep.chip.now.ranks)
        (cell_number sweep.chip.now.chip) sweep.outputs.items sweep.firsts.items sweep.tables.items
        sweep.is_static sweep.order.items sweep.pinned.items sweep.lasts sweep.clear.items
        sweep.passing.items sweep.values sweep.segments };
}

impl<'a> Sweep<'a> {
    /// Takes all memory. The nets of the observed outputs come in their order. No last value is known.
    pub fn reserve(alloc: Global, chip: &'a View<'a>, outputs: Vec<u32>) -> Result<Self, NoMemory>
        requires outputs { outputs.items ≡ chip.now.core.outputs }
        requires few { length outputs.items < 2 ^ 32 }
        ensures { IfOk result (IsOfChip chip.now.core chip.now.ranks) }
    {
        chip.linked();
        let firsts = firsts_of(alloc, chip.nets(), &outputs)?;
        let tables = tables_of(alloc, chip)?;
        let is_static = are_all_static(chip, &tables);
        Ok(Sweep {
            chip,
            outputs,
            firsts,
            tables,
            is_static,
            order: order_of(alloc, chip)?,
            pinned: pinned_nets(alloc, chip)?,
            lasts: State::unknown(alloc, chip.nets())?,
            clear: vec![in alloc; false; chip.instances()]?,
            passing: vec![in alloc; false; chip.instances()]?,
            values: Values::reserve(alloc, chip)?,
            segments: Segments::reserve(alloc, chip.instances())?,
        })
    }

    /// Takes over the last values of the good waves.
    pub fn load<V: NetWaves>(&mut self, waves: &V)
        requires { (V.seen waves.now).chip ≡ self.old.chip }
        ensures lasts { self.new.lasts ≡ lasts_in (V.seen waves.now).good }
        ensures chip { self.new.chip ≡ self.old.chip }
        ensures places { self.new.places ≡ self.old.places }
    {
        waves.exact();
        load(waves, &mut self.lasts);
        copy(&self.lasts, &mut self.values.values);
        find_clear(
            self.chip,
            &self.tables,
            self.is_static,
            &self.order,
            &self.pinned,
            &self.lasts,
            &mut self.clear,
            &mut self.passing,
        );
        self.segments.forget();
    }

    /// The good last values of the nets.
    pub(crate) fn lasts(&self) -> &State
        ensures value { result.now ≡ self.now.lasts }
        ensures nets { length result.now ≡ length self.now.chip.nets }
    {
        &self.lasts
    }

    /// The good last value of a net.
    pub(crate) fn last(&self, net: usize) -> Trit
        requires { net < length self.now.chip.nets }
        ensures { result ≡ value_at self.now.lasts net }
    {
        self.lasts.get(net)
    }

    /// Whether the instances after this one are static, and the good last values are definite there.
    pub(crate) fn is_clear(&self, u: usize) -> bool
        requires { IsPlaced self.now.chip (place_in self.now.places) u }
        ensures { IsTrue result → IsClear self.now.chip (value_at self.now.lasts) u }
    {
        self.chip.linked();
        self.clear[u]
    }

    // A part of a sweep, found by evaluating.
    fn find_segment(&mut self, u: usize, flips: Flips) -> Option<Segment>
        requires { IsPlaced self.old.chip (place_in self.old.places) u }
        ensures segment { IfSome result
            (IsSegment self.old.chip (place_in self.old.places) (value_at self.old.lasts) u flips) }
        ensures kept { self.new ≡ self.old }
    {
        self.chip.linked();
        let halt = sweep(
            self.chip,
            &self.tables,
            &self.order,
            &self.lasts,
            &mut self.values,
            u,
            flips,
        );
        let first = first_opposite(
            self.chip,
            &self.firsts,
            self.outputs.len(),
            &self.lasts,
            &self.values,
            u,
        );
        self.values.restore(self.chip, &self.lasts, u);
        match halt {
            Halt::Stuck => None,
            Halt::Done => Some(Segment {
                first: first as u32,
                next: None,
            }),
            Halt::Cut(cut) => Some(Segment {
                first: first as u32,
                next: Some(cut),
            }),
        }
    }

    // A part of a sweep, as it is kept, or found and kept.
    fn segment(&mut self, u: usize, flips: Flips) -> Option<Segment>
        requires { IsPlaced self.old.chip (place_in self.old.places) u }
        ensures segment { IfSome result
            (IsSegment self.old.chip (place_in self.old.places) (value_at self.old.lasts) u flips) }
        ensures kept { self.new ≡ self.old }
    {
        self.chip.linked();
        if let Some(segment) = self.segments.get(u, flips) {
            return Some(segment);
        }
        let segment = self.find_segment(u, flips)?;
        self.segments.put(u, flips, segment);
        Some(segment)
    }

    // The number of the first observed output with an opposite value, or the number of the outputs: part by
    // part, each from the cut of the one before.
    fn first_number(&mut self, u: usize, flips: Flips) -> Option<usize>
        requires { IsPlaced self.old.chip (place_in self.old.places) u }
        ensures swept { IfSome result
            (IsSweptFrom self.old.chip (place_in self.old.places) (value_at self.old.lasts) u flips) }
        ensures kept { self.new ≡ self.old }
    {
        self.chip.linked();
        let mut number = self.outputs.len();
        let mut from = u;
        let mut flips = flips;
        'parts: loop {
            let segment = self.segment(from, flips)?;
            number = number.min(segment.first as usize);
            match segment.next {
                None => return Some(number),
                Some(cut) => {
                    from = cut.instance as usize;
                    flips = cut.flips;
                }
            }
        }
    }

    /// Where it is first seen that some output pins of an instance are flipped. It is undecided where an
    /// instance after it isn't static, or a good last value isn't definite there.
    pub fn see(&mut self, u: usize, flips: Flips) -> Seen
        requires { IsPlaced self.old.chip (place_in self.old.places) u }
        ensures seen { IsSeen self.old.chip (value_at self.old.lasts) u flips result }
        ensures kept { self.new ≡ self.old }
    {
        self.chip.linked();
        if !self.clear[u] {
            return Seen::Undecided;
        }
        if is_none(flips) {
            return Seen::Nowhere;
        }
        match self.first_number(u, flips) {
            Some(number) if number < self.outputs.len() => Seen::At(number as u32),
            Some(_) => Seen::Nowhere,
            None => Seen::Undecided,
        }
    }
}

// Takes over the last values of the good waves.
fn load<V: NetWaves>(waves: &V, lasts: &mut State)
    requires { length lasts.old ≡ length (V.seen waves.now).chip.nets }
    ensures { lasts.new ≡ lasts_in (V.seen waves.now).good }
{
    waves.exact();
    for net in 0..lasts.len() {
        lasts.set(net, waves.good(net).last);
    }
}

// Takes over values.
fn copy(from: &State, into: &mut State)
    requires { length into.old ≡ length from.now }
    ensures { into.new ≡ from.now }
{
    for net in 0..into.len() {
        into.set(net, from.get(net));
    }
}

ghost use Rattle.std.specs.Prelude.{false};

/// Whether no pin is flipped.
pub(crate) fn is_none(flips: Flips) -> bool
    ensures first { IsTrue result → flips.first ≡ false }
    ensures second { IsTrue result → flips.second ≡ false }
{
    !flips.first && !flips.second
}

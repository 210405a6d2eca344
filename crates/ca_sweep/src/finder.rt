//! Where a pair detects a defect, by last values alone.
ghost use Rattle.std.specs.Prelude.{ℕ, ◌+◌, ◌-◌, ◌≡◌, ◌<◌, ◌≤◌, ◌^◌, length, IfOk, IfSome};
ghost use Rattle.std.specs.Prelude.{IsTrue, None, Some};
ghost use Rattle.std.specs.List.{All};
ghost use Rattle.ca_net.specs.declared.wave.Wave.{Wave};
ghost use Rattle.ca_net.specs.Circuit.{IsWellFormed};
ghost use Rattle.ca_net.specs.State.{value_at};
ghost use Rattle.ca_flat.specs.Chip.{cell_at, outputs_at};
ghost use Rattle.ca_sweep.specs.code.Asked.{IsAsked, AreAsked, AreNowhereAt};
ghost use Rattle.ca_sweep.specs.code.Coded.{IsSeenCoded};
ghost use Rattle.ca_sweep.specs.code.Hand.{IsCodedAt};
ghost use Rattle.ca_flat.specs.Flat.{flat};
ghost use Rattle.ca_flips.specs.Flips.{AreLastsOf};
ghost use Rattle.ca_sim.specs.Seen.{AreNetWaves};
ghost use Rattle.ca_view.specs.Linked.{IsPlaced, IsPlacedDefect, place_in};
ghost use Rattle.ca_view.specs.Places.{cell_number};
ghost use Rattle.ca_sweep.specs.Seen.{IsForChip, lasts_in, IsLanedFor};
ghost use Rattle.ca_sweep.specs.Found.{IsFound, IsNextFound, IsUndetectedAt};
ghost use Rattle.ca_sweep.specs.Spans.{AreOfInstance, AreOfCell};
ghost use Rattle.ca_places.specs.PlaceSet.{Has};
ghost use Rattle.ca_sweep.specs.code.Faulty.{AreFlipsOf, IsFlippedAt};
ghost use Rattle.ca_sweep.specs.code.Found.{reported};
ghost use Rattle.ca_sweep.specs.code.LanedFinder.{IsAtLane};

use crate::codes::goods_at;
use crate::faulty::Faulty;
use crate::firsts::are_opposite;
use crate::flip_finder::FlipFinder;
use crate::hand::Hand;
use crate::lanes::{Lanes, NO_LANE, NoLanes};
use crate::looks::{
    are_definite, is_nowhere, is_unseen, load, pin_waves, reported, see_coded, take,
};
use crate::rows::Rows;
use crate::seen::{Flips, NO_FLIPS, Seen};
use crate::spans::{DefectSpans, SpanFound};
use crate::sweep::Sweep;
use ca_base::NoMemory;
use ca_flat::ChipDefect;
use ca_flips::{detected_is_filled_in, detected_is_flipped, swept_are_flipped};
use ca_net::Wave;
use ca_places::PlaceSet;
use ca_planes::{LANES, both, is_none};
use ca_sim::{Bits, NetWaves};
use ca_view::View;
use std::alloc::Global;
use std::marker::Model;

/// Finds where a pair detects defects, by the last values of the nets after their instances. All memory is
/// taken by `reserve`.
#[derive(Drop)]
pub struct Finder<'a> {
    chip: &'a View<'a>,
    sweep: Sweep<'a>,
    faulty: Faulty,
    rows: Rows,
    waves: Vec<Wave>,
    // the place of the first defect of the instance that is asked for in its list, as it is guessed
    start: usize,
    // the number of the span that was asked for last in a list
    span: usize,
    hand: Hand,
}

impl<'a> Model for Finder<'a> {
    ghost use Rattle.ca_view.specs.Linked.{place_in};
    ghost use Rattle.ca_view.specs.Places.{cell_number};
    ghost use Rattle.ca_sweep.specs.Seen.{Loaded};
    ghost use Rattle.ca_sweep.specs.code.Hand.{IsFinder};

    ghost Value = { Loaded };

    ghost view = { λ finder. record {
      chip = finder.sweep.chip;
      places = finder.sweep.places;
      lasts = finder.sweep.lasts;
      waves = finder.waves.items;
    } };

    ghost invariant = { λ finder. IsFinder finder.chip.now.core finder.chip.now.ranks
        (place_in finder.chip.now.ranks) (cell_number finder.chip.now.chip) finder.sweep finder.faulty
        finder.rows finder.waves.items finder.hand };
}

impl<'a> Finder<'a> {
    /// Takes all memory. The nets of the observed outputs come in their order. No last value is known.
    pub fn reserve(alloc: Global, chip: &'a View<'a>, outputs: Vec<u32>) -> Result<Self, NoMemory>
        requires outputs { outputs.items ≡ chip.now.core.outputs }
        requires few { length outputs.items < 2 ^ 32 }
        ensures { IfOk result (IsForChip chip.now.core chip.now.ranks) }
    {
        let faulty = Faulty::reserve(alloc, chip)?;
        let rows = Rows::reserve(alloc, chip)?;
        let waves = vec![in alloc; Wave::default(); chip.nets()]?;
        let hand = Hand::reserve(alloc)?;
        let sweep = Sweep::reserve(alloc, chip, outputs)?;
        Ok(Finder {
            chip,
            sweep,
            faulty,
            rows,
            waves,
            start: 0,
            span: 0,
            hand,
        })
    }

    /// Takes over the good waves.
    pub fn load<V: NetWaves>(&mut self, waves: &V)
        requires { (V.seen waves.now).chip ≡ self.old.chip }
        ensures waves { self.new.waves ≡ (V.seen waves.now).good }
        ensures lasts { self.new.lasts ≡ lasts_in (V.seen waves.now).good }
        ensures chip { self.new.chip ≡ self.old.chip }
        ensures places { self.new.places ≡ self.old.places }
    {
        waves.exact();
        self.sweep.load(waves);
        load(waves, &mut self.waves);
        self.hand.clear();
    }

    /// Whether a lane has the last values that were taken over, at all nets on pins of instances with a
    /// place.
    pub(crate) fn is_lane<L: Lanes>(&self, lanes: &L, lane: usize) -> bool
        requires chip { (L.laned lanes.now).chip ≡ self.now.chip }
        requires lane { lane < 64 }
        ensures { IsTrue result → IsAtLane (L.laned lanes.now) lane self.now.lasts }
    {
        lanes.agrees(lane, self.sweep.lasts())
    }

    // Which output pins have the opposite of the good last value.
    fn flips_of(&self, u: usize, outputs: &[Wave]) -> Flips
        requires placed { IsPlaced self.now.chip (place_in self.now.places) u }
        requires outputs { length outputs.now ≡ outputs_at self.now.chip u }
        ensures { AreFlipsOf self.now.chip (value_at self.now.lasts) u outputs.now result }
    {
        self.chip.linked();
        let _outputs = self.chip.cell(u).outputs();
        Flips {
            first: self.is_flipped(u, 0, outputs),
            second: self.is_flipped(u, 1, outputs),
        }
    }

    // Whether an output pin, if there is one, has the opposite of the good last value.
    fn is_flipped(&self, u: usize, output: usize, outputs: &[Wave]) -> bool
        requires placed { IsPlaced self.now.chip (place_in self.now.places) u }
        requires outputs { length outputs.now ≡ outputs_at self.now.chip u }
        ensures { IsFlippedAt self.now.chip (value_at self.now.lasts) u outputs.now output result }
    {
        self.chip.linked();
        if output >= outputs.len() {
            return false;
        }
        let net = self.chip.pin_net(u, self.chip.inputs_at(u) + output);
        are_opposite(self.sweep.last(net), outputs[output].last)
    }

    // The code of what the cell of a defect's instance ends with, if that can be in hand and its row has the
    // code.
    fn code_of(&mut self, defect: ChipDefect, place: usize) -> Option<u8>
        requires { IsPlaced self.old.chip (place_in self.old.places) defect.instance }
        ensures code { IfSome result (IsCodedAt self.old.chip self.old.waves defect) }
        ensures kept { self.new ≡ self.old }
    {
        self.chip.linked();
        let u = defect.instance as usize;
        if !take(
            self.chip,
            &self.sweep,
            &mut self.faulty,
            &mut self.rows,
            &self.waves,
            &mut self.hand,
            u,
        ) {
            return None;
        }
        let guess = place.wrapping_sub(self.start);
        let at = self.rows.place(self.hand.number, defect.defect, guess)?;
        self.start = place.wrapping_sub(at);
        self.rows.code(self.hand.slot, at)
    }

    // What is found of a defect of an instance that ends with what a code says, as it is kept, or computed
    // and kept where the instance is in hand.
    fn find_coded(&mut self, u: usize, code: u8) -> Seen
        requires placed { IsPlaced self.old.chip (place_in self.old.places) u }
        ensures found { IsSeenCoded self.old.chip (value_at self.old.lasts) u code result }
        ensures kept { self.new ≡ self.old }
    {
        self.chip.linked();
        if let Some(seen) = self.hand.get(u, code) {
            return seen;
        }
        let goods = match self.hand.goods(u) {
            Some(goods) => goods,
            None => goods_at(self.chip, &self.sweep, u),
        };
        let seen = see_coded(self.chip, &mut self.sweep, u, goods, code);
        self.hand.put(u, code, seen);
        seen
    }

    /// Where the pair of these waves first detects a defect. The waves that were taken over, and their last
    /// values, are those of the pair. It is undecided where an instance after that of the defect isn't
    /// static, a good last value isn't definite there, or only waves show what unknown values of the
    /// instance's outputs do. Where the defect stands in a list, its place there helps to find it in that of
    /// its cell. It takes no memory.
    pub fn find<V: NetWaves>(&mut self, waves: &V, defect: ChipDefect, place: usize) -> Seen
        requires chip { (V.seen waves.now).chip ≡ self.old.chip }
        requires defect { IsPlacedDefect self.old.chip (place_in self.old.places) defect }
        requires lasts { AreLastsOf self.old.chip (V.seen waves.now).pair (value_at self.old.lasts) }
        requires waves { AreNetWaves self.old.chip None (V.seen waves.now).pair self.old.waves }
        requires good_is { IsWellFormed (flat self.old.chip None) }
        requires faulty_is { IsWellFormed (flat self.old.chip (Some defect)) }

        ensures found { IsFound self.old.chip defect (V.seen waves.now).pair result }
        ensures kept { self.new ≡ self.old }
    {
        swept_are_flipped();
        detected_is_filled_in();
        detected_is_flipped();
        self.chip.linked();
        let u = defect.instance as usize;
        match self.code_of(defect, place) {
            Some(code) => self.find_coded(u, code),
            None => self.find_computed(waves, defect),
        }
    }

    /// The first place of the set at or past this one, but for places of defects of the list that the pair of
    /// these waves is found to detect nowhere. The waves that were taken over are those of the pair. A lane
    /// that is sure has their last values; there may be no such lane.
    pub(crate) fn next_in<V: NetWaves, L: Lanes>(
        &mut self,
        waves: &V,
        defects: &DefectSpans<'_>,
        places: &PlaceSet,
        from: usize,
        lanes: &L,
        lane: usize,
    ) -> Option<usize>
        requires asked { AreAsked (V.seen waves.now) defects.now self.old }
        requires few { length defects.now.list < 2 ^ 32 }
        requires within { (place : ℕ) → Has places.now place → place < length defects.now.list }
        requires lanes { IsLanedFor self.old.chip self.old.places (L.laned lanes.now) }
        requires lane { lane < 64 → IsAtLane (L.laned lanes.now) lane self.old.lasts }

        ensures next { IsNextFound self.old.chip defects.now.list (V.seen waves.now).pair places.now from
            result }
        ensures kept { self.new ≡ self.old }
    {
        let mut at = from;
        'places: while let Some(place) = places.next(at) {
            let end = self.pass(waves, defects, places, place, lanes, lane);
            if end == place {
                return Some(place);
            }
            at = end;
        }
        None
    }

    // A place before which, from this one of the set on, the pair is found to detect no defect at a place of
    // the set: in a lane none of one instance, or by what the cell gives those of the instance here or the
    // one here, or none.
    fn pass<V: NetWaves, L: Lanes>(
        &mut self,
        waves: &V,
        defects: &DefectSpans<'_>,
        places: &PlaceSet,
        place: usize,
        lanes: &L,
        lane: usize,
    ) -> usize
        requires place { place < length defects.now.list }
        requires asked { AreAsked (V.seen waves.now) defects.now self.old }
        requires lanes { IsLanedFor self.old.chip self.old.places (L.laned lanes.now) }
        requires lane { lane < 64 → IsAtLane (L.laned lanes.now) lane self.old.lasts }

        ensures onward { place ≤ result }
        ensures passed { (k : ℕ) → place ≤ k → k < result → Has places.now k
            → IsUndetectedAt self.old.chip defects.now.list (V.seen waves.now).pair k }
        ensures kept { self.new ≡ self.old }
    {
        self.chip.linked();
        let span = defects.span_at(place, self.span);
        self.span = span.number;
        self.start = span.start;
        if is_unseen(lanes, lane, span.instance) {
            return span.end;
        }
        if self.takes(span) {
            if self.is_quiet(waves, places, span) {
                return span.end;
            }
            return self.pass_taken(waves, defects, places, span, place);
        }
        if is_nowhere(self.find(waves, defects.get(place), place)) {
            return place + 1;
        }
        place
    }

    // The first place of the set from this one on whose defect isn't found to be detected nowhere, or the end
    // of a span that is whole.
    fn pass_taken<V: NetWaves>(
        &mut self,
        waves: &V,
        defects: &DefectSpans<'_>,
        places: &PlaceSet,
        span: SpanFound,
        place: usize,
    ) -> usize
        requires place { span.start ≤ place }
        requires past { place < span.end }
        requires within { span.end ≤ length defects.now.list }
        requires span { AreOfInstance defects.now.list span.start span.end span.instance }
        requires whole { AreOfCell (cell_at self.old.chip span.instance) defects.now.list span.start
            span.end }
        requires asked { AreAsked (V.seen waves.now) defects.now self.old }

        ensures onward { place ≤ result }
        ensures passed { (k : ℕ) → place ≤ k → k < result → Has places.now k
            → IsUndetectedAt self.old.chip defects.now.list (V.seen waves.now).pair k }
        ensures kept { self.new ≡ self.old }
    {
        let mut at = place;
        'places: while let Some(next) = places.next(at) {
            if next >= span.end {
                return span.end;
            }
            if !self.is_nowhere_at(waves, span.instance, next - span.start) {
                return next;
            }
            at = next + 1;
        }
        span.end
    }

    // Whether no defect of the set in a span, of the first 64 of a cell, flips an output pin of its instance,
    // by the row of that, which is in hand.
    fn is_quiet<V: NetWaves>(&mut self, waves: &V, places: &PlaceSet, span: SpanFound) -> bool
        requires span { span.start ≤ span.end }
        requires placed { IsPlaced self.old.chip (place_in self.old.places) span.instance }
        requires asked { IsAsked (V.seen waves.now) self.old }
        ensures quiet { IsTrue result → (at : ℕ) → at < span.end - span.start
            → Has places.now (span.start + at)
            → AreNowhereAt (V.seen waves.now).pair span.instance at self.old }
        ensures kept { self.new ≡ self.old }
    {
        swept_are_flipped();
        detected_is_filled_in();
        detected_is_flipped();
        self.chip.linked();
        let count = span.end - span.start;
        if !self.hand.has(span.instance) || count > LANES {
            return false;
        }
        let loud = match self.rows.loud(self.hand.slot, self.hand.goods, count) {
            Some(loud) => loud,
            None => return false,
        };
        is_none(both(places.window(span.start), loud))
            && is_nowhere(self.sweep.see(span.instance, NO_FLIPS))
    }

    // Whether the defect at a place of the list of an instance's cell is found to be detected nowhere, where
    // that instance is in hand.
    fn is_nowhere_at<V: NetWaves>(&mut self, waves: &V, u: usize, at: usize) -> bool
        requires placed { IsPlaced self.old.chip (place_in self.old.places) u }
        requires asked { IsAsked (V.seen waves.now) self.old }
        ensures nowhere { IsTrue result → AreNowhereAt (V.seen waves.now).pair u at self.old }
        ensures kept { self.new ≡ self.old }
    {
        swept_are_flipped();
        detected_is_filled_in();
        detected_is_flipped();
        self.chip.linked();
        if !self.hand.has(u) {
            return false;
        }
        match self.rows.code(self.hand.slot, at) {
            Some(code) => is_nowhere(self.find_coded(u, code)),
            None => false,
        }
    }

    // Takes the instance of a span in hand if it isn't, the span is whole, and the instance is clear. Answers
    // whether it is in hand.
    fn takes(&mut self, span: SpanFound) -> bool
        requires { IsPlaced self.old.chip (place_in self.old.places) span.instance }
        ensures whole { IsTrue result → IsTrue span.is_whole }
        ensures kept { self.new ≡ self.old }
    {
        if !span.is_whole {
            return false;
        }
        take(
            self.chip,
            &self.sweep,
            &mut self.faulty,
            &mut self.rows,
            &self.waves,
            &mut self.hand,
            span.instance,
        )
    }

    // The same, where what the cell gives with the defect isn't in a row.
    fn find_computed<V: NetWaves>(&mut self, waves: &V, defect: ChipDefect) -> Seen
        requires defect { IsPlacedDefect self.old.chip (place_in self.old.places) defect }
        requires lasts { AreLastsOf self.old.chip (V.seen waves.now).pair (value_at self.old.lasts) }
        requires waves { AreNetWaves self.old.chip None (V.seen waves.now).pair self.old.waves }
        requires good_is { IsWellFormed (flat self.old.chip None) }
        requires faulty_is { IsWellFormed (flat self.old.chip (Some defect)) }

        ensures found { IsFound self.old.chip defect (V.seen waves.now).pair result }
        ensures kept { self.new ≡ self.old }
    {
        swept_are_flipped();
        detected_is_filled_in();
        detected_is_flipped();
        self.chip.linked();
        let u = defect.instance as usize;
        if !self.sweep.is_clear(u) {
            return Seen::Undecided;
        }
        let pins = match pin_waves(self.chip, &self.waves, u) {
            Some(pins) => pins,
            None => return Seen::Undecided,
        };
        let outputs = self.faulty.respond(self.chip, defect, pins);
        let flips = self.flips_of(u, outputs.as_slice());
        let seen = self.sweep.see(u, flips);
        reported(seen, are_definite(outputs.as_slice()))
    }
}

impl FlipFinder for Finder<'_> {
    ghost loaded = { λ finder. finder };

    fn load<V: NetWaves>(&mut self, waves: &V) {
        self.load(waves);
    }

    fn find<V: NetWaves>(&mut self, waves: &V, defect: ChipDefect, place: usize) -> Seen {
        self.find(waves, defect, place)
    }

    fn next<V: NetWaves>(
        &mut self,
        waves: &V,
        defects: &DefectSpans<'_>,
        places: &PlaceSet,
        from: usize,
    ) -> Option<usize> {
        let lanes = NoLanes::new(self.chip);
        self.next_in(waves, defects, places, from, &lanes, NO_LANE)
    }

    fn keep<B: Bits>(&mut self, _lane: usize, _bits: &B) {}

    fn turn_to(&mut self, _lane: usize) {}
}

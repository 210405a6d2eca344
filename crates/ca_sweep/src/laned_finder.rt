//! A finder beside lanes.

use crate::finder::Finder;
use crate::flip_finder::FlipFinder;
use crate::lane_sweep::LaneSweep;
use crate::lanes::{Lanes, NO_LANE};
use crate::seen::Seen;
use crate::spans::DefectSpans;
use ca_flat::ChipDefect;
use ca_places::PlaceSet;
use ca_sim::{Bits, NetWaves};
use std::marker::Model;

/// A finder, and lanes of which one may have its last values: for who asks of many pairs, 64 at a time.
#[derive(Drop)]
pub struct LanedFinder<'a> {
    finder: Finder<'a>,
    lanes: LaneSweep<'a>,
    lane: usize,
    // whether the instances of the set that is asked for are wanted in lanes
    is_gathered: bool,
}

impl<'a> Model for LanedFinder<'a> {
    ghost use Rattle.ca_sweep.specs.Seen.{Loaded};
    ghost use Rattle.ca_sweep.specs.code.LanedFinder.{IsLanedFinder};

    ghost Value = { Loaded };

    ghost view = { λ both. both.finder };

    ghost invariant = { λ both. IsLanedFinder both.finder both.lanes both.lane };
}

impl<'a> LanedFinder<'a> {
    ghost use Rattle.ca_sweep.specs.Seen.{IsForChip, IsLanedFor};

    /// Both of one chip.
    pub fn new(finder: Finder<'a>, lanes: LaneSweep<'a>) -> Self
        requires { IsLanedFor finder.chip finder.places lanes }
        ensures { IsForChip finder.entry.chip finder.entry.places result }
    {
        LanedFinder {
            finder,
            lanes,
            lane: NO_LANE,
            is_gathered: false,
        }
    }
}

impl FlipFinder for LanedFinder<'_> {
    ghost loaded = { λ both. both };

    fn load<V: NetWaves>(&mut self, waves: &V) {
        self.lane = NO_LANE;
        self.finder.load(waves);
    }

    fn find<V: NetWaves>(&mut self, waves: &V, defect: ChipDefect, place: usize) -> Seen {
        self.finder.find(waves, defect, place)
    }

    fn next<V: NetWaves>(
        &mut self,
        waves: &V,
        defects: &DefectSpans<'_>,
        places: &PlaceSet,
        from: usize,
    ) -> Option<usize> {
        gather(&mut self.lanes, defects, places, self.is_gathered);
        self.is_gathered = true;
        self.finder
            .next_in(waves, defects, places, from, &self.lanes, self.lane)
    }

    fn keep<B: Bits>(&mut self, lane: usize, bits: &B) {
        if lane >= NO_LANE {
            return;
        }
        self.lane = NO_LANE;
        self.is_gathered = false;
        self.lanes.set(lane, bits);
    }

    fn turn_to(&mut self, lane: usize) {
        if lane >= NO_LANE {
            return;
        }
        self.lanes.find();
        self.lane = lane_of(&self.finder, &self.lanes, lane);
    }
}

ghost use Rattle.std.specs.Prelude.{◌≡◌, ◌<◌};
ghost use Rattle.ca_sweep.specs.code.LanedFinder.{IsInLane};

// The instances of the defects at the places of a set are wanted, and no others, if it wasn't done.
fn gather(
    lanes: &mut LaneSweep<'_>,
    defects: &DefectSpans<'_>,
    places: &PlaceSet,
    is_gathered: bool,
)
    requires chip { defects.now.chip ≡ lanes.old.chip }
    requires defects { All (IsPlacedDefect lanes.old.chip (place_in lanes.old.places)) defects.now.list }
    requires within { (place : ℕ) → Has places.now place → place < length defects.now.list }
    ensures { lanes.new ≡ lanes.old }
{
    if is_gathered {
        return;
    }
    lanes.want_none();
    let mut at = 0;
    let mut near = 0;
    'spans: while let Some(place) = places.next(at) {
        let span = defects.span_at(place, near);
        lanes.want(span.instance);
        near = span.number;
        at = span.end;
    }
}

ghost use Rattle.std.specs.Prelude.{ℕ, length};
ghost use Rattle.std.specs.List.{All};
ghost use Rattle.ca_places.specs.PlaceSet.{Has};
ghost use Rattle.ca_view.specs.Linked.{IsPlacedDefect, place_in};

// The lane if it has the last values that the finder is loaded with, else none.
fn lane_of(finder: &Finder<'_>, lanes: &LaneSweep<'_>, lane: usize) -> usize
    requires chip { lanes.now.chip ≡ finder.now.chip }
    requires lane { lane < 64 }
    ensures { IsInLane lanes.now result finder.now.lasts }
{
    if finder.is_lane(lanes, lane) {
        lane
    } else {
        NO_LANE
    }
}

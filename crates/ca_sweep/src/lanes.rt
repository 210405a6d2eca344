//! What a finder asks of lanes: 64 pairs at once, or none.

use ca_net::State;
use ca_sim::Bits;
use ca_view::View;
use std::marker::Model;

/// The number of no lane.
pub(crate) const NO_LANE: usize = 64;

/// Good last values in 64 lanes, and in which of them flips of an instance's output pins are seen.
pub trait Lanes {
    ghost use Rattle.std.specs.Prelude.{ℕ, ◌≡◌, ◌<◌, length, IsTrue};
    ghost use Rattle.ca_net.specs.declared.trit.Trit.{Trit};
    ghost use Rattle.ca_net.specs.State.{value_at};
    ghost use Rattle.ca_flat.specs.Pair.{bit_count};
    ghost use Rattle.ca_view.specs.Linked.{IsPlaced, place_in};
    ghost use Rattle.ca_sweep.specs.Seen.{AreSameAt, AreUnseen, IsLanedFor, Laned, trits_in};

    /// The chip, the values in the lanes, and for which nets a lane says what a finder has to have.
    ghost laned: { Self → Laned };

    /// Takes over the last values of a pair's bits into a lane.
    fn set<B: Bits>(&mut self, lane: usize, bits: &B)
        requires lane { lane < 64 }
        requires bits { length (B.bits bits.now) ≡ bit_count (laned self.old).chip }
        ensures { IsLanedFor (laned self.old).chip (laned self.old).places (laned self.new) };

    /// Finds the good last values in all lanes, and for all instances in which lanes flips are seen, if it
    /// wasn't done since a pair was taken over. It takes no memory.
    fn find(&mut self)
        ensures { IsLanedFor (laned self.old).chip (laned self.old).places (laned self.new) };

    /// Whether a lane has these values at all nets on pins of instances with a place.
    fn agrees(&self, lane: usize, lasts: &State) -> bool
        requires lane { lane < 64 }
        requires nets { length lasts.now ≡ length (laned self.now).chip.nets }
        ensures { IsTrue result → AreSameAt (laned self.now).pinned
            (value_at (trits_in (laned self.now).ones lane)) (value_at lasts.now) };

    /// Whether it was found that no flip of an instance's output pins is seen in a lane.
    fn is_unseen(&self, u: usize, lane: usize) -> bool
        requires placed { IsPlaced (laned self.now).chip (place_in (laned self.now).places) u }
        requires lane { lane < 64 }
        ensures { (goods : ℕ → Trit) → AreSameAt (laned self.now).pinned
            (value_at (trits_in (laned self.now).ones lane)) goods → IsTrue result
            → AreUnseen (laned self.now).chip goods u };
}

/// No lanes: nothing is kept, and nothing is found.
#[derive(Drop)]
pub struct NoLanes<'a> {
    chip: &'a View<'a>,
}

impl<'a> Model for NoLanes<'a> {
    ghost use Rattle.std.specs.Prelude.{[]};
    ghost use Rattle.ca_sweep.specs.Seen.{Laned};

    ghost Value = { Laned };

    ghost view = { λ none. record {
      chip = none.chip.now.core;
      places = none.chip.now.ranks;
      pinned = [];
      ones = [];
    } };
}

impl<'a> NoLanes<'a> {
    ghost use Rattle.ca_sweep.specs.Seen.{IsLanedFor};

    /// For this chip.
    pub fn new(chip: &'a View<'a>) -> Self
        ensures { IsLanedFor chip.now.core chip.now.ranks result }
    {
        NoLanes { chip }
    }
}

impl Lanes for NoLanes<'_> {
    ghost laned = { λ none. none };

    fn set<B: Bits>(&mut self, _lane: usize, _bits: &B) {}

    fn find(&mut self) {}

    fn agrees(&self, _lane: usize, _lasts: &State) -> bool {
        false
    }

    fn is_unseen(&self, _u: usize, _lane: usize) -> bool {
        false
    }
}

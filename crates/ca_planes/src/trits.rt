//! A value in each of 64 lanes.

ghost use Rattle.std.specs.Prelude.{ℕ, ◌≡◌, ◌≢◌, ◌<◌, false, ◌↔◌};
ghost use Rattle.ca_net.specs.Trit.{meet_of};
ghost use Rattle.ca_net.specs.declared.trit.Trit.TheVariants as trit;
ghost use Rattle.ca_planes.specs.Plane.{has_lane};
ghost use Rattle.ca_planes.specs.Trits.{trit_in};

use crate::plane::{ALL_LANES, LANES, differ, either, except, has, with_lane};
use ca_net::Trit;

/// A value in each lane, as two planes: the lanes in which it may be 0, and those in which it may be 1.
#[derive(Clone, Copy, Debug)]
pub struct Trits {
    pub zero: u64,
    pub one: u64,
}

impl Trits {
    /// X in each lane.
    pub fn unknown() -> Self
        ensures { (lane : ℕ) → lane < LANES → trit_in result lane ≡ trit.X }
    {
        Trits {
            zero: ALL_LANES,
            one: ALL_LANES,
        }
    }

    /// The meet of two values in each lane.
    pub fn meet(self, other: Trits) -> Self
        ensures { (lane : ℕ) → trit_in result lane ≡ meet_of (trit_in self lane) (trit_in other lane) }
    {
        let ones = either(except(self.one, other.one), except(other.one, self.one));
        Trits {
            zero: either(either(self.zero, other.zero), ones),
            one: either(self.one, other.one),
        }
    }

    /// The lanes in which two values differ.
    pub fn differ(self, other: Trits) -> u64
        ensures { (lane : ℕ) → (has_lane result lane ≡ false) ↔ (trit_in self lane ≡ trit_in other lane) }
    {
        differ(self.zero, self.one, other.zero, other.one)
    }

    /// The value in a lane.
    pub fn value(self, lane: usize) -> Trit
        requires { lane < LANES }
        ensures { result ≡ trit_in self lane }
    {
        match (has(self.zero, lane), has(self.one, lane)) {
            (true, true) => Trit::X,
            (false, true) => Trit::One,
            (_, false) => Trit::Zero,
        }
    }

    /// The same with another value in a lane.
    pub fn with(self, lane: usize, value: Trit) -> Self
        requires { lane < LANES }
        ensures here { trit_in result lane ≡ value }
        ensures others { (other : ℕ) → other < LANES → other ≢ lane
            → trit_in result other ≡ trit_in self other }
    {
        Trits {
            zero: with_lane(self.zero, lane, value != Trit::One),
            one: with_lane(self.one, lane, value != Trit::Zero),
        }
    }
}

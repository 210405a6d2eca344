//! What a net may be in each of 256 lanes.

ghost use Rattle.std.specs.Prelude.{◌≡◌, ◌<◌, ℕ};
ghost use Rattle.ca_lanes.specs.Plane.{lane_of};
ghost use Rattle.ca_lanes.specs.Choice.{choice_of, no_choice};
ghost use Rattle.ca_lanes.specs.code.Choice.{choice_with, choice_over, either_choice};
ghost use Rattle.ca_lanes.specs.Choice.{trit_for};

use crate::plane::{LANES, Plane};
use ca_net::Trit;

/// The lanes in which a net may be 0, and those in which it may be 1. In a lane where it isn't known it may
/// be both, and in a lane that isn't loaded neither.
#[derive(Clone, Copy, Debug)]
pub struct Values {
    pub zero: Plane,
    pub one: Plane,
}

impl Values {
    /// Neither in any lane.
    pub fn none() -> Self
        ensures { (lane : ℕ) → choice_of result lane ≡ no_choice }
    {
        Values {
            zero: Plane::none(),
            one: Plane::none(),
        }
    }

    /// These, and in the lanes of the mask what a row with this value gives: 0 or 1, and both where it is X.
    pub(crate) fn with(self, mask: Plane, value: Trit) -> Self
        ensures { (lane : ℕ) → choice_of result lane
            ≡ choice_with (choice_of self lane) (lane_of mask lane) value }
    {
        match value {
            Trit::Zero => Values {
                zero: self.zero.either(mask),
                one: self.one,
            },
            Trit::One => Values {
                zero: self.zero,
                one: self.one.either(mask),
            },
            Trit::X => Values {
                zero: self.zero.either(mask),
                one: self.one.either(mask),
            },
        }
    }

    /// These in the lanes of the mask, and neither in the others.
    pub(crate) fn over(self, mask: Plane) -> Self
        ensures { (lane : ℕ) → choice_of result lane ≡ choice_over (lane_of mask lane) (choice_of self lane) }
    {
        Values {
            zero: mask.both(self.zero),
            one: mask.both(self.one),
        }
    }

    /// What one of the two may be.
    pub(crate) fn either(self, other: Values) -> Self
        ensures { (lane : ℕ) → choice_of result lane
            ≡ either_choice (choice_of self lane) (choice_of other lane) }
    {
        Values {
            zero: self.zero.either(other.zero),
            one: self.one.either(other.one),
        }
    }

    /// The value in a lane: X where it may be both.
    pub fn value(self, lane: usize) -> Trit
        requires { lane < LANES }
        ensures { result ≡ trit_for (choice_of self lane) }
    {
        match (self.zero.is_set(lane), self.one.is_set(lane)) {
            (true, false) => Trit::Zero,
            (false, true) => Trit::One,
            _ => Trit::X,
        }
    }
}

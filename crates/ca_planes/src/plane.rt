//! One bit for each of 64 lanes.

ghost use Rattle.std.specs.Prelude.{ℕ, ◌≡◌, ◌≢◌, ◌<◌, ◌≤◌, ◌&&◌, ◌||◌, not, true, false, IsTrue, ◌↔◌};
ghost use Rattle.ca_net.specs.declared.trit.Trit.TheVariants as trit;
ghost use Rattle.ca_planes.specs.Plane.{has_lane};
ghost use Rattle.ca_planes.specs.Trits.{value_in};

/// How many lanes there are.
pub const LANES: usize = 64;

/// The plane of all lanes.
pub const ALL_LANES: u64 = u64::MAX;

/// The lanes of both planes.
pub fn both(a: u64, b: u64) -> u64
    ensures { (lane : ℕ) → has_lane result lane ≡ (has_lane a lane && has_lane b lane) }
{
    a & b
}

/// The lanes of either plane.
pub fn either(a: u64, b: u64) -> u64
    ensures lanes { (lane : ℕ) → has_lane result lane ≡ (has_lane a lane || has_lane b lane) }
    ensures more { a ≤ result }
{
    a | b
}

/// The lanes of the first plane that the other doesn't have.
pub fn except(a: u64, b: u64) -> u64
    ensures { (lane : ℕ) → has_lane result lane ≡ (has_lane a lane && not (has_lane b lane)) }
{
    a & !b
}

/// The lanes in which two values differ.
pub fn differ(zero: u64, one: u64, other_zero: u64, other_one: u64) -> u64
    ensures { (lane : ℕ) → (has_lane result lane ≡ false)
        ↔ (value_in zero one lane ≡ value_in other_zero other_one lane) }
{
    let ones = either(except(one, other_one), except(other_one, one));
    let zeros = either(except(zero, other_zero), except(other_zero, zero));
    either(ones, both(one, zeros))
}

/// The lanes in which a value isn't 1.
pub fn not_one(zero: u64, one: u64) -> u64
    ensures { (lane : ℕ) → lane < LANES
        → (has_lane result lane ≡ true) ↔ (value_in zero one lane ≢ trit.One) }
{
    either(zero, except(ALL_LANES, one))
}

/// The lanes in which a value is 1.
pub fn is_one(zero: u64, one: u64) -> u64
    ensures { (lane : ℕ) → (has_lane result lane ≡ true) ↔ (value_in zero one lane ≡ trit.One) }
{
    except(one, zero)
}

/// The lanes in which a value is 0.
pub fn is_zero(one: u64) -> u64
    ensures { (zero lane : ℕ) → lane < LANES
        → (has_lane result lane ≡ true) ↔ (value_in zero one lane ≡ trit.Zero) }
{
    except(ALL_LANES, one)
}

/// Whether the plane has a lane.
pub fn has(plane: u64, lane: usize) -> bool
    requires { lane < LANES }
    ensures { result ≡ has_lane plane lane }
{
    (plane >> lane) & 1 == 1
}

/// The plane with a lane, or without it, as `bit` says.
pub fn with_lane(plane: u64, lane: usize, bit: bool) -> u64
    requires { lane < LANES }
    ensures here { has_lane result lane ≡ bit }
    ensures others { (other : ℕ) → other < LANES → other ≢ lane
        → has_lane result other ≡ has_lane plane other }
{
    if bit {
        plane | (1 << lane)
    } else {
        plane & !(1 << lane)
    }
}

/// Whether the plane has no lane.
pub fn is_none(plane: u64) -> bool
    ensures { IsTrue result ↔ ((lane : ℕ) → lane < LANES → has_lane plane lane ≡ false) }
{
    plane == 0
}

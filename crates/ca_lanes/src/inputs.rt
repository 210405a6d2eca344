//! The values of the input nets under up to 256 pairs.

ghost use Rattle.std.specs.Prelude.{◌≡◌, ◌+◌, ◌<◌, ◌≤◌, ℕ, length};
ghost use Rattle.std.specs.List.{All};
ghost use Rattle.ca_flat.specs.Codes.{bit_trit};
ghost use Rattle.ca_lanes.specs.Plane.{lane_of, is_lane};
ghost use Rattle.ca_lanes.specs.Choice.{choice_of};
ghost use Rattle.ca_lanes.specs.code.Set.{bit_choice};

use crate::plane::{LANES, Plane};
use crate::values::Values;
use ca_net::Trit;
use ca_pair::Pair;

// The lanes of `count` pairs: pair k has lane k.
pub(crate) fn pair_lanes(count: usize) -> Plane
    requires { count ≤ LANES }
    ensures { (lane : ℕ) → lane_of result lane ≡ is_lane count lane }
{
    let mut lanes = Plane::none();
    for lane in 0..count {
        lanes = lanes.with(lane);
    }
    lanes
}

// What the bit at a place may be in each lane.
pub(crate) fn bit_values(pairs: &[Pair], place: usize) -> Values
    requires count { length pairs.now ≤ LANES }
    requires bits { All (λ pair. place < length pair) pairs.now }
    ensures { (lane : ℕ) → choice_of result lane ≡ bit_choice pairs.now place lane }
{
    let mut values = Values::none();
    for lane in 0..pairs.len() {
        let only = Plane::none().with(lane);
        values = values.with(only, bit_value(pairs[lane].get(place)));
    }
    values
}

// The value of a bit.
fn bit_value(bit: bool) -> Trit
    ensures { result ≡ bit_trit bit }
{
    if bit { Trit::One } else { Trit::Zero }
}

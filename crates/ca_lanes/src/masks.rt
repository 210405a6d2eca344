//! The lanes in which each vector of an instance's input pins is allowed.

ghost use Rattle.std.specs.Prelude.{◌≡◌, ◌*◌, ◌^◌, ◌≤◌, ◌&&◌, ◌++◌, ℕ, length, map, take, drop, vec_capacity};
ghost use Rattle.ca_lanes.specs.Plane.{lane_of};
ghost use Rattle.ca_lanes.specs.Choice.{choice_of, choices_of};
ghost use Rattle.ca_lanes.specs.code.Allowed.{lanes_of, doubled, allowed_by};

use crate::plane::Plane;
use crate::values::Values;

// Writes a mask for each vector of the pins, by its number: the loaded lanes in which each pin may be the
// vector's digit.
pub(crate) fn spread(pins: &[Values], loaded: Plane, masks: &mut Vec<Plane>)
    requires room { 2 ^ length pins.now ≤ vec_capacity masks.old }
    ensures allowed { (lane : ℕ) → lanes_of masks.new.items lane
        ≡ allowed_by (lane_of loaded lane) (choices_of pins.now lane) }
    ensures count { length masks.new.items ≡ 2 ^ length pins.now }
    ensures room { vec_capacity masks.new ≡ vec_capacity masks.old }
{
    masks.clear();
    masks.push_reserved(loaded);
    for later in 0..pins.len() {
        double(masks, pins[pins.len() - 1 - later]);
    }
}

// From the masks of the later pins makes those with this pin before them.
fn double(masks: &mut Vec<Plane>, pin: Values)
    requires room { 2 * length masks.old.items ≤ vec_capacity masks.old }
    ensures doubled { (lane : ℕ) → lanes_of masks.new.items lane
        ≡ doubled (choice_of pin lane) (lanes_of masks.old.items lane) }
    ensures count { length masks.new.items ≡ 2 * length masks.old.items }
    ensures room { vec_capacity masks.new ≡ vec_capacity masks.old }
{
    let count = masks.len();
    for place in 0..count {
        masks.push_reserved(pin.one.both(masks[place]));
    }
    narrow(masks, count, pin.zero);
}

// Leaves of each of the first masks the lanes of the plane.
fn narrow(masks: &mut [Plane], count: usize, plane: Plane)
    requires { count ≤ length masks.old }
    ensures { (lane : ℕ) → lanes_of masks.new lane
        ≡ map (λ allowed. lane_of plane lane && allowed) (take count (lanes_of masks.old lane))
        ++ drop count (lanes_of masks.old lane) }
{
    for place in 0..count {
        masks[place] = plane.both(masks[place]);
    }
}

//! The values of an instance's pins.

ghost use Rattle.std.specs.Prelude.{◌≡◌, ◌<◌, ◌≤◌, ℕ, length, vec_capacity};
ghost use Rattle.std.specs.List.{All};
ghost use Rattle.ca_lanes.specs.Choice.{choices_of};
ghost use Rattle.ca_lanes.specs.code.Evaluated.{pin_choices};

use crate::values::Values;

// Gathers the values of the pins' nets.
pub(crate) fn gather(nets: &[Values], pins: &[u32], found: &mut Vec<Values>)
    requires within { All (λ net. net < length nets.now) pins.now }
    requires room { length pins.now ≤ vec_capacity found.old }
    ensures found { (lane : ℕ) → choices_of found.new.items lane
        ≡ pin_choices (choices_of nets.now lane) pins.now }
    ensures count { length found.new.items ≡ length pins.now }
    ensures room { vec_capacity found.new ≡ vec_capacity found.old }
{
    found.clear();
    for place in 0..pins.len() {
        found.push_reserved(nets[pins[place] as usize]);
    }
}

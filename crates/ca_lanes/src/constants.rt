//! Nets of fixed values.

ghost use Rattle.std.specs.Prelude.{◌≡◌, ◌<◌, ℕ, length};
ghost use Rattle.std.specs.List.{All};
ghost use Rattle.ca_lanes.specs.Plane.{lane_of};
ghost use Rattle.ca_lanes.specs.Choice.{choices_of, choice_at};
ghost use Rattle.ca_lanes.specs.code.Set.{constant_choice};

use crate::plane::Plane;
use crate::values::Values;
use ca_net::Trit;

/// A net, and its value.
#[derive(Clone, Copy, Debug)]
pub struct Constant {
    pub net: u32,
    pub value: Trit,
}

// Sets the nets of the constants in the loaded lanes. A net that is listed twice gets the first value.
pub(crate) fn set_constants(nets: &mut [Values], constants: &[Constant], loaded: Plane)
    requires within { All (λ constant. constant.net < length nets.old) constants.now }
    ensures set { (lane net : ℕ) → choice_at (choices_of nets.new lane) net
        ≡ constant_choice constants.now (lane_of loaded lane) net (choice_at (choices_of nets.old lane) net) }
    ensures count { length nets.new ≡ length nets.old }
{
    for following in 0..constants.len() {
        let constant = constants[constants.len() - 1 - following];
        nets[constant.net as usize] = Values::none().with(loaded, constant.value);
    }
}

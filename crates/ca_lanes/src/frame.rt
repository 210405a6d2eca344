//! The nets of one frame, before any instance is evaluated.

ghost use Rattle.std.specs.Prelude.{◌≡◌, ◌+◌, ◌<◌, ◌≤◌, ◌^◌, ℕ, length};
ghost use Rattle.std.specs.List.{All};
ghost use Rattle.ca_lanes.specs.Plane.{lane_of};
ghost use Rattle.ca_lanes.specs.Choice.{choices_of, choice_at};
ghost use Rattle.ca_lanes.specs.code.Choice.{choice_over, unknown};
ghost use Rattle.ca_lanes.specs.Netlist.{HasBits};
ghost use Rattle.ca_lanes.specs.code.Set.{input_choice, set_choice};

use crate::constants::{Constant, set_constants};
use crate::inputs::bit_values;
use crate::plane::{LANES, Plane};
use crate::values::Values;
use ca_pair::Pair;

// Makes every net unknown in the loaded lanes.
fn forget(nets: &mut [Values], loaded: Plane)
    ensures unknown { (lane net : ℕ) → net < length nets.new
        → choice_at (choices_of nets.new lane) net ≡ choice_over (lane_of loaded lane) unknown }
    ensures count { length nets.new ≡ length nets.old }
{
    for net in 0..nets.len() {
        nets[net] = Values {
            zero: loaded,
            one: loaded,
        };
    }
}

// Sets the nets of the inputs in each pair's lane: their bits begin at `bit`. A net that is listed twice gets
// the first bit.
fn set_inputs(nets: &mut [Values], inputs: &[u32], pairs: &[Pair], bit: usize)
    requires within { All (λ net. net < length nets.old) inputs.now }
    requires lanes { length pairs.now ≤ LANES }
    requires bits { All (HasBits bit (length inputs.now)) pairs.now }
    requires fits { bit + length inputs.now < 2 ^ 64 }
    ensures set { (lane net : ℕ) → choice_at (choices_of nets.new lane) net
        ≡ input_choice inputs.now pairs.now bit lane net (choice_at (choices_of nets.old lane) net) }
    ensures count { length nets.new ≡ length nets.old }
{
    for following in 0..inputs.len() {
        let place = inputs.len() - 1 - following;
        let values = bit_values(pairs, bit + place);
        nets[inputs[place] as usize] = values;
    }
}

// Sets all nets of a frame: those of the inputs and constants to their values, and the others to unknown
// ones.
pub(crate) fn set_frame(
    nets: &mut [Values],
    inputs: &[u32],
    constants: &[Constant],
    pairs: &[Pair],
    bit: usize,
    loaded: Plane,
)
    requires inputs { All (λ net. net < length nets.old) inputs.now }
    requires constants { All (λ constant. constant.net < length nets.old) constants.now }
    requires lanes { length pairs.now ≤ LANES }
    requires bits { All (HasBits bit (length inputs.now)) pairs.now }
    requires fits { bit + length inputs.now < 2 ^ 64 }
    ensures set { (lane net : ℕ) → net < length nets.new → choice_at (choices_of nets.new lane) net
        ≡ set_choice inputs.now constants.now pairs.now bit (lane_of loaded lane) lane net }
    ensures count { length nets.new ≡ length nets.old }
{
    forget(nets, loaded);
    set_inputs(nets, inputs, pairs, bit);
    set_constants(nets, constants, loaded);
}

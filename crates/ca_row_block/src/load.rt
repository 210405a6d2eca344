//! The vectors of 64 rows.

ghost use Rattle.std.specs.Prelude.{ℕ, ◌≡◌, ◌+◌, ◌*◌, ◌≤◌, ◌<◌, length};
ghost use Rattle.ca_planes.specs.Trits.{HasNodes, state_in};
ghost use Rattle.ca_row_block.specs.Masks.{AreMasks};
ghost use Rattle.ca_row_block.specs.code.Loaded.{IsLoadedTo, rails_and, row_digit, side_of};

use crate::digits::{LANE_DIGITS, digit_plane, ones_in};
use ca_cell::MOST_INPUTS;
use ca_planes::{ALL_LANES, Block, LANES};

/// Which vector of a row is loaded.
#[derive(Clone, Copy, Debug, PartialEq, Eq)]
pub(crate) enum Side {
    First,
    Last,
}

// The digit of the row's number that an input pin with `after` pins after it has.
fn row_digit(side: Side, inputs: usize, after: usize) -> usize
    requires inputs { inputs ≤ MOST_INPUTS }
    requires after { after < inputs }
    ensures { result ≡ row_digit side inputs after }
{
    match side {
        Side::First => inputs + after,
        Side::Last => after,
    }
}

/// Gives the first nodes, power, ground and the input pins, the values that they have in the rows of a block.
pub(crate) fn load_rows(side: Side, masks: &[u64], inputs: usize, number: usize, block: &mut Block)
    requires inputs { inputs ≤ MOST_INPUTS }
    requires mask_count { length masks.now ≡ LANE_DIGITS }
    requires masks { AreMasks masks.now }
    requires room { length block.old.ones.items ≡ length block.old.zeros.items }
    requires nodes { 2 + inputs ≤ length block.old.zeros.items }
    ensures loaded { (lane : ℕ) → lane < LANES
        → IsLoadedTo (2 + inputs) (rails_and (side_of side inputs (number * 64 + lane)))
        (state_in block.new lane) }
    ensures zeros { length block.new.zeros.items ≡ length block.old.zeros.items }
    ensures ones { length block.new.ones.items ≡ length block.old.ones.items }
{
    block.set(0, ones_in(ALL_LANES));
    block.set(1, ones_in(0));
    for place in 0..inputs {
        let digit = row_digit(side, inputs, inputs - 1 - place);
        block.set(2 + place, ones_in(digit_plane(masks, number, digit)));
    }
}

//! The digits of 64 numbers that follow one another, as planes.

ghost use Rattle.std.specs.Prelude.{ℕ, ◌≡◌, ◌+◌, ◌*◌, ◌<◌, length};
ghost use Rattle.ca_planes.specs.Plane.{has_lane};
ghost use Rattle.ca_planes.specs.Trits.{trit_in};
ghost use Rattle.ca_row_block.specs.Masks.{has_digit, AreMasks};
ghost use Rattle.ca_row_block.specs.code.Digits.{is_value};

use ca_planes::{ALL_LANES, LANES, Trits, except, has, with_lane};

/// How many digits the numbers of lanes have.
pub(crate) const LANE_DIGITS: usize = 6;

// The lanes whose number has this binary digit.
fn lane_mask(digit: usize) -> u64
    requires { digit < LANES }
    ensures { (lane : ℕ) → lane < LANES → has_lane result lane ≡ has_digit lane digit }
{
    let mut mask = 0;
    for lane in 0..LANES {
        mask = with_lane(mask, lane, has(lane as u64, digit));
    }
    mask
}

/// Finds for each digit of a lane's number the lanes that have it.
pub(crate) fn find_masks(masks: &mut [u64])
    requires { length masks.old ≡ LANE_DIGITS }
    ensures room { length masks.new ≡ LANE_DIGITS }
    ensures masks { AreMasks masks.new }
{
    for digit in 0..LANE_DIGITS {
        masks[digit] = lane_mask(digit);
    }
}

/// The lanes in which the number of the row has this binary digit: the rows of a block follow one another.
pub(crate) fn digit_plane(masks: &[u64], block: usize, digit: usize) -> u64
    requires room { length masks.now ≡ LANE_DIGITS }
    requires masks { AreMasks masks.now }
    requires digit { digit < LANES }
    ensures { (lane : ℕ) → lane < LANES → has_lane result lane ≡ has_digit (block * 64 + lane) digit }
{
    if digit < LANE_DIGITS {
        masks[digit]
    } else if has(block as u64, digit - LANE_DIGITS) {
        ALL_LANES
    } else {
        0
    }
}

/// 1 in the lanes of the plane, and 0 in all others.
pub(crate) fn ones_in(plane: u64) -> Trits
    ensures { (lane : ℕ) → lane < LANES → trit_in result lane ≡ is_value (has_lane plane lane) }
{
    Trits {
        zero: except(ALL_LANES, plane),
        one: plane,
    }
}

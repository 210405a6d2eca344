//! The lanes of each vector of an instance's input pins, and of each value that a table gives for them.

ghost use Rattle.std.specs.Prelude.{ℕ, ◌≡◌, ◌≢◌, ◌<◌, ◌≤◌, ◌*◌, ◌^◌, ◌==◌, length, true, false};
ghost use Rattle.std.specs.Prelude.{slice_index, All};
ghost use Rattle.std.specs.Prelude.{◌||◌, ◌&&◌, ◌↔◌, IsTrue};
ghost use Rattle.ca_net.specs.declared.trit.Trit.TheVariants.{One};
ghost use Rattle.ca_planes.specs.Plane.{has_lane, lane_at};
ghost use Rattle.ca_static.specs.LastTable.{entry_at, last_at};
ghost use Rattle.ca_sweep.specs.code.Lanes.{AreMasksTo, AreParted};

use ca_net::Trit;
use ca_planes::{ALL_LANES, both, either, except};
use ca_static::LastTable;

// Parts each of the first masks in two, by a plane: the last ones first, so that none is lost.
fn part(masks: &mut Vec<u64>, count: usize, one: u64)
    requires { 2 * count ≤ length masks.old.items }
    ensures { AreParted one count masks.old.items masks.new.items }
{
    for back in 0..count {
        let k = count - 1 - back;
        let mask = masks[k];
        masks[2 * k + 1] = both(mask, one);
        masks[2 * k] = except(mask, one);
    }
}

/// The lanes of each vector of these pins: that of number 0 first, the first pin the highest digit. Answers
/// how many vectors there are.
pub(crate) fn find_masks(ones: &[u64], pins: &[u32], masks: &mut Vec<u64>) -> usize
    requires few { length pins.now ≤ 6 }
    requires room { length masks.old.items ≡ 64 }
    requires within { All (λ net. net < length ones.now) pins.now }

    ensures count { result ≡ 2 ^ length pins.now }
    ensures room { length masks.new.items ≡ 64 }
    ensures masks { (lane : ℕ) → lane < 64
        → AreMasksTo (λ pin. lane_at ones.now (slice_index pins.now pin) lane) (length pins.now)
        masks.new.items lane }
{
    masks[0] = ALL_LANES;
    let mut count = 1;
    for pin in 0..pins.len() {
        part(masks, count, ones[pins[pin] as usize]);
        count *= 2;
    }
    count
}

/// The lanes in which the table gives 1 at an output pin, for the masks of its vectors.
pub(crate) fn given(masks: &[u64], count: usize, table: &LastTable, output: usize) -> u64
    requires count { count ≡ length table.now }
    requires room { count ≤ length masks.now }
    requires output { (number : ℕ) → number < length table.now
        → output < length (entry_at table.now number) }

    ensures one { (lane number : ℕ) → number < length table.now
        → ((k : ℕ) → k < length table.now → lane_at masks.now k lane ≡ (number == k))
        → has_lane result lane ≡ true → last_at table.now number output ≡ One }
    ensures other { (lane number : ℕ) → number < length table.now
        → ((k : ℕ) → k < length table.now → lane_at masks.now k lane ≡ (number == k))
        → has_lane result lane ≡ false → last_at table.now number output ≢ One }
{
    let mut found = 0;
    for number in 0..count {
        found = with_if(is_one(table.last(number, output)), found, masks[number]);
    }
    found
}

// Whether a value is 1.
fn is_one(value: Trit) -> bool
    ensures { IsTrue result ↔ (value ≡ One) }
{
    value == Trit::One
}

// The lanes of a plane, and if it is so those of another one.
fn with_if(is: bool, plane: u64, more: u64) -> u64
    ensures { (lane : ℕ) → has_lane result lane ≡ (has_lane plane lane || (is && has_lane more lane)) }
{
    if is { either(plane, more) } else { plane }
}

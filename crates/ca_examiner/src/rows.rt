//! Whether the good waves at the pins of a defect's instance still allow an exposing row.

ghost use Rattle.std.specs.Prelude.{◌≡◌, ◌<◌, ◌+◌, ◌/◌, ◌%◌, ◌^◌, ◌↔◌, length, IsTrue, IsFalse};
ghost use Rattle.ca_cell.specs.declared.rule.TheConstants.{MOST_INPUTS};
ghost use Rattle.ca_cell.specs.Row.{digit_value};
ghost use Rattle.ca_view.specs.Linked.{IsPlaced, place_in};
ghost use Rattle.ca_examiner.specs.code.PinRows.{end_of, IsOver, IsAllowed, IsSomeAllowed, IsNoneAllowed};

use crate::pins::input_pins;
use ca_cell::{MOST_INPUTS, Row, Rows};
use ca_net::{Trit, Wave, below};
use ca_sim::NetWaves;
use ca_view::View;

// Which vector of a pair.
#[derive(Clone, Copy, Debug, PartialEq, Eq)]
pub(crate) enum End {
    First,
    Last,
}

// Whether some row's vectors are at or above the values of the instance's pins, or it has one vector, which
// is at or above the first ones.
pub(crate) fn is_some_row_allowed<V: NetWaves>(
    chip: &View<'_>,
    waves: &V,
    u: usize,
    rows: &Rows,
) -> bool
    requires chip { (V.seen waves.now).chip ≡ chip.now.core }
    requires placed { IsPlaced chip.now.core (place_in chip.now.ranks) u }
    ensures some { IsTrue result → IsSomeAllowed (V.seen waves.now) u rows.now }
    ensures none { IsFalse result → IsNoneAllowed (V.seen waves.now) u rows.now }
{
    for place in 0..rows.len() {
        if is_row_allowed(chip, waves, u, rows.get(place)) {
            return true;
        }
    }
    false
}

// Whether the row is allowed.
fn is_row_allowed<V: NetWaves>(chip: &View<'_>, waves: &V, u: usize, row: Row) -> bool
    requires chip { (V.seen waves.now).chip ≡ chip.now.core }
    requires placed { IsPlaced chip.now.core (place_in chip.now.ranks) u }
    ensures { IsTrue result ↔ IsAllowed (V.seen waves.now) u row }
{
    if !is_over(chip, waves, u, End::First, row.first) {
        return false;
    }
    row.first == row.last || is_over(chip, waves, u, End::Last, row.last)
}

// Whether the vector of this number is at or above the values of the pins.
fn is_over<V: NetWaves>(chip: &View<'_>, waves: &V, u: usize, end: End, number: u8) -> bool
    requires chip { (V.seen waves.now).chip ≡ chip.now.core }
    requires placed { IsPlaced chip.now.core (place_in chip.now.ranks) u }
    ensures { IsTrue result ↔ IsOver (V.seen waves.now) end u number }
{
    chip.linked();
    let count = input_pins(chip, u).count;
    for pin in 0..count {
        let value = value_at_end(waves.good(chip.pin_net(u, pin)), end);
        if !below(value, digit(number, count - 1 - pin)) {
            return false;
        }
    }
    true
}

// The value of the wave at this end.
fn value_at_end(wave: Wave, end: End) -> Trit
    ensures { result ≡ end_of end wave }
{
    match end {
        End::First => wave.first,
        End::Last => wave.last,
    }
}

// The binary digit of a number with this many digits after it.
fn digit(number: u8, after: usize) -> Trit
    requires { after < MOST_INPUTS }
    ensures { result ≡ digit_value (number / 2 ^ after % 2) }
{
    if (number >> after) % 2 == 0 {
        Trit::Zero
    } else {
        Trit::One
    }
}

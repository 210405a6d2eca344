//! Whether the waves of a cell's pins still allow a row.

ghost use Rattle.std.specs.Prelude.{◌≡◌, ◌<◌, ◌≤◌, ◌+◌, ◌/◌, ◌%◌, ◌^◌, ◌↔◌, IsTrue, IsFalse, length};
ghost use Rattle.std.specs.List.{All};
ghost use Rattle.ca_cell.specs.Row.{digit_value};
ghost use Rattle.ca_guide.specs.PinRows.{end_of, IsOver, IsAllowed, IsSomeAllowed, IsNoneAllowed};

use crate::waves::NetWaves;
use ca_cell::{MOST_INPUTS, Row, Rows};
use ca_net::{Trit, Wave, below};

// Which vector of a pair.
#[derive(Clone, Copy, Debug, PartialEq, Eq)]
pub(crate) enum End {
    First,
    Last,
}

/// Whether some row's vectors are at or above the values of the pins, or it has one vector, which is at or
/// above the first ones. A defect for which none of its exposing rows is so is detected by no completion.
pub fn is_some_row_allowed<V: NetWaves>(waves: &V, pins: &[u32], rows: &Rows) -> bool
    requires few { length pins.now ≤ MOST_INPUTS }
    requires pins { All (λ net. net < length (V.seen waves.now).good) pins.now }
    ensures some { IsTrue result → IsSomeAllowed (V.seen waves.now).good pins.now rows.now }
    ensures none { IsFalse result → IsNoneAllowed (V.seen waves.now).good pins.now rows.now }
{
    for place in 0..rows.len() {
        if is_row_allowed(waves, pins, rows.get(place)) {
            return true;
        }
    }
    false
}

// Whether the row's vectors are at or above the values of the pins, or it has one vector, which is at or
// above the first ones.
fn is_row_allowed<V: NetWaves>(waves: &V, pins: &[u32], row: Row) -> bool
    requires few { length pins.now ≤ MOST_INPUTS }
    requires pins { All (λ net. net < length (V.seen waves.now).good) pins.now }
    ensures { IsTrue result ↔ IsAllowed (V.seen waves.now).good pins.now row }
{
    if !is_over(waves, pins, End::First, row.first) {
        return false;
    }
    row.first == row.last || is_over(waves, pins, End::Last, row.last)
}

// Whether the vector of this number is at or above the values of the pins.
fn is_over<V: NetWaves>(waves: &V, pins: &[u32], end: End, number: u8) -> bool
    requires few { length pins.now ≤ MOST_INPUTS }
    requires pins { All (λ net. net < length (V.seen waves.now).good) pins.now }
    ensures { IsTrue result ↔ IsOver (V.seen waves.now).good end pins.now number }
{
    let count = pins.len();
    for (pin, net) in pins.iter().enumerate() {
        let wave = waves.good(*net);
        if !below(value_at_end(wave, end), digit(number, count - 1 - pin)) {
            return false;
        }
    }
    true
}

// The value of the wave at this end.
fn value_at_end(wave: Wave, end: End) -> Trit
    ensures { result ≡ end_of end wave }
{
    match end {
        End::First => wave.first,
        End::Last => wave.last,
    }
}

// The digit of a number that `after` digits follow.
fn digit(number: u8, after: usize) -> Trit
    requires { after < MOST_INPUTS }
    ensures { result ≡ digit_value (number / 2 ^ after % 2) }
{
    if (number >> after) % 2 == 0 {
        Trit::Zero
    } else {
        Trit::One
    }
}

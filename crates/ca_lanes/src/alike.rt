//! First vectors whose rows have the same values.

ghost use Rattle.std.specs.Prelude.{◌≡◌, ◌+◌, ◌*◌, ◌<◌, ◌^◌, ℕ, length, IsTrue};
ghost use Rattle.ca_lanes.specs.GoodRows.{good_at, AreRows};

use crate::evaluate::place;
use ca_net::Trit;

// Whether the rows of a first vector have the values of those of the next one.
pub(crate) fn are_alike(values: &[Trit], count: usize, outputs: usize, first: usize) -> bool
    requires rows { AreRows values.now count outputs }
    requires next { first + 1 < count }
    ensures { IsTrue result → (last output : ℕ) → last < count → output < outputs
        → good_at values.now count outputs first last output
        ≡ good_at values.now count outputs (first + 1) last output }
{
    for last in 0..count {
        if !is_row_alike(values, count, outputs, first, last) {
            return false;
        }
    }
    true
}

// Whether the rows of one last vector have the same values.
fn is_row_alike(values: &[Trit], count: usize, outputs: usize, first: usize, last: usize) -> bool
    requires rows { AreRows values.now count outputs }
    requires next { first + 1 < count }
    requires last { last < count }
    ensures { IsTrue result → (output : ℕ) → output < outputs
        → good_at values.now count outputs first last output
        ≡ good_at values.now count outputs (first + 1) last output }
{
    for output in 0..outputs {
        let here = values[place(count, outputs, first, last, output)];
        let next = values[place(count, outputs, first + 1, last, output)];
        if here != next {
            return false;
        }
    }
    true
}

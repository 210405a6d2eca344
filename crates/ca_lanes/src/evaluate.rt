//! What the good values of a cell's rows give in each lane.

ghost use Rattle.std.specs.Prelude.{◌≡◌, ◌+◌, ◌*◌, ◌<◌, ◌≤◌, ◌^◌, ℕ, length};
ghost use Rattle.ca_lanes.specs.Choice.{choice_of};
ghost use Rattle.ca_lanes.specs.code.Allowed.{lanes_of};
ghost use Rattle.ca_lanes.specs.GoodRows.{good_at, AreRows};
ghost use Rattle.ca_lanes.specs.code.Given.{AreLikeNext, given_by, given_by_rows};

use crate::plane::Plane;
use crate::values::Values;
use ca_net::Trit;

// The place of a row's value.
pub(crate) fn place(count: usize, outputs: usize, first: usize, last: usize, output: usize) -> usize
    requires first { first < count }
    requires last { last < count }
    requires output { output < outputs }
    requires fits { (count * count) * outputs < 2 ^ 64 }
    ensures place { result ≡ (first * count + last) * outputs + output }
    ensures within { result < (count * count) * outputs }
{
    (first * count + last) * outputs + output
}

// What the rows of one vector each give, for the masks of the vectors.
pub(crate) fn first_values(
    values: &[Trit],
    outputs: usize,
    output: usize,
    firsts: &[Plane],
) -> Values
    requires rows { AreRows values.now (length firsts.now) outputs }
    requires output { output < outputs }
    ensures { (lane : ℕ) → choice_of result lane
        ≡ given_by (lanes_of firsts.now lane)
        (λ vector. good_at values.now (length firsts.now) outputs vector vector output)
        (length firsts.now) }
{
    let count = firsts.len();
    let mut found = Values::none();
    for vector in 0..count {
        found = found.with(
            firsts[vector],
            values[place(count, outputs, vector, vector, output)],
        );
    }
    found
}

// What the rows of a first vector give, for the masks of the last vectors.
fn row_values(
    values: &[Trit],
    outputs: usize,
    output: usize,
    first: usize,
    lasts: &[Plane],
) -> Values
    requires rows { AreRows values.now (length lasts.now) outputs }
    requires output { output < outputs }
    requires first { first < length lasts.now }
    ensures { (lane : ℕ) → choice_of result lane
        ≡ given_by (lanes_of lasts.now lane)
        (λ last. good_at values.now (length lasts.now) outputs first last output)
        (length lasts.now) }
{
    let count = lasts.len();
    let mut found = Values::none();
    for last in 0..count {
        found = found.with(
            lasts[last],
            values[place(count, outputs, first, last, output)],
        );
    }
    found
}

// What all rows give, for the masks of the first vectors and those of the last ones. First vectors that
// follow one another and have the same rows are taken together, so a cell that keeps no charge costs one row.
pub(crate) fn last_values(
    values: &[Trit],
    like_next: &[bool],
    outputs: usize,
    output: usize,
    firsts: &[Plane],
    lasts: &[Plane],
) -> Values
    requires rows { AreRows values.now (length lasts.now) outputs }
    requires like { AreLikeNext values.now (length lasts.now) outputs like_next.now }
    requires counts { length firsts.now ≡ length lasts.now }
    requires marks { length like_next.now ≡ length lasts.now }
    requires output { output < outputs }
    ensures { (lane : ℕ) → choice_of result lane
        ≡ given_by_rows (lanes_of firsts.now lane) (lanes_of lasts.now lane)
        (λ first last. good_at values.now (length lasts.now) outputs first last output)
        (length lasts.now) (length lasts.now) }
{
    let count = lasts.len();
    let mut found = Values::none();
    let mut together = Plane::none();
    for first in 0..count {
        together = together.either(firsts[first]);
        if first + 1 == count || !like_next[first] {
            found = found.either(row_values(values, outputs, output, first, lasts).over(together));
            together = Plane::none();
        }
    }
    found
}

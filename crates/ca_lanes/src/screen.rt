//! The lanes in which some of the rows is allowed.

ghost use Rattle.std.specs.Prelude.{◌≡◌, ℕ, length};
ghost use Rattle.std.specs.List.{All, list_any};
ghost use Rattle.ca_lanes.specs.Plane.{lane_of};
ghost use Rattle.ca_lanes.specs.code.Allowed.{lanes_of, is_row_allowed};
ghost use Rattle.ca_lanes.specs.Screened.{IsRowIn};

use crate::plane::Plane;
use ca_cell::Row;

// The lanes in which some of the rows is allowed, for the masks of the first vectors and those of the last
// ones.
pub(crate) fn suspect_lanes(rows: &[Row], firsts: &[Plane], lasts: &[Plane]) -> Plane
    requires rows { All (IsRowIn (length firsts.now)) rows.now }
    requires counts { length firsts.now ≡ length lasts.now }
    ensures { (lane : ℕ) → lane_of result lane
        ≡ list_any (is_row_allowed (lanes_of firsts.now lane) (lanes_of lasts.now lane)) rows.now }
{
    let mut found = Plane::none();
    for place in 0..rows.len() {
        found = found.either(allowed_lanes(rows[place], firsts, lasts));
    }
    found
}

// The lanes in which the row is allowed.
fn allowed_lanes(row: Row, firsts: &[Plane], lasts: &[Plane]) -> Plane
    requires row { IsRowIn (length firsts.now) row }
    requires counts { length firsts.now ≡ length lasts.now }
    ensures { (lane : ℕ) → lane_of result lane
        ≡ is_row_allowed (lanes_of firsts.now lane) (lanes_of lasts.now lane) row }
{
    // A cell downstream may keep a value of the first vector, so a row of one vector counts wherever that is
    // allowed first.
    if row.first == row.last {
        firsts[row.first as usize]
    } else {
        firsts[row.first as usize].both(lasts[row.last as usize])
    }
}

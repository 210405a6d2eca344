//! Masks of vectors, one for each instance.

ghost use Rattle.std.specs.Prelude.{◌≡◌, ◌<◌, length};
ghost use Rattle.ca_flat.specs.Chip.{count_of};
ghost use Rattle.ca_view.specs.Linked.{IsPlaced, place_in};
ghost use Rattle.ca_every_vector.specs.code.Masks.{AreMore, IsAdded, HaveAllOver, HaveAllSeen};

use crate::rows::{rows_over, rows_seen};
use ca_net::State;
use ca_sweep::Sweep;
use ca_view::View;

/// Adds rows to the mask of an instance.
pub(crate) fn add(masks: &mut [u64], u: usize, rows: u64)
    requires { u < length masks.old }
    ensures added { IsAdded u rows masks.new }
    ensures more { AreMore masks.old masks.new }
{
    masks[u] |= rows;
}

/// Adds to the masks of all instances the vectors at or above the values of their input nets.
pub(crate) fn add_over(chip: &View<'_>, values: &State, masks: &mut [u64])
    requires nets { length values.now ≡ length chip.now.core.nets }
    requires room { length masks.old ≡ count_of chip.now.core }
    ensures over { HaveAllOver chip.now.core (place_in chip.now.ranks) values.now
        (count_of chip.now.core) masks.new }
    ensures more { AreMore masks.old masks.new }
{
    for u in 0..chip.instances() {
        if chip.rank(u) > 0 {
            let rows = rows_over(chip, values, u);
            add(masks, u, rows);
        }
    }
}

/// Adds to the masks of all instances the vectors at or above the last values of their input nets, as far as
/// they matter.
pub(crate) fn add_seen(chip: &View<'_>, sweep: &mut Sweep<'_>, values: &State, masks: &mut [u64])
    requires nets { length values.now ≡ length chip.now.core.nets }
    requires room { length masks.old ≡ count_of chip.now.core }
    requires chip { sweep.old.chip ≡ chip.now.core }
    requires places { sweep.old.places ≡ chip.now.ranks }
    requires lasts { sweep.old.lasts ≡ values.now }
    ensures seen { HaveAllSeen chip.now.core (place_in chip.now.ranks) values.now
        (count_of chip.now.core) masks.new }
    ensures more { AreMore masks.old masks.new }
    ensures kept { sweep.new ≡ sweep.old }
{
    for u in 0..chip.instances() {
        if chip.rank(u) > 0 {
            let rows = rows_seen(chip, sweep, values, u);
            add(masks, u, rows);
        }
    }
}

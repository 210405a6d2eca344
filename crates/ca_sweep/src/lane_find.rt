//! In which of 64 lanes flips of output pins are seen, for all instances, the last ones of the order first.

ghost use Rattle.std.specs.Prelude.{ℕ, ◌≡◌, ◌<◌, ◌≤◌, ◌+◌, ◌*◌, ◌^◌, ◌⊎◌, length, false, true, None};
ghost use Rattle.ca_planes.specs.Plane.{has_lane, lane_at};
ghost use Rattle.ca_flat.specs.Chip.{count_of};
ghost use Rattle.ca_view.specs.Linked.{IsPlaced, place_in};
ghost use Rattle.ca_view.specs.Places.{cell_number};
ghost use Rattle.ca_sweep.specs.Tables.{AreTables, IsOrder};
ghost use Rattle.ca_sweep.specs.code.Faulty.{code_of};
ghost use Rattle.ca_sweep.specs.code.Firsts.{AreFirsts};
ghost use Rattle.ca_sweep.specs.code.Held.{IsAtRest};
ghost use Rattle.ca_sweep.specs.code.Kept.{AreAllStatic};
ghost use Rattle.ca_sweep.specs.code.Lanes.{AreSeenFrom, IsUnseen, flips_in, goods_in, trits_in, values_in};

use crate::cells::Tables;
use crate::lane_run::{LaneHalt, opposite_lanes, sweep_lanes};
use crate::lane_values::{LaneFlips, LaneValues};
use ca_planes::{ALL_LANES, both, either, except};
use ca_view::View;

// The lanes in which these flips are seen, by the planes of their instance.
fn seen_at(seen: &[u64], w: usize, flips: LaneFlips) -> u64
    requires few { w < 2 ^ 32 }
    requires room { 4 * w + 4 ≤ length seen.now }
    ensures { (lane : ℕ) → has_lane result lane ≡ false
        → ((has_lane flips.first lane ≡ false) × (has_lane flips.second lane ≡ false))
        ⊎ (lane_at seen.now (4 * w + code_of (has_lane flips.first lane) (has_lane flips.second lane)) lane
        ≡ false) }
{
    let first = both(except(flips.first, flips.second), seen[4 * w + 1]);
    let second = both(except(flips.second, flips.first), seen[4 * w + 2]);
    let two = both(both(flips.first, flips.second), seen[4 * w + 3]);
    either(first, either(second, two))
}

// The lanes in which flips of an instance's output pins are seen, where those of all later instances are
// known.
fn see(
    chip: &View<'_>,
    tables: &Tables,
    firsts: &[usize],
    count: usize,
    wanted: &[bool],
    goods: &[u64],
    values: &mut LaneValues,
    masks: &mut Vec<u64>,
    seen: &[u64],
    u: usize,
    flips: LaneFlips,
) -> u64
    requires placed { IsPlaced chip.now.core (place_in chip.now.ranks) u }
    requires tables { AreTables chip.now.core (place_in chip.now.ranks) (cell_number chip.now.chip)
        tables.now.items }
    requires all_static { AreAllStatic chip.now.core (place_in chip.now.ranks) }
    requires firsts { AreFirsts chip.now.core.outputs (length chip.now.core.nets) firsts.now }
    requires count { count ≡ length chip.now.core.outputs }
    requires wanted { length wanted.now ≡ count_of chip.now.core }
    requires nets { length goods.now ≡ length chip.now.core.nets }
    requires rest { (lane : ℕ) → lane < 64 → IsAtRest chip.now.core (trits_in goods.now lane)
        (values_in values.old lane) }
    requires masks { length masks.old.items ≡ 64 }
    requires seen { AreSeenFrom chip.now.core (place_in chip.now.ranks) goods.now
        (place_in chip.now.ranks u + 1) seen.now }

    ensures unseen { (lane : ℕ) → lane < 64 → has_lane result lane ≡ false
        → IsUnseen chip.now.core (place_in chip.now.ranks) (goods_in goods.now lane) u (flips_in flips lane) }
    ensures rest { (lane : ℕ) → lane < 64 → IsAtRest chip.now.core (trits_in goods.now lane)
        (values_in values.new lane) }
    ensures masks { length masks.new.items ≡ 64 }
{
    chip.linked();
    let halt = sweep_lanes(chip, tables, wanted, goods, values, masks, u, flips);
    let here = opposite_lanes(chip, firsts, count, goods, values, u);
    values.restore(chip, goods, u);
    match halt {
        LaneHalt::Done => here,
        LaneHalt::Cut(cut) => either(here, seen_at(seen, cut.instance as usize, cut.flips)),
    }
}

// The flips of a choice of output pins, in all lanes.
fn flips_of(first: bool, second: bool) -> LaneFlips
    ensures first { (lane : ℕ) → lane < 64 → has_lane result.first lane ≡ first }
    ensures second { (lane : ℕ) → lane < 64 → has_lane result.second lane ≡ second }
{
    LaneFlips {
        first: plane_of(first),
        second: plane_of(second),
    }
}

// All lanes, or none.
fn plane_of(is: bool) -> u64
    ensures { (lane : ℕ) → lane < 64 → has_lane result lane ≡ is }
{
    if is { ALL_LANES } else { 0 }
}

// Finds it for an instance.
fn find_at(
    chip: &View<'_>,
    tables: &Tables,
    firsts: &[usize],
    count: usize,
    wanted: &[bool],
    goods: &[u64],
    values: &mut LaneValues,
    masks: &mut Vec<u64>,
    seen: &mut Vec<u64>,
    u: usize,
)
    requires placed { IsPlaced chip.now.core (place_in chip.now.ranks) u }
    requires tables { AreTables chip.now.core (place_in chip.now.ranks) (cell_number chip.now.chip)
        tables.now.items }
    requires all_static { AreAllStatic chip.now.core (place_in chip.now.ranks) }
    requires firsts { AreFirsts chip.now.core.outputs (length chip.now.core.nets) firsts.now }
    requires count { count ≡ length chip.now.core.outputs }
    requires wanted { length wanted.now ≡ count_of chip.now.core }
    requires nets { length goods.now ≡ length chip.now.core.nets }
    requires rest { (lane : ℕ) → lane < 64 → IsAtRest chip.now.core (trits_in goods.now lane)
        (values_in values.old lane) }
    requires masks { length masks.old.items ≡ 64 }
    requires seen { AreSeenFrom chip.now.core (place_in chip.now.ranks) goods.now
        (place_in chip.now.ranks u + 1) seen.old.items }

    ensures seen { AreSeenFrom chip.now.core (place_in chip.now.ranks) goods.now
        (place_in chip.now.ranks u) seen.new.items }
    ensures rest { (lane : ℕ) → lane < 64 → IsAtRest chip.now.core (trits_in goods.now lane)
        (values_in values.new lane) }
    ensures masks { length masks.new.items ≡ 64 }
{
    chip.linked();
    let only = flips_of(true, false);
    let first = see(
        chip, tables, firsts, count, wanted, goods, values, masks, seen, u, only,
    );
    if chip.outputs_at(u) <= 1 {
        put_three(seen, u, first, 0, first);
        return;
    }
    let only = flips_of(false, true);
    let second = see(
        chip, tables, firsts, count, wanted, goods, values, masks, seen, u, only,
    );
    let two = flips_of(true, true);
    let two = see(
        chip, tables, firsts, count, wanted, goods, values, masks, seen, u, two,
    );
    put_three(seen, u, first, second, two);
}

// Keeps the planes of the three choices with a flip.
fn put_three(seen: &mut Vec<u64>, u: usize, first: u64, second: u64, two: u64)
    requires few { u < 2 ^ 32 }
    requires room { 4 * u + 4 ≤ length seen.old.items }
    ensures { AreThreePut u first second two seen.old.items seen.new.items }
{
    seen[4 * u + 1] = first;
    seen[4 * u + 2] = second;
    seen[4 * u + 3] = two;
}

ghost use Rattle.ca_sweep.specs.code.Lanes.{AreThreePut};

// Finds it for an instance, if it is wanted: else its flips count as seen in all lanes.
fn find_wanted(
    chip: &View<'_>,
    tables: &Tables,
    firsts: &[usize],
    count: usize,
    wanted: &[bool],
    goods: &[u64],
    values: &mut LaneValues,
    masks: &mut Vec<u64>,
    seen: &mut Vec<u64>,
    u: usize,
)
    requires placed { IsPlaced chip.now.core (place_in chip.now.ranks) u }
    requires tables { AreTables chip.now.core (place_in chip.now.ranks) (cell_number chip.now.chip)
        tables.now.items }
    requires all_static { AreAllStatic chip.now.core (place_in chip.now.ranks) }
    requires firsts { AreFirsts chip.now.core.outputs (length chip.now.core.nets) firsts.now }
    requires count { count ≡ length chip.now.core.outputs }
    requires wanted { length wanted.now ≡ count_of chip.now.core }
    requires nets { length goods.now ≡ length chip.now.core.nets }
    requires rest { (lane : ℕ) → lane < 64 → IsAtRest chip.now.core (trits_in goods.now lane)
        (values_in values.old lane) }
    requires masks { length masks.old.items ≡ 64 }
    requires seen { AreSeenFrom chip.now.core (place_in chip.now.ranks) goods.now
        (place_in chip.now.ranks u + 1) seen.old.items }

    ensures seen { AreSeenFrom chip.now.core (place_in chip.now.ranks) goods.now
        (place_in chip.now.ranks u) seen.new.items }
    ensures rest { (lane : ℕ) → lane < 64 → IsAtRest chip.now.core (trits_in goods.now lane)
        (values_in values.new lane) }
    ensures masks { length masks.new.items ≡ 64 }
{
    chip.linked();
    if wanted[u] {
        find_at(
            chip, tables, firsts, count, wanted, goods, values, masks, seen, u,
        );
    } else {
        put_three(seen, u, ALL_LANES, ALL_LANES, ALL_LANES);
    }
}

/// Finds it for all instances with a place that are wanted. Flips of the others count as seen in all lanes.
pub(crate) fn find_lanes(
    chip: &View<'_>,
    tables: &Tables,
    firsts: &[usize],
    count: usize,
    order: &[Option<usize>],
    wanted: &[bool],
    goods: &[u64],
    values: &mut LaneValues,
    masks: &mut Vec<u64>,
    seen: &mut Vec<u64>,
)
    requires tables { AreTables chip.now.core (place_in chip.now.ranks) (cell_number chip.now.chip)
        tables.now.items }
    requires all_static { AreAllStatic chip.now.core (place_in chip.now.ranks) }
    requires firsts { AreFirsts chip.now.core.outputs (length chip.now.core.nets) firsts.now }
    requires count { count ≡ length chip.now.core.outputs }
    requires wanted { length wanted.now ≡ count_of chip.now.core }
    requires nets { length goods.now ≡ length chip.now.core.nets }
    requires rest { (lane : ℕ) → lane < 64 → IsAtRest chip.now.core (trits_in goods.now lane)
        (values_in values.old lane) }
    requires masks { length masks.old.items ≡ 64 }
    requires order { IsOrder chip.now.core (place_in chip.now.ranks) order.now }
    requires room { length seen.old.items ≡ 4 * count_of chip.now.core }

    ensures seen { AreSeenFrom chip.now.core (place_in chip.now.ranks) goods.now 0 seen.new.items }
    ensures rest { (lane : ℕ) → lane < 64 → IsAtRest chip.now.core (trits_in goods.now lane)
        (values_in values.new lane) }
    ensures masks { length masks.new.items ≡ 64 }
{
    chip.linked();
    let places = order.len();
    for before in 0..places {
        if let Some(u) = order[places - 1 - before] {
            find_wanted(
                chip, tables, firsts, count, wanted, goods, values, masks, seen, u,
            );
        }
    }
}

//! One sweep in 64 lanes at once.

ghost use Rattle.std.specs.Prelude.{ℕ, ◌+◌, ◌^◌, ◌≡◌, ◌<◌, length, false, None, IsTrue};
ghost use Rattle.ca_net.specs.State.{value_at};
ghost use Rattle.ca_planes.specs.Plane.{has_lane};
ghost use Rattle.ca_flat.specs.Chip.{cell_at, count_of, output_net, outputs_at};
ghost use Rattle.ca_flat.specs.Codes.{bit_trit};
ghost use Rattle.ca_places.specs.PlaceSet.{IsNext};
ghost use Rattle.ca_view.specs.Linked.{IsPlaced, place_in};
ghost use Rattle.ca_view.specs.Places.{cell_number};
ghost use Rattle.ca_static.specs.LastTable.{IsLastTable};
ghost use Rattle.ca_sweep.specs.Seen.{flipped_if};
ghost use Rattle.ca_sweep.specs.Tables.{AreTables};
ghost use Rattle.ca_sweep.specs.code.Firsts.{AreFirsts, IsLessened};
ghost use Rattle.ca_sweep.specs.code.Held.{IsAtRest, IsHeld};
ghost use Rattle.ca_sweep.specs.code.Kept.{AreAllStatic};
ghost use Rattle.ca_sweep.specs.code.Lanes.{AreLanesRoomy, flips_in, goods_in, halt_in, trits_in, values_in};
ghost use Rattle.ca_sweep.specs.code.Segments.{AreFlippedAt, IsFirstNumber, IsHalt};

use crate::cells::Tables;
use crate::lane_values::{LaneFlips, LaneValues};
use crate::run::is_last;
use ca_places::PlaceSet;
use ca_planes::{either, except};
use ca_static::LastTable;
use ca_view::View;

/// Where a sweep in lanes is cut: an instance, and in which lanes which of its output pins have the opposite
/// of the good last value.
#[derive(Clone, Copy, Debug)]
pub(crate) struct LaneCut {
    pub(crate) instance: u32,
    pub(crate) flips: LaneFlips,
}

/// How a sweep in lanes ends: all values are found, or they are up to an instance, and only its flipped
/// outputs are read with other values after it.
#[derive(Clone, Copy, Debug)]
pub(crate) enum LaneHalt {
    Done,
    Cut(LaneCut),
}

/// The table of an instance's cell, where all cells are static.
pub(crate) fn table_at<'t>(chip: &View<'_>, tables: &'t Tables, w: usize) -> &'t LastTable
    requires placed { IsPlaced chip.now.core (place_in chip.now.ranks) w }
    requires tables { AreTables chip.now.core (place_in chip.now.ranks) (cell_number chip.now.chip)
        tables.now.items }
    requires all_static { AreAllStatic chip.now.core (place_in chip.now.ranks) }
    ensures { IsLastTable (cell_at chip.now.core w) result.now }
{
    match &tables[chip.number(w)] {
        Some(table) => table,
        None => unreachable!(),
    }
}

// The lanes in which a value is another one than the good one.
fn changed(good: u64, value: u64) -> u64
    ensures { (lane : ℕ) → bit_trit (has_lane value lane)
        ≡ flipped_if (has_lane result lane) (bit_trit (has_lane good lane)) }
{
    either(except(good, value), except(value, good))
}

// The lanes in which an output pin, if there is one, has another value than the good one.
fn flip_at(chip: &View<'_>, goods: &[u64], ones: &[u64], w: usize, output: usize) -> u64
    requires placed { IsPlaced chip.now.core (place_in chip.now.ranks) w }
    requires nets { length goods.now ≡ length chip.now.core.nets }
    requires same { length ones.now ≡ length chip.now.core.nets }
    ensures { (lane : ℕ) → output < outputs_at chip.now.core w
        → value_at (trits_in ones.now lane) (output_net chip.now.core w output)
        ≡ flipped_if (has_lane result lane) (goods_in goods.now lane (output_net chip.now.core w output)) }
{
    chip.linked();
    if output >= chip.outputs_at(w) {
        return 0;
    }
    let net = chip.pin_net(w, chip.inputs_at(w) + output);
    changed(goods[net], ones[net])
}

// In which lanes which output pins of an instance have another value than the good one.
fn flips_at(chip: &View<'_>, goods: &[u64], ones: &[u64], w: usize) -> LaneFlips
    requires placed { IsPlaced chip.now.core (place_in chip.now.ranks) w }
    requires nets { length goods.now ≡ length chip.now.core.nets }
    requires same { length ones.now ≡ length chip.now.core.nets }
    ensures { (lane : ℕ) → AreFlippedAt chip.now.core (goods_in goods.now lane) w (flips_in result lane)
        (value_at (trits_in ones.now lane)) }
{
    chip.linked();
    let _outputs = chip.cell(w).outputs();
    LaneFlips {
        first: flip_at(chip, goods, ones, w, 0),
        second: flip_at(chip, goods, ones, w, 1),
    }
}

// Whether a sweep is cut at a place: its instance is wanted, and no place after it is due.
fn is_cut(due: &PlaceSet, place: usize, is_wanted: bool) -> bool
    requires { place < 2 ^ 33 }
    ensures { IsTrue result → IsNext due.now (place + 1) None }
{
    is_wanted && is_last(due, place)
}

/// Finds the values of the nets where some output pins of an instance are flipped, up to an instance that is
/// wanted and the only one due, or to the end. Its time is that of what it evaluates.
pub(crate) fn sweep_lanes(
    chip: &View<'_>,
    tables: &Tables,
    wanted: &[bool],
    goods: &[u64],
    values: &mut LaneValues,
    masks: &mut Vec<u64>,
    u: usize,
    flips: LaneFlips,
) -> LaneHalt
    requires placed { IsPlaced chip.now.core (place_in chip.now.ranks) u }
    requires tables { AreTables chip.now.core (place_in chip.now.ranks) (cell_number chip.now.chip)
        tables.now.items }
    requires all_static { AreAllStatic chip.now.core (place_in chip.now.ranks) }
    requires wanted { length wanted.now ≡ count_of chip.now.core }
    requires nets { length goods.now ≡ length chip.now.core.nets }
    requires rest { (lane : ℕ) → lane < 64 → IsAtRest chip.now.core (trits_in goods.now lane)
        (values_in values.old lane) }
    requires masks { length masks.old.items ≡ 64 }

    ensures swept { (lane : ℕ) → lane < 64 → IsHalt chip.now.core (place_in chip.now.ranks)
        (goods_in goods.now lane) u (flips_in flips lane) (value_at (trits_in values.new.ones.items lane))
        (halt_in result lane) }
    ensures held { (lane : ℕ) → lane < 64 → IsHeld chip.now.core (place_in chip.now.ranks) u
        (goods_in goods.now lane) (values_in values.new lane) }
    ensures masks { length masks.new.items ≡ 64 }
{
    chip.linked();
    values.flip(chip, u, flips);
    let mut from = chip.rank(u) + 1;
    'places: while let Some(place) = values.due.next(from) {
        let w = chip.order(place);
        let is_cut = is_cut(&values.due, place, wanted[w]);
        values.evaluate(chip, table_at(chip, tables, w), masks, w);
        if is_cut {
            return LaneHalt::Cut(LaneCut {
                instance: w as u32,
                flips: flips_at(chip, goods, &values.ones, w),
            });
        }
        from = place + 1;
    }
    LaneHalt::Done
}

// The lanes in which an observed output on an output net of an instance has another value than the good one,
// and those of before.
fn own_opposite(
    chip: &View<'_>,
    firsts: &[usize],
    count: usize,
    goods: &[u64],
    ones: &[u64],
    w: usize,
    seen: u64,
) -> u64
    requires placed { IsPlaced chip.now.core (place_in chip.now.ranks) w }
    requires firsts { AreFirsts chip.now.core.outputs (length chip.now.core.nets) firsts.now }
    requires nets { length goods.now ≡ length chip.now.core.nets }
    requires same { length ones.now ≡ length chip.now.core.nets }
    ensures { (lane : ℕ) → has_lane result lane ≡ false → (has_lane seen lane ≡ false)
        × IsLessened chip.now.core (goods_in goods.now lane) (value_at (trits_in ones.now lane)) firsts.now w
        count count }
{
    chip.linked();
    let mut seen_here = seen;
    let pin = chip.inputs_at(w);
    for output in 0..chip.outputs_at(w) {
        let net = chip.pin_net(w, pin + output);
        seen_here = with_changed(seen_here, firsts[net] < count, goods[net], ones[net]);
    }
    seen_here
}

// The lanes of a plane, and if a net is observed those in which its value is another one than the good one.
fn with_changed(seen: u64, is_observed: bool, good: u64, value: u64) -> u64
    ensures { (lane : ℕ) → has_lane result lane ≡ false → (has_lane seen lane ≡ false)
        × (is_observed ≡ true → bit_trit (has_lane value lane) ≡ bit_trit (has_lane good lane)) }
{
    if is_observed {
        either(seen, changed(good, value))
    } else {
        seen
    }
}

ghost use Rattle.std.specs.Prelude.{true};

/// The lanes in which some observed output has another value than the good one, where only output nets of an
/// instance and of those that are due may have other values. Its time is that of those.
pub(crate) fn opposite_lanes(
    chip: &View<'_>,
    firsts: &[usize],
    count: usize,
    goods: &[u64],
    values: &LaneValues,
    u: usize,
) -> u64
    requires placed { IsPlaced chip.now.core (place_in chip.now.ranks) u }
    requires firsts { AreFirsts chip.now.core.outputs (length chip.now.core.nets) firsts.now }
    requires count { count ≡ length chip.now.core.outputs }
    requires nets { length goods.now ≡ length chip.now.core.nets }
    requires held { (lane : ℕ) → lane < 64 → IsHeld chip.now.core (place_in chip.now.ranks) u
        (goods_in goods.now lane) (values_in values.now lane) }
    ensures { (lane : ℕ) → lane < 64 → has_lane result lane ≡ false
        → IsFirstNumber (goods_in goods.now lane) (value_at (trits_in values.now.ones.items lane))
        chip.now.core.outputs count }
{
    chip.linked();
    let mut seen = own_opposite(chip, firsts, count, goods, &values.ones, u, 0);
    let mut from = 0;
    while let Some(place) = values.due.next(from) {
        seen = own_opposite(
            chip,
            firsts,
            count,
            goods,
            &values.ones,
            chip.order(place),
            seen,
        );
        from = place + 1;
    }
    seen
}

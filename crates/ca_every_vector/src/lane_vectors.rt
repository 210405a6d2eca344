//! Vectors at the input pins of an instance in 64 lanes, and what its cell ends with there.

ghost use Rattle.std.specs.Prelude.{ℕ, ◌≡◌, ◌≢◌, ◌≤◌, ◌*◌, ◌<◌, ◌^◌, ◌↔◌, length, true, false};
ghost use Rattle.ca_net.specs.declared.trit.Trit.TheVariants.{X};
ghost use Rattle.ca_net.specs.State.{value_at};
ghost use Rattle.ca_net.specs.Trit.{IsBelow};
ghost use Rattle.ca_cell.specs.Row.{vector_of};
ghost use Rattle.ca_flat.specs.Chip.{cell_at, inputs_at, outputs_at, net_of};
ghost use Rattle.ca_planes.specs.Plane.{has_lane};
ghost use Rattle.ca_planes.specs.Trits.{HasNodes, trit_in};
ghost use Rattle.ca_static.specs.LastTable.{IsLastTable, entry_at};
ghost use Rattle.ca_sweep.specs.Tables.{AreTables};
ghost use Rattle.ca_view.specs.Linked.{IsPlaced, place_in};
ghost use Rattle.ca_view.specs.Places.{cell_number};
ghost use Rattle.ca_every_vector.specs.code.Lanes.{AreApart, AreEnds, AreHalved, AreVectorMasks, InLanes};
ghost use Rattle.ca_every_vector.specs.code.Lanes.{IsCovered, values_of};
ghost use Rattle.ca_every_vector.specs.code.Spread.{HasEntry, IsGiven};

use crate::vectors::digit;
use ca_net::Trit;
use ca_planes::{ALL_LANES, Block, Trits, both, either, except, is_one, is_zero};
use ca_static::LastTable;
use ca_view::View;

/// The lanes in which a value is this one.
pub(crate) fn lanes_with(value: Trits, wanted: Trit) -> u64
    ensures { (lane : ℕ) → lane < 64 → (has_lane result lane ≡ true) ↔ (trit_in value lane ≡ wanted) }
{
    match wanted {
        Trit::Zero => is_zero(value.one),
        Trit::One => is_one(value.zero, value.one),
        Trit::X => both(value.zero, value.one),
    }
}

/// The lanes in which a value is definite.
pub(crate) fn lanes_definite(value: Trits) -> u64
    ensures { InLanes result (λ lane. trit_in value lane ≢ X) }
{
    except(ALL_LANES, lanes_with(value, Trit::X))
}

// Parts each of the first masks in two, by two planes: the last ones first, so that none is lost.
fn part(masks: &mut Vec<u64>, count: usize, zero: u64, one: u64)
    requires { 2 * count ≤ length masks.old.items }
    ensures { AreHalved zero one count masks.old.items masks.new.items }
{
    for back in 0..count {
        let k = count - 1 - back;
        let mask = masks[k];
        masks[2 * k + 1] = both(mask, one);
        masks[2 * k] = both(mask, zero);
    }
}

/// For each vector of an instance's input pins the lanes in which its input nets have it: that of number 0
/// first, the first pin the highest digit. Answers how many vectors there are.
pub(crate) fn find_masks(chip: &View<'_>, values: &Block, w: usize, masks: &mut Vec<u64>) -> usize
    requires placed { IsPlaced chip.now.core (place_in chip.now.ranks) w }
    requires nets { HasNodes (length chip.now.core.nets) values.now }
    requires room { length masks.old.items ≡ 64 }
    ensures count { result ≡ 2 ^ inputs_at chip.now.core w }
    ensures room { length masks.new.items ≡ 64 }
    ensures masks { AreVectorMasks chip.now.core w values.now masks.new.items }
{
    chip.linked();
    masks[0] = ALL_LANES;
    let mut count = 1;
    for pin in 0..chip.inputs_at(w) {
        let value = values.get(chip.pin_net(w, pin));
        let zero = lanes_with(value, Trit::Zero);
        let one = lanes_with(value, Trit::One);
        part(masks, count, zero, one);
        count *= 2;
    }
    count
}

/// The lanes in which the vector of a number is at or above the values of an instance's input nets.
pub(crate) fn lanes_over(chip: &View<'_>, values: &Block, u: usize, number: usize) -> u64
    requires placed { IsPlaced chip.now.core (place_in chip.now.ranks) u }
    requires nets { HasNodes (length chip.now.core.nets) values.now }
    ensures { (lane : ℕ) → lane < 64
        → ((pin : ℕ) → pin < inputs_at chip.now.core u
        → IsBelow (values_of values.now lane (net_of chip.now.core u pin))
        (value_at (vector_of (inputs_at chip.now.core u) number) pin)) → has_lane result lane ≡ true }
{
    chip.linked();
    let count = chip.inputs_at(u);
    let mut lanes = ALL_LANES;
    for pin in 0..count {
        let value = values.get(chip.pin_net(u, pin));
        lanes = both(lanes, lanes_below(value, digit(number, count - 1 - pin)));
    }
    lanes
}

// The lanes in which a value is at or below this one, among others.
fn lanes_below(value: Trits, above: Trit) -> u64
    ensures { (lane : ℕ) → lane < 64 → IsBelow (trit_in value lane) above → has_lane result lane ≡ true }
{
    either(lanes_with(value, above), lanes_with(value, Trit::X))
}

/// The lanes in which the values of an instance's input nets are definite.
pub(crate) fn lanes_known(chip: &View<'_>, values: &Block, w: usize) -> u64
    requires placed { IsPlaced chip.now.core (place_in chip.now.ranks) w }
    requires nets { HasNodes (length chip.now.core.nets) values.now }
    ensures { InLanes result (λ lane. (pin : ℕ) → pin < inputs_at chip.now.core w
        → values_of values.now lane (net_of chip.now.core w pin) ≢ X) }
{
    chip.linked();
    let mut lanes = ALL_LANES;
    for pin in 0..chip.inputs_at(w) {
        let value = values.get(chip.pin_net(w, pin));
        lanes = both(lanes, lanes_definite(value));
    }
    lanes
}

// The lanes in which the output nets of an instance have the last values of an entry of its cell's table.
fn lanes_ended(chip: &View<'_>, table: &LastTable, values: &Block, w: usize, number: usize) -> u64
    requires placed { IsPlaced chip.now.core (place_in chip.now.ranks) w }
    requires nets { HasNodes (length chip.now.core.nets) values.now }
    requires table { IsLastTable (cell_at chip.now.core w) table.now }
    requires number { number < length table.now }
    ensures { InLanes result (λ lane. HasEntry chip.now.core w (values_of values.now lane) table.now number
        (outputs_at chip.now.core w)) }
{
    chip.linked();
    let first = chip.inputs_at(w);
    let mut lanes = ALL_LANES;
    for output in 0..chip.outputs_at(w) {
        let value = values.get(chip.pin_net(w, first + output));
        lanes = both(lanes, lanes_with(value, table.last(number, output)));
    }
    lanes
}

// The lanes in which an instance's input nets have known values, and its output nets what its cell ends with
// by them.
fn lanes_by(
    chip: &View<'_>,
    table: &LastTable,
    values: &Block,
    w: usize,
    masks: &mut Vec<u64>,
) -> u64
    requires placed { IsPlaced chip.now.core (place_in chip.now.ranks) w }
    requires nets { HasNodes (length chip.now.core.nets) values.now }
    requires table { IsLastTable (cell_at chip.now.core w) table.now }
    requires room { length masks.old.items ≡ 64 }
    ensures given { InLanes result (λ lane. IsGiven chip.now.core w (values_of values.now lane)) }
    ensures room { length masks.new.items ≡ 64 }
{
    chip.linked();
    let count = find_masks(chip, values, w, masks);
    let mut lanes = 0;
    for number in 0..count {
        let mask = masks[number];
        let ended = lanes_ended(chip, table, values, w, number);
        lanes = either(lanes, both(mask, ended));
    }
    lanes
}

/// The same by the tables of cells.
pub(crate) fn lanes_given(
    chip: &View<'_>,
    tables: &[Option<LastTable>],
    values: &Block,
    w: usize,
    masks: &mut Vec<u64>,
) -> u64
    requires placed { IsPlaced chip.now.core (place_in chip.now.ranks) w }
    requires tables { AreTables chip.now.core (place_in chip.now.ranks) (cell_number chip.now.chip)
        tables.now }
    requires nets { HasNodes (length chip.now.core.nets) values.now }
    requires room { length masks.old.items ≡ 64 }
    ensures given { InLanes result (λ lane. IsGiven chip.now.core w (values_of values.now lane)) }
    ensures room { length masks.new.items ≡ 64 }
{
    chip.linked();
    match &tables[chip.number(w)] {
        Some(table) => lanes_by(chip, table, values, w, masks),
        None => 0,
    }
}

// A value that is this one in some lanes.
fn with_end(value: Trits, lanes: u64, end: Trit) -> Trits
    ensures here { InLanes lanes (λ lane. trit_in result lane ≡ end) }
    ensures others { (lane : ℕ) → lane < 64 → has_lane lanes lane ≡ false
        → trit_in result lane ≡ trit_in value lane }
{
    match end {
        Trit::Zero => Trits {
            zero: either(value.zero, lanes),
            one: except(value.one, lanes),
        },
        Trit::One => Trits {
            zero: except(value.zero, lanes),
            one: either(value.one, lanes),
        },
        Trit::X => Trits {
            zero: either(value.zero, lanes),
            one: either(value.one, lanes),
        },
    }
}

/// What a table gives at an output pin, in the lanes of each of its vectors: X in those of none.
pub(crate) fn ends_by(table: &LastTable, masks: &[u64], count: usize, output: usize) -> Trits
    requires count { count ≡ length table.now }
    requires room { count ≤ length masks.now }
    requires apart { AreApart masks.now count }
    requires output { (number : ℕ) → number < length table.now
        → output < length (entry_at table.now number) }
    ensures { AreEnds table.now masks.now count output result }
{
    let mut ends = Trits::unknown();
    for number in 0..count {
        ends = with_end(ends, masks[number], table.last(number, output));
    }
    ends
}

/// The lanes that some of the first masks have.
pub(crate) fn lanes_covered(masks: &[u64], count: usize) -> u64
    requires room { count ≤ length masks.now }
    ensures { InLanes result (IsCovered masks.now count) }
{
    let mut lanes = 0;
    for number in 0..count {
        lanes = either(lanes, masks[number]);
    }
    lanes
}

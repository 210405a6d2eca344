//! The values of a region for 64 vectors of its inputs at once: a block of them.

ghost use Rattle.std.specs.Prelude.{ℕ, ◌≡◌, ◌+◌, ◌*◌, ◌/◌, ◌%◌, ◌^◌, ◌==◌, ◌<◌, ◌≤◌, length, IsTrue};
ghost use Rattle.std.specs.List.{All, Contains};
ghost use Rattle.ca_planes.specs.Plane.{has_lane};
ghost use Rattle.ca_planes.specs.Trits.{HasNodes, state_in};
ghost use Rattle.ca_flat.specs.Chip.{cell_at, inputs_at, outputs_at};
ghost use Rattle.ca_static.specs.LastTable.{IsLastTable};
ghost use Rattle.ca_view.specs.Linked.{IsPlaced, place_in};
ghost use Rattle.ca_view.specs.Places.{cell_number};
ghost use Rattle.ca_sweep.specs.Tables.{AreTables};
ghost use Rattle.ca_every_vector.specs.code.Lanes.{AreApart, AreAscending, AreDigits, AreEndsOut};
ghost use Rattle.ca_every_vector.specs.code.Lanes.{AreLanesKnown, AreLanesWithin, AreWrittenOut, InEach};
ghost use Rattle.ca_every_vector.specs.code.Lanes.{number_in, values_of};
ghost use Rattle.ca_every_vector.specs.code.Region.{AreFewInputs, HaveDigits};
ghost use Rattle.ca_every_vector.specs.code.Spread.{IsGiven};

use crate::lane_vectors::{ends_by, find_masks, lanes_covered};
use crate::lists::entry;
use crate::region::input_net;
use ca_planes::{ALL_LANES, Block, Trits, except, is_none, with_lane};
use ca_static::LastTable;
use ca_view::View;

// The value of a bit with this many after it, of the numbers of a block.
fn digit_lanes(block: usize, after: usize) -> Trits
    requires { after < 64 }
    ensures { AreDigits block after result }
{
    let one = if after < 6 {
        low_lanes(after)
    } else {
        high_lanes(block, after - 6)
    };
    Trits {
        zero: except(ALL_LANES, one),
        one,
    }
}

// The lanes whose own number has this bit.
fn low_lanes(after: usize) -> u64
    requires { after < 6 }
    ensures { InEach (λ lane. has_lane result lane ≡ (lane / 2 ^ after % 2 == 1)) }
{
    let mut plane = 0;
    for lane in 0..64usize {
        plane = with_lane(plane, lane, (lane >> after) % 2 == 1);
    }
    plane
}

// All lanes if the number has this bit, and else none.
fn high_lanes(number: usize, after: usize) -> u64
    requires { after < 64 }
    ensures { InEach (λ lane. has_lane result lane ≡ (number / 2 ^ after % 2 == 1)) }
{
    if (number >> after) % 2 == 1 {
        ALL_LANES
    } else {
        0
    }
}

// Gives the nets of a region's inputs the digits of the numbers of a block.
fn set_lanes(chip: &View<'_>, inputs: &[u16], parts: &[u32], block: usize, values: &mut Block)
    requires inputs { AreFewInputs chip.now.core inputs.now }
    requires nets { HasNodes (length chip.now.core.nets) values.old }
    requires within { AreLanesWithin chip.now.core inputs.now parts.now values.old }
    ensures nets { HasNodes (length chip.now.core.nets) values.new }
    ensures within { AreLanesWithin chip.now.core inputs.now parts.now values.new }
{
    let _ = parts.len();
    let count = inputs.len();
    for place in 0..count {
        let net = input_net(chip, inputs, place);
        values.set(net, digit_lanes(block, count - 1 - place));
    }
}

// Whether the nets of the inputs have the digits.
fn have_digits(chip: &View<'_>, inputs: &[u16], block: usize, values: &Block) -> bool
    requires inputs { AreFewInputs chip.now.core inputs.now }
    requires nets { HasNodes (length chip.now.core.nets) values.now }
    ensures { IsTrue result → InEach (λ lane. HaveDigits chip.now.core inputs.now (number_in block lane)
        (state_in values.now lane)) }
{
    let count = inputs.len();
    for place in 0..count {
        let net = input_net(chip, inputs, place);
        let wanted = digit_lanes(block, count - 1 - place);
        if !is_none(values.get(net).differ(wanted)) {
            return false;
        }
    }
    true
}

// Gives the output nets of an instance what its cell ends with, in the lanes of its vectors.
fn write_ends(
    chip: &View<'_>,
    table: &LastTable,
    masks: &[u64],
    count: usize,
    w: usize,
    values: &mut Block,
)
    requires placed { IsPlaced chip.now.core (place_in chip.now.ranks) w }
    requires table { IsLastTable (cell_at chip.now.core w) table.now }
    requires count { count ≡ length table.now }
    requires room { count ≤ length masks.now }
    requires apart { AreApart masks.now count }
    requires nets { HasNodes (length chip.now.core.nets) values.old }
    ensures nets { HasNodes (length chip.now.core.nets) values.new }
    ensures ends { AreEndsOut chip.now.core w table.now masks.now count (outputs_at chip.now.core w)
        values.new }
    ensures written { AreWrittenOut chip.now.core w values.old values.new }
{
    chip.linked();
    let first = chip.inputs_at(w);
    for output in 0..chip.outputs_at(w) {
        let ends = ends_by(table, masks, count, output);
        values.set(chip.pin_net(w, first + output), ends);
    }
}

// Gives the output nets of an instance what its cell ends with by the values of its input nets. Whether these
// are known in each lane.
fn evaluate_lanes(
    chip: &View<'_>,
    tables: &[Option<LastTable>],
    w: usize,
    values: &mut Block,
    masks: &mut Vec<u64>,
) -> bool
    requires placed { IsPlaced chip.now.core (place_in chip.now.ranks) w }
    requires tables { AreTables chip.now.core (place_in chip.now.ranks) (cell_number chip.now.chip)
        tables.now }
    requires nets { HasNodes (length chip.now.core.nets) values.old }
    requires room { length masks.old.items ≡ 64 }
    ensures nets { HasNodes (length chip.now.core.nets) values.new }
    ensures room { length masks.new.items ≡ 64 }
    ensures given { IsTrue result → InEach (λ lane. IsGiven chip.now.core w (values_of values.new lane)) }
    ensures written { AreWrittenOut chip.now.core w values.old values.new }
{
    chip.linked();
    match &tables[chip.number(w)] {
        Some(table) => {
            let count = find_masks(chip, values, w, masks);
            write_ends(chip, table, masks.as_slice(), count, w, values);
            is_none(except(ALL_LANES, lanes_covered(masks.as_slice(), count)))
        }
        None => false,
    }
}

// Evaluates the instances of a region. Whether they are given by their cells in each lane.
fn evaluate_parts(
    chip: &View<'_>,
    tables: &[Option<LastTable>],
    inputs: &[u16],
    parts: &[u32],
    block: usize,
    values: &mut Block,
    masks: &mut Vec<u64>,
) -> bool
    requires inputs { AreFewInputs chip.now.core inputs.now }
    requires placed { All (IsPlaced chip.now.core (place_in chip.now.ranks)) parts.now }
    requires ascending { AreAscending (place_in chip.now.ranks) parts.now }
    requires tables { AreTables chip.now.core (place_in chip.now.ranks) (cell_number chip.now.chip)
        tables.now }
    requires nets { HasNodes (length chip.now.core.nets) values.old }
    requires within { AreLanesWithin chip.now.core inputs.now parts.now values.old }
    requires digits { InEach (λ lane. HaveDigits chip.now.core inputs.now (number_in block lane)
        (state_in values.old lane)) }
    requires room { length masks.old.items ≡ 64 }
    ensures nets { HasNodes (length chip.now.core.nets) values.new }
    ensures room { length masks.new.items ≡ 64 }
    ensures within { AreLanesWithin chip.now.core inputs.now parts.now values.new }
    ensures known { IsTrue result → AreLanesKnown chip.now.core inputs.now block values.new }
{
    chip.linked();
    let _ = (inputs.len(), block);
    for place in 0..parts.len() {
        if !evaluate_lanes(chip, tables, entry(parts, place), values, masks) {
            return false;
        }
    }
    true
}

/// Sets the inputs of a region to the digits of the numbers of a block, and evaluates its instances. Whether
/// the values are known lasts then.
pub(crate) fn find_lanes(
    chip: &View<'_>,
    tables: &[Option<LastTable>],
    inputs: &[u16],
    parts: &[u32],
    block: usize,
    values: &mut Block,
    masks: &mut Vec<u64>,
) -> bool
    requires inputs { AreFewInputs chip.now.core inputs.now }
    requires placed { All (IsPlaced chip.now.core (place_in chip.now.ranks)) parts.now }
    requires ascending { AreAscending (place_in chip.now.ranks) parts.now }
    requires tables { AreTables chip.now.core (place_in chip.now.ranks) (cell_number chip.now.chip)
        tables.now }
    requires nets { HasNodes (length chip.now.core.nets) values.old }
    requires within { AreLanesWithin chip.now.core inputs.now parts.now values.old }
    requires room { length masks.old.items ≡ 64 }
    ensures nets { HasNodes (length chip.now.core.nets) values.new }
    ensures room { length masks.new.items ≡ 64 }
    ensures within { AreLanesWithin chip.now.core inputs.now parts.now values.new }
    ensures known { IsTrue result → AreLanesKnown chip.now.core inputs.now block values.new }
{
    set_lanes(chip, inputs, parts, block, values);
    if !have_digits(chip, inputs, block, values) {
        return false;
    }
    evaluate_parts(chip, tables, inputs, parts, block, values, masks)
}

/// Whether each instance of a list has a place at or after those before it.
pub(crate) fn are_ascending(chip: &View<'_>, parts: &[u32]) -> bool
    requires { All (IsPlaced chip.now.core (place_in chip.now.ranks)) parts.now }
    ensures { IsTrue result → AreAscending (place_in chip.now.ranks) parts.now }
{
    chip.linked();
    let mut highest = 0;
    for place in 0..parts.len() {
        let rank = chip.rank(entry(parts, place));
        if rank < highest {
            return false;
        }
        highest = rank;
    }
    true
}

//! The good last values of the nets in 64 lanes. What a lane has is asked of it before it serves, so that
//! nothing is said here of the values.

ghost use Rattle.std.specs.Prelude.{◌≡◌, ◌<◌, length, IfOk};
ghost use Rattle.ca_flat.specs.Chip.{cell_at};
ghost use Rattle.ca_flat.specs.Pair.{bit_count};
ghost use Rattle.ca_static.specs.LastTable.{IsLastTable};
ghost use Rattle.ca_view.specs.Linked.{IsPlaced, place_in};
ghost use Rattle.ca_view.specs.Places.{cell_number};
ghost use Rattle.ca_sweep.specs.Tables.{AreTables, IsOrder};
ghost use Rattle.ca_sweep.specs.code.Kept.{AreAllStatic};

use crate::cells::Tables;
use crate::lane_masks::{find_masks, given};
use crate::lane_run::table_at;
use ca_base::NoMemory;
use ca_net::Trit;
use ca_planes::{ALL_LANES, with_lane};
use ca_sim::Bits;
use ca_static::LastTable;
use ca_view::View;
use std::alloc::Global;

/// The lanes in which each net is 1 by a constant. The first constant of a net counts.
pub(crate) fn constant_planes(alloc: Global, chip: &View<'_>) -> Result<Vec<u64>, NoMemory>
    ensures { IfOk result (λ planes. length planes.items ≡ length chip.now.core.nets) }
{
    chip.linked();
    let mut planes = vec![in alloc; 0u64; chip.nets()]?;
    let count = chip.constant_count();
    for k in 0..count {
        // The first constant of a net counts, so it comes last.
        let constant = chip.constant(count - 1 - k);
        planes[constant.net] = plane_of(constant.value);
    }
    Ok(planes)
}

// A value in all lanes.
fn plane_of(value: Trit) -> u64 {
    match value {
        Trit::One => ALL_LANES,
        Trit::Zero | Trit::X => 0,
    }
}

/// Takes over the last value of each chip input into a lane.
pub(crate) fn put_bits<B: Bits>(chip: &View<'_>, bits: &B, lane: usize, planes: &mut Vec<u64>)
    requires lane { lane < 64 }
    requires bits { length (B.bits bits.now) ≡ bit_count chip.now.core }
    requires nets { length planes.old.items ≡ length chip.now.core.nets }
    ensures { length planes.new.items ≡ length chip.now.core.nets }
{
    chip.linked();
    let count = chip.input_count();
    for input in 0..count {
        let net = chip.input(input);
        let is_one = bits.value(count + input) == Trit::One;
        planes[net] = with_lane(planes[net], lane, is_one);
    }
}

/// Gives the output nets of all instances what the tables of their cells give, in the order.
pub(crate) fn settle_lanes(
    chip: &View<'_>,
    tables: &Tables,
    order: &[Option<usize>],
    masks: &mut Vec<u64>,
    planes: &mut Vec<u64>,
)
    requires tables { AreTables chip.now.core (place_in chip.now.ranks) (cell_number chip.now.chip)
        tables.now.items }
    requires all_static { AreAllStatic chip.now.core (place_in chip.now.ranks) }
    requires order { IsOrder chip.now.core (place_in chip.now.ranks) order.now }
    requires masks { length masks.old.items ≡ 64 }
    requires nets { length planes.old.items ≡ length chip.now.core.nets }

    ensures masks { length masks.new.items ≡ 64 }
    ensures nets { length planes.new.items ≡ length chip.now.core.nets }
{
    for place in 0..order.len() {
        if let Some(w) = order[place] {
            settle_at(chip, table_at(chip, tables, w), masks, planes, w);
        }
    }
}

// Gives the output nets of an instance what the table of its cell gives for the values of its input nets.
fn settle_at(
    chip: &View<'_>,
    table: &LastTable,
    masks: &mut Vec<u64>,
    planes: &mut Vec<u64>,
    w: usize,
)
    requires placed { IsPlaced chip.now.core (place_in chip.now.ranks) w }
    requires table { IsLastTable (cell_at chip.now.core w) table.now }
    requires masks { length masks.old.items ≡ 64 }
    requires nets { length planes.old.items ≡ length chip.now.core.nets }

    ensures masks { length masks.new.items ≡ 64 }
    ensures nets { length planes.new.items ≡ length chip.now.core.nets }
{
    chip.linked();
    let count = find_masks(planes, chip.input_pins(w as u32), masks);
    let first = chip.inputs_at(w);
    for output in 0..chip.outputs_at(w) {
        planes[chip.pin_net(w, first + output)] = given(masks, count, table, output);
    }
}

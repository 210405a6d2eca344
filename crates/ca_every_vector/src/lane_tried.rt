//! Which last vectors matter at the instances of a region: all vectors of its inputs are tried, 64 at a time.

ghost use Rattle.std.specs.Prelude.{ℕ, ◌≡◌, ◌⊎◌, ◌*◌, ◌<◌, ◌≤◌, ◌^◌, length, IsTrue, IfOk, OnOk, true};
ghost use Rattle.std.specs.List.{All};
ghost use Rattle.ca_net.specs.State.{value_at};
ghost use Rattle.ca_net.specs.Trit.{IsBelow};
ghost use Rattle.ca_planes.specs.Plane.{has_lane};
ghost use Rattle.ca_planes.specs.Trits.{HasNodes};
ghost use Rattle.ca_cell.specs.Row.{vector_of};
ghost use Rattle.ca_flat.specs.Chip.{count_of, inputs_at, net_of};
ghost use Rattle.ca_view.specs.Linked.{IsPlaced, place_in};
ghost use Rattle.ca_view.specs.Places.{cell_number};
ghost use Rattle.ca_sweep.specs.Tables.{AreTables};
ghost use Rattle.ca_every_vector.specs.Inside.{AllStayInside};
ghost use Rattle.ca_every_vector.specs.Possible.{Has};
ghost use Rattle.ca_every_vector.specs.declared.vectors.TheConstants.{MOST_REGION_BITS};
ghost use Rattle.ca_every_vector.specs.code.Lanes.{AreAscending, AreFixedLanes, AreLanesWithin};
ghost use Rattle.ca_every_vector.specs.code.Lanes.{AreSameLanes, HasLastsInLanes, InLanes, IsTriedInLanes};
ghost use Rattle.ca_every_vector.specs.code.Lanes.{values_of};
ghost use Rattle.ca_every_vector.specs.code.Masks.{AreMore, mask_at};
ghost use Rattle.ca_every_vector.specs.code.Region.{IsRegion, IsTried};

use crate::lane_region::{are_ascending, find_lanes};
use crate::lane_stays::{lanes_all_stay, restore_lanes};
use crate::lane_vectors::lanes_over;
use crate::lists::entry;
use crate::masks::add;
use crate::regions::Region;
use ca_base::NoMemory;
use ca_planes::{Block, except, is_none};
use ca_static::LastTable;
use ca_view::View;

// How many vectors an instance's input pins have.
fn vector_count(chip: &View<'_>, u: usize) -> usize
    requires { IsPlaced chip.now.core (place_in chip.now.ranks) u }
    ensures count { result ≡ 2 ^ inputs_at chip.now.core u }
    ensures few { result ≤ 64 }
{
    chip.linked();
    1usize << chip.inputs_at(u)
}

// Whether some vector that the mask doesn't have is at or above the values of an instance's input nets.
fn is_open(chip: &View<'_>, values: &Block, u: usize, mask: u64) -> bool
    requires placed { IsPlaced chip.now.core (place_in chip.now.ranks) u }
    requires nets { HasNodes (length chip.now.core.nets) values.now }
{
    for number in 0..vector_count(chip, u) {
        if (mask >> number) & 1 == 0 && !is_none(lanes_over(chip, values, u, number)) {
            return true;
        }
    }
    false
}

// The mask with the vector of a number too, if there is a lane.
fn row_if(rows: u64, number: usize, lanes: u64) -> u64
    requires { number < 64 }
    ensures here { (lane : ℕ) → lane < 64 → has_lane lanes lane ≡ true → Has result number }
    ensures more { (other : ℕ) → Has rows other → Has result other }
{
    if is_none(lanes) {
        return rows;
    }
    rows | (1 << number)
}

// The vectors at or above the values of an instance's input nets in some lane but these.
fn rows_except(chip: &View<'_>, values: &Block, u: usize, stays: u64) -> u64
    requires placed { IsPlaced chip.now.core (place_in chip.now.ranks) u }
    requires nets { HasNodes (length chip.now.core.nets) values.now }
    ensures { (lane number : ℕ) → lane < 64 → number < 2 ^ inputs_at chip.now.core u
        → ((pin : ℕ) → pin < inputs_at chip.now.core u
        → IsBelow (values_of values.now lane (net_of chip.now.core u pin))
        (value_at (vector_of (inputs_at chip.now.core u) number) pin))
        → (has_lane stays lane ≡ true) ⊎ Has result number }
{
    let mut rows = 0u64;
    for number in 0..vector_count(chip, u) {
        let lanes = except(lanes_over(chip, values, u, number), stays);
        rows = row_if(rows, number, lanes);
    }
    rows
}

// The lanes in which all flips of an instance's outputs stay inside, if it has to be known: where the mask
// has all vectors at its input pins it isn't looked at.
fn lanes_if_open(
    chip: &View<'_>,
    tables: &[Option<LastTable>],
    parts: &[u32],
    values: &Block,
    others: &mut Block,
    changed: &mut Vec<u32>,
    touched: &mut Vec<u32>,
    room: &mut Vec<u64>,
    u: usize,
    mask: u64,
) -> Result<u64, NoMemory>
    requires placed { IsPlaced chip.now.core (place_in chip.now.ranks) u }
    requires parts { All (IsPlaced chip.now.core (place_in chip.now.ranks)) parts.now }
    requires tables { AreTables chip.now.core (place_in chip.now.ranks) (cell_number chip.now.chip)
        tables.now }
    requires nets { HasNodes (length chip.now.core.nets) values.now }
    requires other_nets { HasNodes (length chip.now.core.nets) others.old }
    requires rest { AreSameLanes others.old values.now }
    requires room { length room.old.items ≡ 64 }
    ensures stay { IfOk result (λ lanes. InLanes lanes
        (λ lane. AllStayInside chip.now.core u (values_of values.now lane))) }
    ensures other_nets { IfOk result (λ lanes. HasNodes (length chip.now.core.nets) others.new) }
    ensures rest { IfOk result (λ lanes. AreSameLanes others.new values.now) }
    ensures room { IfOk result (λ lanes. length room.new.items ≡ 64) }
{
    if !is_open(chip, values, u, mask) {
        return Ok(0);
    }
    lanes_all_stay(
        chip, tables, parts, values, others, changed, touched, room, u,
    )
}

// The vectors that the values give at an instance's input pins, as far as they matter or the mask has them.
fn rows_for(
    chip: &View<'_>,
    tables: &[Option<LastTable>],
    parts: &[u32],
    values: &Block,
    others: &mut Block,
    changed: &mut Vec<u32>,
    touched: &mut Vec<u32>,
    room: &mut Vec<u64>,
    u: usize,
    mask: u64,
) -> Result<u64, NoMemory>
    requires placed { IsPlaced chip.now.core (place_in chip.now.ranks) u }
    requires parts { All (IsPlaced chip.now.core (place_in chip.now.ranks)) parts.now }
    requires tables { AreTables chip.now.core (place_in chip.now.ranks) (cell_number chip.now.chip)
        tables.now }
    requires nets { HasNodes (length chip.now.core.nets) values.now }
    requires other_nets { HasNodes (length chip.now.core.nets) others.old }
    requires rest { AreSameLanes others.old values.now }
    requires room { length room.old.items ≡ 64 }
    ensures lasts { IfOk result (HasLastsInLanes chip.now.core values.now u) }
    ensures other_nets { IfOk result (λ rows. HasNodes (length chip.now.core.nets) others.new) }
    ensures rest { IfOk result (λ rows. AreSameLanes others.new values.now) }
    ensures room { IfOk result (λ rows. length room.new.items ≡ 64) }
{
    let stays = lanes_if_open(
        chip, tables, parts, values, others, changed, touched, room, u, mask,
    )?;
    Ok(rows_except(chip, values, u, stays))
}

// Adds to the masks of these instances the vectors that the values give at their input pins, as far as they
// matter.
fn try_parts(
    chip: &View<'_>,
    tables: &[Option<LastTable>],
    parts: &[u32],
    fresh: &[u32],
    values: &Block,
    others: &mut Block,
    changed: &mut Vec<u32>,
    touched: &mut Vec<u32>,
    room: &mut Vec<u64>,
    masks: &mut [u64],
) -> Result<(), NoMemory>
    requires parts { All (IsPlaced chip.now.core (place_in chip.now.ranks)) parts.now }
    requires fresh { All (IsPlaced chip.now.core (place_in chip.now.ranks)) fresh.now }
    requires tables { AreTables chip.now.core (place_in chip.now.ranks) (cell_number chip.now.chip)
        tables.now }
    requires nets { HasNodes (length chip.now.core.nets) values.now }
    requires other_nets { HasNodes (length chip.now.core.nets) others.old }
    requires rest { AreSameLanes others.old values.now }
    requires room { length room.old.items ≡ 64 }
    requires masks { length masks.old ≡ count_of chip.now.core }
    ensures lasts { OnOk result
        (All (λ u. HasLastsInLanes chip.now.core values.now u (mask_at masks.new u)) fresh.now) }
    ensures more { OnOk result (AreMore masks.old masks.new) }
    ensures other_nets { OnOk result (HasNodes (length chip.now.core.nets) others.new) }
    ensures rest { OnOk result (AreSameLanes others.new values.now) }
    ensures room { OnOk result (length room.new.items ≡ 64) }
{
    for place in 0..fresh.len() {
        let u = entry(fresh, place);
        let mask = masks[u];
        let rows = rows_for(
            chip, tables, parts, values, others, changed, touched, room, u, mask,
        )?;
        add(masks, u, rows);
    }
    Ok(())
}

// Tries a block of vectors of the inputs of a region. Whether the values were known.
fn try_block(
    chip: &View<'_>,
    tables: &[Option<LastTable>],
    region: &Region,
    block: usize,
    values: &mut Block,
    others: &mut Block,
    changed: &mut Vec<u32>,
    touched: &mut Vec<u32>,
    room: &mut Vec<u64>,
    masks: &mut [u64],
) -> Result<bool, NoMemory>
    requires region { IsRegion chip.now.core (place_in chip.now.ranks) region.now }
    requires ascending { AreAscending (place_in chip.now.ranks) region.now.parts.items }
    requires tables { AreTables chip.now.core (place_in chip.now.ranks) (cell_number chip.now.chip)
        tables.now }
    requires nets { HasNodes (length chip.now.core.nets) values.old }
    requires other_nets { HasNodes (length chip.now.core.nets) others.old }
    requires within { AreLanesWithin chip.now.core region.now.inputs.items region.now.parts.items values.old }
    requires rest { AreSameLanes others.old values.old }
    requires room { length room.old.items ≡ 64 }
    requires masks { length masks.old ≡ count_of chip.now.core }
    ensures tried { IfOk result (λ known. IsTrue known
        → All (IsTriedInLanes chip.now.core region.now.inputs.items block masks.new) region.now.fresh.items) }
    ensures more { IfOk result (λ known. AreMore masks.old masks.new) }
    ensures nets { IfOk result (λ known. HasNodes (length chip.now.core.nets) values.new) }
    ensures other_nets { IfOk result (λ known. HasNodes (length chip.now.core.nets) others.new) }
    ensures within { IfOk result (λ known.
        AreLanesWithin chip.now.core region.now.inputs.items region.now.parts.items values.new) }
    ensures rest { IfOk result (λ known. AreSameLanes others.new values.new) }
    ensures room { IfOk result (λ known. length room.new.items ≡ 64) }
{
    chip.linked();
    let inputs = region.inputs.as_slice();
    let parts = region.parts.as_slice();
    let fresh = region.fresh.as_slice();
    let known = find_lanes(chip, tables, inputs, parts, block, values, room);
    restore_lanes(others, values, region.nets.as_slice());
    if !known {
        return Ok(false);
    }
    try_parts(
        chip, tables, parts, fresh, values, others, changed, touched, room, masks,
    )?;
    Ok(true)
}

// Whether each of the instances has all vectors in its mask.
fn are_full(fresh: &[u32], masks: &[u64]) -> bool {
    for place in 0..fresh.len() {
        let u = entry(fresh, place);
        if u >= masks.len() || masks[u] != u64::MAX {
            return false;
        }
    }
    true
}

// Tries all blocks. Whether all were tried: it ends where nothing can be won any more.
fn try_blocks(
    chip: &View<'_>,
    tables: &[Option<LastTable>],
    region: &Region,
    values: &mut Block,
    others: &mut Block,
    changed: &mut Vec<u32>,
    touched: &mut Vec<u32>,
    room: &mut Vec<u64>,
    masks: &mut [u64],
) -> Result<bool, NoMemory>
    requires region { IsRegion chip.now.core (place_in chip.now.ranks) region.now }
    requires ascending { AreAscending (place_in chip.now.ranks) region.now.parts.items }
    requires tables { AreTables chip.now.core (place_in chip.now.ranks) (cell_number chip.now.chip)
        tables.now }
    requires nets { HasNodes (length chip.now.core.nets) values.old }
    requires other_nets { HasNodes (length chip.now.core.nets) others.old }
    requires within { AreLanesWithin chip.now.core region.now.inputs.items region.now.parts.items values.old }
    requires rest { AreSameLanes others.old values.old }
    requires room { length room.old.items ≡ 64 }
    requires masks { length masks.old ≡ count_of chip.now.core }
    ensures tried { IfOk result (λ all. IsTrue all
        → All (IsTried chip.now.core masks.new) region.now.fresh.items) }
    ensures more { IfOk result (λ all. AreMore masks.old masks.new) }
    ensures nets { IfOk result (λ all. HasNodes (length chip.now.core.nets) values.new) }
    ensures other_nets { IfOk result (λ all. HasNodes (length chip.now.core.nets) others.new) }
    ensures within { IfOk result (λ all.
        AreLanesWithin chip.now.core region.now.inputs.items region.now.parts.items values.new) }
    ensures rest { IfOk result (λ all. AreSameLanes others.new values.new) }
    ensures room { IfOk result (λ all. length room.new.items ≡ 64) }
{
    let inputs = region.inputs.as_slice();
    for block in 0..block_count(inputs.len()) {
        if are_full(region.fresh.as_slice(), masks) {
            return Ok(false);
        }
        let known = try_block(
            chip, tables, region, block, values, others, changed, touched, room, masks,
        )?;
        if !known {
            return Ok(false);
        }
    }
    Ok(true)
}

/// How many blocks of 64 vectors there are of this many inputs: one for fewer than 6.
pub(crate) fn block_count(inputs: usize) -> usize
    requires { inputs ≤ MOST_REGION_BITS }
    ensures enough { 2 ^ inputs ≤ 64 * result }
    ensures few { result ≤ 2 ^ 20 }
{
    if inputs < 6 {
        return 1;
    }
    1usize << (inputs - 6)
}

/// Tries all vectors of the inputs of a region. Whether all were tried: it ends where nothing can be won any
/// more. The values of nets and those with flips are those that constants give before and after.
pub(crate) fn try_lanes(
    chip: &View<'_>,
    tables: &[Option<LastTable>],
    region: &Region,
    fixed: &Block,
    values: &mut Block,
    others: &mut Block,
    changed: &mut Vec<u32>,
    touched: &mut Vec<u32>,
    room: &mut Vec<u64>,
    masks: &mut [u64],
) -> Result<bool, NoMemory>
    requires region { IsRegion chip.now.core (place_in chip.now.ranks) region.now }
    requires tables { AreTables chip.now.core (place_in chip.now.ranks) (cell_number chip.now.chip)
        tables.now }
    requires fixed { AreFixedLanes chip.now.core fixed.now }
    requires nets { HasNodes (length chip.now.core.nets) values.old }
    requires other_nets { HasNodes (length chip.now.core.nets) others.old }
    requires values { AreSameLanes values.old fixed.now }
    requires others { AreSameLanes others.old fixed.now }
    requires room { length room.old.items ≡ 64 }
    requires masks { length masks.old ≡ count_of chip.now.core }
    ensures tried { IfOk result (λ all. IsTrue all
        → All (IsTried chip.now.core masks.new) region.now.fresh.items) }
    ensures more { IfOk result (λ all. AreMore masks.old masks.new) }
    ensures nets { IfOk result (λ all. HasNodes (length chip.now.core.nets) values.new) }
    ensures other_nets { IfOk result (λ all. HasNodes (length chip.now.core.nets) others.new) }
    ensures values { IfOk result (λ all. AreSameLanes values.new fixed.now) }
    ensures others { IfOk result (λ all. AreSameLanes others.new fixed.now) }
    ensures room { IfOk result (λ all. length room.new.items ≡ 64) }
{
    if !are_ascending(chip, region.parts.as_slice()) {
        return Ok(false);
    }
    let all = try_blocks(
        chip, tables, region, values, others, changed, touched, room, masks,
    )?;
    restore_lanes(values, fixed, region.nets.as_slice());
    restore_lanes(others, fixed, region.nets.as_slice());
    Ok(all)
}

//! Which last vectors matter at the instances of a region: all vectors of its inputs are tried.

ghost use Rattle.std.specs.Prelude.{◌≡◌, ◌<◌, length, IfOk, OnOk};
ghost use Rattle.std.specs.List.{All};
ghost use Rattle.ca_net.specs.State.{value_at};
ghost use Rattle.ca_flat.specs.Chip.{count_of};
ghost use Rattle.ca_view.specs.Linked.{IsPlaced, place_in};
ghost use Rattle.ca_view.specs.Places.{cell_number};
ghost use Rattle.ca_sweep.specs.Tables.{AreTables};
ghost use Rattle.ca_every_vector.specs.code.Fixed.{AreFixed};
ghost use Rattle.ca_every_vector.specs.code.Masks.{AreMore, mask_at};
ghost use Rattle.ca_every_vector.specs.code.Region.{AreKnownWithin, HasLastsAt, IsRegion, IsTried};
ghost use Rattle.ca_every_vector.specs.code.Region.{IsTriedAt, IsTriedTo, IsFull};

use crate::given::number_at;
use crate::lists::{entry, restore};
use crate::masks::add;
use crate::region::{are_known, find_values};
use crate::regions::Region;
use crate::stays::all_stay;
use ca_base::NoMemory;
use ca_net::Trit;
use ca_static::LastTable;
use ca_view::View;

// The vector that the values give at an instance's input pins, if it matters: all vectors, if they give none.
// Where the mask has it already, it isn't looked at whether it matters.
fn rows_for(
    chip: &View<'_>,
    tables: &[Option<LastTable>],
    values: &[Trit],
    others: &mut [Trit],
    changed: &mut Vec<u32>,
    touched: &mut Vec<u32>,
    u: usize,
    mask: u64,
) -> Result<u64, NoMemory>
    requires placed { IsPlaced chip.now.core (place_in chip.now.ranks) u }
    requires tables { AreTables chip.now.core (place_in chip.now.ranks) (cell_number chip.now.chip)
        tables.now }
    requires nets { length values.now ≡ length chip.now.core.nets }
    requires rest { others.old ≡ values.now }
    ensures lasts { IfOk result (HasLastsAt chip.now.core (value_at values.now) u) }
    ensures rest { IfOk result (λ rows. others.new ≡ values.now) }
{
    chip.linked();
    let number = match number_at(chip, values, u) {
        Some(number) => number,
        None => return Ok(u64::MAX),
    };
    let rows = 1u64 << number;
    if mask & rows != 0 {
        return Ok(rows);
    }
    if all_stay(chip, tables, values, others, changed, touched, u)? {
        return Ok(0);
    }
    Ok(rows)
}

// Adds to the masks of these instances the vectors that the values give at their input pins, as far as they
// matter.
fn try_parts(
    chip: &View<'_>,
    tables: &[Option<LastTable>],
    parts: &[u32],
    values: &[Trit],
    others: &mut [Trit],
    changed: &mut Vec<u32>,
    touched: &mut Vec<u32>,
    masks: &mut [u64],
) -> Result<(), NoMemory>
    requires placed { All (IsPlaced chip.now.core (place_in chip.now.ranks)) parts.now }
    requires tables { AreTables chip.now.core (place_in chip.now.ranks) (cell_number chip.now.chip)
        tables.now }
    requires nets { length values.now ≡ length chip.now.core.nets }
    requires rest { others.old ≡ values.now }
    requires room { length masks.old ≡ count_of chip.now.core }
    ensures lasts { OnOk result
        (All (λ u. HasLastsAt chip.now.core (value_at values.now) u (mask_at masks.new u)) parts.now) }
    ensures more { OnOk result (AreMore masks.old masks.new) }
    ensures rest { OnOk result (others.new ≡ values.now) }
{
    for place in 0..parts.len() {
        let u = entry(parts, place);
        let mask = masks[u];
        let rows = rows_for(chip, tables, values, others, changed, touched, u, mask)?;
        add(masks, u, rows);
    }
    Ok(())
}

// Adds to the masks of these instances all vectors.
fn fill(chip: &View<'_>, parts: &[u32], masks: &mut [u64])
    requires placed { All (IsPlaced chip.now.core (place_in chip.now.ranks)) parts.now }
    requires room { length masks.old ≡ count_of chip.now.core }
    ensures full { All (λ u. IsFull (mask_at masks.new u)) parts.now }
    ensures more { AreMore masks.old masks.new }
{
    let _ = chip.instances();
    for place in 0..parts.len() {
        add(masks, entry(parts, place), u64::MAX);
    }
}

// Tries one vector of the inputs of a region.
fn try_number(
    chip: &View<'_>,
    tables: &[Option<LastTable>],
    region: &Region,
    number: usize,
    values: &mut [Trit],
    others: &mut [Trit],
    changed: &mut Vec<u32>,
    touched: &mut Vec<u32>,
    masks: &mut [u64],
) -> Result<(), NoMemory>
    requires region { IsRegion chip.now.core (place_in chip.now.ranks) region.now }
    requires tables { AreTables chip.now.core (place_in chip.now.ranks) (cell_number chip.now.chip)
        tables.now }
    requires nets { length values.old ≡ length chip.now.core.nets }
    requires within { AreKnownWithin chip.now.core region.now.inputs.items region.now.parts.items values.old }
    requires rest { others.old ≡ values.old }
    requires room { length masks.old ≡ count_of chip.now.core }
    ensures tried { OnOk result
        (All (IsTriedAt chip.now.core region.now.inputs.items number masks.new) region.now.fresh.items) }
    ensures more { OnOk result (AreMore masks.old masks.new) }
    ensures nets { OnOk result (length values.new ≡ length chip.now.core.nets) }
    ensures within { OnOk result
        (AreKnownWithin chip.now.core region.now.inputs.items region.now.parts.items values.new) }
    ensures rest { OnOk result (others.new ≡ values.new) }
{
    chip.linked();
    let inputs = region.inputs.as_slice();
    let parts = region.parts.as_slice();
    let fresh = region.fresh.as_slice();
    find_values(chip, tables, inputs, parts, number, values);
    restore(others, values, region.nets.as_slice());
    if are_known(chip, tables, inputs, parts, number, values) {
        try_parts(chip, tables, fresh, values, others, changed, touched, masks)?;
        return Ok(());
    }
    fill(chip, fresh, masks);
    Ok(())
}

// Tries all vectors of the inputs of a region.
fn try_all(
    chip: &View<'_>,
    tables: &[Option<LastTable>],
    region: &Region,
    values: &mut [Trit],
    others: &mut [Trit],
    changed: &mut Vec<u32>,
    touched: &mut Vec<u32>,
    masks: &mut [u64],
) -> Result<(), NoMemory>
    requires region { IsRegion chip.now.core (place_in chip.now.ranks) region.now }
    requires tables { AreTables chip.now.core (place_in chip.now.ranks) (cell_number chip.now.chip)
        tables.now }
    requires nets { length values.old ≡ length chip.now.core.nets }
    requires within { AreKnownWithin chip.now.core region.now.inputs.items region.now.parts.items values.old }
    requires rest { others.old ≡ values.old }
    requires room { length masks.old ≡ count_of chip.now.core }
    ensures tried { OnOk result (All (IsTried chip.now.core masks.new) region.now.fresh.items) }
    ensures more { OnOk result (AreMore masks.old masks.new) }
    ensures nets { OnOk result (length values.new ≡ length chip.now.core.nets) }
    ensures within { OnOk result
        (AreKnownWithin chip.now.core region.now.inputs.items region.now.parts.items values.new) }
    ensures rest { OnOk result (others.new ≡ values.new) }
{
    let inputs = region.inputs.as_slice();
    for number in 0..1usize << inputs.len() {
        try_number(
            chip, tables, region, number, values, others, changed, touched, masks,
        )?;
    }
    Ok(())
}

/// Tries all vectors of the inputs of a region. The values of nets and those with flips are those that
/// constants give before and after.
pub(crate) fn try_region(
    chip: &View<'_>,
    tables: &[Option<LastTable>],
    region: &Region,
    fixed: &[Trit],
    values: &mut [Trit],
    others: &mut [Trit],
    changed: &mut Vec<u32>,
    touched: &mut Vec<u32>,
    masks: &mut [u64],
) -> Result<(), NoMemory>
    requires region { IsRegion chip.now.core (place_in chip.now.ranks) region.now }
    requires tables { AreTables chip.now.core (place_in chip.now.ranks) (cell_number chip.now.chip)
        tables.now }
    requires fixed { AreFixed chip.now.core fixed.now }
    requires values { values.old ≡ fixed.now }
    requires others { others.old ≡ fixed.now }
    requires room { length masks.old ≡ count_of chip.now.core }
    ensures tried { OnOk result (All (IsTried chip.now.core masks.new) region.now.fresh.items) }
    ensures more { OnOk result (AreMore masks.old masks.new) }
    ensures values { OnOk result (values.new ≡ fixed.now) }
    ensures others { OnOk result (others.new ≡ fixed.now) }
{
    try_all(
        chip, tables, region, values, others, changed, touched, masks,
    )?;
    restore(values, fixed, region.nets.as_slice());
    restore(others, fixed, region.nets.as_slice());
    Ok(())
}

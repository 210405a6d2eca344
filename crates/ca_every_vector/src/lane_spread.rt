//! What flips of an instance's outputs change in 64 lanes.
ghost use Rattle.std.specs.Prelude.{◌≡◌, ◌<◌, ◌^◌, length, OnOk, true, false};
ghost use Rattle.std.specs.List.{All, Contains};
ghost use Rattle.ca_planes.specs.Trits.{HasNodes, state_in, trit_in};
ghost use Rattle.ca_flat.specs.Chip.{cell_at, outputs_at};
ghost use Rattle.ca_static.specs.LastTable.{IsLastTable};
ghost use Rattle.ca_view.specs.Linked.{IsPlaced, place_in};
ghost use Rattle.ca_view.specs.Places.{cell_number};
ghost use Rattle.ca_sweep.specs.Tables.{AreTables};
ghost use Rattle.ca_every_vector.specs.Inside.{IsEvaluatedInside};
ghost use Rattle.ca_every_vector.specs.code.Lanes.{AreLanesSpread};
ghost use Rattle.ca_every_vector.specs.code.Lanes.{InEach, InLanes, IsSameOrInside, values_of};
ghost use Rattle.ca_every_vector.specs.code.Spread.{AreInside, AreReadersInside, IsPutAt};

use crate::lane_vectors::{ends_by, find_masks, lanes_given, lanes_known};
use crate::lists::entry;
use ca_base::NoMemory;
use ca_planes::{ALL_LANES, Block, Trits, both, either, except, is_none};
use ca_static::LastTable;
use ca_view::View;

// Gives a net a value in each lane, and lists it if it had another one in some lane.
pub(crate) fn put(
    others: &mut Block,
    changed: &mut Vec<u32>,
    net: usize,
    value: Trits,
) -> Result<(), NoMemory>
    requires known { net < length others.old.zeros.items }
    requires room { length others.old.ones.items ≡ length others.old.zeros.items }
    requires few { net < 2 ^ 32 }
    ensures zeros { OnOk result (length others.new.zeros.items ≡ length others.old.zeros.items) }
    ensures ones { OnOk result (length others.new.ones.items ≡ length others.old.ones.items) }
    ensures put { OnOk result (InEach (λ lane. IsPutAt net (trit_in value lane) (state_in others.old lane)
        changed.old.items (state_in others.new lane) changed.new.items)) }
{
    if is_none(others.get(net).differ(value)) {
        return Ok(());
    }
    others.set(net, value);
    Ok(changed.push(net as u32)?)
}

// Gives the output nets of a listed instance what its cell ends with.
fn write(
    chip: &View<'_>,
    table: &LastTable,
    others: &mut Block,
    changed: &mut Vec<u32>,
    touched: &[u32],
    masks: &mut Vec<u64>,
    w: usize,
    u: usize,
    values: &Block,
) -> Result<(), NoMemory>
    requires placed { IsPlaced chip.now.core (place_in chip.now.ranks) w }
    requires table { IsLastTable (cell_at chip.now.core w) table.now }
    requires spread { AreLanesSpread chip.now.core (place_in chip.now.ranks) u values.now others.old
        changed.old.items touched.now }
    requires touched { Contains touched.now w }
    requires room { length masks.old.items ≡ 64 }
    ensures spread { OnOk result (AreLanesSpread chip.now.core (place_in chip.now.ranks) u values.now
        others.new changed.new.items touched.now) }
    ensures room { OnOk result (length masks.new.items ≡ 64) }
{
    chip.linked();
    let _ = (u, values.len(), touched.len());
    let count = find_masks(chip, others, w, masks);
    let first = chip.inputs_at(w);
    for output in 0..chip.outputs_at(w) {
        let ends = ends_by(table, masks.as_slice(), count, output);
        put(others, changed, chip.pin_net(w, first + output), ends)?;
    }
    Ok(())
}

// Evaluates an instance with the others.
fn evaluate(
    chip: &View<'_>,
    tables: &[Option<LastTable>],
    values: &Block,
    others: &mut Block,
    changed: &mut Vec<u32>,
    touched: &mut Vec<u32>,
    masks: &mut Vec<u64>,
    w: usize,
    u: usize,
) -> Result<(), NoMemory>
    requires placed { IsPlaced chip.now.core (place_in chip.now.ranks) w }
    requires tables { AreTables chip.now.core (place_in chip.now.ranks) (cell_number chip.now.chip)
        tables.now }
    requires spread { AreLanesSpread chip.now.core (place_in chip.now.ranks) u values.now others.old
        changed.old.items touched.old.items }
    requires room { length masks.old.items ≡ 64 }
    ensures spread { OnOk result (AreLanesSpread chip.now.core (place_in chip.now.ranks) u values.now
        others.new changed.new.items touched.new.items) }
    ensures room { OnOk result (length masks.new.items ≡ 64) }
{
    chip.linked();
    match &tables[chip.number(w)] {
        Some(table) => {
            touched.push(w as u32)?;
            write(chip, table, others, changed, touched, masks, w, u, values)?;
            Ok(())
        }
        None => Ok(()),
    }
}

// Whether an input net of an instance has another value in some lane.
fn is_touched(chip: &View<'_>, values: &Block, others: &Block, w: usize) -> bool
    requires placed { IsPlaced chip.now.core (place_in chip.now.ranks) w }
    requires nets { HasNodes (length chip.now.core.nets) values.now }
    requires other_nets { HasNodes (length chip.now.core.nets) others.now }
{
    chip.linked();
    for pin in 0..chip.inputs_at(w) {
        let net = chip.pin_net(w, pin);
        if !is_none(values.get(net).differ(others.get(net))) {
            return true;
        }
    }
    false
}

// Evaluates the instances of a region that read a net that changes.
pub(crate) fn spread(
    chip: &View<'_>,
    tables: &[Option<LastTable>],
    parts: &[u32],
    values: &Block,
    others: &mut Block,
    changed: &mut Vec<u32>,
    touched: &mut Vec<u32>,
    masks: &mut Vec<u64>,
    u: usize,
) -> Result<(), NoMemory>
    requires placed { All (IsPlaced chip.now.core (place_in chip.now.ranks)) parts.now }
    requires tables { AreTables chip.now.core (place_in chip.now.ranks) (cell_number chip.now.chip)
        tables.now }
    requires nets { HasNodes (length chip.now.core.nets) values.now }
    requires spread { AreLanesSpread chip.now.core (place_in chip.now.ranks) u values.now others.old
        changed.old.items touched.old.items }
    requires room { length masks.old.items ≡ 64 }
    ensures spread { OnOk result (AreLanesSpread chip.now.core (place_in chip.now.ranks) u values.now
        others.new changed.new.items touched.new.items) }
    ensures room { OnOk result (length masks.new.items ≡ 64) }
{
    for place in 0..parts.len() {
        let w = entry(parts, place);
        if w != u && is_touched(chip, values, others, w) {
            evaluate(chip, tables, values, others, changed, touched, masks, w, u)?;
        }
    }
    Ok(())
}

// The lanes in which an instance is evaluated with the others where the values of its input nets are known.
fn lanes_inside(
    chip: &View<'_>,
    tables: &[Option<LastTable>],
    values: &Block,
    others: &Block,
    masks: &mut Vec<u64>,
    w: usize,
) -> u64
    requires placed { IsPlaced chip.now.core (place_in chip.now.ranks) w }
    requires tables { AreTables chip.now.core (place_in chip.now.ranks) (cell_number chip.now.chip)
        tables.now }
    requires nets { HasNodes (length chip.now.core.nets) values.now }
    requires other_nets { HasNodes (length chip.now.core.nets) others.now }
    requires room { length masks.old.items ≡ 64 }
    ensures inside { InLanes result (λ lane. IsEvaluatedInside chip.now.core w
        (values_of values.now lane) (values_of others.now lane)) }
    ensures room { length masks.new.items ≡ 64 }
{
    let known = lanes_known(chip, values, w);
    both(known, lanes_given(chip, tables, others, w, masks))
}

// The lanes in which all listed instances are.
pub(crate) fn lanes_touched(
    chip: &View<'_>,
    tables: &[Option<LastTable>],
    values: &Block,
    others: &Block,
    masks: &mut Vec<u64>,
    touched: &[u32],
) -> u64
    requires tables { AreTables chip.now.core (place_in chip.now.ranks) (cell_number chip.now.chip)
        tables.now }
    requires nets { HasNodes (length chip.now.core.nets) values.now }
    requires other_nets { HasNodes (length chip.now.core.nets) others.now }
    requires placed { All (IsPlaced chip.now.core (place_in chip.now.ranks)) touched.now }
    requires room { length masks.old.items ≡ 64 }
    ensures inside { InLanes result
        (λ lane. AreInside chip.now.core (state_in values.now lane) (state_in others.now lane) touched.now) }
    ensures room { length masks.new.items ≡ 64 }
{
    let mut lanes = ALL_LANES;
    for place in 0..touched.len() {
        let inside = lanes_inside(chip, tables, values, others, masks, entry(touched, place));
        lanes = both(lanes, inside);
    }
    lanes
}

// The lanes in which those that read a net are.
fn lanes_read(
    chip: &View<'_>,
    tables: &[Option<LastTable>],
    values: &Block,
    others: &Block,
    masks: &mut Vec<u64>,
    net: usize,
) -> u64
    requires known { net < length chip.now.core.nets }
    requires tables { AreTables chip.now.core (place_in chip.now.ranks) (cell_number chip.now.chip)
        tables.now }
    requires nets { HasNodes (length chip.now.core.nets) values.now }
    requires other_nets { HasNodes (length chip.now.core.nets) others.now }
    requires room { length masks.old.items ≡ 64 }
    ensures inside { InLanes result
        (λ lane. AreReadersInside chip.now.core (state_in values.now lane) (state_in others.now lane) net) }
    ensures room { length masks.new.items ≡ 64 }
{
    chip.linked();
    let mut lanes = ALL_LANES;
    for k in 0..chip.reader_count(net) {
        let w = chip.reader(net, k);
        if chip.rank(w) == 0 {
            return 0;
        }
        lanes = both(lanes, lanes_inside(chip, tables, values, others, masks, w));
    }
    lanes
}

// The lanes in which a net has the same value, or it isn't observed and all that read it are evaluated so.
fn lanes_hidden(
    chip: &View<'_>,
    tables: &[Option<LastTable>],
    values: &Block,
    others: &Block,
    masks: &mut Vec<u64>,
    net: usize,
) -> u64
    requires known { net < length chip.now.core.nets }
    requires tables { AreTables chip.now.core (place_in chip.now.ranks) (cell_number chip.now.chip)
        tables.now }
    requires nets { HasNodes (length chip.now.core.nets) values.now }
    requires other_nets { HasNodes (length chip.now.core.nets) others.now }
    requires room { length masks.old.items ≡ 64 }
    ensures hidden { InLanes result (λ lane. IsSameOrInside chip.now.core chip.now.lists
        (state_in values.now lane) (state_in others.now lane) net) }
    ensures room { length masks.new.items ≡ 64 }
{
    chip.linked();
    let same = except(ALL_LANES, values.get(net).differ(others.get(net)));
    if chip.is_observed(net as u32) {
        return same;
    }
    either(same, lanes_read(chip, tables, values, others, masks, net))
}

// The lanes in which that holds of all listed nets.
pub(crate) fn lanes_changed(
    chip: &View<'_>,
    tables: &[Option<LastTable>],
    values: &Block,
    others: &Block,
    masks: &mut Vec<u64>,
    changed: &[u32],
) -> u64
    requires tables { AreTables chip.now.core (place_in chip.now.ranks) (cell_number chip.now.chip)
        tables.now }
    requires nets { HasNodes (length chip.now.core.nets) values.now }
    requires other_nets { HasNodes (length chip.now.core.nets) others.now }
    requires known { All (λ net. net < length chip.now.core.nets) changed.now }
    requires room { length masks.old.items ≡ 64 }
    ensures hidden { InLanes result (λ lane. All (IsSameOrInside chip.now.core chip.now.lists
        (state_in values.now lane) (state_in others.now lane)) changed.now) }
    ensures room { length masks.new.items ≡ 64 }
{
    let mut lanes = ALL_LANES;
    for place in 0..changed.len() {
        let hidden = lanes_hidden(chip, tables, values, others, masks, entry(changed, place));
        lanes = both(lanes, hidden);
    }
    lanes
}

//! In which lanes what is flipped at the outputs of an instance stays inside.
ghost use Rattle.std.specs.Prelude.{◌≡◌, ◌<◌, length, IfOk, OnOk, true, false};
ghost use Rattle.std.specs.List.{All};
ghost use Rattle.ca_planes.specs.Trits.{HasNodes, state_in, trit_in};
ghost use Rattle.ca_flat.specs.Chip.{outputs_at};
ghost use Rattle.ca_view.specs.Linked.{IsPlaced, place_in};
ghost use Rattle.ca_view.specs.Places.{cell_number};
ghost use Rattle.ca_sweep.specs.Seen.{flipped_if};
ghost use Rattle.ca_sweep.specs.Tables.{AreTables};
ghost use Rattle.ca_every_vector.specs.Inside.{AllStayInside};
ghost use Rattle.ca_every_vector.specs.code.Lanes.{AreLanesSpread, AreSameLanes, AreSameLanesOutside};
ghost use Rattle.ca_every_vector.specs.code.Lanes.{InEach, InLanes, StaysFor, values_of};
ghost use Rattle.ca_every_vector.specs.code.Spread.{AreFlippedOut, StaysSomehow};

use crate::lane_spread::{lanes_changed, lanes_touched, put, spread};
use crate::lane_vectors::lanes_definite;
use crate::lists::entry;
use crate::stays::{flips_of, is_flipped};
use ca_base::NoMemory;
use ca_planes::{ALL_LANES, Block, Trits, both, either, except};
use ca_static::LastTable;
use ca_sweep::Flips;
use ca_view::View;

// A value in each lane, or its opposite.
fn flipped(flip: bool, value: Trits) -> Trits
    ensures { InEach (λ lane. trit_in result lane ≡ flipped_if flip (trit_in value lane)) }
{
    if flip {
        Trits {
            zero: value.one,
            one: either(value.zero, except(ALL_LANES, value.one)),
        }
    } else {
        value
    }
}

// The lanes in which the output nets of an instance are known, and have the opposite where the pins are
// flipped.
fn lanes_flipped(chip: &View<'_>, values: &Block, others: &Block, u: usize, flips: Flips) -> u64
    requires placed { IsPlaced chip.now.core (place_in chip.now.ranks) u }
    requires nets { HasNodes (length chip.now.core.nets) values.now }
    requires other_nets { HasNodes (length chip.now.core.nets) others.now }
    ensures { InLanes result (λ lane. AreFlippedOut chip.now.core u (state_in values.now lane)
        (state_in others.now lane) flips) }
{
    chip.linked();
    let first = chip.inputs_at(u);
    let mut lanes = ALL_LANES;
    for output in 0..chip.outputs_at(u) {
        let net = chip.pin_net(u, first + output);
        let value = values.get(net);
        let wanted = flipped(is_flipped(flips, output), value);
        let fine = except(lanes_definite(value), others.get(net).differ(wanted));
        lanes = both(lanes, fine);
    }
    lanes
}

// Gives the output nets of an instance the opposite where the pins are flipped.
fn flip(
    chip: &View<'_>,
    values: &Block,
    others: &mut Block,
    changed: &mut Vec<u32>,
    touched: &[u32],
    u: usize,
    flips: Flips,
) -> Result<(), NoMemory>
    requires placed { IsPlaced chip.now.core (place_in chip.now.ranks) u }
    requires nets { HasNodes (length chip.now.core.nets) values.now }
    requires spread { AreLanesSpread chip.now.core (place_in chip.now.ranks) u values.now others.old
        changed.old.items touched.now }
    ensures spread { OnOk result (AreLanesSpread chip.now.core (place_in chip.now.ranks) u values.now
        others.new changed.new.items touched.now) }
{
    chip.linked();
    let _ = touched.len();
    let first = chip.inputs_at(u);
    for output in 0..chip.outputs_at(u) {
        let net = chip.pin_net(u, first + output);
        let value = flipped(is_flipped(flips, output), values.get(net));
        put(others, changed, net, value)?;
    }
    Ok(())
}

// The lanes in which what these flips change stays inside. What changes isn't put back.
fn lanes_spread(
    chip: &View<'_>,
    tables: &[Option<LastTable>],
    parts: &[u32],
    values: &Block,
    others: &mut Block,
    changed: &mut Vec<u32>,
    touched: &mut Vec<u32>,
    masks: &mut Vec<u64>,
    u: usize,
    flips: Flips,
) -> Result<u64, NoMemory>
    requires placed { IsPlaced chip.now.core (place_in chip.now.ranks) u }
    requires parts { All (IsPlaced chip.now.core (place_in chip.now.ranks)) parts.now }
    requires tables { AreTables chip.now.core (place_in chip.now.ranks) (cell_number chip.now.chip)
        tables.now }
    requires nets { HasNodes (length chip.now.core.nets) values.now }
    requires spread { AreLanesSpread chip.now.core (place_in chip.now.ranks) u values.now others.old
        changed.old.items touched.old.items }
    requires room { length masks.old.items ≡ 64 }
    ensures stay { IfOk result (λ lanes. InLanes lanes
        (λ lane. StaysSomehow chip.now.core u (state_in values.now lane) flips)) }
    ensures spread { IfOk result (λ lanes. AreLanesSpread chip.now.core (place_in chip.now.ranks) u values.now
        others.new changed.new.items touched.new.items) }
    ensures room { IfOk result (λ lanes. length masks.new.items ≡ 64) }
{
    chip.linked();
    flip(chip, values, others, changed, touched.as_slice(), u, flips)?;
    spread(
        chip, tables, parts, values, others, changed, touched, masks, u,
    )?;
    let own = lanes_flipped(chip, values, others, u, flips);
    let given = lanes_touched(chip, tables, values, others, masks, touched.as_slice());
    let hidden = lanes_changed(chip, tables, values, others, masks, changed.as_slice());
    Ok(both(own, both(given, hidden)))
}

/// Gives the nets of a list the values that they have in another block. The blocks differ at no other nets,
/// so they are the same then.
pub(crate) fn restore_lanes(values: &mut Block, from: &Block, nets: &[u32])
    requires room { HasNodes (length from.now.zeros.items) values.old }
    requires from_room { length from.now.ones.items ≡ length from.now.zeros.items }
    requires known { All (λ net. net < length from.now.zeros.items) nets.now }
    requires same { AreSameLanesOutside from.now values.old nets.now }
    ensures same { AreSameLanes values.new from.now }
    ensures room { HasNodes (length from.now.zeros.items) values.new }
{
    for place in 0..nets.len() {
        let net = entry(nets, place);
        values.set(net, from.get(net));
    }
}

// The lanes in which what these flips change stays inside.
fn lanes_staying(
    chip: &View<'_>,
    tables: &[Option<LastTable>],
    parts: &[u32],
    values: &Block,
    others: &mut Block,
    changed: &mut Vec<u32>,
    touched: &mut Vec<u32>,
    masks: &mut Vec<u64>,
    u: usize,
    flips: Flips,
) -> Result<u64, NoMemory>
    requires placed { IsPlaced chip.now.core (place_in chip.now.ranks) u }
    requires parts { All (IsPlaced chip.now.core (place_in chip.now.ranks)) parts.now }
    requires tables { AreTables chip.now.core (place_in chip.now.ranks) (cell_number chip.now.chip)
        tables.now }
    requires nets { HasNodes (length chip.now.core.nets) values.now }
    requires other_nets { HasNodes (length chip.now.core.nets) others.old }
    requires rest { AreSameLanes others.old values.now }
    requires room { length masks.old.items ≡ 64 }
    ensures stay { IfOk result (λ lanes. InLanes lanes
        (λ lane. StaysSomehow chip.now.core u (state_in values.now lane) flips)) }
    ensures other_nets { IfOk result (λ lanes. HasNodes (length chip.now.core.nets) others.new) }
    ensures rest { IfOk result (λ lanes. AreSameLanes others.new values.now) }
    ensures room { IfOk result (λ lanes. length masks.new.items ≡ 64) }
{
    chip.linked();
    changed.clear();
    touched.clear();
    let lanes = lanes_spread(
        chip, tables, parts, values, others, changed, touched, masks, u, flips,
    )?;
    restore_lanes(others, values, changed.as_slice());
    Ok(lanes)
}

// The lanes in which the output nets of an instance are known.
fn lanes_own(chip: &View<'_>, values: &Block, u: usize) -> u64
    requires placed { IsPlaced chip.now.core (place_in chip.now.ranks) u }
    requires nets { HasNodes (length chip.now.core.nets) values.now }
    ensures { InLanes result (λ lane. StaysFor chip.now.core u (state_in values.now lane) false false) }
{
    chip.linked();
    let first = chip.inputs_at(u);
    let mut lanes = ALL_LANES;
    for output in 0..chip.outputs_at(u) {
        let value = values.get(chip.pin_net(u, first + output));
        lanes = both(lanes, lanes_definite(value));
    }
    lanes
}

// The lanes in which the flips of the second output of an instance, and those of both, stay inside: where it
// has but one, those in which the flip of that does.
fn lanes_second(
    chip: &View<'_>,
    tables: &[Option<LastTable>],
    parts: &[u32],
    values: &Block,
    others: &mut Block,
    changed: &mut Vec<u32>,
    touched: &mut Vec<u32>,
    masks: &mut Vec<u64>,
    u: usize,
    first: u64,
    none: u64,
) -> Result<u64, NoMemory>
    requires placed { IsPlaced chip.now.core (place_in chip.now.ranks) u }
    requires parts { All (IsPlaced chip.now.core (place_in chip.now.ranks)) parts.now }
    requires tables { AreTables chip.now.core (place_in chip.now.ranks) (cell_number chip.now.chip)
        tables.now }
    requires nets { HasNodes (length chip.now.core.nets) values.now }
    requires other_nets { HasNodes (length chip.now.core.nets) others.old }
    requires rest { AreSameLanes others.old values.now }
    requires room { length masks.old.items ≡ 64 }
    requires first { InLanes first (λ lane. StaysFor chip.now.core u (state_in values.now lane) true false) }
    requires none { InLanes none (λ lane. StaysFor chip.now.core u (state_in values.now lane) false false) }
    ensures other { IfOk result (λ lanes. InLanes lanes
        (λ lane. StaysFor chip.now.core u (state_in values.now lane) false true)) }
    ensures two { IfOk result (λ lanes. InLanes lanes
        (λ lane. StaysFor chip.now.core u (state_in values.now lane) true true)) }
    ensures other_nets { IfOk result (λ lanes. HasNodes (length chip.now.core.nets) others.new) }
    ensures rest { IfOk result (λ lanes. AreSameLanes others.new values.now) }
    ensures room { IfOk result (λ lanes. length masks.new.items ≡ 64) }
{
    chip.linked();
    if chip.outputs_at(u) < 2 {
        return Ok(both(first, none));
    }
    let other = lanes_staying(
        chip,
        tables,
        parts,
        values,
        others,
        changed,
        touched,
        masks,
        u,
        flips_of(false, true),
    )?;
    let two = lanes_staying(
        chip,
        tables,
        parts,
        values,
        others,
        changed,
        touched,
        masks,
        u,
        flips_of(true, true),
    )?;
    Ok(both(other, two))
}

/// The lanes in which all flips of the outputs of an instance stay inside.
pub(crate) fn lanes_all_stay(
    chip: &View<'_>,
    tables: &[Option<LastTable>],
    parts: &[u32],
    values: &Block,
    others: &mut Block,
    changed: &mut Vec<u32>,
    touched: &mut Vec<u32>,
    masks: &mut Vec<u64>,
    u: usize,
) -> Result<u64, NoMemory>
    requires placed { IsPlaced chip.now.core (place_in chip.now.ranks) u }
    requires parts { All (IsPlaced chip.now.core (place_in chip.now.ranks)) parts.now }
    requires tables { AreTables chip.now.core (place_in chip.now.ranks) (cell_number chip.now.chip)
        tables.now }
    requires nets { HasNodes (length chip.now.core.nets) values.now }
    requires other_nets { HasNodes (length chip.now.core.nets) others.old }
    requires rest { AreSameLanes others.old values.now }
    requires room { length masks.old.items ≡ 64 }
    ensures stay { IfOk result (λ lanes. InLanes lanes
        (λ lane. AllStayInside chip.now.core u (values_of values.now lane))) }
    ensures other_nets { IfOk result (λ lanes. HasNodes (length chip.now.core.nets) others.new) }
    ensures rest { IfOk result (λ lanes. AreSameLanes others.new values.now) }
    ensures room { IfOk result (λ lanes. length masks.new.items ≡ 64) }
{
    let none = lanes_own(chip, values, u);
    let one = flips_of(true, false);
    let first = lanes_staying(
        chip, tables, parts, values, others, changed, touched, masks, u, one,
    )?;
    let more = lanes_second(
        chip, tables, parts, values, others, changed, touched, masks, u, first, none,
    )?;
    Ok(both(none, both(first, more)))
}

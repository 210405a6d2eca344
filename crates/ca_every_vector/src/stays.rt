//! Whether what is flipped at the outputs of an instance stays inside.
ghost use Rattle.std.specs.Prelude.{◌≡◌, ◌<◌, length, IsTrue, IfOk, OnOk, ◌≢◌, ◌+◌};
ghost use Rattle.ca_net.specs.State.{value_at};
ghost use Rattle.ca_view.specs.Linked.{IsPlaced, place_in};
ghost use Rattle.ca_view.specs.Places.{cell_number};
ghost use Rattle.ca_sweep.specs.Tables.{AreTables};
ghost use Rattle.ca_every_vector.specs.code.Spread.{AreSpread, AreFlippedOut, StaysSomehow};
ghost use Rattle.ca_flat.specs.Chip.{outputs_at, inputs_at};
ghost use Rattle.ca_sweep.specs.Seen.{flipped_if, is_flipped};
ghost use Rattle.ca_net.specs.declared.trit.Trit.TheVariants.{X};
ghost use Rattle.ca_every_vector.specs.Inside.{AllStayInside};

use crate::lists::{at, entry, is_same, restore};
use crate::spread::{are_changed_inside, are_touched_inside, put, spread_from};
use ca_base::NoMemory;
use ca_net::Trit;
use ca_static::LastTable;
use ca_sweep::Flips;
use ca_view::View;

// A value, or its opposite.
fn flipped(flip: bool, value: Trit) -> Trit
    ensures { result ≡ flipped_if flip value }
{
    match value {
        Trit::Zero if flip => Trit::One,
        Trit::One if flip => Trit::Zero,
        Trit::Zero | Trit::One | Trit::X => value,
    }
}

/// Whether an output pin is flipped.
pub(crate) fn is_flipped(flips: Flips, output: usize) -> bool
    ensures { result ≡ is_flipped flips output }
{
    if output == 0 {
        flips.first
    } else {
        flips.second
    }
}

// Whether a value is definite.
fn is_known(value: Trit) -> bool
    ensures { IsTrue result → value ≢ X }
{
    value != Trit::X
}

// Whether the output nets of an instance are known, and have the opposite where the pins are flipped.
fn are_flipped(chip: &View<'_>, values: &[Trit], others: &[Trit], u: usize, flips: Flips) -> bool
    requires placed { IsPlaced chip.now.core (place_in chip.now.ranks) u }
    requires nets { length values.now ≡ length chip.now.core.nets }
    requires other_nets { length others.now ≡ length chip.now.core.nets }
    ensures { IsTrue result → AreFlippedOut chip.now.core u values.now others.now flips }
{
    chip.linked();
    let first = chip.inputs_at(u);
    for output in 0..chip.outputs_at(u) {
        let net = chip.pin_net(u, first + output);
        let value = at(values, net);
        let other = at(others, net);
        let wanted = flipped(is_flipped(flips, output), value);
        if !is_known(value) {
            return false;
        }
        if !is_same(other, wanted) {
            return false;
        }
    }
    true
}

// Gives the output nets of an instance the opposite where the pins are flipped.
fn flip(
    chip: &View<'_>,
    values: &[Trit],
    others: &mut [Trit],
    changed: &mut Vec<u32>,
    touched: &[u32],
    u: usize,
    flips: Flips,
) -> Result<(), NoMemory>
    requires placed { IsPlaced chip.now.core (place_in chip.now.ranks) u }
    requires nets { length values.now ≡ length chip.now.core.nets }
    requires spread { AreSpread chip.now.core (place_in chip.now.ranks) u values.now others.old
        changed.old.items touched.now }
    ensures { OnOk result (AreSpread chip.now.core (place_in chip.now.ranks) u values.now others.new
        changed.new.items touched.now) }
{
    chip.linked();
    let _ = touched.len();
    let first = chip.inputs_at(u);
    for output in 0..chip.outputs_at(u) {
        let net = chip.pin_net(u, first + output);
        let value = flipped(is_flipped(flips, output), at(values, net));
        put(others, changed, net, value)?;
    }
    Ok(())
}

// Evaluates what reads nets that change, as long as there is some.
fn spread(
    chip: &View<'_>,
    tables: &[Option<LastTable>],
    values: &[Trit],
    others: &mut [Trit],
    changed: &mut Vec<u32>,
    touched: &mut Vec<u32>,
    u: usize,
) -> Result<bool, NoMemory>
    requires tables { AreTables chip.now.core (place_in chip.now.ranks) (cell_number chip.now.chip)
        tables.now }
    requires nets { length values.now ≡ length chip.now.core.nets }
    requires spread { AreSpread chip.now.core (place_in chip.now.ranks) u values.now others.old
        changed.old.items touched.old.items }
    ensures { IfOk result (λ known. AreSpread chip.now.core (place_in chip.now.ranks) u values.now
        others.new changed.new.items touched.new.items) }
{
    chip.linked();
    for from in 0..MOST_CHANGES {
        if from >= changed.len() {
            return Ok(true);
        }
        let net = entry(changed.as_slice(), from);
        if !spread_from(chip, tables, values, others, changed, touched, net, u)? {
            return Ok(false);
        }
    }
    Ok(false)
}

// The most changes of nets that are followed.
const MOST_CHANGES: usize = 65_536;

// Whether what these flips change stays inside. What changes isn't put back.
fn spreads_inside(
    chip: &View<'_>,
    tables: &[Option<LastTable>],
    values: &[Trit],
    others: &mut [Trit],
    changed: &mut Vec<u32>,
    touched: &mut Vec<u32>,
    u: usize,
    flips: Flips,
) -> Result<bool, NoMemory>
    requires placed { IsPlaced chip.now.core (place_in chip.now.ranks) u }
    requires tables { AreTables chip.now.core (place_in chip.now.ranks) (cell_number chip.now.chip)
        tables.now }
    requires nets { length values.now ≡ length chip.now.core.nets }
    requires spread { AreSpread chip.now.core (place_in chip.now.ranks) u values.now others.old
        changed.old.items touched.old.items }
    ensures stays { IfOk result (λ stays. IsTrue stays
        → StaysSomehow chip.now.core u values.now flips) }
    ensures spread { IfOk result (λ stays. AreSpread chip.now.core (place_in chip.now.ranks) u values.now
        others.new changed.new.items touched.new.items) }
{
    chip.linked();
    flip(chip, values, others, changed, touched.as_slice(), u, flips)?;
    if !spread(chip, tables, values, others, changed, touched, u)? {
        return Ok(false);
    }
    if !are_flipped(chip, values, others, u, flips) {
        return Ok(false);
    }
    if !are_touched_inside(chip, tables, values, others, touched.as_slice()) {
        return Ok(false);
    }
    Ok(are_changed_inside(chip, tables, values, others, changed.as_slice()))
}

// Whether what these flips change stays inside.
fn stays(
    chip: &View<'_>,
    tables: &[Option<LastTable>],
    values: &[Trit],
    others: &mut [Trit],
    changed: &mut Vec<u32>,
    touched: &mut Vec<u32>,
    u: usize,
    flips: Flips,
) -> Result<bool, NoMemory>
    requires placed { IsPlaced chip.now.core (place_in chip.now.ranks) u }
    requires tables { AreTables chip.now.core (place_in chip.now.ranks) (cell_number chip.now.chip)
        tables.now }
    requires nets { length values.now ≡ length chip.now.core.nets }
    requires rest { others.old ≡ values.now }
    ensures stays { IfOk result (λ stays. IsTrue stays
        → StaysSomehow chip.now.core u values.now flips) }
    ensures rest { IfOk result (λ stays. others.new ≡ values.now) }
{
    chip.linked();
    changed.clear();
    touched.clear();
    let stays = spreads_inside(chip, tables, values, others, changed, touched, u, flips)?;
    restore(others, values, changed.as_slice());
    Ok(stays)
}

/// Whether all flips of the outputs of an instance stay inside.
pub(crate) fn all_stay(
    chip: &View<'_>,
    tables: &[Option<LastTable>],
    values: &[Trit],
    others: &mut [Trit],
    changed: &mut Vec<u32>,
    touched: &mut Vec<u32>,
    u: usize,
) -> Result<bool, NoMemory>
    requires placed { IsPlaced chip.now.core (place_in chip.now.ranks) u }
    requires tables { AreTables chip.now.core (place_in chip.now.ranks) (cell_number chip.now.chip)
        tables.now }
    requires nets { length values.now ≡ length chip.now.core.nets }
    requires rest { others.old ≡ values.now }
    ensures stay { IfOk result (λ all. IsTrue all
        → AllStayInside chip.now.core u (value_at values.now)) }
    ensures rest { IfOk result (λ all. others.new ≡ values.now) }
{
    let flips = flips_of(true, false);
    let one = stays(chip, tables, values, others, changed, touched, u, flips)?;
    if !one {
        return Ok(false);
    }
    let flips = flips_of(false, true);
    let other = stays(chip, tables, values, others, changed, touched, u, flips)?;
    if !other {
        return Ok(false);
    }
    let flips = flips_of(true, true);
    let two = stays(chip, tables, values, others, changed, touched, u, flips)?;
    if !two {
        return Ok(false);
    }
    let flips = flips_of(false, false);
    let none = stays(chip, tables, values, others, changed, touched, u, flips)?;
    Ok(none)
}

/// A choice of output pins.
pub(crate) fn flips_of(first: bool, second: bool) -> Flips
    ensures first { result.first ≡ first }
    ensures second { result.second ≡ second }
{
    Flips { first, second }
}

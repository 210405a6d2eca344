//! Instances after which the good last values are definite under each definite pair.

ghost use Rattle.std.specs.Prelude.{◌≡◌, ◌≢◌, ◌<◌, length, IsTrue, IfOk, None};
ghost use Rattle.ca_net.specs.declared.trit.Trit.TheVariants.{X};
ghost use Rattle.ca_net.specs.Circuit.{IsWellFormed};
ghost use Rattle.ca_flat.specs.Flat.{flat};
ghost use Rattle.ca_net.specs.State.{value_at};
ghost use Rattle.ca_view.specs.Linked.{IsPlaced, place_in};
ghost use Rattle.ca_view.specs.Places.{cell_number};
ghost use Rattle.ca_sweep.specs.Tables.{AreTables, IsOrder, AreMarks};
ghost use Rattle.ca_every_vector.specs.Inside.{IsSureAfter};
ghost use Rattle.ca_every_vector.specs.code.Fixed.{AreFixed};
ghost use Rattle.ca_every_vector.specs.code.Sure.{AreSure, AreSurePins};

use crate::lists::at;
use ca_base::NoMemory;
use ca_net::{State, Trit};
use ca_sweep::{Tables, clear_instances};
use ca_view::View;
use std::alloc::Global;

// The nets of the chip inputs are sure.
fn mark_inputs(chip: &View<'_>, values: &mut State)
    requires nets { length values.old ≡ length chip.now.core.nets }
    requires sure { AreSure chip.now.core values.old }
    ensures nets { length values.new ≡ length chip.now.core.nets }
    ensures sure { AreSure chip.now.core values.new }
{
    chip.linked();
    for input in 0..chip.input_count() {
        values.set(chip.input(input), Trit::Zero);
    }
}

// Whether a value is definite.
fn is_definite(value: Trit) -> bool
    ensures { IsTrue result → value ≢ X }
{
    value != Trit::X
}

// The net of a constant is sure, if that has a definite value.
fn mark_constant(chip: &View<'_>, fixed: &[Trit], k: usize, values: &mut State)
    requires fixed { AreFixed chip.now.core fixed.now }
    requires known { k < length chip.now.core.constants }
    requires nets { length values.old ≡ length chip.now.core.nets }
    requires sure { AreSure chip.now.core values.old }
    ensures nets { length values.new ≡ length chip.now.core.nets }
    ensures sure { AreSure chip.now.core values.new }
{
    chip.linked();
    let net = chip.constant(k).net;
    if !is_definite(at(fixed, net)) {
        return;
    }
    values.set(net, Trit::Zero);
}

// So are the nets of all constants.
fn mark_fixed(chip: &View<'_>, fixed: &[Trit], values: &mut State)
    requires fixed { AreFixed chip.now.core fixed.now }
    requires nets { length values.old ≡ length chip.now.core.nets }
    requires sure { AreSure chip.now.core values.old }
    ensures nets { length values.new ≡ length chip.now.core.nets }
    ensures sure { AreSure chip.now.core values.new }
{
    chip.linked();
    for k in 0..chip.constant_count() {
        mark_constant(chip, fixed, k, values);
    }
}

// Whether the values of an instance's input nets are definite.
fn are_sure_pins(chip: &View<'_>, values: &State, w: usize) -> bool
    requires placed { IsPlaced chip.now.core (place_in chip.now.ranks) w }
    requires nets { length values.now ≡ length chip.now.core.nets }
    ensures { IsTrue result → AreSurePins chip.now.core values.now w (inputs_at chip.now.core w) }
{
    chip.linked();
    for pin in 0..chip.inputs_at(w) {
        if values.get(chip.pin_net(w, pin)) == Trit::X {
            return false;
        }
    }
    true
}

ghost use Rattle.ca_flat.specs.Chip.{inputs_at};

// The output nets of a static instance whose input nets are sure are so too.
fn pass(chip: &View<'_>, tables: &Tables, w: usize, values: &mut State)
    requires placed { IsPlaced chip.now.core (place_in chip.now.ranks) w }
    requires tables { AreTables chip.now.core (place_in chip.now.ranks) (cell_number chip.now.chip)
        tables.now.items }
    requires nets { length values.old ≡ length chip.now.core.nets }
    requires sure { AreSure chip.now.core values.old }
    ensures nets { length values.new ≡ length chip.now.core.nets }
    ensures sure { AreSure chip.now.core values.new }
{
    chip.linked();
    if !is_static(chip, tables, w) {
        return;
    }
    if !are_sure_pins(chip, values, w) {
        return;
    }
    mark_outputs(chip, w, values);
}

// Whether the cell of an instance is static.
fn is_static(chip: &View<'_>, tables: &Tables, w: usize) -> bool
    requires placed { IsPlaced chip.now.core (place_in chip.now.ranks) w }
    requires tables { AreTables chip.now.core (place_in chip.now.ranks) (cell_number chip.now.chip)
        tables.now.items }
    ensures { IsTrue result → IsStatic (cell_at chip.now.core w) }
{
    chip.linked();
    tables[chip.number(w)].is_some()
}

ghost use Rattle.ca_flat.specs.Chip.{cell_at};
ghost use Rattle.ca_flips.specs.Static.{IsStatic};

// The output nets of such an instance are sure.
fn mark_outputs(chip: &View<'_>, w: usize, values: &mut State)
    requires placed { IsPlaced chip.now.core (place_in chip.now.ranks) w }
    requires nets { length values.old ≡ length chip.now.core.nets }
    requires sure { AreSure chip.now.core values.old }
    requires outputs { AreOutputsSure chip.now.core w }
    ensures nets { length values.new ≡ length chip.now.core.nets }
    ensures sure { AreSure chip.now.core values.new }
{
    chip.linked();
    let first = chip.inputs_at(w);
    for output in 0..chip.outputs_at(w) {
        values.set(chip.pin_net(w, first + output), Trit::Zero);
    }
}

ghost use Rattle.ca_every_vector.specs.code.Sure.{AreOutputsSure};

// The sure nets have a definite value, whichever it is.
fn find_sure(
    chip: &View<'_>,
    tables: &Tables,
    order: &[Option<usize>],
    fixed: &[Trit],
    values: &mut State,
)
    requires tables { AreTables chip.now.core (place_in chip.now.ranks) (cell_number chip.now.chip)
        tables.now.items }
    requires order { IsOrder chip.now.core (place_in chip.now.ranks) order.now }
    requires fixed { AreFixed chip.now.core fixed.now }
    requires nets { length values.old ≡ length chip.now.core.nets }
    requires sure { AreSure chip.now.core values.old }
    ensures nets { length values.new ≡ length chip.now.core.nets }
    ensures sure { AreSure chip.now.core values.new }
{
    mark_inputs(chip, values);
    mark_fixed(chip, fixed, values);
    for place in 0..order.len() {
        if let Some(w) = order[place] {
            pass(chip, tables, w, values);
        }
    }
}

/// Marks instances after which all cells are static, and good last values are definite under each definite
/// pair, where the chip's flat network is a network.
pub(crate) fn sure_instances(
    alloc: Global,
    chip: &View<'_>,
    tables: &Tables,
    order: &[Option<usize>],
    fixed: &[Trit],
) -> Result<Vec<bool>, NoMemory>
    requires tables { AreTables chip.now.core (place_in chip.now.ranks) (cell_number chip.now.chip)
        tables.now.items }
    requires order { IsOrder chip.now.core (place_in chip.now.ranks) order.now }
    requires fixed { AreFixed chip.now.core fixed.now }
    ensures { IfOk result (λ marks. IsWellFormed (flat chip.now.core None)
        → AreMarks chip.now.core (IsSureAfter chip.now.core) marks.items) }
{
    let mut values = State::unknown(alloc, chip.nets())?;
    find_sure(chip, tables, order, fixed, &mut values);
    let marks = clear_instances(alloc, chip, tables, order, &values)?;
    Ok(marks)
}

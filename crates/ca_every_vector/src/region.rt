//! The values of a region: the last values that a few bits of the last vector give.

ghost use Rattle.std.specs.Prelude.{◌≡◌, ◌<◌, ◌^◌, length, slice_index, IfSome, IsTrue, List};
ghost use Rattle.std.specs.List.{All, Contains};
ghost use Rattle.ca_net.specs.declared.trit.Trit.{Trit};
ghost use Rattle.ca_net.specs.State.{value_at};
ghost use Rattle.ca_flat.specs.Chip.{inputs_at, outputs_at};
ghost use Rattle.ca_flips.specs.Known.{AreKnownLasts};
ghost use Rattle.ca_view.specs.Linked.{IsPlaced, place_in};
ghost use Rattle.ca_view.specs.Places.{cell_number};
ghost use Rattle.ca_sweep.specs.Tables.{AreTables};
ghost use Rattle.ca_every_vector.specs.code.Region.{AreFewInputs, AreKnownWithin, HaveDigits, IsForNumber};
ghost use Rattle.ca_every_vector.specs.code.Region.{IsGivenOrUnknown, AreUnknownOut, input_at, digit_for};

use crate::given::{is_given, number_at};
use crate::known::known_of_checks;
use crate::lists::{at, entry, give, is_same};
use crate::vectors::digit;
use ca_net::Trit;
use ca_static::LastTable;
use ca_view::View;

/// The net of the chip input at a place of a list.
pub(crate) fn input_net(chip: &View<'_>, inputs: &[u16], place: usize) -> usize
    requires inputs { AreFewInputs chip.now.core inputs.now }
    requires place { place < length inputs.now }
    ensures net { result ≡ slice_index chip.now.core.inputs (input_at inputs.now place) }
    ensures known { result < length chip.now.core.nets }
{
    chip.linked();
    chip.input(inputs[place] as usize)
}

// Gives the nets of a region's inputs the digits of a number.
fn set_inputs(chip: &View<'_>, inputs: &[u16], parts: &[u32], number: usize, values: &mut [Trit])
    requires inputs { AreFewInputs chip.now.core inputs.now }
    requires nets { length values.old ≡ length chip.now.core.nets }
    requires within { AreKnownWithin chip.now.core inputs.now parts.now values.old }
    ensures nets { length values.new ≡ length chip.now.core.nets }
    ensures within { AreKnownWithin chip.now.core inputs.now parts.now values.new }
{
    let _ = parts.len();
    let count = inputs.len();
    for place in 0..count {
        let net = input_net(chip, inputs, place);
        give(values, net, digit(number, count - 1 - place));
    }
}

// What the cell of an instance ends with at an output pin by the vector of a number, if it is static and
// there is a number.
fn value_for(
    chip: &View<'_>,
    tables: &[Option<LastTable>],
    w: usize,
    number: Option<usize>,
    output: usize,
) -> Trit
    requires placed { IsPlaced chip.now.core (place_in chip.now.ranks) w }
    requires tables { AreTables chip.now.core (place_in chip.now.ranks) (cell_number chip.now.chip)
        tables.now }
    requires number { IfSome number (λ number. number < 2 ^ inputs_at chip.now.core w) }
    requires output { output < outputs_at chip.now.core w }
{
    chip.linked();
    match number {
        Some(number) => match &tables[chip.number(w)] {
            Some(table) => table.last(number, output),
            None => Trit::X,
        },
        None => Trit::X,
    }
}

// Gives the output nets of an instance of a region what its cell ends with by the values of its input nets
// alone, or X.
fn evaluate(
    chip: &View<'_>,
    tables: &[Option<LastTable>],
    inputs: &[u16],
    parts: &[u32],
    w: usize,
    values: &mut [Trit],
)
    requires placed { IsPlaced chip.now.core (place_in chip.now.ranks) w }
    requires has { Contains parts.now w }
    requires tables { AreTables chip.now.core (place_in chip.now.ranks) (cell_number chip.now.chip)
        tables.now }
    requires nets { length values.old ≡ length chip.now.core.nets }
    requires within { AreKnownWithin chip.now.core inputs.now parts.now values.old }
    ensures nets { length values.new ≡ length chip.now.core.nets }
    ensures within { AreKnownWithin chip.now.core inputs.now parts.now values.new }
{
    chip.linked();
    let _ = (inputs.len(), parts.len());
    let number = number_at(chip, values, w);
    let first = chip.inputs_at(w);
    for output in 0..chip.outputs_at(w) {
        let value = value_for(chip, tables, w, number, output);
        give(values, chip.pin_net(w, first + output), value);
    }
}

/// Sets the inputs of a region to the digits of a number, and evaluates its instances.
pub(crate) fn find_values(
    chip: &View<'_>,
    tables: &[Option<LastTable>],
    inputs: &[u16],
    parts: &[u32],
    number: usize,
    values: &mut [Trit],
)
    requires inputs { AreFewInputs chip.now.core inputs.now }
    requires placed { All (IsPlaced chip.now.core (place_in chip.now.ranks)) parts.now }
    requires tables { AreTables chip.now.core (place_in chip.now.ranks) (cell_number chip.now.chip)
        tables.now }
    requires nets { length values.old ≡ length chip.now.core.nets }
    requires within { AreKnownWithin chip.now.core inputs.now parts.now values.old }
    ensures nets { length values.new ≡ length chip.now.core.nets }
    ensures within { AreKnownWithin chip.now.core inputs.now parts.now values.new }
{
    set_inputs(chip, inputs, parts, number, values);
    for place in 0..parts.len() {
        evaluate(chip, tables, inputs, parts, entry(parts, place), values);
    }
}

// Whether the nets of the inputs have the digits of the number.
fn have_digits(chip: &View<'_>, inputs: &[u16], number: usize, values: &[Trit]) -> bool
    requires inputs { AreFewInputs chip.now.core inputs.now }
    requires nets { length values.now ≡ length chip.now.core.nets }
    ensures { IsTrue result → HaveDigits chip.now.core inputs.now number values.now }
{
    let count = inputs.len();
    for place in 0..count {
        let net = input_net(chip, inputs, place);
        if !is_same(at(values, net), digit(number, count - 1 - place)) {
            return false;
        }
    }
    true
}

// Whether the output nets of an instance are unknown.
fn are_unknown(chip: &View<'_>, values: &[Trit], w: usize) -> bool
    requires placed { IsPlaced chip.now.core (place_in chip.now.ranks) w }
    requires nets { length values.now ≡ length chip.now.core.nets }
    ensures { IsTrue result → AreUnknownOut chip.now.core values.now w (outputs_at chip.now.core w) }
{
    chip.linked();
    let first = chip.inputs_at(w);
    for output in 0..chip.outputs_at(w) {
        if !is_same(at(values, chip.pin_net(w, first + output)), Trit::X) {
            return false;
        }
    }
    true
}

// Whether an instance is given by its cell, or its output nets are unknown.
fn is_fine(chip: &View<'_>, tables: &[Option<LastTable>], values: &[Trit], w: usize) -> bool
    requires placed { IsPlaced chip.now.core (place_in chip.now.ranks) w }
    requires tables { AreTables chip.now.core (place_in chip.now.ranks) (cell_number chip.now.chip)
        tables.now }
    requires nets { length values.now ≡ length chip.now.core.nets }
    ensures { IsTrue result → IsGivenOrUnknown chip.now.core values.now w }
{
    if is_given(chip, tables, values, w) {
        return true;
    }
    are_unknown(chip, values, w)
}

// Whether each instance of the region is given by its cell, or its output nets are unknown.
fn are_given(chip: &View<'_>, tables: &[Option<LastTable>], parts: &[u32], values: &[Trit]) -> bool
    requires placed { All (IsPlaced chip.now.core (place_in chip.now.ranks)) parts.now }
    requires tables { AreTables chip.now.core (place_in chip.now.ranks) (cell_number chip.now.chip)
        tables.now }
    requires nets { length values.now ≡ length chip.now.core.nets }
    ensures { IsTrue result → All (IsGivenOrUnknown chip.now.core values.now) parts.now }
{
    for place in 0..parts.len() {
        if !is_fine(chip, tables, values, entry(parts, place)) {
            return false;
        }
    }
    true
}

/// Whether the values are known lasts of each pair whose last bits at the inputs are the digits of the
/// number.
pub(crate) fn are_known(
    chip: &View<'_>,
    tables: &[Option<LastTable>],
    inputs: &[u16],
    parts: &[u32],
    number: usize,
    values: &[Trit],
) -> bool
    requires inputs { AreFewInputs chip.now.core inputs.now }
    requires placed { All (IsPlaced chip.now.core (place_in chip.now.ranks)) parts.now }
    requires tables { AreTables chip.now.core (place_in chip.now.ranks) (cell_number chip.now.chip)
        tables.now }
    requires nets { length values.now ≡ length chip.now.core.nets }
    requires within { AreKnownWithin chip.now.core inputs.now parts.now values.now }
    ensures { IsTrue result → (pair : List Trit) → IsForNumber chip.now.core inputs.now number pair
        → AreKnownLasts chip.now.core pair (value_at values.now) }
{
    if !have_digits(chip, inputs, number, values) {
        return false;
    }
    if !are_given(chip, tables, parts, values) {
        return false;
    }
    known_of_checks(chip, inputs, parts, number, values);
    true
}

//! Whether an instance has at its output nets what its cell ends with by the values of its input nets.

ghost use Rattle.std.specs.Prelude.{◌≡◌, ◌<◌, length, IsTrue, IfSome};
ghost use Rattle.ca_net.specs.State.{value_at};
ghost use Rattle.ca_flat.specs.Chip.{inputs_at};
ghost use Rattle.ca_flips.specs.Flips.{vector_at};
ghost use Rattle.ca_view.specs.Linked.{IsPlaced, place_in};
ghost use Rattle.ca_view.specs.Places.{cell_number};
ghost use Rattle.ca_sweep.specs.Tables.{AreTables};
ghost use Rattle.ca_sweep.specs.code.Changes.{IsNumberOf};
ghost use Rattle.ca_every_vector.specs.Inside.{IsEvaluatedInside};
ghost use Rattle.ca_every_vector.specs.code.Spread.{IsGiven};

use crate::lists::at;
use ca_net::Trit;
use ca_static::LastTable;
use ca_view::View;

/// The number of the vector of an instance's input nets, if it is definite.
pub(crate) fn number_at(chip: &View<'_>, values: &[Trit], w: usize) -> Option<usize>
    requires placed { IsPlaced chip.now.core (place_in chip.now.ranks) w }
    requires nets { length values.now ≡ length chip.now.core.nets }
    ensures { IfSome result (IsNumberOf (inputs_at chip.now.core w)
        (vector_at chip.now.core w (value_at values.now))) }
{
    chip.linked();
    let mut number = 0;
    for pin in 0..chip.inputs_at(w) {
        match at(values, chip.pin_net(w, pin)) {
            Trit::Zero => number *= 2,
            Trit::One => number = 2 * number + 1,
            Trit::X => return None,
        }
    }
    Some(number)
}

// Whether the output nets of an instance have the last values of an entry of its cell's table.
fn has_entry(chip: &View<'_>, table: &LastTable, values: &[Trit], w: usize, number: usize) -> bool
    requires placed { IsPlaced chip.now.core (place_in chip.now.ranks) w }
    requires nets { length values.now ≡ length chip.now.core.nets }
    requires table { IsLastTable (cell_at chip.now.core w) table.now }
    requires number { number < length table.now }
    ensures { IsTrue result → HasEntry chip.now.core w (value_at values.now) table.now number
        (outputs_at chip.now.core w) }
{
    chip.linked();
    let first = chip.inputs_at(w);
    for output in 0..chip.outputs_at(w) {
        if at(values, chip.pin_net(w, first + output)) != table.last(number, output) {
            return false;
        }
    }
    true
}

ghost use Rattle.ca_flat.specs.Chip.{cell_at, outputs_at};
ghost use Rattle.ca_static.specs.LastTable.{IsLastTable};
ghost use Rattle.ca_every_vector.specs.code.Spread.{HasEntry};

/// Whether an instance's input nets have known values, and its output nets what its cell ends with by them.
pub(crate) fn is_given(
    chip: &View<'_>,
    tables: &[Option<LastTable>],
    values: &[Trit],
    w: usize,
) -> bool
    requires placed { IsPlaced chip.now.core (place_in chip.now.ranks) w }
    requires tables { AreTables chip.now.core (place_in chip.now.ranks) (cell_number chip.now.chip)
        tables.now }
    requires nets { length values.now ≡ length chip.now.core.nets }
    ensures { IsTrue result → IsGiven chip.now.core w (value_at values.now) }
{
    chip.linked();
    let number = match number_at(chip, values, w) {
        Some(number) => number,
        None => return false,
    };
    match &tables[chip.number(w)] {
        Some(table) => has_entry(chip, table, values, w, number),
        None => false,
    }
}

/// Whether an instance is evaluated with the others where the values of its input nets are known.
pub(crate) fn is_inside(
    chip: &View<'_>,
    tables: &[Option<LastTable>],
    values: &[Trit],
    others: &[Trit],
    w: usize,
) -> bool
    requires placed { IsPlaced chip.now.core (place_in chip.now.ranks) w }
    requires tables { AreTables chip.now.core (place_in chip.now.ranks) (cell_number chip.now.chip)
        tables.now }
    requires nets { length values.now ≡ length chip.now.core.nets }
    requires other_nets { length others.now ≡ length chip.now.core.nets }
    ensures { IsTrue result
        → IsEvaluatedInside chip.now.core w (value_at values.now) (value_at others.now) }
{
    match number_at(chip, values, w) {
        Some(_) => is_given(chip, tables, others, w),
        None => false,
    }
}

//! Which instances are clear: those after them are static, and the good last values are definite there.

ghost use Rattle.std.specs.Prelude.{ℕ, ◌≡◌, ◌<◌, length, true, IsTrue, IfOk};
ghost use Rattle.ca_net.specs.State.{value_at};
ghost use Rattle.ca_flat.specs.Chip.{outputs_at, count_of};
ghost use Rattle.ca_view.specs.Linked.{IsPlaced, place_in};
ghost use Rattle.ca_view.specs.Places.{cell_number};
ghost use Rattle.ca_sweep.specs.Seen.{IsClear};
ghost use Rattle.ca_sweep.specs.Tables.{AreTables, IsOrder};
ghost use Rattle.ca_sweep.specs.code.Kept.{AreDefinitePins, IsPassing, AreReadersMarked, AreOutputsClear};
ghost use Rattle.ca_sweep.specs.Tables.{AreMarks};

use crate::cells::Tables;
use crate::pinned::{are_all_definite, pinned_nets};
use ca_base::NoMemory;
use ca_net::{State, Trit};
use ca_view::View;
use std::alloc::Global;

// Whether the values of an instance's input nets are definite.
fn are_definite_pins(chip: &View<'_>, lasts: &State, w: usize) -> bool
    requires placed { IsPlaced chip.now.core (place_in chip.now.ranks) w }
    requires nets { length lasts.now ≡ length chip.now.core.nets }
    ensures { IsTrue result → AreDefinitePins chip.now.core (value_at lasts.now) w }
{
    chip.linked();
    for pin in 0..chip.inputs_at(w) {
        if lasts.get(chip.pin_net(w, pin)) == Trit::X {
            return false;
        }
    }
    true
}

// Whether all that read a net are marked.
fn are_readers_marked(chip: &View<'_>, marks: &[bool], net: usize) -> bool
    requires known { net < length chip.now.core.nets }
    requires room { length marks.now ≡ count_of chip.now.core }
    ensures { IsTrue result → AreReadersMarked chip.now.core marks.now net }
{
    chip.linked();
    for k in 0..chip.reader_count(net) {
        if !marks[chip.reader(net, k)] {
            return false;
        }
    }
    true
}

// Whether the values of an instance's output nets are definite, and all that read one are marked.
fn are_outputs_clear(chip: &View<'_>, lasts: &State, marks: &[bool], u: usize) -> bool
    requires placed { IsPlaced chip.now.core (place_in chip.now.ranks) u }
    requires nets { length lasts.now ≡ length chip.now.core.nets }
    requires room { length marks.now ≡ count_of chip.now.core }
    ensures { IsTrue result → AreOutputsClear chip.now.core (value_at lasts.now) marks.now u
        (outputs_at chip.now.core u) }
{
    chip.linked();
    let first = chip.inputs_at(u);
    for output in 0..chip.outputs_at(u) {
        let net = chip.pin_net(u, first + output);
        if lasts.get(net) == Trit::X || !are_readers_marked(chip, marks, net) {
            return false;
        }
    }
    true
}

// Whether a flip of an input net of a clear instance passes it on by last values alone.
fn is_passing(chip: &View<'_>, tables: &Tables, lasts: &State, w: usize) -> bool
    requires placed { IsPlaced chip.now.core (place_in chip.now.ranks) w }
    requires tables { AreTables chip.now.core (place_in chip.now.ranks) (cell_number chip.now.chip)
        tables.now.items }
    requires nets { length lasts.now ≡ length chip.now.core.nets }
    requires clear { IsClear chip.now.core (value_at lasts.now) w }
    ensures { IsTrue result → IsPassing chip.now.core (value_at lasts.now) w }
{
    tables[chip.number(w)].is_some() && are_definite_pins(chip, lasts, w)
}

// No instance is marked.
fn unmark(marks: &mut Vec<bool>)
    ensures room { length marks.new.items ≡ length marks.old.items }
    ensures none { (u : ℕ) → ¬ (is_marked marks.new.items u ≡ true) }
{
    for u in 0..marks.len() {
        marks[u] = false;
    }
}

ghost use Rattle.ca_sweep.specs.Tables.{is_marked};

// Whether the cell of an instance is static, if it has a place.
fn is_static_at(chip: &View<'_>, tables: &Tables, u: usize) -> bool
    requires known { u < count_of chip.now.core }
    requires tables { AreTables chip.now.core (place_in chip.now.ranks) (cell_number chip.now.chip)
        tables.now.items }
    ensures { IsTrue result → IsPlaced chip.now.core (place_in chip.now.ranks) u
        → IsStatic (cell_at chip.now.core u) }
{
    chip.linked();
    if chip.rank(u) == 0 {
        return true;
    }
    tables[chip.number(u)].is_some()
}

/// Whether the cells of all instances with a place are static.
pub(crate) fn are_all_static(chip: &View<'_>, tables: &Tables) -> bool
    requires { AreTables chip.now.core (place_in chip.now.ranks) (cell_number chip.now.chip)
        tables.now.items }
    ensures { IsTrue result → AreAllStatic chip.now.core (place_in chip.now.ranks) }
{
    chip.linked();
    for u in 0..chip.instances() {
        if !is_static_at(chip, tables, u) {
            return false;
        }
    }
    true
}

ghost use Rattle.ca_flat.specs.Chip.{cell_at};
ghost use Rattle.ca_flips.specs.Static.{IsStatic};
ghost use Rattle.ca_sweep.specs.code.Kept.{AreAllStatic};
ghost use Rattle.ca_sweep.specs.code.Pinned.{ArePinnedMarked};

// The instances with a place are marked.
fn mark_placed(chip: &View<'_>, marks: &mut Vec<bool>)
    requires { length marks.old.items ≡ count_of chip.now.core }
    ensures { AreMarks chip.now.core (IsPlaced chip.now.core (place_in chip.now.ranks)) marks.new.items }
{
    for u in 0..marks.len() {
        marks[u] = chip.rank(u) != 0;
    }
}

/// Finds the clear instances, and marks those that pass flips on. Where the cells of all instances with a
/// place are static and all values at their pins are definite, all of them are clear, and none is marked as
/// passing. Else the last ones are looked at first.
pub(crate) fn find_clear(
    chip: &View<'_>,
    tables: &Tables,
    is_static: bool,
    order: &[Option<usize>],
    pinned: &[bool],
    lasts: &State,
    clear: &mut Vec<bool>,
    passing: &mut Vec<bool>,
)
    requires all_static { IsTrue is_static → AreAllStatic chip.now.core (place_in chip.now.ranks) }
    requires tables { AreTables chip.now.core (place_in chip.now.ranks) (cell_number chip.now.chip)
        tables.now.items }
    requires order { IsOrder chip.now.core (place_in chip.now.ranks) order.now }
    requires pinned { ArePinnedMarked chip.now.core (place_in chip.now.ranks) pinned.now }
    requires pinned_room { length pinned.now ≡ length chip.now.core.nets }
    requires nets { length lasts.now ≡ length chip.now.core.nets }
    requires clear_room { length clear.old.items ≡ count_of chip.now.core }
    requires passing_room { length passing.old.items ≡ count_of chip.now.core }

    ensures clear { AreMarks chip.now.core (IsClear chip.now.core (value_at lasts.now))
        clear.new.items }
    ensures passing { AreMarks chip.now.core (IsPassing chip.now.core (value_at lasts.now))
        passing.new.items }
{
    chip.linked();
    unmark(clear);
    unmark(passing);
    if is_static && are_all_definite(chip, pinned, lasts) {
        mark_placed(chip, clear);
        return;
    }
    let places = order.len();
    for before in 0..places {
        if let Some(u) = order[places - 1 - before] {
            mark(chip, tables, lasts, u, clear, passing);
        }
    }
}

// Marks an instance, if it is clear and if it passes flips on.
fn mark(
    chip: &View<'_>,
    tables: &Tables,
    lasts: &State,
    u: usize,
    clear: &mut Vec<bool>,
    passing: &mut Vec<bool>,
)
    requires placed { IsPlaced chip.now.core (place_in chip.now.ranks) u }
    requires tables { AreTables chip.now.core (place_in chip.now.ranks) (cell_number chip.now.chip)
        tables.now.items }
    requires nets { length lasts.now ≡ length chip.now.core.nets }
    requires clear { AreMarks chip.now.core (IsClear chip.now.core (value_at lasts.now))
        clear.old.items }
    requires passing { AreMarks chip.now.core (IsPassing chip.now.core (value_at lasts.now))
        passing.old.items }

    ensures clear { AreMarks chip.now.core (IsClear chip.now.core (value_at lasts.now))
        clear.new.items }
    ensures passing { AreMarks chip.now.core (IsPassing chip.now.core (value_at lasts.now))
        passing.new.items }
{
    chip.linked();
    if are_outputs_clear(chip, lasts, passing, u) {
        clear[u] = true;
        passing[u] = is_passing(chip, tables, lasts, u);
    }
}

/// Marks the clear instances: those after them are static, and the values, one for each net, are definite
/// there.
pub fn clear_instances(
    alloc: Global,
    chip: &View<'_>,
    tables: &Tables,
    order: &[Option<usize>],
    values: &State,
) -> Result<Vec<bool>, NoMemory>
    requires tables { AreTables chip.now.core (place_in chip.now.ranks) (cell_number chip.now.chip)
        tables.now.items }
    requires order { IsOrder chip.now.core (place_in chip.now.ranks) order.now }
    requires nets { length values.now ≡ length chip.now.core.nets }
    ensures { IfOk result (λ clear. AreMarks chip.now.core
        (IsClear chip.now.core (value_at values.now)) clear.items) }
{
    let is_static = are_all_static(chip, tables);
    let pinned = pinned_nets(alloc, chip)?;
    let mut clear = vec![in alloc; false; chip.instances()]?;
    let mut passing = vec![in alloc; false; chip.instances()]?;
    find_clear(
        chip,
        tables,
        is_static,
        order,
        &pinned,
        values,
        &mut clear,
        &mut passing,
    );
    Ok(clear)
}

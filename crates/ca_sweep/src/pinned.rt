//! Which nets are on pins of instances with a place.

ghost use Rattle.std.specs.Prelude.{◌+◌, ◌≡◌, ◌≢◌, ◌<◌, length, slice_set, true, IfOk, IsTrue};
ghost use Rattle.ca_net.specs.declared.trit.Trit.TheVariants.{X};
ghost use Rattle.ca_net.specs.State.{value_at};
ghost use Rattle.ca_flat.specs.Chip.{count_of, inputs_at, outputs_at};
ghost use Rattle.ca_view.specs.Linked.{IsPlaced, place_in};
ghost use Rattle.ca_sweep.specs.code.Kept.{AreAllDefinite};
ghost use Rattle.ca_sweep.specs.code.Pinned.{AreKept, ArePinnedMarked, ArePinsMarked};

use ca_base::NoMemory;
use ca_net::{State, Trit};
use ca_view::View;
use std::alloc::Global;

/// Whether an instance with a place has a pin on a net, for each net.
pub(crate) fn pinned_nets(alloc: Global, chip: &View<'_>) -> Result<Vec<bool>, NoMemory>
    ensures marked { IfOk result
        (λ marks. ArePinnedMarked chip.now.core (place_in chip.now.ranks) marks.items) }
    ensures room { IfOk result (λ marks. length marks.items ≡ length chip.now.core.nets) }
{
    chip.linked();
    let mut marks = vec![in alloc; false; chip.nets()]?;
    for u in 0..chip.instances() {
        mark_pins(chip, u, &mut marks);
    }
    Ok(marks)
}

// Marks the nets on the pins of an instance, if it has a place.
fn mark_pins(chip: &View<'_>, u: usize, marks: &mut Vec<bool>)
    requires known { u < count_of chip.now.core }
    requires room { length marks.old.items ≡ length chip.now.core.nets }
    ensures marked { IsPlaced chip.now.core (place_in chip.now.ranks) u → ArePinsMarked chip.now.core u
        (inputs_at chip.now.core u + outputs_at chip.now.core u) marks.new.items }
    ensures kept { AreKept marks.old.items marks.new.items }
    ensures room { length marks.new.items ≡ length chip.now.core.nets }
{
    chip.linked();
    if chip.rank(u) == 0 {
        return;
    }
    let pins = chip.inputs_at(u) + chip.outputs_at(u);
    for pin in 0..pins {
        mark_at(marks, chip.pin_net(u, pin));
    }
}

// Marks a net.
fn mark_at(marks: &mut Vec<bool>, net: usize)
    requires { net < length marks.old.items }
    ensures { marks.new.items ≡ slice_set marks.old.items net true }
{
    marks[net] = true;
}

/// Whether the values at all pins of instances with a place are definite.
pub(crate) fn are_all_definite(chip: &View<'_>, pinned: &[bool], lasts: &State) -> bool
    requires pinned { ArePinnedMarked chip.now.core (place_in chip.now.ranks) pinned.now }
    requires room { length pinned.now ≡ length chip.now.core.nets }
    requires nets { length lasts.now ≡ length chip.now.core.nets }
    ensures { IsTrue result → AreAllDefinite chip.now.core (place_in chip.now.ranks) (value_at lasts.now) }
{
    chip.linked();
    for net in 0..pinned.len() {
        if !is_fine(pinned[net], lasts.get(net)) {
            return false;
        }
    }
    true
}

// Whether a value is definite, if it has to be.
fn is_fine(is_pinned: bool, value: Trit) -> bool
    ensures { IsTrue result → is_pinned ≡ true → value ≢ X }
{
    !is_pinned || value != Trit::X
}

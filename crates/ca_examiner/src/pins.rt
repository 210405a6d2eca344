//! Marks of the nets on the pins of an instance.

ghost use Rattle.std.specs.Prelude.{◌≡◌, ◌<◌, ◌≤◌, ◌+◌, ◌↔◌, length, IsTrue};
ghost use Rattle.ca_flat.specs.Chip.{inputs_at, outputs_at};
ghost use Rattle.ca_cell.specs.declared.rule.TheConstants.{MOST_INPUTS};
ghost use Rattle.ca_view.specs.Linked.{IsPlaced, place_in};
ghost use Rattle.ca_examiner.specs.code.Marks.{MarksPins, HasMarkedPin, Passes};

use crate::marks::mark_if;
use ca_view::View;

// Some pins of an instance: this many from a pin on.
#[derive(Clone, Copy, Debug)]
pub(crate) struct Pins {
    pub(crate) from: usize,
    pub(crate) count: usize,
}

// The input pins of an instance.
pub(crate) fn input_pins(chip: &View<'_>, u: usize) -> Pins
    requires { IsPlaced chip.now.core (place_in chip.now.ranks) u }
    ensures from { result.from ≡ 0 }
    ensures count { result.count ≡ inputs_at chip.now.core u }
    ensures few { result.count ≤ MOST_INPUTS }
{
    Pins {
        from: 0,
        count: chip.cell(u).inputs(),
    }
}

// Its output pins.
pub(crate) fn output_pins(chip: &View<'_>, u: usize) -> Pins
    requires { IsPlaced chip.now.core (place_in chip.now.ranks) u }
    ensures from { result.from ≡ inputs_at chip.now.core u }
    ensures count { result.count ≡ outputs_at chip.now.core u }
{
    let cell = chip.cell(u);
    Pins {
        from: cell.inputs(),
        count: cell.outputs(),
    }
}

// Marks the nets on the pins that have a mark in the other list.
pub(crate) fn mark_pins(
    marks: &mut Vec<bool>,
    others: &[bool],
    chip: &View<'_>,
    u: usize,
    pins: Pins,
)
    requires placed { IsPlaced chip.now.core (place_in chip.now.ranks) u }
    requires pins { pins.from + pins.count
        ≤ inputs_at chip.now.core u + outputs_at chip.now.core u }
    requires count { length marks.old.items ≡ length chip.now.core.nets }
    requires others { length others.now ≡ length chip.now.core.nets }
    ensures { MarksPins chip.now.core others.now u pins.from pins.count marks.old.items marks.new.items }
{
    chip.linked();
    for pin in 0..pins.count {
        mark_if(marks, others, chip.pin_net(u, pins.from + pin));
    }
}

// Whether some net on the pins has a mark.
fn has_marked_pin(marks: &[bool], chip: &View<'_>, u: usize, pins: Pins) -> bool
    requires placed { IsPlaced chip.now.core (place_in chip.now.ranks) u }
    requires pins { pins.from + pins.count
        ≤ inputs_at chip.now.core u + outputs_at chip.now.core u }
    requires count { length marks.now ≡ length chip.now.core.nets }
    ensures { IsTrue result ↔ HasMarkedPin chip.now.core marks.now u pins.from pins.count }
{
    chip.linked();
    for pin in 0..pins.count {
        let net = chip.pin_net(u, pins.from + pin);
        if marks[net] {
            return true;
        }
    }
    false
}

// Where some net on the one pins has a mark, marks the nets on the others that have one in the other list.
pub(crate) fn pass(
    marks: &mut Vec<bool>,
    others: &[bool],
    chip: &View<'_>,
    u: usize,
    pins: Pins,
    onto: Pins,
)
    requires placed { IsPlaced chip.now.core (place_in chip.now.ranks) u }
    requires pins { pins.from + pins.count
        ≤ inputs_at chip.now.core u + outputs_at chip.now.core u }
    requires onto { onto.from + onto.count
        ≤ inputs_at chip.now.core u + outputs_at chip.now.core u }
    requires count { length marks.old.items ≡ length chip.now.core.nets }
    requires others { length others.now ≡ length chip.now.core.nets }
    ensures { Passes chip.now.core others.now u pins.from pins.count onto.from onto.count
        marks.old.items marks.new.items }
{
    if !has_marked_pin(marks, chip, u, pins) {
        return;
    }
    mark_pins(marks, others, chip, u, onto);
}

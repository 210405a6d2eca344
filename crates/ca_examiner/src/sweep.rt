//! Sweeps over the instances of a chip in their order, along which marks of nets are handed on.

ghost use Rattle.std.specs.Prelude.{◌≡◌, length, true};
ghost use Rattle.std.specs.List.{All};
ghost use Rattle.ca_view.specs.Linked.{IsPlaced, place_in};
ghost use Rattle.ca_examiner.specs.code.Order.{IsOrder};
ghost use Rattle.ca_examiner.specs.code.Sweep.{AreReached, AreLeading};

use crate::marks::unmark;
use crate::pins::{input_pins, mark_pins, output_pins, pass};
use ca_view::View;

// Marks the nets to which a chain of open nets leads from the instance.
pub(crate) fn mark_onward(
    marks: &mut Vec<bool>,
    open_nets: &[bool],
    chip: &View<'_>,
    order: &[Option<u32>],
    u: usize,
)
    requires placed { IsPlaced chip.now.core (place_in chip.now.ranks) u }
    requires count { length marks.old.items ≡ length chip.now.core.nets }
    requires open_count { length open_nets.now ≡ length chip.now.core.nets }
    requires order { IsOrder chip.now.core (place_in chip.now.ranks) order.now }
    ensures { AreReached chip.now.core open_nets.now u marks.new.items }
{
    chip.linked();
    unmark(marks);
    mark_pins(marks, open_nets, chip, u, output_pins(chip, u));
    for place in chip.rank(u)..order.len() {
        if let Some(w) = order[place] {
            let w = w as usize;
            pass(
                marks,
                open_nets,
                chip,
                w,
                input_pins(chip, w),
                output_pins(chip, w),
            );
        }
    }
}

// Marks the nets from which a chain of instances leads to one that has a mark.
pub(crate) fn mark_back(
    marks: &mut Vec<bool>,
    all_nets: &[bool],
    chip: &View<'_>,
    order: &[Option<u32>],
)
    requires count { length marks.old.items ≡ length chip.now.core.nets }
    requires all_count { length all_nets.now ≡ length chip.now.core.nets }
    requires all { All (λ mark. mark ≡ true) all_nets.now }
    requires order { IsOrder chip.now.core (place_in chip.now.ranks) order.now }
    ensures { AreLeading chip.now.core marks.old.items marks.new.items }
{
    chip.linked();
    let count = order.len();
    for done in 0..count {
        let place = count - 1 - done;
        if let Some(w) = order[place] {
            let w = w as usize;
            pass(
                marks,
                all_nets,
                chip,
                w,
                output_pins(chip, w),
                input_pins(chip, w),
            );
        }
    }
}

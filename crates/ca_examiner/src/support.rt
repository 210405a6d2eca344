//! The support of a defect: the bits on which its detection can depend.

ghost use Rattle.std.specs.Prelude.{◌≡◌, ◌<◌, ◌↔◌, length, true, IsTrue};
ghost use Rattle.std.specs.List.{All};
ghost use Rattle.ca_flat.specs.Chain.{IsSupportBit};
ghost use Rattle.ca_view.specs.Linked.{IsPlaced, place_in};
ghost use Rattle.ca_examiner.specs.code.Order.{IsOrder};
ghost use Rattle.ca_examiner.specs.code.Support.{AreLeadingNets};

use crate::marks::{mark_listed, unmark};
use crate::sweep::{mark_back, mark_onward};
use ca_flat::ChipDefect;
use ca_view::View;

// Marks the nets that lead to an observed output which the instance reaches. The other list is room.
pub(crate) fn mark_leading(
    leading: &mut Vec<bool>,
    reached: &mut Vec<bool>,
    all_nets: &[bool],
    chip: &View<'_>,
    order: &[Option<u32>],
    outputs: &[u32],
    u: usize,
)
    requires placed { IsPlaced chip.now.core (place_in chip.now.ranks) u }
    requires leading { length leading.old.items ≡ length chip.now.core.nets }
    requires reached { length reached.old.items ≡ length chip.now.core.nets }
    requires all_count { length all_nets.now ≡ length chip.now.core.nets }
    requires all { All (λ mark. mark ≡ true) all_nets.now }
    requires order { IsOrder chip.now.core (place_in chip.now.ranks) order.now }
    requires outputs { outputs.now ≡ chip.now.core.outputs }
    ensures leading { AreLeadingNets chip.now.core u leading.new.items }
    ensures reached { length reached.new.items ≡ length chip.now.core.nets }
{
    chip.linked();
    mark_onward(reached, all_nets, chip, order, u);
    unmark(leading);
    mark_listed(leading, reached, outputs);
    mark_back(leading, all_nets, chip, order);
}

// Whether the bit is one of the support of the defect.
pub(crate) fn supports(chip: &View<'_>, leading: &[bool], bit: usize, defect: ChipDefect) -> bool
    requires { AreLeadingNets chip.now.core defect.instance leading.now }
    ensures { IsTrue result ↔ IsSupportBit chip.now.core defect bit }
{
    chip.linked();
    let inputs = chip.input_count();
    if bit < inputs {
        leading[chip.input(bit)]
    } else if bit < 2 * inputs {
        leading[chip.input(bit - inputs)]
    } else {
        false
    }
}

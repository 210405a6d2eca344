//! The support of a defect: the bits on which its detection can depend.

ghost use Rattle.std.specs.Prelude.{◌≡◌, ◌≤◌, ◌<◌, ◌+◌, slice_index_or, false, true, length};
ghost use Rattle.std.specs.List.{Contains};
ghost use Rattle.ca_flat.specs.declared.chip_defect.ChipDefect.{ChipDefect};
ghost use Rattle.ca_flat.specs.Chip.{count_of};
ghost use Rattle.ca_guide.specs.Guide.{IsSupport};
ghost use Rattle.ca_guide.specs.code.NumberSet.{AddsIf};
ghost use Rattle.ca_guide.specs.code.Support.{AreObserved, AddsBits};

use crate::chip::{AllNets, Back, Onward};
use crate::flood::flood;
use crate::number_set::NumberSet;
use ca_view::View;

// Finds the support of the instance's defects, in the last set. The three others are room: for the nets that
// the instance reaches, the observed ones among them, and the nets that lead to these.
pub(crate) fn find_support(
    reached: &mut NumberSet,
    outputs: &mut NumberSet,
    leading: &mut NumberSet,
    support: &mut NumberSet,
    chip: &View,
    instance: u32,
)
    requires instance { instance < count_of chip.now.core }
    requires reached { reached.old.bound ≡ length chip.now.lists.onward }
    requires outputs { outputs.old.bound ≡ length chip.now.lists.onward }
    requires leading { leading.old.bound ≡ length chip.now.lists.onward }
    requires support { support.old.bound
        ≡ length chip.now.lists.inputs + length chip.now.lists.inputs }
    ensures reached { reached.new.bound ≡ reached.old.bound }
    ensures outputs { outputs.new.bound ≡ outputs.old.bound }
    ensures leading { leading.new.bound ≡ leading.old.bound }
    ensures room { support.new.bound ≡ support.old.bound }
    ensures support { (defect : ChipDefect) → defect.instance ≡ instance
        → IsSupport chip.now.core defect support.new.members }
{
    chip.linked();
    let nets = AllNets { chip };
    let onward = Onward { chip };
    flood(reached, &onward, &nets, chip.output_pins(instance));
    keep_observed(outputs, chip, reached);
    let back = Back { chip };
    flood(leading, &back, &nets, outputs.as_slice());
    support.clear();
    let count = chip.inputs().len();
    add_bits(support, chip, leading, 0);
    add_bits(support, chip, leading, count);
}

// Keeps the reached nets that are observed.
fn keep_observed(outputs: &mut NumberSet, chip: &View, reached: &NumberSet)
    requires reached { reached.now.bound ≡ length chip.now.lists.onward }
    requires room { outputs.old.bound ≡ length chip.now.lists.onward }
    ensures room { outputs.new.bound ≡ outputs.old.bound }
    ensures outputs { AreObserved chip.now.lists.observed reached.now.members outputs.new.members }
{
    outputs.clear();
    for place in 0..reached.len() {
        keep_if_observed(outputs, chip, reached.get(place));
    }
}

// Keeps the net if it is observed.
fn keep_if_observed(outputs: &mut NumberSet, chip: &View, net: u32)
    requires net { net < outputs.old.bound }
    requires room { outputs.old.bound ≡ length chip.now.lists.onward }
    ensures { AddsIf (slice_index_or chip.now.lists.observed net false ≡ true) net outputs.old
        outputs.new }
{
    if chip.is_observed(net) {
        outputs.insert(net);
    }
}

// Adds the bits of the inputs that lead to an output, each `from` after the input's place.
fn add_bits(bits: &mut NumberSet, chip: &View, leading: &NumberSet, from: usize)
    requires room { from + length chip.now.lists.inputs ≤ bits.old.bound }
    requires few { bits.old.bound < 4294967296 }
    ensures room { bits.new.bound ≡ bits.old.bound }
    ensures bits { AddsBits chip.now.lists.inputs leading.now.members from
        (length chip.now.lists.inputs) bits.old.members bits.new.members }
{
    for (place, net) in chip.inputs().iter().enumerate() {
        add_bit_if(bits, leading, *net, (from + place) as u32);
    }
}

// Adds the bit if the net leads to an output.
fn add_bit_if(bits: &mut NumberSet, leading: &NumberSet, net: u32, bit: u32)
    requires { bit < bits.old.bound }
    ensures { AddsIf (Contains leading.now.members net) bit bits.old bits.new }
{
    if leading.has(net) {
        bits.insert(bit);
    }
}

//! The first observed outputs of nets, and the first one with an opposite value.

ghost use Rattle.std.specs.Prelude.{◌≡◌, ◌<◌, ◌≤◌, ◌⊎◌, ◌↔◌, length, slice_index, slice_set, IfOk, IsTrue};
ghost use Rattle.std.specs.List.{All};
ghost use Rattle.ca_net.specs.State.{value_at};
ghost use Rattle.ca_flips.specs.Flips.{IsOpposite};
ghost use Rattle.ca_view.specs.Linked.{IsPlaced, place_in};
ghost use Rattle.ca_sweep.specs.code.Firsts.{AreFirsts, IsLessened};
ghost use Rattle.ca_sweep.specs.code.Held.{IsHeld};
ghost use Rattle.ca_sweep.specs.code.Segments.{IsFirstNumber};

use crate::values::Values;
use ca_base::NoMemory;
use ca_net::{State, Trit};
use ca_view::View;
use std::alloc::Global;

/// For each net the first observed output that is on it, or the number of outputs.
#[tactic(auto, using(crate::proofs::FirstLemmas::firsts_none))]
pub(crate) fn firsts_of(alloc: Global, nets: usize, outputs: &[u32]) -> Result<Vec<usize>, NoMemory>
    requires { All (λ net. net < nets) outputs.now }
    ensures { IfOk result (λ firsts. AreFirsts outputs.now nets firsts.items) }
{
    let count = outputs.len();
    let mut firsts = vec![in alloc; count; nets]?;
    let mut left = count;
    'outputs: while left > 0 {
        left -= 1;
        put_at(&mut firsts, outputs[left] as usize, left);
    }
    Ok(firsts)
}

// Gives a net a first output.
fn put_at(firsts: &mut Vec<usize>, net: usize, output: usize)
    requires { net < length firsts.old.items }
    ensures { firsts.new.items ≡ slice_set firsts.old.items net output }
{
    firsts[net] = output;
}

/// The number of the first observed output with an opposite value, or the number of the outputs, where only
/// output nets of an instance and of those that are due may have other values than the good ones. Its time is
/// that of those.
pub(crate) fn first_opposite(
    chip: &View<'_>,
    firsts: &[usize],
    count: usize,
    lasts: &State,
    values: &Values,
    u: usize,
) -> usize
    requires placed { IsPlaced chip.now.core (place_in chip.now.ranks) u }
    requires firsts { AreFirsts chip.now.core.outputs (length chip.now.core.nets) firsts.now }
    requires count { count ≡ length chip.now.core.outputs }
    requires nets { length lasts.now ≡ length chip.now.core.nets }
    requires held { IsHeld chip.now.core (place_in chip.now.ranks) u (value_at lasts.now) values.now }
    ensures { IsFirstNumber (value_at lasts.now) (value_at values.now.values) chip.now.core.outputs result }
{
    chip.linked();
    let mut first = lessened(chip, firsts, lasts, &values.values, u, count);
    let mut from = 0;
    while let Some(place) = values.due.next(from) {
        let w = chip.order(place);
        first = lessened(chip, firsts, lasts, &values.values, w, first);
        from = place + 1;
    }
    first
}

// The least of a number and the first observed outputs of an instance's output nets with opposite values.
fn lessened(
    chip: &View<'_>,
    firsts: &[usize],
    lasts: &State,
    values: &State,
    w: usize,
    number: usize,
) -> usize
    requires placed { IsPlaced chip.now.core (place_in chip.now.ranks) w }
    requires firsts { AreFirsts chip.now.core.outputs (length chip.now.core.nets) firsts.now }
    requires nets { length lasts.now ≡ length chip.now.core.nets }
    requires same { length values.now ≡ length lasts.now }
    ensures { IsLessened chip.now.core (value_at lasts.now) (value_at values.now) firsts.now w number result }
{
    chip.linked();
    let mut least = number;
    let pin = chip.inputs_at(w);
    for output in 0..chip.outputs_at(w) {
        let net = chip.pin_net(w, pin + output);
        let opposite = are_opposite(lasts.get(net), values.get(net));
        least = lesser_if(opposite, firsts[net], least);
    }
    least
}

// The lesser one of two numbers, or the second.
fn lesser_if(is: bool, one: usize, other: usize) -> usize
    ensures least { result ≤ other }
    ensures here { IsTrue is → result ≤ one }
    ensures from { (result ≡ other) ⊎ (IsTrue is × (result ≡ one)) }
{
    if is && one < other { one } else { other }
}

/// Whether the good value is definite, and the other the opposite.
pub(crate) fn are_opposite(good: Trit, other: Trit) -> bool
    ensures { IsTrue result ↔ IsOpposite good other }
{
    match (good, other) {
        (Trit::Zero, Trit::One) | (Trit::One, Trit::Zero) => true,
        (Trit::Zero | Trit::X, Trit::Zero | Trit::X)
        | (Trit::One, Trit::One | Trit::X)
        | (Trit::X, Trit::One) => false,
    }
}

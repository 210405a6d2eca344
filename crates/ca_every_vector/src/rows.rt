//! The vectors of an instance at or above the values of its input nets, as bits of a word.

ghost use Rattle.std.specs.Prelude.{◌≡◌, ◌≢◌, ◌+◌, ◌<◌, ◌≤◌, ◌^◌, ◌⊎◌, ◌↔◌, length, IsTrue, None};
ghost use Rattle.ca_net.specs.State.{value_at};
ghost use Rattle.ca_cell.specs.Row.{vector_of};
ghost use Rattle.ca_flat.specs.Chip.{inputs_at};
ghost use Rattle.ca_flat.specs.TwoFrame.{IsVectorOver};
ghost use Rattle.ca_view.specs.Linked.{IsPlaced, place_in};
ghost use Rattle.ca_sweep.specs.Seen.{IsClear, IsSeenFrom};
ghost use Rattle.ca_every_vector.specs.Possible.{Has, HasAll, HasAllOver, HasAllSeen, IsUnseen};

use crate::vectors::digit;
use ca_net::{State, below};
use ca_sweep::{Flips, Seen, Sweep};
use ca_view::View;

// Whether the vector of the number is at or above the values of the instance's input nets.
fn is_over(chip: &View<'_>, values: &State, u: usize, number: usize) -> bool
    requires placed { IsPlaced chip.now.core (place_in chip.now.ranks) u }
    requires nets { length values.now ≡ length chip.now.core.nets }
    ensures { IsVectorOver chip.now.core u values.now (vector_of (inputs_at chip.now.core u) number)
        → IsTrue result }
{
    chip.linked();
    let count = chip.cell(u).inputs();
    for pin in 0..count {
        let value = values.get(chip.pin_net(u, pin));
        if !below(value, digit(number, count - 1 - pin)) {
            return false;
        }
    }
    true
}

/// The vectors at or above the values of an instance's input nets.
pub(crate) fn rows_over(chip: &View<'_>, values: &State, u: usize) -> u64
    requires placed { IsPlaced chip.now.core (place_in chip.now.ranks) u }
    requires nets { length values.now ≡ length chip.now.core.nets }
    ensures { HasAllOver chip.now.core u values.now result }
{
    chip.linked();
    let count = 1usize << chip.cell(u).inputs();
    let mut rows = 0u64;
    for number in 0..count {
        if is_over(chip, values, u, number) {
            rows |= 1 << number;
        }
    }
    rows
}

// Which output pins are flipped.
fn flips_of(first: bool, second: bool) -> Flips
    ensures first { result.first ≡ first }
    ensures second { result.second ≡ second }
{
    Flips { first, second }
}

// Whether last values alone say what is seen of the flips of an instance's outputs.
fn is_clear(sweep: &mut Sweep<'_>, u: usize) -> bool
    requires { IsPlaced sweep.old.chip (place_in sweep.old.places) u }
    ensures clear { IsTrue result → IsClear sweep.old.chip (value_at sweep.old.lasts) u }
    ensures kept { sweep.new ≡ sweep.old }
{
    match sweep.see(u, flips_of(false, false)) {
        Seen::Undecided => false,
        Seen::Nowhere | Seen::At(_) => true,
    }
}

// Whether these flips of an instance's outputs are seen nowhere.
fn is_nowhere(sweep: &mut Sweep<'_>, u: usize, flips: Flips) -> bool
    requires { IsPlaced sweep.old.chip (place_in sweep.old.places) u }
    ensures nowhere { IsTrue result → IsSeenFrom sweep.old.chip (value_at sweep.old.lasts) u flips None }
    ensures kept { sweep.new ≡ sweep.old }
{
    match sweep.see(u, flips) {
        Seen::Nowhere => true,
        Seen::Undecided | Seen::At(_) => false,
    }
}

// Whether no flip of an instance's outputs is seen.
fn is_unseen(sweep: &mut Sweep<'_>, u: usize) -> bool
    requires { IsPlaced sweep.old.chip (place_in sweep.old.places) u }
    ensures unseen { IsTrue result → IsUnseen sweep.old.chip u sweep.old.lasts }
    ensures kept { sweep.new ≡ sweep.old }
{
    is_nowhere(sweep, u, flips_of(false, false))
        && is_nowhere(sweep, u, flips_of(false, true))
        && is_nowhere(sweep, u, flips_of(true, false))
        && is_nowhere(sweep, u, flips_of(true, true))
}

/// The vectors at or above the last values of an instance's input nets, as far as they matter: none where no
/// flip of its outputs is seen, all where last values alone don't say it.
pub(crate) fn rows_seen(chip: &View<'_>, sweep: &mut Sweep<'_>, values: &State, u: usize) -> u64
    requires placed { IsPlaced chip.now.core (place_in chip.now.ranks) u }
    requires nets { length values.now ≡ length chip.now.core.nets }
    requires chip { sweep.old.chip ≡ chip.now.core }
    requires places { sweep.old.places ≡ chip.now.ranks }
    requires lasts { sweep.old.lasts ≡ values.now }
    ensures seen { HasAllSeen chip.now.core u values.now result }
    ensures kept { sweep.new ≡ sweep.old }
{
    if !is_clear(sweep, u) {
        chip.linked();
        let _inputs = chip.cell(u).inputs();
        return u64::MAX;
    }
    if is_unseen(sweep, u) {
        return 0;
    }
    rows_over(chip, values, u)
}

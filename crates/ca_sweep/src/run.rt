//! One sweep: the values of the nets after an instance some of whose output pins are flipped.

ghost use Rattle.std.specs.Prelude.{◌≡◌, ◌<◌, ◌+◌, ◌^◌, length, false, None, IsTrue, IfSome};
ghost use Rattle.ca_net.specs.State.{value_at};
ghost use Rattle.ca_view.specs.Linked.{IsPlaced, place_in};
ghost use Rattle.ca_view.specs.Places.{cell_number};
ghost use Rattle.ca_sweep.specs.Seen.{flipped_if};
ghost use Rattle.ca_sweep.specs.Tables.{AreTables, IsOrder};
ghost use Rattle.ca_sweep.specs.code.Changes.{AreRoomy, IsEvaluatedAt};
ghost use Rattle.ca_sweep.specs.code.Held.{IsAtRest, IsHeld};
ghost use Rattle.ca_places.specs.PlaceSet.{IsNext};
ghost use Rattle.ca_sweep.specs.code.Segments.{IsHalt, AreFlippedAt, IsFlippedOrGood};

use crate::cells::Tables;
use crate::seen::Flips;
use crate::segments::Cut;
use crate::values::Values;
use ca_net::{State, Trit};
use ca_places::PlaceSet;
use ca_view::View;

/// How a sweep ends.
#[derive(Clone, Copy, Debug)]
pub(crate) enum Halt {
    /// An instance that is due isn't static, or the values of its input nets aren't definite.
    Stuck,
    /// All values are found.
    Done,
    /// They are found up to an instance, and only its flipped outputs are read with other values after it.
    Cut(Cut),
}

/// Finds the values of the nets where some output pins of an instance are flipped, up to an instance that is
/// the only one due, or to the end. Its time is that of what it evaluates.
pub(crate) fn sweep(
    chip: &View<'_>,
    tables: &Tables,
    order: &[Option<usize>],
    lasts: &State,
    values: &mut Values,
    u: usize,
    flips: Flips,
) -> Halt
    requires placed { IsPlaced chip.now.core (place_in chip.now.ranks) u }
    requires tables { AreTables chip.now.core (place_in chip.now.ranks) (cell_number chip.now.chip)
        tables.now.items }
    requires order { IsOrder chip.now.core (place_in chip.now.ranks) order.now }
    requires rest { IsAtRest chip.now.core lasts.now values.old }

    ensures swept { IsHalt chip.now.core (place_in chip.now.ranks) (value_at lasts.now) u flips
        (value_at values.new.values) result }
    ensures held { IsHeld chip.now.core (place_in chip.now.ranks) u (value_at lasts.now) values.new }
{
    chip.linked();
    values.flip(chip, u, flips);
    let mut from = chip.rank(u) + 1;
    'places: while let Some(place) = values.due.next(from) {
        let is_last = is_last(&values.due, place);
        if !pass(chip, tables, order, values, place) {
            return Halt::Stuck;
        }
        if is_last {
            let w = chip.order(place);
            if let Some(flips) = flips_at(chip, lasts, &values.values, w) {
                return Halt::Cut(Cut {
                    instance: w as u32,
                    flips,
                });
            }
        }
        from = place + 1;
    }
    Halt::Done
}

/// Whether no place after one is due.
pub(crate) fn is_last(due: &PlaceSet, place: usize) -> bool
    requires { place < 2 ^ 33 }
    ensures { IsTrue result → IsNext due.now (place + 1) None }
{
    match due.next(place + 1) {
        Some(_) => false,
        None => true,
    }
}

// Evaluates the instance at a place.
fn pass(
    chip: &View<'_>,
    tables: &Tables,
    order: &[Option<usize>],
    values: &mut Values,
    place: usize,
) -> bool
    requires tables { AreTables chip.now.core (place_in chip.now.ranks) (cell_number chip.now.chip)
        tables.now.items }
    requires order { IsOrder chip.now.core (place_in chip.now.ranks) order.now }
    requires within { place < length order.now }
    requires room { AreRoomy chip.now.core values.old }

    ensures passed { IsTrue result
        → IsEvaluatedAt chip.now.core (place_in chip.now.ranks) place values.old values.new }
    ensures kept { result ≡ false → values.new ≡ values.old }
{
    match order[place] {
        Some(w) => values.evaluate(chip, tables, w),
        None => false,
    }
}

// Which output pins of an instance have the opposite of the good last value, if there are some and all others
// have the good one.
fn flips_at(chip: &View<'_>, lasts: &State, values: &State, w: usize) -> Option<Flips>
    requires placed { IsPlaced chip.now.core (place_in chip.now.ranks) w }
    requires nets { length lasts.now ≡ length chip.now.core.nets }
    requires same { length values.now ≡ length lasts.now }
    ensures { IfSome result (λ flips. AreFlippedAt chip.now.core (value_at lasts.now) w flips
        (value_at values.now)) }
{
    chip.linked();
    let _outputs = chip.cell(w).outputs();
    match (
        flip_at(chip, lasts, values, w, 0),
        flip_at(chip, lasts, values, w, 1),
    ) {
        (Some(first), Some(second)) if first || second => Some(Flips { first, second }),
        (Some(_) | None, Some(_) | None) => None,
    }
}

// Whether an output pin, if there is one, has the opposite of the good last value or that one.
fn flip_at(chip: &View<'_>, lasts: &State, values: &State, w: usize, output: usize) -> Option<bool>
    requires placed { IsPlaced chip.now.core (place_in chip.now.ranks) w }
    requires nets { length lasts.now ≡ length chip.now.core.nets }
    requires same { length values.now ≡ length lasts.now }
    ensures { IfSome result (IsFlippedOrGood chip.now.core (value_at lasts.now) w (value_at values.now)
        output) }
{
    chip.linked();
    if output >= chip.outputs_at(w) {
        return Some(false);
    }
    let net = chip.pin_net(w, chip.inputs_at(w) + output);
    flip_of(lasts.get(net), values.get(net))
}

// Whether a value is the opposite of the good one or that one.
fn flip_of(good: Trit, value: Trit) -> Option<bool>
    ensures { IfSome result (λ flipped. value ≡ flipped_if flipped good) }
{
    match (good, value) {
        (Trit::Zero, Trit::Zero) | (Trit::One, Trit::One) | (Trit::X, Trit::X) => Some(false),
        (Trit::Zero, Trit::One) | (Trit::One, Trit::Zero) => Some(true),
        (Trit::Zero | Trit::One, Trit::X) | (Trit::X, Trit::Zero | Trit::One) => None,
    }
}

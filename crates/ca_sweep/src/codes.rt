//! What codes of last values say.

ghost use Rattle.std.specs.Prelude.{ℕ, ◌≡◌, ◌≢◌, ◌<◌, IsTrue};
ghost use Rattle.ca_net.specs.State.{value_at};
ghost use Rattle.ca_view.specs.Linked.{IsPlaced, place_in};
ghost use Rattle.ca_sweep.specs.code.Rows.{AreGoodsAt, AreFlipsOfCode, IsKnownCode};
ghost use Rattle.ca_sweep.specs.code.Digits.{trit_of};

use crate::firsts::are_opposite;
use crate::seen::Flips;
use crate::sweep::Sweep;
use ca_net::Trit;
use ca_view::View;

/// The good last values of the output pins of an instance, X where there is none.
#[derive(Clone, Copy, Debug, PartialEq, Eq)]
pub(crate) struct Goods {
    pub(crate) first: Trit,
    pub(crate) second: Trit,
}

/// The good last values of an instance's output pins.
pub(crate) fn goods_at(chip: &View<'_>, sweep: &Sweep<'_>, u: usize) -> Goods
    requires chip { sweep.now.chip ≡ chip.now.core }
    requires placed { IsPlaced chip.now.core (place_in chip.now.ranks) u }
    ensures { AreGoodsAt chip.now.core (value_at sweep.now.lasts) u result }
{
    Goods {
        first: good_at(chip, sweep, u, 0),
        second: good_at(chip, sweep, u, 1),
    }
}

ghost use Rattle.ca_flat.specs.Chip.{outputs_at, output_net};

// The good last value of an output pin, X where there is none.
fn good_at(chip: &View<'_>, sweep: &Sweep<'_>, u: usize, output: usize) -> Trit
    requires chip { sweep.now.chip ≡ chip.now.core }
    requires placed { IsPlaced chip.now.core (place_in chip.now.ranks) u }
    ensures { output < outputs_at chip.now.core u
        → result ≡ value_at sweep.now.lasts (output_net chip.now.core u output) }
{
    chip.linked();
    if output >= chip.outputs_at(u) {
        return Trit::X;
    }
    sweep.last(chip.pin_net(u, chip.inputs_at(u) + output))
}

// The value of a number.
fn trit_of(digit: u8) -> Trit
    ensures { result ≡ trit_of digit }
{
    match digit {
        0 => Trit::Zero,
        1 => Trit::One,
        _ => Trit::X,
    }
}

/// Which output pins have the opposite of the good last value, by a code.
pub(crate) fn flips_of_code(goods: Goods, code: u8) -> Flips
    ensures { AreFlipsOfCode goods code result }
{
    Flips {
        first: are_opposite(goods.first, trit_of(code % 4)),
        second: are_opposite(goods.second, trit_of(code / 4)),
    }
}

/// Whether the last values of the first output pins, this many, are definite by a code.
pub(crate) fn is_known(code: u8, outputs: usize) -> bool
    ensures { IsTrue result → IsKnownCode code outputs }
{
    (outputs == 0 || trit_of(code % 4) != Trit::X) && (outputs <= 1 || trit_of(code / 4) != Trit::X)
}

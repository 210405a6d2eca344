//! The first expected value that is wrong.

ghost use Rattle.std.specs.Prelude.{◌≡◌, ◌↔◌, length, IsTrue, MatchOption};
ghost use Rattle.std.specs.List.{All};
ghost use Rattle.ca_flat.specs.Pair.{bit_count};
ghost use Rattle.ca_expected.specs.Expected.{AreGoodEnds, AreExpected};
ghost use Rattle.ca_expected.specs.Wrong.{IsWrongFrom, IsFirstWrong};

use ca_base::List;
use ca_credit::Simulator;
use ca_net::Trit;
use ca_pair::Pair;

/// The pair with this number and the observed output, both counted from 0.
#[derive(Clone, Copy, Debug, PartialEq, Eq)]
pub struct WrongValue {
    pub pair: usize,
    pub output: u32,
}

fn is_same(one: Trit, other: Trit) -> bool
    ensures { IsTrue result ↔ (one ≡ other) }
{
    one == other
}

/// The first observed output at which the good chip doesn't end with the value, under the bits that are set;
/// none where it ends with each.
pub fn wrong_output<S: Simulator>(sim: &S, values: &List<Trit>) -> Option<u32>
    requires { length values.now ≡ length (S.task sim.now).chip.outputs }
    ensures { MatchOption result (AreGoodEnds (S.task sim.now).chip (S.bits sim.now) values.now)
        (IsWrongFrom (S.task sim.now).chip (S.bits sim.now) values.now) }
{
    for output in 0..sim.output_count() {
        if !is_same(sim.good_end(output), values.get(output as usize)) {
            return Some(output);
        }
    }
    None
}

/// The first pair under which an expected value isn't what the good chip ends with, and the first observed
/// output at which it isn't; none where all are. The simulator's aim stays, its bits don't.
pub fn first_wrong<S: Simulator>(
    sim: &mut S,
    pairs: &[Pair],
    expected: &[List<Trit>],
) -> Option<WrongValue>
    requires bits { All (λ pair. length pair ≡ bit_count (S.task sim.old).chip) pairs.now }
    requires counted { length pairs.now ≡ length expected.now }
    requires values { All (λ values. length values ≡ length (S.task sim.old).chip.outputs) expected.now }
    ensures first { MatchOption result (AreExpected (S.task sim.old).chip pairs.now expected.now)
        (IsFirstWrong (S.task sim.old).chip pairs.now expected.now) }
    ensures task { S.task sim.new ≡ S.task sim.old }
    ensures aimed { S.aimed sim.new ≡ S.aimed sim.old }
{
    for place in 0..pairs.len() {
        sim.load(&pairs[place]);
        if let Some(output) = wrong_output(sim, &expected[place]) {
            return Some(WrongValue {
                pair: place,
                output,
            });
        }
    }
    None
}

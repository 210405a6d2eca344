//! Pairs that are kept in lanes before they are credited.

ghost use Rattle.std.specs.Prelude.{◌≡◌, ◌≤◌, length};
ghost use Rattle.std.specs.List.{All};
ghost use Rattle.ca_flat.specs.Pair.{bit_count};

use crate::simulator::Simulator;
use ca_pair::Pair;

/// How many pairs may be kept at once.
pub const LANES: usize = 64;

/// Keeps the pairs of the list from this place on in lanes, `LANES` of them, or all where fewer are left, if
/// the place is a multiple of `LANES`: each has the lane of its place. The bits and the aim of the simulator
/// stay.
pub fn keep_pairs<S: Simulator>(sim: &mut S, pairs: &[Pair], place: usize)
    requires within { place ≤ length pairs.now }
    requires bits { All (λ pair. length pair ≡ bit_count (S.task sim.old).chip) pairs.now }

    ensures task { S.task sim.new ≡ S.task sim.old }
    ensures aimed { S.aimed sim.new ≡ S.aimed sim.old }
    ensures bits { S.bits sim.new ≡ S.bits sim.old }
    ensures aims { S.aims sim.new ≡ S.aims sim.old }
{
    if place % LANES == 0 {
        keep_pairs_from(sim, pairs, place);
    }
}

/// Keeps the pairs of the list from this place on in lanes, `LANES` of them, or all where fewer are left:
/// each has the lane of its place, counted by `LANES`. The bits and the aim of the simulator stay.
pub fn keep_pairs_from<S: Simulator>(sim: &mut S, pairs: &[Pair], from: usize)
    requires within { from ≤ length pairs.now }
    requires bits { All (λ pair. length pair ≡ bit_count (S.task sim.old).chip) pairs.now }

    ensures task { S.task sim.new ≡ S.task sim.old }
    ensures aimed { S.aimed sim.new ≡ S.aimed sim.old }
    ensures bits { S.bits sim.new ≡ S.bits sim.old }
    ensures aims { S.aims sim.new ≡ S.aims sim.old }
{
    let count = LANES.min(pairs.len() - from);
    for k in 0..count {
        sim.keep((from + k) % LANES, &pairs[from + k]);
    }
}

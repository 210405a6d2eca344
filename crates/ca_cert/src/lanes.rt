//! Pairs that are kept in lanes before they are looked at.

ghost use Rattle.std.specs.Prelude.{◌≡◌, ◌≤◌, length};
ghost use Rattle.std.specs.List.{All};
ghost use Rattle.ca_flat.specs.Pair.{bit_count};
ghost use Rattle.ca_cert.specs.Tested.{KeepsChip};

use crate::tester::Tester;
use ca_pair::Pair;

/// How many pairs are kept at once.
pub(crate) const LANES: usize = 64;

/// Keeps the pairs from this place on in lanes, `LANES` of them, or all where fewer are left, if the place is
/// a multiple of `LANES`: each has the lane of its place.
pub(crate) fn keep_pairs<T: Tester>(tester: &mut T, pairs: &[Pair], place: usize)
    requires within { place ≤ length pairs.now }
    requires bits { All (λ bits. length bits ≡ bit_count (T.examined tester.old).chip) pairs.now }
    ensures kept { KeepsChip (T.examined tester.old) (T.examined tester.new) }
    ensures listed { T.listed tester.new ≡ T.listed tester.old }
{
    if place % LANES != 0 {
        return;
    }
    let count = LANES.min(pairs.len() - place);
    for lane in 0..count {
        tester.keep(lane, &pairs[place + lane]);
    }
}

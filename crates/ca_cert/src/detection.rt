//! The first listed pair that detects a defect.

ghost use Rattle.std.specs.Prelude.{◌≡◌, ◌<◌, ◌+◌, ◌^◌, Bool, List, length, slice_get, IfOk};
ghost use Rattle.std.specs.List.{All};
ghost use Rattle.ca_flat.specs.Pair.{bit_count};
ghost use Rattle.ca_flat.specs.Detection.{trits_of};
ghost use Rattle.ca_places.specs.PlaceSet.{HoldsUpTo};
ghost use Rattle.ca_cert.specs.Tested.{AreTestable, KeepsChip, KeepsPair};
ghost use Rattle.ca_cert.specs.code.Found.{AreFound};
ghost use Rattle.ca_cert.specs.code.Sought.{AreSought, StaySought, LooksAt};

use crate::asked::asked_places;
use crate::lanes::{LANES, keep_pairs};
use crate::tester::Tester;
use ca_base::NoMemory;
use ca_claim::Claim;
use ca_flat::ChipDefect;
use ca_pair::{Pair, Pairs};
use ca_places::PlaceSet;
use std::alloc::Global;

// The first pair that detects a defect, and the first output at which it does.
#[derive(Clone, Copy, Debug, PartialEq, Eq)]
pub(crate) struct Detection {
    pub(crate) pair: u32,
    pub(crate) output: u32,
}

// The detections that were found so far, and the places of the defects that no pair detected yet, of those
// whose detection is sought.
#[derive(Drop)]
struct Sought {
    found: Vec<Option<Detection>>,
    left: PlaceSet,
}

impl Sought {
    // Looks whether the pair that is loaded detects the defect at the place, which is left.
    fn look_at<T: Tester>(&mut self, tester: &mut T, pair: u32, place: usize)
        requires within { place < length self.old.found.items }
        requires room { HoldsUpTo self.old.left (length self.old.found.items) }
        requires listed { place < length (T.listed tester.old) }
        ensures looked { LooksAt (T.examined tester.old) (T.listed tester.old) pair place self.old self.new }
        ensures kept { KeepsPair (T.examined tester.old) (T.examined tester.new) }
        ensures list { T.listed tester.new ≡ T.listed tester.old }
    {
        if let Some(output) = tester.look(place) {
            self.found[place] = Some(Detection { pair, output });
            self.left.remove(place);
        }
    }

    // Looks which of the defects that are left the pair that is loaded detects, the one of this number. Its
    // time is that of these defects, and a look at the words of their set.
    fn look_with<T: Tester>(&mut self, tester: &mut T, pairs: &[Pair], pair: u32)
        requires pair { (bits : List Bool) → slice_get pairs.now pair ≡ Some bits
            → (T.examined tester.old).pair ≡ trits_of bits }
        requires within { pair < length pairs.now }
        requires few { length (T.listed tester.old) < 2 ^ 32 }
        requires sought { AreSought (T.examined tester.old).chip (T.listed tester.old) pairs.now pair
            self.old }
        ensures sought { AreSought (T.examined tester.old).chip (T.listed tester.old) pairs.now (pair + 1)
            self.new }
        ensures stay { StaySought self.old self.new }
        ensures kept { KeepsPair (T.examined tester.old) (T.examined tester.new) }
        ensures list { T.listed tester.new ≡ T.listed tester.old }
    {
        let mut from = 0;
        'places: while let Some(place) = tester.next(&self.left, from) {
            self.look_at(tester, pair, place);
            from = place + 1;
        }
    }

    // The same for the pair of this number, which is loaded. Before the first of each 64 these are kept in
    // lanes.
    fn try_pair<T: Tester>(&mut self, tester: &mut T, pairs: &[Pair], pair: u32)
        requires pair { pair < length pairs.now }
        requires bits { All (λ bits. length bits ≡ bit_count (T.examined tester.old).chip) pairs.now }
        requires few { length (T.listed tester.old) < 2 ^ 32 }
        requires sought { AreSought (T.examined tester.old).chip (T.listed tester.old) pairs.now pair
            self.old }
        ensures sought { AreSought (T.examined tester.old).chip (T.listed tester.old) pairs.now (pair + 1)
            self.new }
        ensures stay { StaySought self.old self.new }
        ensures kept { KeepsChip (T.examined tester.old) (T.examined tester.new) }
        ensures list { T.listed tester.new ≡ T.listed tester.old }
    {
        let place = pair as usize;
        keep_pairs(tester, pairs, place);
        tester.load(&pairs[place]);
        tester.turn_to(place % LANES);
        self.look_with(tester, pairs, pair);
    }
}

/// For each defect of whose detections its claim speaks the first pair that detects it, and the first output
/// at which it does.
pub(crate) fn detections<T: Tester>(
    alloc: Global,
    tester: &mut T,
    defects: &[ChipDefect],
    claims: &[Claim],
    pairs: &Pairs,
) -> Result<Vec<Option<Detection>>, NoMemory>
    requires few { length pairs.now < 2 ^ 32 }
    requires few_claims { length claims.now < 2 ^ 32 }
    requires bits { All (λ bits. length bits ≡ bit_count (T.examined tester.old).chip) pairs.now }
    requires defects { length defects.now ≡ length claims.now }
    requires testable { AreTestable (T.examined tester.old) defects.now }
    ensures kept { KeepsChip (T.examined tester.old) (T.examined tester.new) }
    ensures found { IfOk result (λ found. AreFound (T.examined tester.old).chip defects.now claims.now
        pairs.now (length pairs.now) found.items) }
{
    tester.list(alloc, defects)?;
    let mut sought = Sought {
        found: vec![in alloc; None; claims.len()]?,
        left: asked_places(alloc, claims)?,
    };
    for pair in 0..pairs.len() {
        sought.try_pair(tester, pairs.as_slice(), pair as u32);
    }
    Ok(sought.found)
}

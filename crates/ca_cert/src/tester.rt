//! What the check of a certificate asks of a chip.

use ca_base::NoMemory;
use ca_flat::ChipDefect;
use ca_pair::Pair;
use ca_places::PlaceSet;
use ca_read_code::Examiner;
use std::alloc::Global;

/// A chip, and of its defects which pairs detect them, which can be exposed, and what may stand in a code.
pub trait Tester: Examiner {
    ghost use Rattle.std.specs.Prelude.{◌≡◌, ◌<◌, ◌^◌, ◌↔◌, List, length, slice_get, Some, IsTrue, OnOk};
    ghost use Rattle.ca_flat.specs.Pair.{bit_count};
    ghost use Rattle.ca_flat.specs.Detection.{trits_of, IsExposableIn};
    ghost use Rattle.ca_flat.specs.declared.chip_defect.ChipDefect.{ChipDefect};
    ghost use Rattle.ca_read_code.specs.Examined.{with_pair};
    ghost use Rattle.ca_cert.specs.Tested.{with_aim, IsTestable, AreTestable, KeepsPair};
    ghost use Rattle.ca_cert.specs.Listed.{IsLook, AreWithin, IsNextToLook};

    /// The list of defects that was taken over.
    ghost listed: { Self → List ChipDefect };

    /// Aims at the defect, for the reading of its code. The bits stay.
    fn aim(&mut self, defect: ChipDefect)
        requires { IsTestable (Self.examined self.old) defect }
        ensures { Self.examined self.new ≡ with_aim (Self.examined self.old) defect };

    /// Takes over a list of defects, by whose places pairs are looked at. The bits stay.
    fn list(&mut self, alloc: Global, defects: &[ChipDefect]) -> Result<(), NoMemory>
        requires few { length defects.now < 2 ^ 32 }
        requires testable { AreTestable (Self.examined self.old) defects.now }
        ensures listed { OnOk result (listed self.new ≡ defects.now) }
        ensures kept { KeepsPair (Self.examined self.old) (Self.examined self.new) };

    /// Sets all bits. The aim stays.
    fn load(&mut self, pair: &Pair)
        requires { length pair.now ≡ bit_count (Self.examined self.old).chip }
        ensures loaded { Self.examined self.new ≡ with_pair (Self.examined self.old) (trits_of pair.now) }
        ensures listed { listed self.new ≡ listed self.old };

    /// Keeps a pair in one of 64 lanes, in place of what that held: what is found of all lanes at once costs
    /// little more than for one pair. For a lane past the last nothing is done. The bits stay.
    fn keep(&mut self, lane: usize, pair: &Pair)
        requires { length pair.now ≡ bit_count (Self.examined self.old).chip }
        ensures kept { KeepsPair (Self.examined self.old) (Self.examined self.new) }
        ensures listed { listed self.new ≡ listed self.old };

    /// Lets what is found of this lane serve for the bits that are set, if they are those of its pair. For a
    /// lane past the last nothing is done. The bits stay.
    fn turn_to(&mut self, lane: usize)
        ensures kept { KeepsPair (Self.examined self.old) (Self.examined self.new) }
        ensures listed { listed self.new ≡ listed self.old };

    /// The first place of the set at or past this one, but for places at whose defects is seen at once that
    /// the bits that are set detect these nowhere. The bits stay.
    fn next(&mut self, places: &PlaceSet, from: usize) -> Option<usize>
        requires { AreWithin (listed self.old) places.now }
        ensures next { IsNextToLook (Self.examined self.old) (listed self.old) places.now from result }
        ensures kept { KeepsPair (Self.examined self.old) (Self.examined self.new) }
        ensures listed { listed self.new ≡ listed self.old };

    /// The first observed output at which the bits that are set detect the defect at this place of the list.
    /// The bits stay; no code is read after it without an aim, so that it costs less than one.
    fn look(&mut self, place: usize) -> Option<u32>
        requires { place < length (listed self.old) }
        ensures look { IsLook (Self.examined self.old) (listed self.old) place result }
        ensures kept { KeepsPair (Self.examined self.old) (Self.examined self.new) }
        ensures listed { listed self.new ≡ listed self.old };

    /// Whether the defect can be exposed in its cell.
    fn is_exposable(&self, defect: ChipDefect) -> bool
        requires { IsTestable (Self.examined self.now) defect }
        ensures { IsTrue result ↔ IsExposableIn (Self.examined self.now).chip defect };
}

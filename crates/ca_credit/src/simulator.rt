//! What credits ask of the simulator of a chip.

use crate::by_lasts::ByLasts;
use ca_net::Trit;
use ca_pair::Pair;
use ca_places::PlaceSet;

/// A chip with the list of its defects, the pattern bits that are set, the defect that is aimed at, and what
/// every run of the flat network ends with.
pub trait Simulator {
    ghost use Rattle.std.specs.Prelude.{ℕ, ◌≡◌, ◌<◌, ◌≤◌, ◌+◌, List, Option, None, IsTrue, IsFalse};
    ghost use Rattle.std.specs.Prelude.{◌↔◌, Some, length, slice_get, slice_index};
    ghost use Rattle.ca_net.specs.declared.trit.Trit.{Trit};
    ghost use Rattle.ca_flat.specs.declared.chip_defect.ChipDefect.{ChipDefect};
    ghost use Rattle.ca_flat.specs.Chip.{Chip};
    ghost use Rattle.ca_flat.specs.Pair.{bit_count, IsShown};
    ghost use Rattle.ca_credit.specs.Defects.{Task, StandsIn, IsDefectAt};
    ghost use Rattle.ca_code.specs.Filled.{trits_of};
    ghost use Rattle.ca_credit.specs.Detection.{IsNetEnd, IsAllowedByRows, AreDetectedAlike};
    ghost use Rattle.ca_credit.specs.Detection.{IsDecided};
    ghost use Rattle.ca_credit.specs.ToTry.{AreWithin, IsNextToTry};

    /// The chip, the list of defects with the chip of each, and how many branches each search may have.
    ghost task: { Self → Task };

    /// The pattern bits, X where one is unset.
    ghost bits: { Self → List Trit };

    /// The defect that is aimed at.
    ghost aimed: { Self → Option ChipDefect };

    /// The chip of which it is one.
    ghost aimed_in: { Self → Chip };

    /// How often was aimed at a defect or at none.
    ghost aims: { Self → ℕ };

    /// The number of the chip's defects.
    fn defect_count(&self) -> usize
        ensures { result ≡ length (task self.now).defects };

    /// The number of observed outputs.
    fn output_count(&self) -> u32
        ensures { result ≡ length (task self.now).chip.outputs };

    /// Sets all bits. The aim stays.
    fn load(&mut self, pair: &Pair)
        requires { length pair.now ≡ bit_count (task self.old).chip }

        ensures task { task self.new ≡ task self.old }
        ensures bits { bits self.new ≡ trits_of pair.now }
        ensures aimed { aimed self.new ≡ aimed self.old }
        ensures aimed_in { aimed_in self.new ≡ aimed_in self.old }
        ensures aims { aims self.new ≡ aims self.old };

    /// Whether the bits that are set may detect the defect at this place of the list, by the rows that expose
    /// it. It is asked before the defect is aimed at, which costs more.
    fn may_detect(&self, place: usize) -> bool
        requires { place < length (task self.now).defects }
        ensures undetected { (defect : ChipDefect) → IsDefectAt (task self.now) place defect
            → IsFalse result → ¬ (IsShown ((task self.now).chip_of place) defect (bits self.now)) }
        ensures allowed { (defect : ChipDefect) → IsDefectAt (task self.now) place defect
            → IsTrue result → IsAllowedByRows ((task self.now).chip_of place) defect (bits self.now) };

    /// What last values alone say of the defect at this place of the list, under the bits that are set. Where
    /// it is undecided the defect has to be aimed at. The bits and the aim stay.
    fn by_lasts(&mut self, place: usize) -> ByLasts
        requires { place < length (task self.old).defects }

        ensures decided { (defect : ChipDefect) → IsDefectAt (task self.old) place defect
            → IsDecided ((task self.old).chip_of place) defect (bits self.old) result }
        ensures aimed { aimed self.new ≡ aimed self.old }
        ensures aimed_in { aimed_in self.new ≡ aimed_in self.old }
        ensures task { task self.new ≡ task self.old }
        ensures bits { bits self.new ≡ bits self.old }
        ensures aims { aims self.new ≡ aims self.old };

    /// The first place of the set at or past this one, but for places at whose defects last values say at
    /// once that the bits detect these nowhere. The bits and the aim stay.
    fn next_to_try(&mut self, places: &PlaceSet, from: usize) -> Option<usize>
        requires { AreWithin (task self.old) places.now }

        ensures next { IsNextToTry (task self.old) (bits self.old) places.now from result }
        ensures aimed { aimed self.new ≡ aimed self.old }
        ensures aimed_in { aimed_in self.new ≡ aimed_in self.old }
        ensures task { task self.new ≡ task self.old }
        ensures bits { bits self.new ≡ bits self.old }
        ensures aims { aims self.new ≡ aims self.old };

    /// Keeps a pair in one of 64 lanes, in place of what that held: what is asked of all lanes at once costs
    /// little more than for one pair. For a lane past the last nothing is done. The bits and the aim stay.
    fn keep(&mut self, lane: usize, pair: &Pair)
        requires { length pair.now ≡ bit_count (task self.old).chip }

        ensures aimed { aimed self.new ≡ aimed self.old }
        ensures aimed_in { aimed_in self.new ≡ aimed_in self.old }
        ensures task { task self.new ≡ task self.old }
        ensures bits { bits self.new ≡ bits self.old }
        ensures aims { aims self.new ≡ aims self.old };

    /// Lets what is known of this lane serve for the bits that are set, if they are those of its pair. For a
    /// lane past the last nothing is done. The bits and the aim stay.
    fn turn_to(&mut self, lane: usize)
        ensures aimed { aimed self.new ≡ aimed self.old }
        ensures aimed_in { aimed_in self.new ≡ aimed_in self.old }
        ensures task { task self.new ≡ task self.old }
        ensures bits { bits self.new ≡ bits self.old }
        ensures aims { aims self.new ≡ aims self.old };

    /// Aims at the defect at this place of the list. The bits stay.
    fn aim(&mut self, place: usize)
        requires { place < length (task self.old).defects }

        ensures aimed { aimed self.new ≡ slice_get (task self.old).defects place }
        ensures aimed_in { aimed_in self.new ≡ (task self.old).chip_of place }
        ensures stands_in { StandsIn (task self.old).chip ((task self.old).chip_of place) }
        ensures task { task self.new ≡ task self.old }
        ensures bits { bits self.new ≡ bits self.old }
        ensures aims { aims self.new ≤ aims self.old + 1 };

    /// Whether the defect at this place of the list is one of the instance of the defect that is aimed at.
    fn shares_instance(&self, place: usize) -> bool
        requires { place < length (task self.now).defects }
        ensures { (one other : ChipDefect) → aimed self.now ≡ Some one
            → IsDefectAt (task self.now) place other → IsTrue result ↔ (other.instance ≡ one.instance) };

    /// Whether the defect at this place of the list gives at its instance's outputs what that gives which is
    /// aimed at, one of the same instance. Then the bits detect both at the same outputs. It takes one
    /// evaluation of the instance; the bits and the aim stay.
    fn is_alike(&mut self, place: usize) -> bool
        requires { place < length (task self.old).defects }

        ensures same_chip { IsTrue result → (task self.old).chip_of place ≡ aimed_in self.old }
        ensures alike { (one other : ChipDefect) → aimed self.old ≡ Some one
            → IsDefectAt (task self.old) place other → IsTrue result
            → AreDetectedAlike (aimed_in self.old) one other (bits self.old) }
        ensures aimed { aimed self.new ≡ aimed self.old }
        ensures aimed_in { aimed_in self.new ≡ aimed_in self.old }
        ensures task { task self.new ≡ task self.old }
        ensures bits { bits self.new ≡ bits self.old }
        ensures aims { aims self.new ≡ aims self.old };

    /// Aims at no defect. The bits stay.
    fn aim_at_none(&mut self)
        ensures aimed { aimed self.new ≡ None }
        ensures task { task self.new ≡ task self.old }
        ensures bits { bits self.new ≡ bits self.old }
        ensures aims { aims self.new ≤ aims self.old + 1 };

    /// What the good chip ends with at an observed output, X where runs differ.
    fn good_end(&self, output: u32) -> Trit
        requires { output < length (task self.now).chip.outputs }
        ensures { IsNetEnd (task self.now).chip None (bits self.now)
            (slice_index (task self.now).chip.outputs output) result };

    /// What its chip with the defect that is aimed at ends with at an observed output, X where runs differ.
    fn faulty_end(&self, output: u32) -> Trit
        requires { output < length (task self.now).chip.outputs }
        ensures { IsNetEnd (aimed_in self.now) (aimed self.now) (bits self.now)
            (slice_index (task self.now).chip.outputs output) result };
}

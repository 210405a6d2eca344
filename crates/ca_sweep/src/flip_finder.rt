//! What a bench asks of a finder.

use crate::seen::Seen;
use crate::spans::DefectSpans;
use ca_flat::ChipDefect;
use ca_places::PlaceSet;
use ca_sim::{Bits, NetWaves};

/// Finds where a pair detects defects, by the last values of the nets after their instances. It takes no
/// memory.
pub trait FlipFinder {
    ghost use Rattle.std.specs.Prelude.{ℕ, ◌≡◌, ◌<◌, ◌^◌, length, None, Some};
    ghost use Rattle.std.specs.List.{All};
    ghost use Rattle.ca_net.specs.Circuit.{IsWellFormed};
    ghost use Rattle.ca_net.specs.State.{value_at};
    ghost use Rattle.ca_flat.specs.Flat.{flat};
    ghost use Rattle.ca_flat.specs.Pair.{bit_count};
    ghost use Rattle.ca_flips.specs.Flips.{AreLastsOf};
    ghost use Rattle.ca_places.specs.PlaceSet.{Has};
    ghost use Rattle.ca_sim.specs.Seen.{AreNetWaves};
    ghost use Rattle.ca_view.specs.Linked.{IsPlacedDefect, place_in};
    ghost use Rattle.ca_sweep.specs.Seen.{Loaded, lasts_in};
    ghost use Rattle.ca_sweep.specs.Found.{IsFound, IsNextFound};

    /// The chip, and the good waves that were taken over, with their last values.
    ghost loaded: { Self → Loaded };

    /// Takes over the good waves.
    fn load<V: NetWaves>(&mut self, waves: &V)
        requires { (V.seen waves.now).chip ≡ (loaded self.old).chip }
        ensures waves { (loaded self.new).waves ≡ (V.seen waves.now).good }
        ensures lasts { (loaded self.new).lasts ≡ lasts_in (V.seen waves.now).good }
        ensures chip { (loaded self.new).chip ≡ (loaded self.old).chip }
        ensures places { (loaded self.new).places ≡ (loaded self.old).places };

    /// Where the pair of these waves first detects a defect. The waves that were taken over, and their last
    /// values, are those of the pair. It is undecided where an instance after that of the defect isn't
    /// static, a good last value isn't definite there, or only waves show what unknown values of the
    /// instance's outputs do. Where the defect stands in a list, its place there helps to find it in that of
    /// its cell.
    fn find<V: NetWaves>(&mut self, waves: &V, defect: ChipDefect, place: usize) -> Seen
        requires chip { (V.seen waves.now).chip ≡ (loaded self.old).chip }
        requires defect { IsPlacedDefect (loaded self.old).chip (place_in (loaded self.old).places) defect }
        requires lasts { AreLastsOf (loaded self.old).chip (V.seen waves.now).pair
            (value_at (loaded self.old).lasts) }
        requires waves { AreNetWaves (loaded self.old).chip None (V.seen waves.now).pair
            (loaded self.old).waves }
        requires good_is { IsWellFormed (flat (loaded self.old).chip None) }
        requires faulty_is { IsWellFormed (flat (loaded self.old).chip (Some defect)) }

        ensures found { IsFound (loaded self.old).chip defect (V.seen waves.now).pair result }
        ensures kept { loaded self.new ≡ loaded self.old };

    /// The first place of the set at or past this one, but for places of defects of the list that the pair of
    /// these waves is found to detect nowhere. The waves that were taken over are those of the pair.
    fn next<V: NetWaves>(
        &mut self,
        waves: &V,
        defects: &DefectSpans<'_>,
        places: &PlaceSet,
        from: usize,
    ) -> Option<usize>
        requires chip { (V.seen waves.now).chip ≡ (loaded self.old).chip }
        requires of { defects.now.chip ≡ (loaded self.old).chip }
        requires defects { All (IsPlacedDefect (loaded self.old).chip (place_in (loaded self.old).places))
            defects.now.list }
        requires few { length defects.now.list < 2 ^ 32 }
        requires within { (place : ℕ) → Has places.now place → place < length defects.now.list }
        requires lasts { AreLastsOf (loaded self.old).chip (V.seen waves.now).pair
            (value_at (loaded self.old).lasts) }
        requires waves { AreNetWaves (loaded self.old).chip None (V.seen waves.now).pair
            (loaded self.old).waves }
        requires good_is { IsWellFormed (flat (loaded self.old).chip None) }
        requires faulty_are { All (λ defect. IsWellFormed (flat (loaded self.old).chip (Some defect)))
            defects.now.list }

        ensures next { IsNextFound (loaded self.old).chip defects.now.list (V.seen waves.now).pair places.now
            from result }
        ensures kept { loaded self.new ≡ loaded self.old };

    /// Keeps the last values of a pair's bits in a lane, if there is such a lane.
    fn keep<B: Bits>(&mut self, lane: usize, bits: &B)
        requires { length (B.bits bits.now) ≡ bit_count (loaded self.old).chip }
        ensures { loaded self.new ≡ loaded self.old };

    /// Looks whether a lane has the last values that were taken over, if there is such a lane: then it serves
    /// until others are.
    fn turn_to(&mut self, lane: usize)
        ensures { loaded self.new ≡ loaded self.old };
}

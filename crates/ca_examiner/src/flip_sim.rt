//! The simulator of a chip, beside a finder that works by last values alone.

ghost use Rattle.std.specs.Prelude.{◌≡◌, ◌<◌, ◌^◌, length, IfOk};

use ca_base::NoMemory;
use ca_flat::ChipDefect;
use ca_net::Wave;
use ca_places::PlaceSet;
use ca_sim::{Bits, NetWaves, Sim};
use ca_sweep::{DefectSpans, FlipFinder, Seen};
use ca_view::View;
use std::alloc::Global;
use std::marker::Model;

/// A simulator, and a finder, which is loaded with the good waves for the bits when it is asked. It is for a
/// finder of any type, so that what drops one has few parts to the prover.
#[derive(Drop)]
pub(crate) struct FlipSim<'a, F: FlipFinder + Drop> {
    sim: Sim<'a>,
    finder: F,
    is_loaded: bool,
}

impl<'a, F: FlipFinder + Drop> Model for FlipSim<'a, F> {
    ghost use Rattle.ca_sim.specs.Simulator.{Simulator};
    ghost use Rattle.ca_examiner.specs.code.FlipSim.{IsFlipSim};

    ghost Value = { Simulator };

    ghost view = { λ own. own.sim };

    ghost invariant = { λ own. IsFlipSim own.sim (F.loaded own.finder) own.is_loaded };
}

impl<'a, F: FlipFinder + Drop> FlipSim<'a, F> {
    ghost use Rattle.std.specs.Prelude.{ℕ, None, Some, slice_set};
    ghost use Rattle.std.specs.List.{All};
    ghost use Rattle.ca_net.specs.Circuit.{IsWellFormed};
    ghost use Rattle.ca_flat.specs.Flat.{flat};
    ghost use Rattle.ca_flat.specs.Codes.{unset_pair};
    ghost use Rattle.ca_flat.specs.Pair.{bit_count};
    ghost use Rattle.ca_view.specs.Linked.{IsAim, IsPlacedDefect, place_in};
    ghost use Rattle.ca_sim.specs.Seen.{value_of};
    ghost use Rattle.ca_sim.specs.Simulator.{IsFresh, KeepsAim, KeepsPair};
    ghost use Rattle.ca_places.specs.PlaceSet.{Has};
    ghost use Rattle.ca_sweep.specs.Found.{IsFound, IsNextFound};
    ghost use Rattle.ca_sweep.specs.Seen.{IsForChip};

    /// Takes all memory. No bit is set, and no defect is aimed at.
    pub(crate) fn reserve(alloc: Global, chip: &'a View<'a>, finder: F) -> Result<Self, NoMemory>
        requires { IsForChip chip.now.core chip.now.ranks (F.loaded finder) }
        ensures { IfOk result (IsFresh chip.now.core chip.now.ranks) }
    {
        let sim = Sim::reserve(alloc, chip)?;
        Ok(FlipSim {
            sim,
            finder,
            is_loaded: false,
        })
    }

    /// Aims at a defect, or at none. The bits stay.
    pub(crate) fn aim(&mut self, defect: Option<ChipDefect>)
        requires { IsAim self.old.seen.chip (place_in self.old.seen.places) defect }
        ensures aim { self.new.seen.aim ≡ defect }
        ensures kept { KeepsPair self.old self.new }
    {
        self.sim.aim(defect);
    }

    /// Sets a bit, or unsets it.
    pub(crate) fn set(&mut self, bit: u16, value: Option<bool>)
        requires { bit < length self.old.seen.pair }
        ensures pair { self.new.seen.pair ≡ slice_set self.old.seen.pair bit (value_of value) }
        ensures kept { KeepsAim self.old self.new }
    {
        self.is_loaded = false;
        self.sim.set(bit, value);
    }

    /// Gives all bits their values.
    pub(crate) fn load<B: Bits>(&mut self, bits: &B)
        requires { length (B.bits bits.now) ≡ length self.old.seen.pair }
        ensures pair { self.new.seen.pair ≡ B.bits bits.now }
        ensures kept { KeepsAim self.old self.new }
    {
        self.is_loaded = false;
        self.sim.load(bits);
    }

    /// Unsets all bits.
    pub(crate) fn clear(&mut self)
        ensures pair { self.new.seen.pair ≡ unset_pair self.old.seen.chip }
        ensures kept { KeepsAim self.old self.new }
    {
        self.is_loaded = false;
        self.sim.clear();
    }

    /// What last values alone say of a defect: where the bits first detect it. Where it stands in a list, its
    /// place there helps to find it in that of its cell.
    pub(crate) fn by_lasts(&mut self, defect: ChipDefect, place: usize) -> Seen
        requires defect { IsPlacedDefect self.old.seen.chip (place_in self.old.seen.places) defect }
        requires good_is { IsWellFormed (flat self.old.seen.chip None) }
        requires faulty_is { IsWellFormed (flat self.old.seen.chip (Some defect)) }
        ensures found { IsFound self.old.seen.chip defect self.old.seen.pair result }
        ensures kept { self.new ≡ self.old }
    {
        load_finder(&self.sim, &mut self.finder, self.is_loaded);
        self.is_loaded = true;
        self.finder.find(&self.sim, defect, place)
    }

    /// The first place of the set at or past this one, but for places of defects of the list of which last
    /// values alone say that the bits detect them nowhere.
    pub(crate) fn next(
        &mut self,
        defects: &DefectSpans<'_>,
        places: &PlaceSet,
        from: usize,
    ) -> Option<usize>
        requires of { defects.now.chip ≡ self.old.seen.chip }
        requires defects { All (IsPlacedDefect self.old.seen.chip (place_in self.old.seen.places))
            defects.now.list }
        requires few { length defects.now.list < 2 ^ 32 }
        requires within { (place : ℕ) → Has places.now place → place < length defects.now.list }
        requires good_is { IsWellFormed (flat self.old.seen.chip None) }
        requires faulty_are { All (λ defect. IsWellFormed (flat self.old.seen.chip (Some defect)))
            defects.now.list }
        ensures next { IsNextFound self.old.seen.chip defects.now.list self.old.seen.pair places.now from
            result }
        ensures kept { self.new ≡ self.old }
    {
        load_finder(&self.sim, &mut self.finder, self.is_loaded);
        self.is_loaded = true;
        self.finder.next(&self.sim, defects, places, from)
    }

    /// Keeps the bits of a pair in a lane, if there is such a lane.
    pub(crate) fn keep<B: Bits>(&mut self, lane: usize, bits: &B)
        requires { length (B.bits bits.now) ≡ bit_count self.old.seen.chip }
        ensures { self.new ≡ self.old }
    {
        self.finder.keep(lane, bits);
    }

    /// Looks whether a lane has the last values of the good waves for the bits, if there is such a lane.
    pub(crate) fn turn_to(&mut self, lane: usize)
        requires { IsWellFormed (flat self.old.seen.chip None) }
        ensures { self.new ≡ self.old }
    {
        load_finder(&self.sim, &mut self.finder, self.is_loaded);
        self.is_loaded = true;
        self.finder.turn_to(lane);
    }
}

impl<F: FlipFinder + Drop> NetWaves for FlipSim<'_, F> {
    ghost seen = { λ own. own.seen };

    fn good(&self, net: usize) -> Wave {
        self.sim.good(net)
    }

    fn faulty(&self, net: usize) -> Wave {
        self.sim.faulty(net)
    }

    fn bit(&self, bit: usize) -> Option<bool> {
        self.sim.bit(bit)
    }

    fn exact(&self) {
        self.sim.exact();
    }
}

ghost use Rattle.std.specs.Prelude.{None, true};
ghost use Rattle.ca_net.specs.Circuit.{IsWellFormed};
ghost use Rattle.ca_flat.specs.Flat.{flat};
ghost use Rattle.ca_examiner.specs.code.FlipSim.{IsFlipSim};

// Loads the finder with the good waves, if it isn't.
fn load_finder<F: FlipFinder>(sim: &Sim<'_>, finder: &mut F, is_loaded: bool)
    requires own { IsFlipSim sim.now (F.loaded finder.old) is_loaded }
    requires good_is { IsWellFormed (flat sim.now.seen.chip None) }
    ensures { IsFlipSim sim.now (F.loaded finder.new) true }
{
    if is_loaded {
        return;
    }
    sim.exact();
    finder.load(sim);
}

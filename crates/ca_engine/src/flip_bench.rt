//! The judge of a linked chip, beside a finder that works by last values alone.

ghost use Rattle.std.specs.Prelude.{◌≡◌, ◌<◌, ◌^◌, length, IfOk};

use ca_base::NoMemory;
use ca_flat::ChipDefect;
use ca_guide::Step;
use ca_judge::{Attempts, ExposingRows};
use ca_net::Wave;
use ca_places::PlaceSet;
use ca_search::{Judge, Standing};
use ca_sim::{Bits, NetWaves};
use ca_sweep::{DefectSpans, FlipFinder, Seen};
use ca_view::View;
use std::alloc::Global;
use std::marker::Model;

/// A judge, and a finder, which is loaded with the good waves for the bits when it is asked. It is for a
/// finder of any type: so it has few parts to the prover, and test generation and grades share it.
#[derive(Drop)]
pub(crate) struct FlipBench<'a, R: ExposingRows, P: Attempts + Drop, F: FlipFinder + Drop> {
    judge: ca_judge::ChipJudge<'a, R, P>,
    finder: F,
    is_loaded: bool,
}

impl<'a, R: ExposingRows, P: Attempts + Drop, F: FlipFinder + Drop> Model
    for FlipBench<'a, R, P, F> {
    ghost use Rattle.ca_sim.specs.Simulator.{Simulator};
    ghost use Rattle.ca_engine.specs.code.FlipBench.{IsFlipBench};

    ghost Value = { Simulator };

    ghost view = { λ bench. bench.judge };

    ghost invariant = { λ bench. IsFlipBench bench.judge (F.loaded bench.finder) bench.is_loaded };
}

impl<'a, R: ExposingRows, P: Attempts + Drop, F: FlipFinder + Drop> FlipBench<'a, R, P, F> {
    ghost use Rattle.std.specs.Prelude.{ℕ, IsFalse, IsTrue, None, Some};
    ghost use Rattle.std.specs.List.{All};
    ghost use Rattle.ca_net.specs.Circuit.{IsWellFormed};
    ghost use Rattle.ca_flat.specs.Flat.{flat};
    ghost use Rattle.ca_flat.specs.Chip.{IsDefectIn};
    ghost use Rattle.ca_flat.specs.RuleOut.{RowsRuleOut};
    ghost use Rattle.ca_flat.specs.Waves.{FlatWaves};
    ghost use Rattle.ca_flat.specs.Pair.{bit_count, IsShown};
    ghost use Rattle.ca_view.specs.Linked.{IsAim, IsPlacedDefect, place_in};
    ghost use Rattle.ca_sim.specs.Seen.{IsExact, aimed_anew};
    ghost use Rattle.ca_sim.specs.Simulator.{IsFresh, KeepsAim, KeepsPair, KeepsSeen, counted_up};
    ghost use Rattle.ca_judge.specs.ChipJudge.{CanBeJudged};
    ghost use Rattle.ca_places.specs.PlaceSet.{Has};
    ghost use Rattle.ca_judge.specs.Attempt.{IsTriedOn};
    ghost use Rattle.ca_sweep.specs.Found.{IsFound, IsNextFound};
    ghost use Rattle.ca_sweep.specs.Seen.{IsForChip};

    /// Takes all memory. No bit is set, and no defect is aimed at.
    pub(crate) fn reserve(
        alloc: Global,
        view: &'a View<'a>,
        rows: &'a R,
        choice: P,
        finder: F,
    ) -> Result<Self, NoMemory>
        requires choice { IsTriedOn view.now.core view.now.ranks (P.tried choice) }
        requires finder { IsForChip view.now.core view.now.ranks (F.loaded finder) }
        requires judged { CanBeJudged view.now.core }
        requires rows { R.chip rows.now ≡ view.now.core }
        ensures { IfOk result (IsFresh view.now.core view.now.ranks) }
    {
        let judge = ca_judge::ChipJudge::reserve(alloc, view, rows, choice)?;
        Ok(FlipBench {
            judge,
            finder,
            is_loaded: false,
        })
    }

    /// Aims at a defect, or at none. The bits stay.
    pub(crate) fn aim(&mut self, defect: Option<ChipDefect>)
        requires { IsAim self.old.seen.chip (place_in self.old.seen.places) defect }
        ensures aim { self.new.seen.aim ≡ defect }
        ensures aimed { self.new.aimed ≡ counted_up self.old.aimed }
        ensures kept { KeepsPair self.old self.new }
    {
        self.judge.aim(defect);
    }

    /// Whether a row that exposes the defect is allowed by what the good chip has at its instance's input
    /// pins. Where none is, the pair doesn't show the defect.
    pub(crate) fn may_show(&self, defect: ChipDefect) -> bool
        requires { IsDefectIn self.now.seen.chip defect }
        ensures not_shown { IsFalse result → ¬ (IsShown self.now.seen.chip defect self.now.seen.pair) }
        ensures allowed { IsTrue result → (good : FlatWaves self.now.seen.chip None self.now.seen.pair)
            → ¬ (RowsRuleOut self.now.seen.chip defect self.now.seen.pair good) }
    {
        self.judge.may_show(defect)
    }

    /// What last values alone say of a defect: where the bits first detect it. Where it stands in a list, its
    /// place there helps to find it in that of its cell.
    pub(crate) fn by_lasts(&mut self, defect: ChipDefect, place: usize) -> Seen
        requires defect { IsPlacedDefect self.old.seen.chip (place_in self.old.seen.places) defect }
        requires good_is { IsWellFormed (flat self.old.seen.chip None) }
        requires faulty_is { IsWellFormed (flat self.old.seen.chip (Some defect)) }
        ensures found { IsFound self.old.seen.chip defect self.old.seen.pair result }
        ensures kept { self.new ≡ self.old }
    {
        load_finder(&self.judge, &mut self.finder, self.is_loaded);
        self.is_loaded = true;
        self.finder.find(&self.judge, defect, place)
    }

    /// The first place of the set at or past this one, but for places of defects of the list of which last
    /// values alone say that the bits detect them nowhere.
    pub(crate) fn next_to_try(
        &mut self,
        defects: &DefectSpans<'_>,
        places: &PlaceSet,
        from: usize,
    ) -> Option<usize>
        requires of { defects.now.chip ≡ self.old.seen.chip }
        requires defects { All (IsPlacedDefect self.old.seen.chip (place_in self.old.seen.places))
            defects.now.list }
        requires few { length defects.now.list < 2 ^ 32 }
        requires within { (place : ℕ) → Has places.now place → place < length defects.now.list }
        requires good_is { IsWellFormed (flat self.old.seen.chip None) }
        requires faulty_are { All (λ defect. IsWellFormed (flat self.old.seen.chip (Some defect)))
            defects.now.list }
        ensures next { IsNextFound self.old.seen.chip defects.now.list self.old.seen.pair places.now from
            result }
        ensures kept { self.new ≡ self.old }
    {
        load_finder(&self.judge, &mut self.finder, self.is_loaded);
        self.is_loaded = true;
        self.finder.next(&self.judge, defects, places, from)
    }

    /// Keeps the bits of a pair in a lane, if there is such a lane.
    pub(crate) fn keep<B: Bits>(&mut self, lane: usize, bits: &B)
        requires { length (B.bits bits.now) ≡ bit_count self.old.seen.chip }
        ensures { self.new ≡ self.old }
    {
        self.finder.keep(lane, bits);
    }

    /// Looks whether a lane has the last values of the good waves for the bits, if there is such a lane.
    pub(crate) fn turn_to(&mut self, lane: usize)
        requires { IsWellFormed (flat self.old.seen.chip None) }
        ensures { self.new ≡ self.old }
    {
        load_finder(&self.judge, &mut self.finder, self.is_loaded);
        self.is_loaded = true;
        self.finder.turn_to(lane);
    }

    /// Whether the instance of the defect that is aimed at gives the same with this other one of its defects.
    /// Then all waves are those of the flat network with this one too.
    pub(crate) fn is_alike(&mut self, defect: ChipDefect) -> bool
        requires { IsPlacedDefect self.old.seen.chip (place_in self.old.seen.places) defect }
        ensures alike { IsTrue result → IsExact (aimed_anew self.old.seen defect) }
        ensures kept { KeepsSeen self.old self.new }
    {
        self.judge.is_alike(defect)
    }

    /// How often was aimed since `reserve`, up to the type's greatest value.
    pub(crate) fn aimed(&self) -> u64
        ensures { result ≡ self.now.aimed }
    {
        self.judge.aimed()
    }

    /// How often an instance was evaluated since `reserve`, up to the type's greatest value.
    pub(crate) fn evaluated(&self) -> u64
        ensures { result ≡ self.now.evaluated }
    {
        self.judge.evaluated()
    }

    /// Gives all bits their values.
    pub(crate) fn load<B: Bits>(&mut self, bits: &B)
        requires { length (B.bits bits.now) ≡ length self.old.seen.pair }
        ensures pair { self.new.seen.pair ≡ B.bits bits.now }
        ensures kept { KeepsAim self.old self.new }
    {
        self.is_loaded = false;
        self.judge.load(bits);
    }
}

impl<R: ExposingRows, P: Attempts + Drop, F: FlipFinder + Drop> NetWaves
    for FlipBench<'_, R, P, F> {
    ghost seen = { λ bench. bench.seen };

    fn good(&self, net: usize) -> Wave {
        self.judge.good(net)
    }

    fn faulty(&self, net: usize) -> Wave {
        self.judge.faulty(net)
    }

    fn bit(&self, bit: usize) -> Option<bool> {
        self.judge.bit(bit)
    }

    fn exact(&self) {
        self.judge.exact();
    }
}

impl<R: ExposingRows, P: Attempts + Drop, F: FlipFinder + Drop> Judge for FlipBench<'_, R, P, F> {
    ghost use Rattle.ca_judge.specs.ChipJudge.{judged_of};

    ghost judged = { λ bench. judged_of bench.seen };

    fn bit_count(&self) -> usize {
        self.judge.bit_count()
    }

    fn flat(&self) {
        self.judge.flat();
    }

    fn clear(&mut self) {
        self.is_loaded = false;
        self.judge.clear();
    }

    fn set(&mut self, bit: u16, value: Option<bool>) {
        self.is_loaded = false;
        self.judge.set(bit, value);
    }

    fn standing(&self) -> Standing {
        self.judge.standing()
    }

    fn next(&mut self) -> Step {
        self.is_loaded = false;
        self.judge.next()
    }

    fn attempt(&mut self, numbers: &mut Vec<u16>, budget: u32) -> bool {
        self.is_loaded = false;
        self.judge.attempt(numbers, budget)
    }
}

ghost use Rattle.std.specs.Prelude.{None, true};
ghost use Rattle.ca_net.specs.Circuit.{IsWellFormed};
ghost use Rattle.ca_flat.specs.Flat.{flat};
ghost use Rattle.ca_engine.specs.code.FlipBench.{IsFlipBench};

// Loads the finder with the good waves, if it isn't.
fn load_finder<R: ExposingRows, P: Attempts + Drop, F: FlipFinder>(
    judge: &ca_judge::ChipJudge<'_, R, P>,
    finder: &mut F,
    is_loaded: bool,
)
    requires bench { IsFlipBench judge.now (F.loaded finder.old) is_loaded }
    requires good_is { IsWellFormed (flat judge.now.seen.chip None) }
    ensures { IsFlipBench judge.now (F.loaded finder.new) true }
{
    if is_loaded {
        return;
    }
    judge.exact();
    finder.load(judge);
}

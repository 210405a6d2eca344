//! The simulator and the guide of a chip.

ghost use Rattle.std.specs.Prelude.{◌≡◌, length, IfOk};
ghost use Rattle.ca_flat.specs.Chip.{IsChipDefect};
ghost use Rattle.ca_guide.specs.Guide.{HasRoomFor};
ghost use Rattle.ca_judge.specs.code.ChipJudge.{IsGuidedTo};

use crate::attempt::Aimed;
use crate::attempts::Attempts;
use crate::guide_waves::GuideWaves;
use crate::outputs::observed_nets;
use crate::standing::standing;
use ca_base::NoMemory;
use ca_flat::{ChipDefect, ExposingRows};
use ca_guide::{Guide, Step, is_some_row_allowed};
use ca_net::Wave;
use ca_search::{Judge, Standing};
use ca_sim::{Bits, NetWaves, Sim};
use ca_view::View;
use std::alloc::Global;
use std::marker::Model;

// Aims the guide at a defect, if there is one.
fn guide_to(guide: &mut Guide, view: &View<'_>, defect: Option<ChipDefect>)
    requires room { HasRoomFor view.now.lists guide.old }
    requires defect { IsChipDefect view.now.core defect }
    ensures room { HasRoomFor view.now.lists guide.new }
    ensures guided { IsGuidedTo view.now.core guide.new defect }
{
    if let Some(defect) = defect {
        guide.aim(view, defect);
    }
}

/// A simulator of a chip, and the guide of the defect that is aimed at. All memory is taken by `reserve`.
#[derive(Drop)]
pub struct ChipJudge<'a, R: ExposingRows, P: Attempts + Drop> {
    sim: Sim<'a>,
    view: &'a View<'a>,
    rows: &'a R,
    guide: Guide,
    choice: P,
    // the observed nets
    outputs: Vec<u32>,
    defect: Option<ChipDefect>,
}

impl<'a, R: ExposingRows, P: Attempts + Drop> Model for ChipJudge<'a, R, P> {
    ghost use Rattle.ca_sim.specs.Simulator.{Simulator};
    ghost use Rattle.ca_judge.specs.code.ChipJudge.{IsChipJudge};
    ghost use Rattle.ca_judge.specs.Attempt.{IsTried};

    ghost Value = { Simulator };

    ghost view = { λ judge. judge.sim };

    ghost invariant = { λ judge. IsChipJudge judge.sim.seen.chip judge.sim.seen.aim judge.view.now.core
        judge.view.now.lists (R.chip judge.rows.now) judge.guide judge.outputs.items judge.defect
        × IsTried judge.sim.seen (P.tried judge.choice) };
}

impl<'a, R: ExposingRows, P: Attempts + Drop> ChipJudge<'a, R, P> {
    ghost use Rattle.std.specs.Prelude.{IsFalse, IsTrue, None};
    ghost use Rattle.ca_flat.specs.Chip.{IsDefectIn};
    ghost use Rattle.ca_flat.specs.RuleOut.{RowsRuleOut};
    ghost use Rattle.ca_flat.specs.Waves.{FlatWaves};
    ghost use Rattle.ca_flat.specs.Codes.{unset_pair};
    ghost use Rattle.ca_flat.specs.Pair.{IsShown};
    ghost use Rattle.ca_view.specs.Linked.{IsAim, IsPlacedDefect, place_in};
    ghost use Rattle.ca_sim.specs.Seen.{IsExact, aimed_anew};
    ghost use Rattle.ca_sim.specs.Simulator.{IsFresh, KeepsAim, KeepsPair, KeepsSeen, counted_up};
    ghost use Rattle.ca_judge.specs.ChipJudge.{CanBeJudged};
    ghost use Rattle.ca_judge.specs.Attempt.{IsTriedOn};

    /// Takes all memory. No bit is set, and no defect is aimed at.
    #[tactic(auto, using(crate::proofs::JudgeLemmas::judge_begins, crate::proofs::JudgeLemmas::few_onward))]
    pub fn reserve(
        alloc: Global,
        view: &'a View<'a>,
        rows: &'a R,
        choice: P,
    ) -> Result<Self, NoMemory>
        requires judged { CanBeJudged view.now.core }
        requires rows { R.chip rows.now ≡ view.now.core }
        requires choice { IsTriedOn view.now.core view.now.ranks (P.tried choice) }
        ensures { IfOk result (IsFresh view.now.core view.now.ranks) }
    {
        view.linked();
        // The largest comes last: each value that exists when memory runs out is dropped in one more place.
        let outputs = observed_nets(alloc, view)?;
        let guide = Guide::reserve(alloc, view)?;
        let sim = Sim::reserve(alloc, view)?;
        Ok(ChipJudge {
            sim,
            view,
            rows,
            guide,
            choice,
            outputs,
            defect: None,
        })
    }

    /// Aims at a defect, or at none. The bits stay.
    #[tactic(auto, using(crate::proofs::JudgeLemmas::judge_aims))]
    pub fn aim(&mut self, defect: Option<ChipDefect>)
        requires { IsAim self.old.seen.chip (place_in self.old.seen.places) defect }
        ensures aim { self.new.seen.aim ≡ defect }
        ensures aimed { self.new.aimed ≡ counted_up self.old.aimed }
        ensures kept { KeepsPair self.old self.new }
    {
        self.sim.aim(defect);
        guide_to(&mut self.guide, self.view, defect);
        self.defect = defect;
    }

    /// Whether a row that exposes the defect is allowed by what the good chip has at its instance's input
    /// pins. Where none is, the pair doesn't show the defect.
    pub fn may_show(&self, defect: ChipDefect) -> bool
        requires { IsDefectIn self.now.seen.chip defect }
        ensures not_shown { IsFalse result → ¬ (IsShown self.now.seen.chip defect self.now.seen.pair) }
        ensures allowed { IsTrue result → (good : FlatWaves self.now.seen.chip None self.now.seen.pair)
            → ¬ (RowsRuleOut self.now.seen.chip defect self.now.seen.pair good) }
    {
        self.sim.exact();
        let waves = GuideWaves { waves: &self.sim };
        let pins = self.view.input_pins(defect.instance);
        is_some_row_allowed(&waves, pins, self.rows.rows(defect))
    }

    /// Whether the instance of the defect that is aimed at gives the same with this other one of its defects.
    /// Then all waves are those of the flat network with this one too.
    pub fn is_alike(&mut self, defect: ChipDefect) -> bool
        requires { IsPlacedDefect self.old.seen.chip (place_in self.old.seen.places) defect }
        ensures alike { IsTrue result → IsExact (aimed_anew self.old.seen defect) }
        ensures kept { KeepsSeen self.old self.new }
    {
        self.sim.is_alike(defect)
    }

    /// How often was aimed since `reserve`, up to the type's greatest value.
    pub fn aimed(&self) -> u64
        ensures { result ≡ self.now.aimed }
    {
        self.sim.aimed()
    }

    /// How often an instance was evaluated since `reserve`, up to the type's greatest value.
    pub fn evaluated(&self) -> u64
        ensures { result ≡ self.now.evaluated }
    {
        self.sim.evaluated()
    }

    /// Gives all bits their values.
    pub fn load<B: Bits>(&mut self, bits: &B)
        requires { length (B.bits bits.now) ≡ length self.old.seen.pair }
        ensures pair { self.new.seen.pair ≡ B.bits bits.now }
        ensures kept { KeepsAim self.old self.new }
    {
        self.sim.load(bits);
    }
}

impl<R: ExposingRows, P: Attempts + Drop> NetWaves for ChipJudge<'_, R, P> {
    ghost seen = { λ judge. judge.seen };

    fn good(&self, net: usize) -> Wave {
        self.sim.good(net)
    }

    fn faulty(&self, net: usize) -> Wave {
        self.sim.faulty(net)
    }

    fn bit(&self, bit: usize) -> Option<bool> {
        self.sim.bit(bit)
    }

    fn exact(&self) {
        self.sim.exact();
    }
}

impl<R: ExposingRows, P: Attempts + Drop> Judge for ChipJudge<'_, R, P> {
    ghost use Rattle.ca_judge.specs.ChipJudge.{judged_of};

    ghost judged = { λ judge. judged_of judge.seen };

    fn bit_count(&self) -> usize {
        2 * self.view.inputs().len()
    }

    fn flat(&self) {
        self.sim.exact();
    }

    fn clear(&mut self) {
        self.choice.begin();
        self.sim.clear();
    }

    fn set(&mut self, bit: u16, value: Option<bool>) {
        self.sim.exact();
        self.sim.set(bit, value);
    }

    fn standing(&self) -> Standing {
        self.sim.exact();
        standing(&self.sim, &self.outputs)
    }

    fn next(&mut self) -> Step {
        self.sim.exact();
        let waves = GuideWaves { waves: &self.sim };
        match self.defect {
            Some(defect) => self.choice.next(
                &mut self.guide,
                self.view,
                &waves,
                self.rows.rows(defect),
                defect,
            ),
            None => Step::RuledOut,
        }
    }

    fn attempt(&mut self, numbers: &mut Vec<u16>, budget: u32) -> bool {
        self.view.linked();
        match self.defect {
            Some(defect) => {
                let aimed = Aimed {
                    view: self.view,
                    guide: &self.guide,
                    rows: self.rows.rows(defect),
                    defect,
                    most: budget,
                };
                self.choice.try_ways(&aimed, &mut self.sim, numbers)
            }
            None => {
                numbers.clear();
                false
            }
        }
    }
}

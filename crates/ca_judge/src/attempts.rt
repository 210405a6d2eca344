//! A choice that makes attempts on waves of its own.

ghost use Rattle.std.specs.Prelude.{◌≡◌, IfOk};

use crate::attempt::Aimed;
use crate::shorten::short_attempt;
use ca_base::NoMemory;
use ca_cell::Rows;
use ca_confined::Confined;
use ca_flat::ChipDefect;
use ca_guide::{Choice, Guide, NetWaves, Step};
use ca_sim::{NetWaves as _, Sim};
use ca_view::View;
use std::alloc::Global;
use std::marker::Model;

/// What is chosen in a search, and attempts. A judge is for one of any type: so it has few parts to the
/// prover.
pub trait Attempts {
    ghost use Rattle.std.specs.Prelude.{◌≡◌, ◌+◌, ◌*◌, ◌<◌, ◌≤◌, [], length, vec_capacity, IsTrue, Some};
    ghost use Rattle.ca_flat.specs.Chip.{count_of};
    ghost use Rattle.ca_flat.specs.Pair.{IsOpenPair};
    ghost use Rattle.ca_flat.specs.Rows.{ListsExposingRows};
    ghost use Rattle.ca_guide.specs.Guide.{HasRoomFor, IsStep, IsSupport, ShowsPair};
    ghost use Rattle.ca_guide.specs.Seen.{Covers, pair_of};
    ghost use Rattle.ca_flat.specs.Pair.{IsShown};
    ghost use Rattle.ca_sim.specs.Seen.{Seen};
    ghost use Rattle.ca_sim.specs.Simulator.{KeepsAim};
    ghost use Rattle.ca_judge.specs.Attempt.{IsAimed, IsAimedAt, IsOnWay, IsTried, IsTriedOn};

    /// The waves of attempts, which are of one chip all along.
    ghost tried: { Self → Seen };

    /// A search begins, and no bit is set.
    fn begin(&mut self)
        ensures tried { IsTriedOn (tried self.old).chip (tried self.old).places (tried self.new) };

    /// The guide's next step at an open pair, by this choice.
    fn next<V: NetWaves>(
        &mut self,
        guide: &mut Guide,
        chip: &View,
        waves: &V,
        rows: &Rows,
        defect: ChipDefect,
    ) -> Step
        requires room { HasRoomFor chip.now.lists guide.old }
        requires defect { defect.instance < count_of chip.now.core }
        requires support { IsSupport chip.now.core defect guide.old.support }
        requires covers { Covers chip.now.lists (V.seen waves.now) }
        requires is_open { IsOpenPair chip.now.core defect (pair_of (V.seen waves.now)) }
        requires rows { ListsExposingRows chip.now.core defect rows.now }
        ensures same { guide.new ≡ guide.old }
        ensures step { ShowsPair chip.now.core defect (V.seen waves.now)
            → IsStep chip.now.core defect (pair_of (V.seen waves.now)) result }
        ensures tried { IsTriedOn (tried self.old).chip (tried self.old).places (tried self.new) };

    /// Looks for a pair that shows the defect that is aimed at, on a way from the pair of which no bit is
    /// set. Whether the pair is in hand then: the simulator has its bits, and the numbers are those of the
    /// tokens of the way. Else any pair may be in hand, and any tokens are there.
    fn try_ways(&mut self, aimed: &Aimed<'_>, sim: &mut Sim<'_>, numbers: &mut Vec<u16>) -> bool
        requires aimed { IsAimed aimed.now.view.now.core aimed.now.view.now.lists aimed.now.guide.now
            aimed.now.defect }
        requires at { IsAimedAt aimed.now.view.now.core aimed.now.defect sim.old.seen }
        requires tried { IsTried sim.old.seen (tried self.old) }
        requires none { numbers.old.items ≡ [] }
        requires room { 2 * aimed.now.most + 1 ≤ vec_capacity numbers.old }
        ensures way { IsTrue result → IsOnWay aimed.now.view.now.core aimed.now.defect aimed.now.most
            sim.new.seen numbers.new.items }
        ensures shown { IsTrue result
            → IsShown aimed.now.view.now.core aimed.now.defect sim.new.seen.pair }
        ensures within { length numbers.new.items ≤ aimed.now.most }
        ensures kept { KeepsAim sim.old sim.new }
        ensures tried { IsTriedOn (tried self.old).chip (tried self.old).places (tried self.new) }
        ensures room { vec_capacity numbers.old ≤ vec_capacity numbers.new };
}

/// A choice, and the waves in the scope of a defect, on which its attempts are made.
#[derive(Drop)]
pub struct ScopedChoice<'a, P: Choice + Drop> {
    choice: P,
    confined: Confined<'a>,
}

impl<'a, P: Choice + Drop> Model for ScopedChoice<'a, P> {
    ghost use Rattle.ca_sim.specs.Seen.{Seen};

    ghost Value = { Seen };

    ghost view = { λ scoped. scoped.confined };
}

impl<'a, P: Choice + Drop> ScopedChoice<'a, P> {
    ghost use Rattle.ca_judge.specs.Attempt.{IsTriedOn};

    /// Takes all memory. The waves without any bit are found anew.
    pub fn reserve(alloc: Global, view: &'a View<'a>, choice: P) -> Result<Self, NoMemory>
        ensures { IfOk result (IsTriedOn view.now.core view.now.ranks) }
    {
        let confined = reserve_confined(alloc, view)?;
        Ok(ScopedChoice { choice, confined })
    }
}

// The waves of attempts on a chip.
fn reserve_confined<'a>(alloc: Global, view: &'a View<'a>) -> Result<Confined<'a>, NoMemory>
    ensures { IfOk result (IsTriedOn view.now.core view.now.ranks) }
{
    let sim = Sim::reserve(alloc, view)?;
    let confined = Confined::reserve(alloc, view, &sim);
    drop(sim);
    confined
}

ghost use Rattle.ca_judge.specs.Attempt.{IsTriedOn};

impl<P: Choice + Drop> Attempts for ScopedChoice<'_, P> {
    ghost tried = { λ scoped. scoped };

    fn begin(&mut self) {
        self.choice.begin();
    }

    fn next<V: NetWaves>(
        &mut self,
        guide: &mut Guide,
        chip: &View,
        waves: &V,
        rows: &Rows,
        defect: ChipDefect,
    ) -> Step {
        guide.next(chip, waves, rows, defect, &mut self.choice)
    }

    fn try_ways(&mut self, aimed: &Aimed<'_>, sim: &mut Sim<'_>, numbers: &mut Vec<u16>) -> bool {
        self.choice.begin();
        self.confined.begin(Some(aimed.defect), sim);
        let found = short_attempt(aimed, &mut self.confined, sim, &mut self.choice, numbers);
        if found {
            sim.exact();
            self.confined.whole();
            sim.load_sparse(self.confined.pair());
        }
        found
    }
}

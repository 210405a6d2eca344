//! The table of credits.

ghost use Rattle.std.specs.Prelude.{◌≡◌, ◌↔◌, ◌<◌, ◌≤◌, ◌^◌, ◌+◌, length, slice_set, replicate};
ghost use Rattle.std.specs.Prelude.{true, None, Some, IfOk, IsTrue};
ghost use Rattle.ca_flat.specs.Pair.{bit_count};
ghost use Rattle.ca_code.specs.Filled.{trits_of};
ghost use Rattle.ca_credit.specs.Table.{known_verdicts, AreAllKnown, verdict_at, is_open, IsSettling};
ghost use Rattle.std.specs.Prelude.{◌-◌, min};
ghost use Rattle.std.specs.List.{All};
ghost use Rattle.std.specs.Option.{option_copied};
ghost use Rattle.ca_credit.specs.Table.{CreditsIn, CreditsPair, CreditsBlock, credit_count};
ghost use Rattle.ca_credit.specs.Aims.{AimsAtSuspects, AimsOverBlock, aimed_after, bits_after};

use crate::lanes::{LANES, keep_pairs};
use crate::round::Round;
use crate::simulator::Simulator;
use crate::verdict::Verdict;
use crate::verdicts::Verdicts;
use ca_base::NoMemory;
use ca_pair::Pair;
use std::alloc::Global;
use std::marker::Model;

/// The most pairs of a block.
pub const BLOCK: usize = 256;

/// A verdict for each defect of a chip, or none yet.
#[derive(Drop, Debug)]
pub struct Credits {
    round: Round,
}

impl Model for Credits {
    ghost use Rattle.std.specs.Prelude.{List, Option};
    ghost use Rattle.ca_credit.specs.declared.verdict.Verdict.{Verdict};

    ghost Value = { List (Option Verdict) };

    ghost view = { λ credits. credits.round.verdicts.items };

    ghost use Rattle.ca_credit.specs.code.Round.{IsRound};

    ghost invariant = { λ credits. IsRound credits.round };
}

impl Credits {
    /// The table of `count` defects, of which none has a verdict.
    pub fn reserve(alloc: Global, count: usize) -> Result<Self, NoMemory>
        ensures { IfOk result (λ credits. credits ≡ replicate count None) }
    {
        Ok(Credits {
            round: Round::reserve(alloc, count)?,
        })
    }

    /// Whether the defect has no verdict yet.
    pub fn is_waiting(&self, place: usize) -> bool
        requires { place < length self.now }
        ensures { IsTrue result ↔ (verdict_at self.now place ≡ None) }
    {
        self.round.verdicts[place].is_none()
    }

    /// The verdict of the defect at this place, counted from 0, if there is one yet.
    pub fn verdict(&self, place: usize) -> Option<&Verdict>
        requires { place < length self.now }
        ensures { option_copied result ≡ verdict_at self.now place }
    {
        self.round.verdicts[place].as_ref()
    }

    /// Gives a defect that has no credit a verdict that isn't one.
    pub fn settle(&mut self, place: usize, verdict: Verdict)
        requires within { place < length self.old }
        requires uncredited { is_open (verdict_at self.old place) ≡ true }
        requires settling { IsSettling verdict }

        ensures { self.new ≡ slice_set self.old place (Some verdict) }
    {
        self.round.settle(place, verdict);
    }

    /// Credits the pair, with its number, with each defect that it detects and that has no verdict yet or an
    /// aborted search. Answers how many these are. The simulator has the bits of the pair afterwards, and is
    /// aimed at no defect. It was aimed at most once more often than there are suspect defects. It takes less
    /// time where `keep_pairs` kept the pair by its number.
    pub fn credit_pair<S: Simulator>(&mut self, sim: &mut S, pair: &Pair, number: u32) -> u32
        requires same { length self.old ≡ length (S.task sim.old).defects }
        requires few { length self.old < 2 ^ 32 }
        requires bits { length pair.now ≡ bit_count (S.task sim.old).chip }

        ensures credited { CreditsPair (S.task sim.old) pair.now number self.old self.new }
        ensures counted { credit_count self.new ≡ credit_count self.old + result }
        ensures task { S.task sim.new ≡ S.task sim.old }
        ensures bits { S.bits sim.new ≡ trits_of pair.now }
        ensures aimed { S.aimed sim.new ≡ None }
        ensures aims { AimsAtSuspects (S.task sim.old) pair.now self.old (S.aims sim.old) (S.aims sim.new) }
    {
        sim.load(pair);
        sim.turn_to(number as usize % LANES);
        let credited = self.round.try_all(sim, pair, number);
        sim.aim_at_none();
        credited
    }

    /// The same for the defects alone that stand from one place of the list on up to an end.
    pub fn credit_in<S: Simulator>(
        &mut self,
        sim: &mut S,
        pair: &Pair,
        number: u32,
        start: usize,
        end: usize,
    ) -> u32
        requires same { length self.old ≡ length (S.task sim.old).defects }
        requires few { length self.old < 2 ^ 32 }
        requires bits { length pair.now ≡ bit_count (S.task sim.old).chip }
        requires start { start ≤ end }
        requires within { end ≤ length self.old }

        ensures credited { CreditsIn (S.task sim.old) pair.now number start end self.old self.new }
        ensures counted { credit_count self.new ≡ credit_count self.old + result }
        ensures task { S.task sim.new ≡ S.task sim.old }
        ensures bits { S.bits sim.new ≡ trits_of pair.now }
        ensures aimed { S.aimed sim.new ≡ None }
    {
        sim.load(pair);
        sim.turn_to(number as usize % LANES);
        let credited = self.round.try_in(sim, pair, number, start, end);
        sim.aim_at_none();
        credited
    }

    /// Credits the pairs of the list from this place on, each with its place as its number, in ascending
    /// order: `BLOCK` of them, or all where fewer are left. Answers how many credits these are. The simulator
    /// has the bits of the last of these pairs afterwards, and is aimed at no defect. Where there is no such
    /// pair nothing changes. For each pair it was aimed at most once more often than there are suspect
    /// defects.
    pub fn credit_block<S: Simulator>(&mut self, sim: &mut S, pairs: &[Pair], from: usize) -> u32
        requires same { length self.old ≡ length (S.task sim.old).defects }
        requires few { length self.old < 2 ^ 32 }
        requires bits { All (λ pair. length pair ≡ bit_count (S.task sim.old).chip) pairs.now }
        requires numbers { length pairs.now < 2 ^ 32 }
        requires within { from ≤ length pairs.now }

        ensures credited { CreditsBlock (S.task sim.old) pairs.now from self.old
            (min BLOCK (length pairs.now - from)) self.new }
        ensures counted { credit_count self.new ≡ credit_count self.old + result }
        ensures task { S.task sim.new ≡ S.task sim.old }
        ensures bits { S.bits sim.new
            ≡ bits_after pairs.now from (min BLOCK (length pairs.now - from)) (S.bits sim.old) }
        ensures aimed { S.aimed sim.new
            ≡ aimed_after (min BLOCK (length pairs.now - from)) (S.aimed sim.old) }
        ensures aims { AimsOverBlock (S.task sim.old) pairs.now from self.old
            (min BLOCK (length pairs.now - from)) self.new (S.aims sim.old) (S.aims sim.new) }
    {
        let count = BLOCK.min(pairs.len() - from);
        let mut credited = 0;
        for k in 0..count {
            keep_pairs(sim, pairs, from + k);
            credited += self.credit_pair(sim, &pairs[from + k], (from + k) as u32);
        }
        credited
    }

    /// The verdicts in order.
    pub fn verdicts(self) -> Verdicts
        requires { AreAllKnown self }
        ensures { result ≡ known_verdicts self }
    {
        Verdicts::of(self.round.verdicts)
    }
}

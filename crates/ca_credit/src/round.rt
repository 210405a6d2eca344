//! The verdicts so far, and which defects are left to be tried with the pair in hand.
ghost use Rattle.std.specs.Prelude.{ℕ, ◌≡◌, ◌↔◌, ◌<◌, ◌≤◌, ◌^◌, ◌+◌, length, replicate, slice_set};
ghost use Rattle.std.specs.Prelude.{true, false, List, Bool, None, Some, IsSome, IfOk, IsTrue, IsFalse};
ghost use Rattle.ca_places.specs.PlaceSet.{Has, HasRoomFor};
ghost use Rattle.ca_flat.specs.declared.chip_defect.ChipDefect.{ChipDefect};
ghost use Rattle.ca_code.specs.Filled.{trits_of};
ghost use Rattle.ca_credit.specs.Defects.{Task, IsDefectAt};
ghost use Rattle.ca_credit.specs.Table.{verdict_at, is_open, CreditsIn, CreditsPair, credit_count};
ghost use Rattle.ca_credit.specs.code.Aims.{AimsAtSuspect, AimsUpTo};
ghost use Rattle.ca_credit.specs.Detection.{IsAnswer};
ghost use Rattle.ca_credit.specs.code.Round.{IsPartOf, IsRound, IsWithout, TriesMore};

use crate::by_lasts::ByLasts;
use crate::credit::detecting_output;
use crate::place_sets::{all_places, clear, insert_between, remove_before};
use crate::simulator::Simulator;
use crate::verdict::Verdict;
use ca_base::NoMemory;
use ca_pair::Pair;
use ca_places::PlaceSet;
use std::alloc::Global;

/// A verdict for each defect, or none yet. The places of those with which a pair may yet be credited are a
/// set, and so are those of them on which the pair in hand wasn't tried.
#[derive(Drop, Debug)]
pub(crate) struct Round {
    pub(crate) verdicts: Vec<Option<Verdict>>,
    pub(crate) open_places: PlaceSet,
    pub(crate) left: PlaceSet,
}

// No verdicts.
fn no_verdicts(alloc: Global, count: usize) -> Result<Vec<Option<Verdict>>, NoMemory>
    ensures { IfOk result (λ verdicts. verdicts.items ≡ replicate count None) }
{
    let mut verdicts = Vec::with_capacity(alloc, count)?;
    for _ in 0..count {
        verdicts.push_reserved(None);
    }
    Ok(verdicts)
}

// Whether no pair may be credited any more with a defect that has the verdict.
fn is_closing(verdict: &Verdict) -> bool
    ensures closed { IsTrue result → is_open (Some verdict.now) ≡ false }
    ensures open_yet { IsFalse result → is_open (Some verdict.now) ≡ true }
{
    match verdict {
        Verdict::Aborted { .. } => false,
        Verdict::Credited { .. } | Verdict::Unexposable | Verdict::Untestable => true,
    }
}

impl Round {
    /// No verdict for `count` defects.
    pub(crate) fn reserve(alloc: Global, count: usize) -> Result<Self, NoMemory>
        ensures verdicts { IfOk result (λ round. round.verdicts.items ≡ replicate count None) }
        ensures stands { IfOk result IsRound }
    {
        let verdicts = no_verdicts(alloc, count)?;
        let open_places = all_places(alloc, count)?;
        let left = PlaceSet::reserve(alloc, count)?;
        Ok(Round {
            verdicts,
            open_places,
            left,
        })
    }

    // Gives a defect a verdict with which no pair may be credited with it any more.
    fn close(&mut self, place: usize, verdict: Verdict)
        requires within { place < length self.old.verdicts.items }
        requires closed { is_open (Some verdict) ≡ false }
        requires stands { IsRound self.old }

        ensures verdicts { self.new.verdicts.items ≡ slice_set self.old.verdicts.items place (Some verdict) }
        ensures left { IsWithout self.old.left self.new.left place }
        ensures stands { IsRound self.new }
    {
        self.left.remove(place);
        self.open_places.remove(place);
        self.verdicts[place] = Some(verdict);
    }

    /// Gives a defect that is open a verdict that isn't a credit.
    pub(crate) fn settle(&mut self, place: usize, verdict: Verdict)
        requires within { place < length self.old.verdicts.items }
        requires uncredited { is_open (verdict_at self.old.verdicts.items place) ≡ true }
        requires stands { IsRound self.old }

        ensures verdicts { self.new.verdicts.items ≡ slice_set self.old.verdicts.items place (Some verdict) }
        ensures stands { IsRound self.new }
    {
        if is_closing(&verdict) {
            self.close(place, verdict);
        } else {
            self.verdicts[place] = Some(verdict);
        }
    }

    // The defect at a place, which the pair doesn't detect, is left no more.
    fn pass(&mut self, place: usize)
        requires left { Has self.old.left place }
        requires stands { IsRound self.old }

        ensures tries { (task : Task) (pair : List Bool) (number : ℕ)
            → ((defect : ChipDefect) → IsDefectAt task place defect
            → IsAnswer (task.chip_of place) defect (trits_of pair) None)
            → TriesMore task pair number 0 self.old self.new }
        ensures here { ¬ (Has self.new.left place) }
        ensures stands { IsRound self.new }
    {
        self.left.remove(place);
    }

    // The defect at a place, which the pair detects first at an output, is credited to it and left no more.
    fn credit(&mut self, number: u32, place: usize, output: u32)
        requires left { Has self.old.left place }
        requires stands { IsRound self.old }

        ensures tries { (task : Task) (pair : List Bool)
            → ((defect : ChipDefect) → IsDefectAt task place defect
            → IsAnswer (task.chip_of place) defect (trits_of pair) (Some output))
            → TriesMore task pair number 1 self.old self.new }
        ensures here { ¬ (Has self.new.left place) }
        ensures stands { IsRound self.new }
    {
        self.close(
            place,
            Verdict::Credited {
                pair: number,
                output,
            },
        );
    }

    // What the pair makes of the defect at a place, of which is known where the pair detects it. Answers how
    // many defects it is credited with.
    fn give(&mut self, number: u32, place: usize, answer: Option<u32>) -> u32
        requires left { Has self.old.left place }
        requires stands { IsRound self.old }

        ensures tries { (task : Task) (pair : List Bool)
            → ((defect : ChipDefect) → IsDefectAt task place defect
            → IsAnswer (task.chip_of place) defect (trits_of pair) answer)
            → TriesMore task pair number result self.old self.new }
        ensures here { ¬ (Has self.new.left place) }
        ensures stands { IsRound self.new }
        ensures few { result ≤ 1 }
    {
        match answer {
            Some(output) => {
                self.credit(number, place, output);
                1
            }
            None => {
                self.pass(place);
                0
            }
        }
    }

    // Tries the pair on the defect at a place of which is known what the instance gives: the same as with the
    // defect that is aimed at, for which the answer is known.
    fn try_alike<S: Simulator>(
        &mut self,
        sim: &mut S,
        pair: &Pair,
        number: u32,
        place: usize,
        answer: Option<u32>,
    ) -> u32
        requires left { Has self.old.left place }
        requires same { length self.old.verdicts.items ≡ length (S.task sim.old).defects }
        requires stands { IsRound self.old }
        requires bits { S.bits sim.old ≡ trits_of pair.now }
        requires answer { (one : ChipDefect) → S.aimed sim.old ≡ Some one
            → IsAnswer (S.aimed_in sim.old) one (S.bits sim.old) answer }
        requires aimed { IsSome (S.aimed sim.old) }

        ensures tries { TriesMore (S.task sim.old) pair.now number result self.old self.new }
        ensures aimed { S.aimed sim.new ≡ S.aimed sim.old }
        ensures aimed_in { S.aimed_in sim.new ≡ S.aimed_in sim.old }
        ensures task { S.task sim.new ≡ S.task sim.old }
        ensures bits { S.bits sim.new ≡ S.bits sim.old }
        ensures aims { S.aims sim.new ≡ S.aims sim.old }
    {
        if !sim.is_alike(place) {
            return 0;
        }
        self.give(number, place, answer)
    }

    // Tries the pair on the defects from a place on that are left, are of the instance of the defect that is
    // aimed at and let it give the same.
    fn try_after<S: Simulator>(
        &mut self,
        sim: &mut S,
        pair: &Pair,
        number: u32,
        from: usize,
        answer: Option<u32>,
    ) -> u32
        requires same { length self.old.verdicts.items ≡ length (S.task sim.old).defects }
        requires few { length self.old.verdicts.items < 2 ^ 32 }
        requires stands { IsRound self.old }
        requires bits { S.bits sim.old ≡ trits_of pair.now }
        requires answer { (one : ChipDefect) → S.aimed sim.old ≡ Some one
            → IsAnswer (S.aimed_in sim.old) one (S.bits sim.old) answer }
        requires aimed { IsSome (S.aimed sim.old) }

        ensures tries { TriesMore (S.task sim.old) pair.now number result self.old self.new }
        ensures task { S.task sim.new ≡ S.task sim.old }
        ensures bits { S.bits sim.new ≡ S.bits sim.old }
        ensures aims { S.aims sim.new ≡ S.aims sim.old }
    {
        let mut credited = 0;
        let mut from = from;
        'places: while let Some(place) = self.left.next(from) {
            if !sim.shares_instance(place) {
                return credited;
            }
            credited += self.try_alike(sim, pair, number, place, answer);
            from = place + 1;
        }
        credited
    }

    // Tries the pair on the defect at a place by waves, and on those left after it of the same instance that
    // let it give the same. So what an instance gives is led through the chip once for all of these.
    fn try_from<S: Simulator>(&mut self, sim: &mut S, pair: &Pair, number: u32, place: usize) -> u32
        requires left { Has self.old.left place }
        requires same { length self.old.verdicts.items ≡ length (S.task sim.old).defects }
        requires few { length self.old.verdicts.items < 2 ^ 32 }
        requires stands { IsRound self.old }
        requires bits { S.bits sim.old ≡ trits_of pair.now }

        ensures tries { TriesMore (S.task sim.old) pair.now number result self.old self.new }
        ensures here { ¬ (Has self.new.left place) }
        ensures task { S.task sim.new ≡ S.task sim.old }
        ensures bits { S.bits sim.new ≡ S.bits sim.old }
        ensures aims { S.aims sim.new ≤ S.aims sim.old + 1 }
    {
        sim.aim(place);
        let answer = detecting_output(sim);
        let here = self.give(number, place, answer);
        let following = self.try_after(sim, pair, number, place + 1, answer);
        here + following
    }

    // Tries the pair by waves on the defect at a place, if its rows allow that the pair detects it.
    fn try_allowed<S: Simulator>(
        &mut self,
        sim: &mut S,
        pair: &Pair,
        number: u32,
        place: usize,
    ) -> u32
        requires left { Has self.old.left place }
        requires same { length self.old.verdicts.items ≡ length (S.task sim.old).defects }
        requires few { length self.old.verdicts.items < 2 ^ 32 }
        requires stands { IsRound self.old }
        requires bits { S.bits sim.old ≡ trits_of pair.now }

        ensures tries { TriesMore (S.task sim.old) pair.now number result self.old self.new }
        ensures here { ¬ (Has self.new.left place) }
        ensures task { S.task sim.new ≡ S.task sim.old }
        ensures bits { S.bits sim.new ≡ S.bits sim.old }
        ensures aims { AimsAtSuspect (S.task sim.old) pair.now self.old.verdicts.items place
            (S.aims sim.old) (S.aims sim.new) }
    {
        if !sim.may_detect(place) {
            self.pass(place);
            return 0;
        }
        self.try_from(sim, pair, number, place)
    }

    // Tries the pair on the defect at a place. Last values are asked first, which takes least time, and then
    // the rows, and waves where neither says that the pair doesn't detect it.
    fn take_turn<S: Simulator>(
        &mut self,
        sim: &mut S,
        pair: &Pair,
        number: u32,
        place: usize,
    ) -> u32
        requires left { Has self.old.left place }
        requires same { length self.old.verdicts.items ≡ length (S.task sim.old).defects }
        requires few { length self.old.verdicts.items < 2 ^ 32 }
        requires stands { IsRound self.old }
        requires bits { S.bits sim.old ≡ trits_of pair.now }

        ensures tries { TriesMore (S.task sim.old) pair.now number result self.old self.new }
        ensures here { ¬ (Has self.new.left place) }
        ensures task { S.task sim.new ≡ S.task sim.old }
        ensures bits { S.bits sim.new ≡ S.bits sim.old }
        ensures aims { AimsAtSuspect (S.task sim.old) pair.now self.old.verdicts.items place
            (S.aims sim.old) (S.aims sim.new) }
    {
        match sim.by_lasts(place) {
            ByLasts::At(output) => {
                self.credit(number, place, output);
                1
            }
            ByLasts::Nowhere => {
                self.pass(place);
                0
            }
            ByLasts::Undecided => self.try_allowed(sim, pair, number, place),
        }
    }

    // The open places from one on up to an end are left, and no others.
    fn leave(&mut self, start: usize, end: usize)
        requires start { start ≤ end }
        requires within { end ≤ length self.old.verdicts.items }
        requires stands { IsRound self.old }

        ensures left { IsPartOf self.new.left self.old.open_places start end }
        ensures open_places { self.new.open_places ≡ self.old.open_places }
        ensures verdicts { self.new.verdicts.items ≡ self.old.verdicts.items }
        ensures stands { IsRound self.new }
    {
        if end == self.verdicts.len() {
            self.left.take_over(&self.open_places);
            remove_before(&mut self.left, start);
            return;
        }
        clear(&mut self.left, self.verdicts.len());
        insert_between(&mut self.left, &self.open_places, start, end);
    }

    /// Tries the pair in hand on all defects with which a pair may yet be credited and whose places are from
    /// one on up to an end. Answers how many it is credited with. Its time is that of these defects, and a
    /// look at the words of their set.
    pub(crate) fn try_in<S: Simulator>(
        &mut self,
        sim: &mut S,
        pair: &Pair,
        number: u32,
        start: usize,
        end: usize,
    ) -> u32
        requires same { length self.old.verdicts.items ≡ length (S.task sim.old).defects }
        requires few { length self.old.verdicts.items < 2 ^ 32 }
        requires within { end ≤ length self.old.verdicts.items }
        requires start { start ≤ end }
        requires stands { IsRound self.old }
        requires bits { S.bits sim.old ≡ trits_of pair.now }

        ensures credited { CreditsIn (S.task sim.old) pair.now number start end
            self.old.verdicts.items self.new.verdicts.items }
        ensures counted { credit_count self.new.verdicts.items
            ≡ credit_count self.old.verdicts.items + result }
        ensures stands { IsRound self.new }
        ensures task { S.task sim.new ≡ S.task sim.old }
        ensures bits { S.bits sim.new ≡ S.bits sim.old }
        ensures aims { AimsUpTo (S.task sim.old) pair.now (length self.old.verdicts.items)
            self.old.verdicts.items (S.aims sim.old) (S.aims sim.new) }
    {
        self.leave(start, end);
        let mut credited = 0;
        let mut from = start;
        'places: while let Some(place) = sim.next_to_try(&self.left, from) {
            credited += self.take_turn(sim, pair, number, place);
            from = place + 1;
        }
        credited
    }

    /// The same for all defects with which a pair may yet be credited.
    pub(crate) fn try_all<S: Simulator>(&mut self, sim: &mut S, pair: &Pair, number: u32) -> u32
        requires same { length self.old.verdicts.items ≡ length (S.task sim.old).defects }
        requires few { length self.old.verdicts.items < 2 ^ 32 }
        requires stands { IsRound self.old }
        requires bits { S.bits sim.old ≡ trits_of pair.now }

        ensures credited { CreditsPair (S.task sim.old) pair.now number
            self.old.verdicts.items self.new.verdicts.items }
        ensures counted { credit_count self.new.verdicts.items
            ≡ credit_count self.old.verdicts.items + result }
        ensures stands { IsRound self.new }
        ensures task { S.task sim.new ≡ S.task sim.old }
        ensures bits { S.bits sim.new ≡ S.bits sim.old }
        ensures aims { AimsUpTo (S.task sim.old) pair.now (length self.old.verdicts.items)
            self.old.verdicts.items (S.aims sim.old) (S.aims sim.new) }
    {
        let end = self.verdicts.len();
        self.try_in(sim, pair, number, 0, end)
    }
}

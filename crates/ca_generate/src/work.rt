//! The turn of a defect: it is searched for, unless it has a verdict or is known to be untestable.

ghost use Rattle.std.specs.Prelude.{◌≡◌, ◌<◌, ◌≤◌, ◌^◌, ◌+◌, length, IfOk, IfErr, None, IsTrue, true, false};
ghost use Rattle.std.specs.Prelude.{slice_index_or};
ghost use Rattle.ca_credit.specs.Defects.{StandsIn, Task};
ghost use Rattle.ca_credit.specs.Listed.{IsFoundAt};
ghost use Rattle.ca_credit.specs.Table.{verdict_at};
ghost use Rattle.ca_generate.specs.GenerateFault.{IsCause};
ghost use Rattle.ca_generate.specs.Known.{IsUntestableAt};
ghost use Rattle.ca_generate.specs.code.Progress.{IsScreened, IsEndAt, StandsAfter, WorkStands};

use crate::bench::Bench;
use crate::fault::{Aims, GenerateFault};
use crate::marks::is_marked;
use crate::search_end::SearchEnd;
use ca_base::NoMemory;
use ca_credit::{Credits, LANES, MOST_PAIRS, Verdict, keep_pairs_from};
use ca_pair::{Pair, Pairs};
use std::alloc::Global;

// How many places from one on a pair is tried with at once, at first.
const FIRST_WINDOW: usize = 1_024;

/// The verdicts so far, the pairs that are listed, and the aim of each. A pair is tried with the defects
/// before an edge at once, and with those from the edge on later, together with the pairs that come after it;
/// that was done for the first `credited` pairs.
#[derive(Drop)]
pub(crate) struct Work {
    pub(crate) credits: Credits,
    pub(crate) pairs: Pairs,
    pub(crate) aims: Aims,
    pub(crate) credited: usize,
    pub(crate) edge: usize,
    // how far the next edge is
    pub(crate) window: usize,
}

impl Work {
    /// Before the first turn.
    pub(crate) fn begin<B: Bench>(alloc: Global, bench: &B) -> Result<Self, NoMemory>
        ensures { IfOk result (WorkStands (B.task bench.now) 0) }
    {
        Ok(Work {
            credits: screen(alloc, bench)?,
            pairs: Pairs::new(alloc),
            aims: Aims::new(alloc),
            credited: 0,
            edge: 0,
            window: FIRST_WINDOW,
        })
    }

    /// Tries the pairs that were listed since this was done last with the defects from the edge on.
    pub(crate) fn catch_up<B: Bench>(self, bench: &mut B, turns: usize) -> Self
        requires few { length (B.task bench.old).defects < 2 ^ 32 }
        requires stands { WorkStands (B.task bench.old) turns self }

        ensures stands { StandsAfter (B.task bench.old) turns result.credits result.pairs result.aims }
        ensures credited { result.credited ≡ length result.pairs }
        ensures task { B.task bench.new ≡ B.task bench.old }
    {
        let mut work = self;
        let count = bench.defect_count();
        keep_pairs_from(bench, work.pairs.as_slice(), work.credited);
        for number in work.credited..work.pairs.len() {
            let pair = &work.pairs.as_slice()[number];
            work.credits
                .credit_in(bench, pair, number as u32, work.edge, count);
        }
        work.credited = work.pairs.len();
        work
    }

    /// Sees to it that the edge is past the next defect, and that not too many pairs wait to be tried with
    /// the defects past it.
    pub(crate) fn ready<B: Bench>(self, bench: &mut B, place: usize) -> Self
        requires within { place < length (B.task bench.old).defects }
        requires few { length (B.task bench.old).defects < 2 ^ 32 }
        requires stands { WorkStands (B.task bench.old) place self }

        ensures stands { WorkStands (B.task bench.old) place result }
        ensures ahead { place < result.edge }
        ensures task { B.task bench.new ≡ B.task bench.old }
    {
        let held = self.pairs.len() - self.credited;
        if place < self.edge && held < LANES {
            return self;
        }
        let window = next_window(self.window, held);
        let mut work = self.catch_up(bench, place);
        work.edge = edge_after(place, window, bench.defect_count());
        work.window = window;
        work
    }

    /// Whether a search for the defect at a place is wanted: it has no verdict yet, and isn't marked.
    pub(crate) fn is_wanted(&self, place: usize, untestable: &[bool]) -> bool
        requires { place < length self.now.credits }
        ensures open { IsTrue result → verdict_at self.now.credits place ≡ None }
        ensures marked { result ≡ false → verdict_at self.now.credits place ≡ None
            → slice_index_or untestable.now place false ≡ true }
    {
        self.credits.is_waiting(place) && !is_marked(untestable, place)
    }

    /// The turn of a defect that has a verdict, or is known to be untestable.
    pub(crate) fn skip_turn(self, place: usize) -> Self
        requires { place < length self.credits }
        ensures { (task : Task) → place < length task.defects → WorkStands task place self → place < self.edge
            → (verdict_at self.credits place ≡ None → IsUntestableAt task place)
            → WorkStands task (place + 1) result }
    {
        if !self.credits.is_waiting(place) {
            return self;
        }
        let mut work = self;
        work.credits.settle(place, Verdict::Untestable);
        work
    }

    /// The turn of a defect whose search ended so.
    pub(crate) fn end_turn<B: Bench>(
        self,
        bench: &mut B,
        place: usize,
        end: SearchEnd,
    ) -> Result<Self, GenerateFault>
        requires within { place < length (B.task bench.old).defects }
        requires few { length (B.task bench.old).defects < 2 ^ 32 }
        requires stands { WorkStands (B.task bench.old) place self }
        requires ahead { place < self.edge }
        requires waiting { verdict_at self.credits place ≡ None }
        requires stands_in { StandsIn (B.task bench.old).chip ((B.task bench.old).chip_of place) }
        requires ended { IsEndAt (B.task bench.old) place end }

        ensures ok { IfOk result (WorkStands (B.task bench.old) (place + 1)) }
        ensures cause { IfErr result (IsCause (B.task bench.old)) }
        ensures task { B.task bench.new ≡ B.task bench.old }
    {
        let mut work = self;
        match end {
            SearchEnd::Found { pair } => work.list(bench, place, pair),
            SearchEnd::Exhausted => {
                work.credits.settle(place, Verdict::Untestable);
                Ok(work)
            }
            SearchEnd::Spent { code } => {
                work.credits.settle(place, Verdict::Aborted { code });
                Ok(work)
            }
        }
    }

    // Lists a pair that was found for the defect at a place, and credits it with all before the edge that it
    // detects.
    fn list<B: Bench>(self, bench: &mut B, place: usize, pair: Pair) -> Result<Self, GenerateFault>
        requires few { length (B.task bench.old).defects < 2 ^ 32 }
        requires stands { WorkStands (B.task bench.old) place self }
        requires ahead { place < self.edge }
        requires waiting { verdict_at self.credits place ≡ None }
        requires found { IsFoundAt (B.task bench.old) place pair }
        requires stands_in { StandsIn (B.task bench.old).chip ((B.task bench.old).chip_of place) }

        ensures ok { IfOk result (WorkStands (B.task bench.old) (place + 1)) }
        ensures cause { IfErr result (IsCause (B.task bench.old)) }
        ensures task { B.task bench.new ≡ B.task bench.old }
    {
        let mut work = self;
        let number = work.pairs.len();
        if number == MOST_PAIRS {
            work.pairs.push(pair)?;
            work.aims.push(place as u32)?;
            let Work {
                credits: _,
                pairs,
                aims,
                credited: _,
                edge: _,
                window: _,
            } = work;
            return Err(GenerateFault::TooManyPairs { pairs, aims });
        }
        work.credits
            .credit_in(bench, &pair, number as u32, 0, work.edge);
        work.pairs.push(pair)?;
        work.aims.push(place as u32)?;
        Ok(work)
    }
}

// How far the next edge is, after this many pairs were held back: twice as far where there is room for more,
// and else half as far.
fn next_window(window: usize, held: usize) -> usize {
    if held < LANES {
        window.saturating_mul(2)
    } else {
        (window / 2).max(FIRST_WINDOW)
    }
}

// An edge past a place, so far away, but within a list.
fn edge_after(place: usize, window: usize, count: usize) -> usize
    requires { place < count }
    ensures past { place < result }
    ensures within { result ≤ count }
{
    place.saturating_add(window).max(place + 1).min(count)
}

// The table in which each defect that can't be exposed is unexposable, and no other has a verdict.
fn screen<B: Bench>(alloc: Global, bench: &B) -> Result<Credits, NoMemory>
    ensures { IfOk result (IsScreened (B.task bench.now) (length (B.task bench.now).defects)) }
{
    let count = bench.defect_count();
    let mut credits = Credits::reserve(alloc, count)?;
    for place in 0..count {
        if !bench.is_exposable(place) {
            credits.settle(place, Verdict::Unexposable);
        }
    }
    Ok(credits)
}

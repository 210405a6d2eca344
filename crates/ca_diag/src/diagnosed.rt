//! The candidates of a chip.

ghost use Rattle.std.specs.Prelude.{◌≡◌, ◌<◌, ◌+◌, ◌^◌, length, slice_get, Some, IfOk};
ghost use Rattle.std.specs.List.{All};
ghost use Rattle.ca_flat.specs.Pair.{bit_count};
ghost use Rattle.ca_credit.specs.Defects.{IsOfOneChip};
ghost use Rattle.ca_code.specs.Filled.{trits_of};
ghost use Rattle.ca_diag.specs.Candidates.{AreCandidates, AreLoggedWithin};
ghost use Rattle.ca_diag.specs.code.Failing.{AreByPair};
ghost use Rattle.ca_diag.specs.code.Pass.{AreAll, AreOpen, IsPass};

use crate::candidate::{Candidate, Candidates};
use crate::failing::{ByPair, Failing, mark};
use crate::pass::pass;
use ca_base::{List, NoMemory};
use ca_credit::Simulator;
use ca_generate::Watch;
use ca_log::Log;
use ca_pair::Pair;
use std::alloc::Global;

// Each of the first defects, which explains nothing yet.
fn all_open(alloc: Global, count: usize) -> Result<Vec<Candidate>, NoMemory>
    requires { count < 2 ^ 32 }
    ensures { IfOk result (λ list. AreAll count list.items) }
{
    let mut list = Vec::with_capacity(alloc, count)?;
    for defect in 0..count {
        list.push_reserved(Candidate {
            defect: defect as u32,
            explained: 0,
        });
    }
    Ok(list)
}

// As many marks as there are outputs.
fn no_marks(alloc: Global, count: u32) -> Result<Vec<bool>, NoMemory>
    ensures { IfOk result (λ marks. length marks.items ≡ count) }
{
    let mut marks = Vec::with_capacity(alloc, count as usize)?;
    for _output in 0..count {
        marks.push_reserved(false);
    }
    Ok(marks)
}

// The pair at a place.
fn pair_at(pairs: &[Pair], place: usize) -> &Pair
    requires { place < length pairs.now }
    ensures { slice_get pairs.now place ≡ Some result.now }
{
    &pairs[place]
}

// A pass with a pair, for which these outputs were logged.
fn pass_with<S: Simulator>(
    list: &mut Vec<Candidate>,
    marks: &mut Vec<bool>,
    sim: &mut S,
    pair: &Pair,
    outputs: &List<u32>,
)
    requires one_chip { IsOfOneChip (S.task sim.old) }
    requires bits { length pair.now ≡ bit_count (S.task sim.old).chip }
    requires within { All (λ one. one.defect < length (S.task sim.old).defects) list.old.items }
    requires few { All (λ one. one.explained + length outputs.now < 2 ^ 32) list.old.items }
    requires outputs { All (λ output. output < length (S.task sim.old).chip.outputs) outputs.now }
    requires room { length marks.old.items ≡ length (S.task sim.old).chip.outputs }
    ensures passed { IsPass (S.task sim.old) (trits_of pair.now) outputs.now list.old.items list.new.items }
    ensures task { S.task sim.new ≡ S.task sim.old }
    ensures room { length marks.new.items ≡ length marks.old.items }
{
    sim.load(pair);
    mark(marks, outputs);
    pass(list, sim, &Failing { outputs, marks });
}

// The candidates that these pairs leave, which are taken in order.
fn pass_all<S: Simulator, T: Watch>(
    list: &mut Vec<Candidate>,
    marks: &mut Vec<bool>,
    sim: &mut S,
    pairs: &[Pair],
    log: &Log,
    by: &ByPair,
    watch: &mut T,
)
    requires one_chip { IsOfOneChip (S.task sim.old) }
    requires bits { All (λ pair. length pair ≡ bit_count (S.task sim.old).chip) pairs.now }
    requires log { AreLoggedWithin (length pairs.now) (length (S.task sim.old).chip.outputs) log.now }
    requires few { length log.now < 2 ^ 32 }
    requires by { AreByPair (length pairs.now) log.now by.now }
    requires room { length marks.old.items ≡ length (S.task sim.old).chip.outputs }
    requires before { AreOpen 0 (S.task sim.old) pairs.now log.now list.old.items }
    ensures passed { AreOpen (length pairs.now) (S.task sim.old) pairs.now log.now list.new.items }
    ensures task { S.task sim.new ≡ S.task sim.old }
{
    let _ = log;
    for place in 0..pairs.len() {
        pass_with(list, marks, sim, pair_at(pairs, place), by.outputs(place));
        watch.reported(place + 1, pairs.len());
    }
}

/// The defects that the log doesn't contradict, and for each the number of records at which it predicts a
/// fail. The pairs are numbered from 0. Which bits are set afterwards, and which defect is aimed at, is open.
/// The watch is notified after each pair.
pub fn diagnose<S: Simulator, T: Watch>(
    alloc: Global,
    sim: &mut S,
    pairs: &[Pair],
    log: &Log,
    watch: &mut T,
) -> Result<Candidates, NoMemory>
    requires one_chip { IsOfOneChip (S.task sim.old) }
    requires few { length (S.task sim.old).defects < 2 ^ 32 }
    requires records { length log.now < 2 ^ 32 }
    requires bits { All (λ pair. length pair ≡ bit_count (S.task sim.old).chip) pairs.now }
    requires places { AreLoggedWithin (length pairs.now) (length (S.task sim.old).chip.outputs) log.now }
    ensures candidates { IfOk result (AreCandidates (S.task sim.old) pairs.now log.now) }
    ensures task { S.task sim.new ≡ S.task sim.old }
{
    let mut list = all_open(alloc, sim.defect_count())?;
    let mut marks = no_marks(alloc, sim.output_count())?;
    let by = ByPair::of(alloc, pairs.len(), log)?;
    pass_all(&mut list, &mut marks, sim, pairs, log, &by, watch);
    drop(by);
    Ok(Candidates::of(list))
}

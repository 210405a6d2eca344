//! A verdict for each defect of a chip.

ghost use Rattle.std.specs.Prelude.{◌≡◌, ◌<◌, ◌^◌, length, IfOk, IfErr};
ghost use Rattle.ca_credit.specs.Good.{IsGood};
ghost use Rattle.ca_generate.specs.GenerateFault.{IsCause};
ghost use Rattle.ca_generate.specs.Known.{AreUntestable};

use crate::bench::Bench;
use crate::fault::{Aims, GenerateFault};
use crate::watch::Watch;
use crate::work::Work;
use ca_credit::Verdicts;
use ca_pair::Pairs;
use std::alloc::Global;

/// The listed pairs, for each the place of the defect for which it was found, and a verdict for each defect.
#[derive(Drop)]
pub struct Generated {
    pub pairs: Pairs,
    pub aims: Aims,
    pub verdicts: Verdicts,
}

/// Searches for a pair for each defect that can be exposed and isn't credited to an earlier pair. Which bits
/// are set afterwards, and which defect is aimed at, is open. The watch is notified after each defect's turn.
pub fn generate<B: Bench, T: Watch>(
    alloc: Global,
    bench: &mut B,
    watch: &mut T,
) -> Result<Generated, GenerateFault>
    requires { length (B.task bench.old).defects < 2 ^ 32 }

    ensures good { IfOk result (λ made. IsGood (B.task bench.old) made.pairs made.aims made.verdicts) }
    ensures cause { IfErr result (IsCause (B.task bench.old)) }
    ensures task { B.task bench.new ≡ B.task bench.old }
{
    generate_knowing(alloc, bench, &[], watch)
}

/// The same without a search for those defects whose places are marked, since no pair of the chip detects
/// them. There may be fewer marks than defects.
pub fn generate_knowing<B: Bench, T: Watch>(
    alloc: Global,
    bench: &mut B,
    untestable: &[bool],
    watch: &mut T,
) -> Result<Generated, GenerateFault>
    requires few { length (B.task bench.old).defects < 2 ^ 32 }
    requires untestable { AreUntestable (B.task bench.old) untestable.now }

    ensures good { IfOk result (λ made. IsGood (B.task bench.old) made.pairs made.aims made.verdicts) }
    ensures cause { IfErr result (IsCause (B.task bench.old)) }
    ensures task { B.task bench.new ≡ B.task bench.old }
{
    let mut work = Work::begin(alloc, bench)?;
    let count = bench.defect_count();
    for place in 0..count {
        work = work.ready(bench, place);
        if work.is_wanted(place, untestable) {
            bench.aim(place);
            let end = bench.find(alloc)?;
            work = work.end_turn(bench, place, end)?;
        } else {
            work = work.skip_turn(place);
        }
        watch.reported(place + 1, count);
    }
    let work = work.catch_up(bench, count);
    Ok(Generated {
        pairs: work.pairs,
        aims: work.aims,
        verdicts: work.credits.verdicts(),
    })
}

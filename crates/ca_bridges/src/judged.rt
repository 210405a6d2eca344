//! Bridges of library instances, judged.

ghost use Rattle.std.specs.Prelude.{◌≡◌, ◌≤◌, length, IfOk};
ghost use Rattle.std.specs.List.{All};
ghost use Rattle.ca_flat.specs.Pair.{bit_count};
ghost use Rattle.ca_view.specs.Core.{core_of};
ghost use Rattle.ca_credit.specs.declared.limit.TheConstants.{MOST_PAIRS};
ghost use Rattle.ca_targets.specs.Targets.{AreKnown, AreTargetsOf};
ghost use Rattle.ca_bridge_verdicts.specs.Promise.{AreGoodVerdicts};

use crate::generation::generated;
use crate::numbers::{Numbered, aims_at, number_shorts};
use crate::put::put_verdicts;
use ca_base::NoMemory;
use ca_bridge_verdicts::{BridgeVerdicts, good_targets_are_bridges};
use ca_cluster::BridgeList;
use ca_credit::MOST_PAIRS;
use ca_generate::{Aims, Generated, Watch};
use ca_linked::Chip;
use ca_merged::cluster_is_one;
use ca_pair::Pairs;
use ca_targets::{BridgeTargets, one_cluster, targets};
use ca_view::core_is_chip;
use std::alloc::Global;

/// The listed pairs, for each the place of the bridge for which it was found, and a verdict for each bridge.
#[derive(Drop)]
pub struct Judged {
    pub pairs: Pairs,
    pub aims: Aims,
    pub verdicts: BridgeVerdicts,
}

// The verdicts on bridges that are these targets.
fn judge_targets<T: Watch>(
    alloc: Global,
    chip: &Chip,
    bridges: &BridgeList,
    all: &BridgeTargets,
    budget: u32,
    watch: &mut T,
) -> Result<Judged, NoMemory>
    requires targets { AreTargetsOf chip.now bridges.now all.now.targets all.now.clusters.items }
    requires few { length bridges.now ≤ MOST_PAIRS }
    ensures good { IfOk result (λ judged. AreGoodVerdicts chip.now budget bridges.now
        judged.pairs judged.aims judged.verdicts) }
    ensures whole { IfOk result (λ judged.
        All (λ pair. length pair ≡ bit_count (core_of chip.now)) judged.pairs) }
{
    chip.wired();
    core_is_chip();
    one_cluster();
    cluster_is_one();
    good_targets_are_bridges();
    let Numbered { numbers, stations } = number_shorts(alloc, &all.targets, &all.clusters)?;
    let Generated {
        pairs,
        aims,
        verdicts,
    } = generated(alloc, chip, &all.clusters, stations, budget, watch)?;
    let places = aims_at(alloc, &numbers, &aims)?;
    let words = put_verdicts(alloc, &all.targets, &numbers, &verdicts)?;
    Ok(Judged {
        pairs,
        aims: places,
        verdicts: words,
    })
}

/// Judges these bridges of library instances: which of them some pair of vectors shows, with at most `budget`
/// branches for each search. Those of one instance have at most 27 clusters, each of which is one instance of
/// a chip of its own; the simulators of all these chips are kept until the last bridge has its verdict. Also
/// answers out of memory for more than 65,536 bridges, and as test generation does for a chip that is too
/// large. The watch is notified after the turn of each bridge that is a short of such a chip.
pub fn judge<T: Watch>(
    alloc: Global,
    chip: &Chip,
    bridges: &BridgeList,
    budget: u32,
    watch: &mut T,
) -> Result<Judged, NoMemory>
    requires { AreKnown chip.now bridges.now }
    ensures good { IfOk result (λ judged. AreGoodVerdicts chip.now budget bridges.now
        judged.pairs judged.aims judged.verdicts) }
    ensures whole { IfOk result (λ judged.
        All (λ pair. length pair ≡ bit_count (core_of chip.now)) judged.pairs) }
{
    if bridges.len() > MOST_PAIRS {
        return Err(NoMemory);
    }
    let all = targets(alloc, chip, bridges)?;
    let judged = judge_targets(alloc, chip, bridges, &all, budget, watch);
    drop(all);
    judged
}

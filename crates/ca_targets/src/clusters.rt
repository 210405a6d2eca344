//! The clusters of bridges, each different one once.

ghost use Rattle.std.specs.Prelude.{◌≡◌, ◌++◌, [], ◌∷◌, slice_get, IfOk, IfSome, IfNone, IsSomeAnd};
ghost use Rattle.std.specs.List.{All};
ghost use Rattle.ca_cluster.specs.Clusters.{AreMembersOf};
ghost use Rattle.ca_targets.specs.Targets.{IsCluster};
ghost use Rattle.ca_targets.specs.code.Steps.{IsInner, IsFor, Joins, Steps};

use crate::target::{Cluster, ShortList, Target};
use ca_base::NoMemory;
use ca_cluster::{Bridge, are_same, members_of, short_for};
use ca_linked::{Chip, InstanceList};
use ca_merge::{MergeFault, merged};
use std::alloc::Global;

// The number of the cluster with these members, if there is one.
fn number_of(clusters: &[Cluster], members: &InstanceList) -> Option<usize>
    ensures found { IfSome result
        (λ k. IsSomeAnd (slice_get clusters.now k) (λ one. one.members ≡ members.now)) }
    ensures none { IfNone result (All (λ one. one.members ≡ members.now → ⊥) clusters.now) }
{
    for k in 0..clusters.len() {
        if are_same(&clusters[k].members, members) {
            return Some(k);
        }
    }
    None
}

// Appends the short that is the bridge to those of its cluster, and answers its place.
fn add_short(chip: &Chip, bridge: Bridge, cluster: &mut Cluster) -> Result<usize, NoMemory>
    requires inner { IsInner chip.now bridge }
    requires for_it { IsFor chip.now bridge cluster.old }
    ensures { IfOk result (Joins chip.now bridge cluster.old cluster.new) }
{
    chip.wired();
    let short = short_for(chip, bridge, &cluster.members, &cluster.chip, cluster.last);
    let place = cluster.shorts.len();
    cluster.shorts.push(short)?;
    Ok(place)
}

// The target of a bridge whose cluster is there.
fn join(
    chip: &Chip,
    bridge: Bridge,
    clusters: &mut Vec<Cluster>,
    number: usize,
) -> Result<Target, NoMemory>
    requires inner { IsInner chip.now bridge }
    requires for_it { IsSomeAnd (slice_get clusters.old.items number) (IsFor chip.now bridge) }
    ensures { IfOk result
        (λ target. Steps chip.now bridge clusters.old.items target clusters.new.items) }
{
    let place = add_short(chip, bridge, &mut clusters[number])?;
    Ok(Target::Short {
        cluster: number,
        place,
    })
}

// The target of a bridge of whose cluster there is no short yet.
fn append(
    chip: &Chip,
    bridge: Bridge,
    mut cluster: Cluster,
    clusters: &mut Vec<Cluster>,
) -> Result<Target, NoMemory>
    requires inner { IsInner chip.now bridge }
    requires for_it { IsFor chip.now bridge cluster }
    requires no_short { cluster.shorts ≡ [] }
    requires apart { All (λ one. one.members ≡ cluster.members → ⊥) clusters.old.items }
    ensures { IfOk result
        (λ target. Steps chip.now bridge clusters.old.items target clusters.new.items) }
{
    let number = clusters.len();
    let place = add_short(chip, bridge, &mut cluster)?;
    clusters.push(cluster)?;
    Ok(Target::Short {
        cluster: number,
        place,
    })
}

// The target of a bridge with whose members there is no cluster.
fn merge_anew(
    alloc: Global,
    chip: &Chip,
    bridge: Bridge,
    members: InstanceList,
    clusters: &mut Vec<Cluster>,
) -> Result<Target, NoMemory>
    requires inner { IsInner chip.now bridge }
    requires are { AreMembersOf chip.now bridge members }
    requires apart { All (λ one. one.members ≡ members → ⊥) clusters.old.items }
    ensures { IfOk result
        (λ target. Steps chip.now bridge clusters.old.items target clusters.new.items) }
{
    chip.wired();
    match merged(alloc, chip, &members) {
        Ok((made, last)) => {
            let cluster = Cluster {
                members,
                chip: made,
                last,
                shorts: ShortList::new(alloc),
            };
            append(chip, bridge, cluster, clusters)
        }
        Err(MergeFault::Rule(rule)) => Ok(Target::Wide { rule }),
        Err(MergeFault::NoMemory) => Err(NoMemory),
    }
}

/// The target of a bridge that has two ends inside the chip. Its cluster is merged if it isn't there.
pub(crate) fn inner_target(
    alloc: Global,
    chip: &Chip,
    bridge: Bridge,
    clusters: &mut Vec<Cluster>,
) -> Result<Target, NoMemory>
    requires inner { IsInner chip.now bridge }
    requires clusters { All (IsCluster chip.now) clusters.old.items }
    ensures { IfOk result
        (λ target. Steps chip.now bridge clusters.old.items target clusters.new.items) }
{
    let members = members_of(alloc, chip, bridge)?;
    match number_of(clusters.as_slice(), &members) {
        Some(number) => join(chip, bridge, clusters, number),
        None => merge_anew(alloc, chip, bridge, members, clusters),
    }
}

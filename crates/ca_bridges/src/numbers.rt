//! The bridges that are shorts of merged chips, by their places.

ghost use Rattle.std.specs.Prelude.{◌≡◌, ◌<◌, ◌≤◌, ◌+◌, ◌^◌, length, slice_get, Some, IfOk, OnOk};
ghost use Rattle.std.specs.List.{All};
ghost use Rattle.ca_bridges.specs.Numbers.{AreNumbered, AreAimsAt, IsFound};

use ca_base::{List, NoMemory};
use ca_benches::{Station, Stations};
use ca_generate::Aims;
use ca_targets::{Cluster, Target, TargetList};
use std::alloc::Global;

/// The places of the bridges that are shorts, in order, and for each the station of its short.
#[derive(Drop)]
pub struct Numbered {
    pub numbers: List<u32>,
    pub stations: Stations,
}

// Appends the place of a target and its station, if it is a short.
fn add_short(
    numbered: &mut Numbered,
    targets: &TargetList,
    clusters: &[Cluster],
    place: usize,
) -> Result<(), NoMemory>
    requires within { place < length targets.now }
    requires few { length targets.now < 2 ^ 32 }
    requires found { All (IsFound clusters.now) targets.now }
    requires before { AreNumbered targets.now clusters.now place numbered.old }
    ensures { OnOk result (AreNumbered targets.now clusters.now (place + 1) numbered.new) }
{
    if let Target::Short {
        cluster: part,
        place: at,
    } = targets.get(place)
    {
        let defect = clusters[part].shorts.get(at);
        numbered.numbers.push(place as u32)?;
        numbered.stations.push(Station {
            part,
            place: at,
            defect,
        })?;
    }
    Ok(())
}

/// The shorts among these targets.
pub fn number_shorts(
    alloc: Global,
    targets: &TargetList,
    clusters: &[Cluster],
) -> Result<Numbered, NoMemory>
    requires few { length targets.now < 2 ^ 32 }
    requires found { All (IsFound clusters.now) targets.now }
    ensures { IfOk result (AreNumbered targets.now clusters.now (length targets.now)) }
{
    let mut numbered = Numbered {
        numbers: List::new(alloc),
        stations: Stations::new(alloc),
    };
    for place in 0..targets.len() {
        add_short(&mut numbered, targets, clusters, place)?;
    }
    Ok(numbered)
}

/// The places of the bridges whose numbers are these aims.
pub fn aims_at(alloc: Global, numbers: &List<u32>, aims: &Aims) -> Result<Aims, NoMemory>
    requires { All (λ aim. aim < length numbers.now) aims.now }
    ensures { IfOk result (AreAimsAt numbers.now aims.now) }
{
    let mut places = Aims::new(alloc);
    for k in 0..aims.len() {
        places.push(numbers.get(aims.get(k) as usize))?;
    }
    Ok(places)
}

//! The members of the cluster of a bridge.

ghost use Rattle.std.specs.Prelude.{◌≡◌, ◌↔◌, ◌<◌, ◌++◌, if◌then◌else◌, [], ◌∷◌, length, IsTrue, IfOk, OnOk};
ghost use Rattle.std.specs.List.{filter, range_with_len};
ghost use Rattle.ca_merge.specs.Draft.{AreGates};
ghost use Rattle.ca_cluster.specs.Bridges.{IsKnown};
ghost use Rattle.ca_cluster.specs.Clusters.{AreMembersOf};
ghost use Rattle.ca_cluster.specs.code.Members.{is_marked, HasRoom, HaveRoom, AreSeeds, AreMarksOf};

use crate::bridge::Bridge;
use crate::ends::end_member;
use crate::marks::{mark_if, marks_after, marks_before};
use ca_base::NoMemory;
use ca_linked::{Chip, InstanceId, InstanceList, NetMarks};
use std::alloc::Global;

// Marks of the instances that the ends of a bridge make members, of those after them, and of those before
// them.
#[derive(Drop)]
struct BridgeMarks {
    at: NetMarks,
    after: NetMarks,
    before: NetMarks,
}

// Marks of the instances that the ends of a bridge make members.
fn seeds_of(alloc: Global, chip: &Chip, bridge: Bridge) -> Result<NetMarks, NoMemory>
    requires { IsKnown chip.now bridge }
    ensures room { IfOk result (λ at. length at ≡ length chip.now.parts) }
    ensures seeds { IfOk result (AreSeeds chip.now bridge) }
{
    chip.wired();
    let mut at = NetMarks::new(alloc, chip.parts())?;
    mark_if(&mut at, end_member(chip, bridge.instance, bridge.m));
    mark_if(&mut at, end_member(chip, bridge.instance, bridge.n));
    Ok(at)
}

// The marks of a bridge.
fn marks_of(alloc: Global, chip: &Chip, bridge: Bridge) -> Result<BridgeMarks, NoMemory>
    requires { IsKnown chip.now bridge }
    ensures { IfOk result (AreMarksOf chip.now bridge) }
{
    let at = seeds_of(alloc, chip, bridge)?;
    let after = marks_after(alloc, chip, &at)?;
    let before = marks_before(alloc, chip, &at)?;
    Ok(BridgeMarks { at, after, before })
}

// Whether an instance is a member.
fn is_marked(marks: &BridgeMarks, u: u32) -> bool
    requires { HasRoom marks.now u }
    ensures { result ≡ is_marked marks.now u }
{
    marks.at.get(u) || (marks.after.get(u) && marks.before.get(u))
}

// Appends an instance, if it passed a test.
fn push_if(list: &mut InstanceList, passed: bool, u: u32) -> Result<(), NoMemory>
    ensures { OnOk result (list.new ≡ list.old ++ (if passed then u ∷ [] else [])) }
{
    if passed {
        list.push(InstanceId(u))
    } else {
        Ok(())
    }
}

// The instances that are members.
fn listed(alloc: Global, chip: &Chip, marks: &BridgeMarks) -> Result<InstanceList, NoMemory>
    requires { HaveRoom chip.now marks.now }
    ensures { IfOk result (λ list. list
        ≡ filter (is_marked marks.now) (range_with_len 0 (length chip.now.parts))) }
{
    chip.wired();
    let mut list = InstanceList::new(alloc);
    for k in 0..chip.parts() {
        let u = k as u32;
        push_if(&mut list, is_marked(marks, u), u)?;
    }
    Ok(list)
}

/// The members of the cluster of a bridge, in netlist order: the library instances that drive the nets of
/// input pins among its ends, its own instance where an end is an output pin or an inner node, and each
/// instance on a chain between two of these. There are none where each end is a rail or an input pin on a
/// chip input or a constant. It takes two passes over the chip.
pub fn members_of(alloc: Global, chip: &Chip, bridge: Bridge) -> Result<InstanceList, NoMemory>
    requires { IsKnown chip.now bridge }
    ensures are { IfOk result (AreMembersOf chip.now bridge) }
    ensures gates { IfOk result (AreGates chip.now) }
{
    chip.wired();
    let marks = marks_of(alloc, chip, bridge)?;
    let members = listed(alloc, chip, &marks)?;
    drop(marks);
    Ok(members)
}

/// Whether these are the same members, so that the clusters of two bridges are one.
pub fn are_same(one: &InstanceList, other: &InstanceList) -> bool
    ensures { IsTrue result ↔ (one.now ≡ other.now) }
{
    one.as_slice() == other.as_slice()
}

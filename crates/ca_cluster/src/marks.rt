//! Marks of the instances after those that a bridge makes members, and of those before them.

ghost use Rattle.std.specs.Prelude.{ℕ, ◌≡◌, ◌<◌, ◌↔◌, IsTrue, Some, length, IfOk};
ghost use Rattle.std.specs.List.{All};
ghost use Rattle.ca_linked.specs.Linked.{net_count, IsLibrary};
ghost use Rattle.ca_linked.specs.Reading.{Reads};
ghost use Rattle.ca_cluster.specs.code.Ends.{IsOnOutput};
ghost use Rattle.ca_cluster.specs.code.Marks.{Spreads, ByNet, AreLed, Onward, Back, IsHot};

use crate::ends::gate_on;
use ca_base::NoMemory;
use ca_linked::{Body, Chip, InstanceId, NetId, NetList, NetMarks};
use std::alloc::Global;

/// Marks an instance, if there is one.
pub(crate) fn mark_if(marks: &mut NetMarks, u: Option<u32>)
    requires { (x : ℕ) → u ≡ Some x → x < length marks.old }
    ensures { Spreads (λ x. u ≡ Some x) marks.old marks.new }
{
    match u {
        Some(u) => marks.mark(u),
        None => {}
    }
}

// Marks the library instances that read these nets.
fn mark_readers(chip: &Chip, marks: &mut NetMarks, nets: &NetList)
    requires room { length marks.old ≡ length chip.now.parts }
    requires on_nets { All (λ net. net < net_count chip.now) nets.now }
    ensures { Spreads (ByNet (λ net x. Reads chip.now x net) nets.now (length nets.now)) marks.old marks.new }
{
    for k in 0..nets.len() {
        marks.mark_all(chip.readers(NetId(nets.get(k))).as_slice());
    }
}

// Marks the library instances that drive these nets.
fn mark_drivers(chip: &Chip, marks: &mut NetMarks, nets: &NetList)
    requires room { length marks.old ≡ length chip.now.parts }
    requires on_nets { All (λ net. net < net_count chip.now) nets.now }
    ensures { Spreads (ByNet (IsOnOutput chip.now) nets.now (length nets.now)) marks.old marks.new }
{
    for k in 0..nets.len() {
        mark_if(marks, gate_on(chip, NetId(nets.get(k))));
    }
}

// Marks the library instances that an instance feeds.
fn mark_fed(chip: &Chip, marks: &mut NetMarks, u: InstanceId)
    requires library { IsLibrary chip.now u.0 }
    requires room { length marks.old ≡ length chip.now.parts }
    ensures { Spreads (Onward chip.now u.0) marks.old marks.new }
{
    chip.wired();
    match &chip.part(u).body {
        Body::Gate { outputs, .. } => mark_readers(chip, marks, outputs),
        Body::Scan(_) => unreachable!(),
    }
}

// Marks the library instances that feed an instance.
fn mark_feeding(chip: &Chip, marks: &mut NetMarks, u: InstanceId)
    requires library { IsLibrary chip.now u.0 }
    requires room { length marks.old ≡ length chip.now.parts }
    ensures { Spreads (Back chip.now u.0) marks.old marks.new }
{
    chip.wired();
    match &chip.part(u).body {
        Body::Gate { inputs, .. } => mark_drivers(chip, marks, inputs),
        Body::Scan(_) => unreachable!(),
    }
}

// Whether an instance is a seed or marked.
fn is_hot(at: &NetMarks, marks: &NetMarks, u: u32) -> bool
    requires seeds { u < length at.now }
    requires room { u < length marks.now }
    ensures { IsTrue result ↔ IsHot at.now marks.now u }
{
    at.get(u) || marks.get(u)
}

// Marks what an instance feeds, if it is a seed or marked.
fn pass_on(chip: &Chip, at: &NetMarks, marks: &mut NetMarks, u: InstanceId)
    requires library { IsLibrary chip.now u.0 }
    requires seeds { length at.now ≡ length chip.now.parts }
    requires room { length marks.old ≡ length chip.now.parts }
    ensures { Spreads (λ x. IsHot at.now marks.old u.0 × Onward chip.now u.0 x) marks.old marks.new }
{
    if is_hot(at, marks, u.0) {
        mark_fed(chip, marks, u)
    }
}

// Marks what feeds an instance, if that is a seed or marked.
fn pass_back(chip: &Chip, at: &NetMarks, marks: &mut NetMarks, u: InstanceId)
    requires library { IsLibrary chip.now u.0 }
    requires seeds { length at.now ≡ length chip.now.parts }
    requires room { length marks.old ≡ length chip.now.parts }
    ensures { Spreads (λ x. IsHot at.now marks.old u.0 × Back chip.now u.0 x) marks.old marks.new }
{
    if is_hot(at, marks, u.0) {
        mark_feeding(chip, marks, u)
    }
}

/// The instances to which a chain leads from a seed, by one pass in order.
pub(crate) fn marks_after(alloc: Global, chip: &Chip, at: &NetMarks) -> Result<NetMarks, NoMemory>
    requires { length at.now ≡ length chip.now.parts }
    ensures { IfOk result (AreLed (Onward chip.now) (IsLibrary chip.now) at.now) }
{
    chip.wired();
    let mut marks = NetMarks::new(alloc, chip.parts())?;
    for k in 0..chip.instances() {
        pass_on(chip, at, &mut marks, chip.order(k));
    }
    Ok(marks)
}

/// The instances from which a chain leads to a seed, by one pass in the opposite order.
pub(crate) fn marks_before(alloc: Global, chip: &Chip, at: &NetMarks) -> Result<NetMarks, NoMemory>
    requires { length at.now ≡ length chip.now.parts }
    ensures { IfOk result (AreLed (Back chip.now) (IsLibrary chip.now) at.now) }
{
    chip.wired();
    let count = chip.instances();
    let mut marks = NetMarks::new(alloc, chip.parts())?;
    for k in 0..count {
        pass_back(chip, at, &mut marks, chip.order(count - 1 - k));
    }
    Ok(marks)
}

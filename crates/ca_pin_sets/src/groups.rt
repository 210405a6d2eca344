//! Groups of inner nets that resistors join.

ghost use Rattle.std.specs.Prelude.{◌≡◌, ◌≤◌, ◌<◌, ◌^◌, ℕ, List, Some, length, slice_get, IfOk, All};
ghost use Rattle.ca_cell.specs.declared.raw.RawDevice.{RawDevice};
ghost use Rattle.ca_cell.specs.Rules.{PlacesWithin};
ghost use Rattle.ca_pin_sets.specs.Groups.{is_resistor, is_inner, alone, united, group_of, joins, joined};
ghost use Rattle.ca_pin_sets.specs.Groups.{groups_after};
ghost use Rattle.ca_pin_sets.specs.code.Forest.{IsForest, Realizes};

use ca_base::NoMemory;
use ca_cell::{RawDevice, has_gate};
use std::alloc::Global;

/// Whether a device is a resistor.
pub(crate) fn is_resistor(device: &RawDevice) -> bool
    ensures { result ≡ is_resistor device.now }
{
    !has_gate(device.kind)
}

/// Whether the net at a place is an inner one, where there are `pins` pins.
pub(crate) fn is_inner(pins: usize, net: u32) -> bool
    ensures { result ≡ is_inner pins net }
{
    pins <= net as usize
}

/// Each net is a group of its own.
pub(crate) fn alone(alloc: Global, nets: usize) -> Result<Vec<u32>, NoMemory>
    requires { nets < 2 ^ 32 }
    ensures parents { IfOk result (λ parents. parents.items ≡ alone nets) }
    ensures forest { IfOk result (λ parents. IsForest parents.items) }
    ensures realizes { IfOk result (λ parents. Realizes parents.items (alone nets)) }
{
    let mut parents = Vec::new(alloc);
    for net in 0..nets {
        parents.push(net as u32)?;
    }
    Ok(parents)
}

/// The group of a net. On the way up to it, parents are brought nearer to it.
pub(crate) fn find(parents: &mut Vec<u32>, net: u32) -> u32
    requires within { net < length parents.old.items }
    requires forest { IsForest parents.old.items }
    ensures forest { IsForest parents.new.items }
    ensures count { length parents.new.items ≡ length parents.old.items }
    ensures within { result < length parents.new.items }
    ensures root { slice_get parents.new.items result ≡ Some result }
    ensures kept { (groups : List ℕ) → Realizes parents.old.items groups → Realizes parents.new.items groups }
    ensures found { (groups : List ℕ) → Realizes parents.old.items groups → group_of groups net ≡ result }
{
    let mut at = net;
    'up: while parents[at as usize] != at {
        let parent = parents[at as usize];
        let above = parents[parent as usize];
        parents[at as usize] = above;
        at = above;
    }
    at
}

// The groups of two nets become one.
fn unite(parents: &mut Vec<u32>, one: u32, other: u32)
    requires one { one < length parents.old.items }
    requires other { other < length parents.old.items }
    requires forest { IsForest parents.old.items }
    ensures forest { IsForest parents.new.items }
    ensures count { length parents.new.items ≡ length parents.old.items }
    ensures united { (groups : List ℕ) → Realizes parents.old.items groups
        → Realizes parents.new.items (united (group_of groups one) (group_of groups other) groups) }
{
    let first = find(parents, one);
    let second = find(parents, other);
    if first < second {
        parents[second as usize] = first;
    } else {
        parents[first as usize] = second;
    }
}

// A resistor between inner nets makes their groups one.
fn join(parents: &mut Vec<u32>, pins: usize, device: &RawDevice)
    requires places { PlacesWithin (length parents.old.items) device.now }
    requires forest { IsForest parents.old.items }
    ensures forest { IsForest parents.new.items }
    ensures count { length parents.new.items ≡ length parents.old.items }
    ensures joined { (groups : List ℕ) → Realizes parents.old.items groups
        → Realizes parents.new.items (joined pins device.now groups) }
{
    if is_resistor(device) && (is_inner(pins, device.drain) && is_inner(pins, device.source)) {
        unite(parents, device.drain, device.source);
    }
}

/// The groups that devices make.
pub(crate) fn join_all(parents: &mut Vec<u32>, pins: usize, devices: &[RawDevice])
    requires places { All (PlacesWithin (length parents.old.items)) devices.now }
    requires forest { IsForest parents.old.items }
    ensures forest { IsForest parents.new.items }
    ensures count { length parents.new.items ≡ length parents.old.items }
    ensures joined { (groups : List ℕ) → Realizes parents.old.items groups
        → Realizes parents.new.items (groups_after pins groups devices.now) }
{
    for device in devices {
        join(parents, pins, device);
    }
}

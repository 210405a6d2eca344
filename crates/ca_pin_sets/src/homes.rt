//! To which input pin each group of inner nets belongs.

ghost use Rattle.std.specs.Prelude.{◌≡◌, ◌<◌, ℕ, List, length, All, IfOk};
ghost use Rattle.ca_cell.specs.Rules.{IsRaw, PlacesWithin};
ghost use Rattle.ca_pin_sets.specs.Homes.{is_input_net, first_of, claimed, claimed_by, owners_after, home_in};
ghost use Rattle.ca_pin_sets.specs.Homes.{homes_of};
ghost use Rattle.ca_pin_sets.specs.Groups.{groups_of};
ghost use Rattle.ca_pin_sets.specs.code.Forest.{IsForest, Realizes};

use crate::groups::{alone, find, is_inner, is_resistor, join_all};
use ca_base::NoMemory;
use ca_cell::{RawCell, RawDevice, RawPin};
use std::alloc::Global;

/// Whether the net at a place is that of an input pin.
pub(crate) fn is_input_net(pins: &[RawPin], net: u32) -> bool
    ensures { result ≡ is_input_net pins.now net }
{
    match pins.get(net as usize) {
        Some(pin) => pin.role.is_input(),
        None => false,
    }
}

// The lower of a pin and another, if there is another.
fn first_of(pin: u32, other: Option<u32>) -> u32
    ensures { result ≡ first_of pin other }
{
    match other {
        Some(other) if other < pin => other,
        _ => pin,
    }
}

// Where a resistor joins an input pin to an inner net, the net's group belongs to the pin, if no pin before
// it has it.
fn claim(pins: &[RawPin], parents: &mut Vec<u32>, owners: &mut Vec<Option<u32>>, pin: u32, net: u32)
    requires net { net < length parents.old.items }
    requires count { length owners.old.items ≡ length parents.old.items }
    requires forest { IsForest parents.old.items }
    ensures forest { IsForest parents.new.items }
    ensures count { length parents.new.items ≡ length parents.old.items }
    ensures as_many { length owners.new.items ≡ length owners.old.items }
    ensures kept { (groups : List ℕ) → Realizes parents.old.items groups → Realizes parents.new.items groups }
    ensures claimed { (groups : List ℕ) → Realizes parents.old.items groups
        → owners.new.items ≡ claimed pins.now groups pin net owners.old.items }
{
    if is_input_net(pins, pin) && is_inner(pins.len(), net) {
        let group = find(parents, net) as usize;
        owners[group] = Some(first_of(pin, owners[group]));
    }
}

// The claims of a device, which may have the pin at either end.
fn claim_by(
    pins: &[RawPin],
    parents: &mut Vec<u32>,
    owners: &mut Vec<Option<u32>>,
    device: &RawDevice,
)
    requires places { PlacesWithin (length parents.old.items) device.now }
    requires count { length owners.old.items ≡ length parents.old.items }
    requires forest { IsForest parents.old.items }
    ensures forest { IsForest parents.new.items }
    ensures count { length parents.new.items ≡ length parents.old.items }
    ensures as_many { length owners.new.items ≡ length owners.old.items }
    ensures kept { (groups : List ℕ) → Realizes parents.old.items groups → Realizes parents.new.items groups }
    ensures claimed { (groups : List ℕ) → Realizes parents.old.items groups
        → owners.new.items ≡ claimed_by pins.now groups device.now owners.old.items }
{
    if is_resistor(device) {
        claim(pins, parents, owners, device.drain, device.source);
        claim(pins, parents, owners, device.source, device.drain);
    }
}

// The claims of all devices.
fn claim_all(
    pins: &[RawPin],
    parents: &mut Vec<u32>,
    owners: &mut Vec<Option<u32>>,
    devices: &[RawDevice],
)
    requires places { All (PlacesWithin (length parents.old.items)) devices.now }
    requires count { length owners.old.items ≡ length parents.old.items }
    requires forest { IsForest parents.old.items }
    ensures forest { IsForest parents.new.items }
    ensures count { length parents.new.items ≡ length parents.old.items }
    ensures as_many { length owners.new.items ≡ length owners.old.items }
    ensures kept { (groups : List ℕ) → Realizes parents.old.items groups → Realizes parents.new.items groups }
    ensures claimed { (groups : List ℕ) → Realizes parents.old.items groups
        → owners.new.items ≡ owners_after pins.now groups owners.old.items devices.now }
{
    for device in devices {
        claim_by(pins, parents, owners, device);
    }
}

// The net whose node a net is.
fn home_in(pins: usize, parents: &mut Vec<u32>, owners: &[Option<u32>], net: u32) -> u32
    requires net { net < length parents.old.items }
    requires count { length owners.now ≡ length parents.old.items }
    requires forest { IsForest parents.old.items }
    ensures forest { IsForest parents.new.items }
    ensures count { length parents.new.items ≡ length parents.old.items }
    ensures kept { (groups : List ℕ) → Realizes parents.old.items groups → Realizes parents.new.items groups }
    ensures home { (groups : List ℕ) → Realizes parents.old.items groups
        → result ≡ home_in pins groups owners.now net }
{
    if is_inner(pins, net) {
        match owners[find(parents, net) as usize] {
            Some(pin) => pin,
            None => net,
        }
    } else {
        net
    }
}

/// For each net of a subcircuit the net whose node it is: the input pin to which its group belongs, or
/// itself.
pub(crate) fn homes_of(alloc: Global, raw: &RawCell) -> Result<Vec<u32>, NoMemory>
    requires { IsRaw raw.now }
    ensures { IfOk result (λ homes. homes.items ≡ homes_of raw.now) }
{
    let pins = raw.pins.as_slice();
    let devices = raw.devices.as_slice();
    let nets = raw.nets.len();
    let mut parents = alone(alloc, nets)?;
    join_all(&mut parents, pins.len(), devices);
    let mut owners = vec![in alloc; None; nets]?;
    claim_all(pins, &mut parents, &mut owners, devices);
    let mut homes = Vec::new(alloc);
    for net in 0..nets {
        homes.push(home_in(pins.len(), &mut parents, &owners, net as u32))?;
    }
    Ok(homes)
}

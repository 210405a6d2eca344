//! A subcircuit with the nets of each input pin's set written as the pin.

ghost use Rattle.std.specs.Prelude.{◌≡◌, ◌<◌, ◌≤◌, ◌^◌, length, IfOk, All};
ghost use Rattle.ca_cell.specs.Rules.{IsRaw, PlacesWithin};
ghost use Rattle.ca_pin_sets.specs.Resolved.{kept_nets, places_from, moved, is_dropped, kept_devices};
ghost use Rattle.ca_pin_sets.specs.Resolved.{resolved};

use crate::groups::is_resistor;
use crate::homes::{homes_of, is_input_net};
use ca_base::NoMemory;
use ca_cell::{RawCell, RawDevice, RawDevices, RawPin, RawPins};
use ca_lex::Names;
use std::alloc::Global;

// The names of the nets that are in no pin's set.
fn kept_nets(alloc: Global, homes: &[u32], nets: &Names) -> Result<Names, NoMemory>
    requires { length homes.now ≡ length nets.now }
    ensures { IfOk result (λ names. names ≡ kept_nets 0 homes.now nets.now) }
{
    let mut names = Names::new(alloc);
    for place in 0..homes.len() {
        if homes[place] as usize == place {
            names.push(nets.get(place).copy(alloc)?)?;
        }
    }
    Ok(names)
}

// The places to which nets with these homes come.
fn places_of(alloc: Global, homes: &[u32]) -> Result<Vec<u32>, NoMemory>
    requires { length homes.now < 2 ^ 32 }
    ensures { IfOk result (λ places. places.items ≡ places_from 0 0 homes.now) }
{
    let mut places = Vec::new(alloc);
    let mut before = 0;
    for place in 0..homes.len() {
        if homes[place] as usize == place {
            places.push(before)?;
            before += 1;
        } else {
            places.push(homes[place])?;
        }
    }
    Ok(places)
}

// The device with its terminals at the places to which its nets came.
fn moved(alloc: Global, places: &[u32], device: &RawDevice) -> Result<RawDevice, NoMemory>
    requires { PlacesWithin (length places.now) device.now }
    ensures { IfOk result (λ made. made ≡ moved places.now device.now) }
{
    Ok(RawDevice {
        name: device.name.copy(alloc)?,
        kind: device.kind,
        strength: device.strength,
        width: device.width,
        length: device.length,
        drain: places[device.drain as usize],
        gate: places[device.gate as usize],
        source: places[device.source as usize],
    })
}

// Whether a device is a resistor with both ends on one input pin.
fn is_dropped(pins: &[RawPin], device: &RawDevice) -> bool
    ensures { result ≡ is_dropped pins.now device.now }
{
    is_resistor(device) && (device.drain == device.source && is_input_net(pins, device.drain))
}

// The devices at their places, without resistors that have both ends on one input pin.
fn kept_devices(
    alloc: Global,
    pins: &[RawPin],
    places: &[u32],
    old: &[RawDevice],
) -> Result<RawDevices, NoMemory>
    requires { All (PlacesWithin (length places.now)) old.now }
    ensures { IfOk result (λ devices. devices ≡ kept_devices pins.now places.now old.now) }
{
    let mut devices = RawDevices::new(alloc);
    for device in old {
        let device = moved(alloc, places, device)?;
        if is_dropped(pins, &device) {
            drop(device);
        } else {
            devices.push(device)?;
        }
    }
    Ok(devices)
}

// A list of its own with the same pins.
fn copy_pins(alloc: Global, old: &[RawPin]) -> Result<RawPins, NoMemory>
    ensures { IfOk result (λ pins. pins ≡ old.now) }
{
    let mut pins = RawPins::new(alloc);
    for pin in old {
        pins.push(RawPin {
            name: pin.name.copy(alloc)?,
            role: pin.role,
        })?;
    }
    Ok(pins)
}

/// The subcircuit with the nets of each input pin's set written as the pin, and without resistors that have
/// both ends on one input pin. The set of a pin is the inner nets that resistors reach from it through inner
/// nets alone; a net that several pins reach belongs to the first of them in pin order.
pub fn resolved(alloc: Global, raw: &RawCell) -> Result<RawCell, NoMemory>
    requires { IsRaw raw.now }
    ensures ok { IfOk result (λ made. made ≡ resolved raw.now) }
    ensures kept { IfOk result (λ made. IsRaw made) }
{
    let homes = homes_of(alloc, raw)?;
    let places = places_of(alloc, &homes)?;
    let pins = raw.pins.as_slice();
    Ok(RawCell {
        pins: copy_pins(alloc, pins)?,
        nets: kept_nets(alloc, &homes, &raw.nets)?,
        devices: kept_devices(alloc, pins, &places, raw.devices.as_slice())?,
    })
}

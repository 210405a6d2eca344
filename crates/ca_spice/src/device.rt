//! A device more in a subcircuit.
ghost use Rattle.std.specs.Prelude.{◌≡◌, ◌≤◌, true, false, [], ◌∷◌, ◌++◌, map, length, OnOk};
ghost use Rattle.ca_spice.specs.code.Mos.{IsWiring, AreSizes};
ghost use Rattle.ca_spice.specs.code.Kept.{IsPlaced};
ghost use Rattle.ca_spice.specs.OpenCell.{has_device, with_source, device_strength, device_of};
ghost use Rattle.ca_spice.specs.code.Views.{wiring_seen, sizes_seen};

use crate::mos::{Sizes, Wiring};
use ca_base::NoMemory;
use ca_cell::{RawDevice, RawDevices, StrengthTable};
use ca_lex::Text;
use ca_names::NameSet;
use ca_net::{DeviceKind, STRONGEST};
use std::alloc::Global;

// The strength of a device of this kind.
fn device_strength(table: &StrengthTable, kind: DeviceKind, sizes: Sizes) -> u8
    requires { AreSizes sizes.width.0 sizes.length.0 }
    ensures { result ≡ device_strength table.now kind (sizes_seen sizes) }
{
    match kind {
        DeviceKind::N | DeviceKind::P => table.strength(sizes.width, sizes.length),
        DeviceKind::D => STRONGEST,
    }
}

/// Adds a transistor or a resistor, whose name is new, with its nets and its name. Their owner drops them
/// all in one place: more places are slow to prove.
pub(crate) fn add_device(
    alloc: Global,
    table: &StrengthTable,
    nets: &mut NameSet,
    device_names: &mut NameSet,
    devices: &mut RawDevices,
    name: &[u8],
    wiring: Wiring<'_>,
    sizes: Sizes,
) -> Result<(), NoMemory>
    requires named { device_names.old ≡ map (λ device. device.name) devices.old }
    requires distinct { has_device name.now devices.old ≡ false }
    requires placed { IsPlaced 0 nets.old devices.old }
    requires gate { IsWiring (wiring_seen wiring) }
    requires sizes { AreSizes sizes.width.0 sizes.length.0 }

    ensures nets { OnOk result (nets.new ≡ with_source (wiring_seen wiring.entry) nets.old) }
    ensures devices { OnOk result (devices.new
        ≡ devices.old
        ++ device_of table.now name.now (wiring_seen wiring.entry) (sizes_seen sizes) nets.old ∷ []) }
    ensures named { OnOk result (device_names.new ≡ map (λ device. device.name) devices.new) }
    ensures placed { OnOk result (IsPlaced 0 nets.new devices.new) }
    ensures longer { OnOk result (length nets.old ≤ length nets.new) }
{
    let drain = nets.add(alloc, wiring.drain)?;
    let gate = nets.add(alloc, wiring.gate)?;
    let source = nets.add(alloc, wiring.source)?;
    device_names.add(alloc, name)?;
    devices.push(RawDevice {
        name: Text::from_bytes(alloc, name)?,
        kind: wiring.kind,
        strength: device_strength(table, wiring.kind, sizes),
        width: sizes.width,
        length: sizes.length,
        drain,
        gate,
        source,
    })?;
    Ok(())
}

//! The subcircuit that is being read.
ghost use Rattle.std.specs.Prelude.{◌≡◌, true, map, length};
ghost use Rattle.ca_spice.specs.code.Mos.{IsWiring, AreSizes};
ghost use Rattle.ca_spice.specs.code.Kept.{IsPlaced};
ghost use Rattle.ca_spice.specs.code.Names.{texts};
ghost use Rattle.ca_spice.specs.OpenCell.{is_ended_by};

use crate::device::add_device;
use crate::fault::{Refusal, SpiceKind};
use crate::mos::{Sizes, Wiring, ends_of, resistor_sizes, sizes_of, wiring_of};
use crate::names::set_of;
use crate::pin::{Pin, pins_of, raw_pins};
use crate::pin_info::pin_info;
use crate::subcircuit::Subcircuit;
use ca_base::NoMemory;
use ca_cell::{RawCell, RawDevices, StrengthTable};
use ca_lex::Text;
use ca_names::NameSet;
use std::alloc::Global;

/// A subcircuit whose `.ENDS` has not come. The nets are the pins and then the inner nets in the order of
/// first mention.
#[derive(Drop)]
pub(crate) struct OpenCell {
    pub line: usize,
    pub name: Text,
    pub pins: Vec<Pin>,
    pub nets: NameSet,
    pub device_names: NameSet,
    pub devices: RawDevices,
    ghost named: { device_names ≡ map (λ device. device.name) devices },
    ghost placed: { IsPlaced (length pins.items) nets devices },
}

impl OpenCell {
    ghost use Rattle.std.specs.Prelude.{false, IfOk, Ok};
    ghost use Rattle.ca_lex.specs.Reading.{Gives, unless};
    ghost use Rattle.ca_spice.specs.declared.fault.SpiceKind.TheVariants.{DoubleName};
    ghost use Rattle.ca_spice.specs.code.SpiceFault.{kind_reported};
    ghost use Rattle.ca_names.specs.Names.{has_double};
    ghost use Rattle.ca_spice.specs.code.Names.{texts};
    ghost use Rattle.ca_spice.specs.OpenCell.{new_cell, pin_info, has_device, with_device, wired, mos};
    ghost use Rattle.ca_spice.specs.OpenCell.{resistor, ended};
    ghost use Rattle.ca_spice.specs.code.Kept.{IsPlacedCell};
    ghost use Rattle.ca_spice.specs.code.Views.{cell_seen, wiring_seen, sizes_seen};

    /// The subcircuit that a `.SUBCKT` with these pins begins.
    pub(crate) fn new(
        alloc: Global,
        line: usize,
        name: &[u8],
        pins: &[&[u8]],
    ) -> Result<Self, Refusal>
        ensures read { Gives kind_reported cell_seen result
            (unless (has_double (texts pins.now)) DoubleName (Ok (new_cell line name.now (texts pins.now)))) }
        ensures same_name { IfOk result (λ cell. cell.name ≡ name.now) }
    {
        let nets = set_of(alloc, pins)?;
        Ok(OpenCell {
            line,
            name: Text::from_bytes(alloc, name)?,
            pins: pins_of(alloc, pins)?,
            nets,
            device_names: NameSet::new(alloc),
            devices: RawDevices::new(alloc),
        })
    }

    /// The subcircuit after a `*.PININFO` with these words.
    #[tactic(auto, unfolding(crate::specs::OpenCell::pin_info))]
    pub(crate) fn pin_info(self, words: &[&[u8]]) -> Result<Self, Refusal>
        ensures read { Gives kind_reported cell_seen result (pin_info (texts words.now) (cell_seen self)) }
        ensures same_name { IfOk result (λ cell. cell.name ≡ self.name) }
    {
        let OpenCell {
            line,
            name,
            pins,
            nets,
            device_names,
            devices,
        } = self;
        let pins = pin_info(pins, &nets, words)?;
        Ok(OpenCell {
            line,
            name,
            pins,
            nets,
            device_names,
            devices,
        })
    }

    // The subcircuit with one device more, whose name is new.
    fn with_device(
        self,
        alloc: Global,
        table: &StrengthTable,
        name: &[u8],
        wiring: Wiring<'_>,
        sizes: Sizes,
    ) -> Result<Self, NoMemory>
        requires new { has_device name.now self.devices ≡ false }
        requires gate { IsWiring (wiring_seen wiring) }
        requires sizes { AreSizes sizes.width.0 sizes.length.0 }
        ensures { IfOk result (λ cell. cell_seen cell
            ≡ with_device table.now name.now (wiring_seen wiring.entry) (sizes_seen sizes) (cell_seen self)) }
    {
        let OpenCell {
            line,
            name: cell_name,
            pins,
            mut nets,
            mut device_names,
            mut devices,
        } = self;
        let places = &mut nets;
        add_device(
            alloc,
            table,
            places,
            &mut device_names,
            &mut devices,
            name,
            wiring,
            sizes,
        )?;
        Ok(OpenCell {
            line,
            name: cell_name,
            pins,
            nets,
            device_names,
            devices,
        })
    }

    // Some device has the name.
    fn has_device(&self, name: &[u8]) -> bool
        ensures { result ≡ has_device name.now self.now.devices }
    {
        self.device_names.has(name)
    }

    /// The subcircuit after an M card with these words.
    #[tactic(auto, unfolding(crate::specs::OpenCell::mos))]
    pub(crate) fn mos(
        self,
        alloc: Global,
        table: &StrengthTable,
        name: &[u8],
        words: &[&[u8]],
    ) -> Result<Self, Refusal>
        ensures read { Gives kind_reported cell_seen result
            (mos table.now name.now (texts words.now) (cell_seen self)) }
        ensures same_name { IfOk result (λ cell. cell.name ≡ self.name) }
    {
        let Some(wiring) = wiring_of(name, words) else {
            return Err(Refusal::Kind(SpiceKind::BadCard));
        };
        let Some(sizes) = sizes_of(wiring.params) else {
            return Err(Refusal::Kind(SpiceKind::BadLength));
        };
        if self.has_device(name) {
            return Err(Refusal::Kind(SpiceKind::DoubleName));
        }
        Ok(self.with_device(alloc, table, name, wiring, sizes)?)
    }

    /// The subcircuit after an R card with these words.
    #[tactic(auto, unfolding(crate::specs::OpenCell::resistor))]
    pub(crate) fn resistor(
        self,
        alloc: Global,
        table: &StrengthTable,
        name: &[u8],
        words: &[&[u8]],
    ) -> Result<Self, Refusal>
        ensures read { Gives kind_reported cell_seen result
            (resistor table.now name.now (texts words.now) (cell_seen self)) }
        ensures same_name { IfOk result (λ cell. cell.name ≡ self.name) }
    {
        let Some(wiring) = ends_of(name, words) else {
            return Err(Refusal::Kind(SpiceKind::BadCard));
        };
        if self.has_device(name) {
            return Err(Refusal::Kind(SpiceKind::DoubleName));
        }
        Ok(self.with_device(alloc, table, name, wiring, resistor_sizes())?)
    }

    /// The subcircuit that a `.ENDS` with these words ends.
    #[tactic(auto, unfolding(crate::specs::OpenCell::ended))]
    pub(crate) fn ended(self, alloc: Global, words: &[&[u8]]) -> Result<Subcircuit, Refusal>
        ensures read { Gives kind_reported (λ cell. cell) result (ended (texts words.now) (cell_seen self)) }
        ensures placed { IfOk result (λ cell. IsPlacedCell cell.raw) }
        ensures same_name { IfOk result (λ cell. cell.name ≡ self.name) }
    {
        if !is_ended_by(words, self.name.as_bytes()) {
            drop(self);
            return Err(Refusal::Kind(SpiceKind::BadCard));
        }
        let pins = raw_pins(alloc, &self.pins);
        let nets = self.nets.list(alloc);
        let OpenCell {
            line: _,
            name,
            pins: open_pins,
            nets: open_nets,
            device_names,
            devices,
        } = self;
        drop(open_pins);
        drop(open_nets);
        drop(device_names);
        let Some(pins) = pins? else {
            return Err(Refusal::Kind(SpiceKind::NoPinInfo));
        };
        let nets = nets?;
        Ok(Subcircuit {
            name,
            raw: RawCell {
                pins,
                nets,
                devices,
            },
        })
    }
}

// Whether these are the words after the `.ENDS` of a subcircuit of this name.
fn is_ended_by(words: &[&[u8]], name: &[u8]) -> bool
    ensures { result ≡ is_ended_by (texts words.now) name.now }
{
    match words {
        [] => true,
        [word] => *word == name,
        _ => false,
    }
}

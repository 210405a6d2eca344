//! Cells as cell netlists.
ghost use Rattle.std.specs.Prelude.{◌≡◌, ◌∷◌, ◌++◌, ◌<◌, [], length, map, flat_map, IfOk, Ok, OnOk, codes};
ghost use Rattle.std.specs.List.{All};
ghost use Rattle.ca_lex.specs.Words.{upper_case};
ghost use Rattle.ca_cell.specs.declared.strength.StrengthTable.{StrengthTable};
ghost use Rattle.ca_cell.specs.Raw.{is_power, is_ground};
ghost use Rattle.ca_cell.specs.Rules.{IsRaw, PlacesWithin};
ghost use Rattle.ca_spice.specs.Reading.{library_of};
ghost use Rattle.ca_spice.specs.Writing.{spaced, line_of, pin_names, role_letter, pin_word, rail_name};
ghost use Rattle.ca_spice.specs.Writing.{bulk_of, model_of, net_name, size_word, terminal_words, body_words};
ghost use Rattle.ca_spice.specs.Writing.{mos_words, resistor_words, device_words, device_line, cell_text};
ghost use Rattle.ca_spice.specs.Writing.{kept_as, IsReadable};

use ca_base::NoMemory;
use ca_cell::{Cell, RawCell, RawDevice, RawPin, Role};
use ca_lex::{Length, Names, Text, fold};
use ca_net::DeviceKind;
use itoa::Buffer;
use std::alloc::Global;

// Appends a word to others.
fn push_word(text: &mut Text, word: &[u8]) -> Result<(), NoMemory>
    ensures { OnOk result (text.new ≡ text.old ++ spaced word.now) }
{
    text.push(b' ')?;
    text.append(word)
}

// Appends the names of pins.
fn push_names(text: &mut Text, pins: &[RawPin]) -> Result<(), NoMemory>
    ensures { OnOk result (text.new ≡ text.old ++ flat_map spaced (pin_names pins.now)) }
{
    let mut rest = pins;
    'pins: while let [pin, more @ ..] = rest {
        push_word(text, pin.name.as_bytes())?;
        rest = more;
    }
    Ok(())
}

// Appends the line that begins a subcircuit.
fn push_header(text: &mut Text, name: &[u8], pins: &[RawPin]) -> Result<(), NoMemory>
    ensures { OnOk result (text.new ≡ text.old ++ line_of (codes ".SUBCKT") (name.now ∷ pin_names pins.now)) }
{
    text.append(b".SUBCKT")?;
    push_word(text, name)?;
    push_names(text, pins)?;
    text.push(b'\n')
}

fn role_letter(role: Role) -> u8
    ensures { result ≡ role_letter role }
{
    match role {
        Role::Input => b'I',
        Role::Output => b'O',
        Role::Power => b'P',
        Role::Ground => b'G',
    }
}

// Appends a pin with its role.
fn push_pin(text: &mut Text, pin: &RawPin) -> Result<(), NoMemory>
    ensures { OnOk result (text.new ≡ text.old ++ spaced (pin_word pin.now)) }
{
    push_word(text, pin.name.as_bytes())?;
    text.push(b':')?;
    text.push(role_letter(pin.role))
}

// Appends the line of the roles.
fn push_roles(text: &mut Text, pins: &[RawPin]) -> Result<(), NoMemory>
    ensures { OnOk result (text.new ≡ text.old ++ line_of (codes "*.PININFO") (map pin_word pins.now)) }
{
    text.append(b"*.PININFO")?;
    let mut rest = pins;
    'pins: while let [pin, more @ ..] = rest {
        push_pin(text, pin)?;
        rest = more;
    }
    text.push(b'\n')
}

fn power_name(pins: &[RawPin]) -> &[u8]
    ensures { result.now ≡ rail_name is_power pins.now }
{
    match pins.iter().find(|pin| pin.role.is_power()) {
        Some(pin) => pin.name.as_bytes(),
        None => &[],
    }
}

fn ground_name(pins: &[RawPin]) -> &[u8]
    ensures { result.now ≡ rail_name is_ground pins.now }
{
    match pins.iter().find(|pin| pin.role.is_ground()) {
        Some(pin) => pin.name.as_bytes(),
        None => &[],
    }
}

fn model_of(kind: DeviceKind) -> &'static [u8]
    ensures { result.now ≡ model_of kind }
{
    match kind {
        DeviceKind::P => b"PCH",
        DeviceKind::N => b"NCH",
        DeviceKind::D => &[],
    }
}

// Appends the name of the net at a place.
fn push_net(text: &mut Text, nets: &Names, place: u32) -> Result<(), NoMemory>
    requires { place < length nets.now }
    ensures { OnOk result (text.new ≡ text.old ++ spaced (net_name nets.now place)) }
{
    push_word(text, nets.get(place as usize).as_bytes())
}

// Appends a parameter whose value is a length.
fn push_size(text: &mut Text, key: &[u8], size: Length) -> Result<(), NoMemory>
    ensures { OnOk result (text.new ≡ text.old ++ spaced (size_word key.now size.0)) }
{
    let mut buffer = Buffer::new();
    push_word(text, key)?;
    text.append(buffer.format(size.0).as_bytes())?;
    text.append(b"e-18")
}

// Appends the terminals of a device.
fn push_terminals(text: &mut Text, nets: &Names, device: &RawDevice) -> Result<(), NoMemory>
    requires { PlacesWithin (length nets.now) device.now }
    ensures { OnOk result (text.new ≡ text.old ++ flat_map spaced (terminal_words nets.now device.now)) }
{
    push_net(text, nets, device.drain)?;
    push_net(text, nets, device.gate)?;
    push_net(text, nets, device.source)
}

// The bulk of a device.
fn bulk_of<'a>(p_bulk: &'a [u8], n_bulk: &'a [u8], kind: DeviceKind) -> &'a [u8]
    ensures { result.now ≡ bulk_of p_bulk.now n_bulk.now kind }
{
    match kind {
        DeviceKind::P => p_bulk,
        DeviceKind::N => n_bulk,
        DeviceKind::D => &[],
    }
}

// Appends the words of an M card that follow its terminals.
fn push_body(text: &mut Text, bulk: &[u8], device: &RawDevice) -> Result<(), NoMemory>
    ensures { OnOk result (text.new ≡ text.old ++ flat_map spaced (body_words bulk.now device.now)) }
{
    push_word(text, bulk)?;
    push_word(text, model_of(device.kind))?;
    push_size(text, b"W=", device.width)?;
    push_size(text, b"L=", device.length)
}

// Appends the words of an M card after the device's name.
fn push_mos(text: &mut Text, nets: &Names, bulk: &[u8], device: &RawDevice) -> Result<(), NoMemory>
    requires { PlacesWithin (length nets.now) device.now }
    ensures { OnOk result (text.new ≡ text.old ++ flat_map spaced (mos_words nets.now bulk.now device.now)) }
{
    push_terminals(text, nets, device)?;
    push_body(text, bulk, device)
}

// Appends the words of an R card after the device's name.
fn push_resistor(text: &mut Text, nets: &Names, device: &RawDevice) -> Result<(), NoMemory>
    requires { PlacesWithin (length nets.now) device.now }
    ensures { OnOk result (text.new ≡ text.old ++ flat_map spaced (resistor_words nets.now device.now)) }
{
    push_net(text, nets, device.drain)?;
    push_net(text, nets, device.source)?;
    push_word(text, b"1")
}

// Appends the card of a device.
fn push_device(
    text: &mut Text,
    nets: &Names,
    bulk: &[u8],
    device: &RawDevice,
) -> Result<(), NoMemory>
    requires { PlacesWithin (length nets.now) device.now }
    ensures { OnOk result (text.new ≡ text.old
        ++ line_of device.now.name (device_words nets.now bulk.now device.now)) }
{
    text.append(device.name.as_bytes())?;
    match device.kind {
        DeviceKind::N | DeviceKind::P => push_mos(text, nets, bulk, device)?,
        DeviceKind::D => push_resistor(text, nets, device)?,
    }
    text.push(b'\n')
}

// Appends the cards of the devices.
fn push_devices(
    text: &mut Text,
    p_bulk: &[u8],
    n_bulk: &[u8],
    nets: &Names,
    devices: &[RawDevice],
) -> Result<(), NoMemory>
    requires { All (PlacesWithin (length nets.now)) devices.now }
    ensures { OnOk result (text.new ≡ text.old
        ++ flat_map (device_line p_bulk.now n_bulk.now nets.now) devices.now) }
{
    for device in devices {
        push_device(text, nets, bulk_of(p_bulk, n_bulk, device.kind), device)?;
    }
    Ok(())
}

// The text of a subcircuit.
#[tactic(auto, unfolding(crate::specs::Writing::cell_text))]
fn cell_text(alloc: Global, raw: &RawCell, name: &[u8]) -> Result<Text, NoMemory>
    requires { IsRaw raw.now }
    ensures { IfOk result (λ text. text ≡ cell_text (upper_case name.now) raw.now) }
{
    let pins = raw.pins.as_slice();
    let name = fold(alloc, name)?;
    let mut text = Text::new(alloc);
    push_header(&mut text, name.as_bytes(), pins)?;
    push_roles(&mut text, pins)?;
    push_devices(
        &mut text,
        power_name(pins),
        ground_name(pins),
        &raw.nets,
        raw.devices.as_slice(),
    )?;
    text.append(b".ENDS\n")?;
    Ok(text)
}

/// The text of a cell as a cell netlist: one subcircuit, under the name in upper case, which is how a library
/// keeps it. A cell that is found in a library which was read may be written under each name by which it is
/// found there (`found_cell`). Under each strength table under which a text reads as such a library, the text
/// that is written reads as this cell.
#[tactic(auto, using(crate::proofs::RoundTripLemmas::read_written))]
pub fn write_cell(alloc: Global, cell: &Cell, name: &[u8]) -> Result<Text, NoMemory>
    requires { (table : StrengthTable) × IsReadable table name.now cell.now }
    ensures text { IfOk result (λ text. text ≡ cell_text (upper_case name.now) cell.now) }
    ensures read { IfOk result (λ text. (table : StrengthTable) → IsReadable table name.now cell.now
        → library_of table text ≡ Ok (kept_as name.now cell.now ∷ [])) }
{
    let raw = cell.raw();
    cell_text(alloc, raw, name)
}

//! A linked chip as a text, in which each call of it has its say.

ghost use Rattle.std.specs.Prelude.{◌<◌, length};
ghost use Rattle.ca_linked.specs.Linked.{IsLibrary};

use ca_base::NoMemory;
use ca_lex::Text;
use ca_linked::{Chip, InstanceId, NetId, ScanPin, Source};
use ca_outputs::output_names;
use std::alloc::Global;

// Appends a number with a space before it.
fn number(text: &mut Text, number: usize) -> Result<(), NoMemory> {
    text.push(b' ')?;
    if number >= 10 {
        text.push(b'0' + (number / 10 % 10) as u8)?;
    }
    text.push(b'0' + (number % 10) as u8)
}

// Appends the counts.
fn counts(text: &mut Text, chip: &Chip) -> Result<(), NoMemory> {
    text.append(b"nets")?;
    number(text, chip.nets())?;
    text.append(b", instances")?;
    number(text, chip.instances())?;
    text.append(b", scan")?;
    number(text, chip.scan_count())?;
    text.append(b", inputs")?;
    number(text, chip.inputs())?;
    text.append(b", outputs")?;
    number(text, chip.outputs())?;
    text.append(b"\n")
}

// Appends the ports: name, direction and net of each bit.
fn ports(text: &mut Text, chip: &Chip) -> Result<(), NoMemory> {
    for p in 0..chip.ports() {
        text.append(if chip.port_is_input(p) {
            b"in "
        } else {
            b"out"
        })?;
        text.push(b' ')?;
        text.append(chip.port_name(p).as_bytes())?;
        number(text, chip.port_net(p).0 as usize)?;
        text.append(b"\n")?;
    }
    Ok(())
}

// Appends what drives a net.
fn driver(text: &mut Text, source: Source) -> Result<(), NoMemory> {
    match source {
        Source::FromPort(p) => {
            text.append(b" port")?;
            number(text, p as usize)
        }
        Source::FromConstant(value) => text.append(if value {
            b" constant 1"
        } else {
            b" constant 0"
        }),
        Source::FromPin(u, pin) => {
            text.append(b" pin")?;
            number(text, u as usize)?;
            number(text, pin as usize)
        }
    }
}

// Appends the nets: what drives each, which instances read it, and whether it is on the scan path.
fn nets(text: &mut Text, chip: &Chip) -> Result<(), NoMemory> {
    chip.wired();
    for n in 0..chip.nets() {
        let net = NetId(n as u32);
        number(text, n)?;
        text.append(b":")?;
        driver(text, chip.driver(net))?;
        if let Some(value) = chip.constant(net) {
            text.append(if value { b" is 1" } else { b" is 0" })?;
        }
        if chip.is_scan_path(net) {
            text.append(b" path")?;
        }
        text.append(b" read")?;
        let readers = chip.readers(net);
        for k in 0..readers.len() {
            number(text, readers.get(k).0 as usize)?;
        }
        text.append(b"\n")?;
    }
    Ok(())
}

// Appends names.
fn names(text: &mut Text, names: &[Text]) -> Result<(), NoMemory> {
    for k in 0..names.len() {
        text.push(b' ')?;
        text.append(names[k].as_bytes())?;
    }
    text.append(b"\n")
}

// Appends the names of the outputs. Each value is dropped in one place here and below: more places are slow
// to prove.
fn end_names(alloc: Global, text: &mut Text, chip: &Chip) -> Result<(), NoMemory> {
    let list = output_names(alloc, chip)?;
    let is_appended = names(text, list.as_slice());
    drop(list);
    is_appended
}

// Appends the chip inputs and the observed outputs by their nets, and the names of the outputs.
fn ends(alloc: Global, text: &mut Text, chip: &Chip) -> Result<(), NoMemory> {
    text.append(b"inputs")?;
    for i in 0..chip.inputs() {
        number(text, chip.input(i).0 as usize)?;
    }
    text.append(b"\noutputs")?;
    for o in 0..chip.outputs() {
        number(text, chip.output(o).0 as usize)?;
    }
    end_names(alloc, text, chip)
}

// Whether a library instance is at its place in the order, and is found by its name.
fn is_found(chip: &Chip, u: InstanceId) -> bool
    requires { IsLibrary chip.now u.0 }
{
    chip.wired();
    let is_named = match chip.find_instance(chip.instance_name(u).as_bytes()) {
        Some(found) => found == u,
        None => false,
    };
    is_named && chip.order(chip.place(u)) == u
}

// Appends the nets of the pins of a library instance.
#[tactic(auto, using(ca_view::proofs::PartFacts::pin_within, ca_view::proofs::PartFacts::cell_read))]
fn pins(text: &mut Text, chip: &Chip, u: InstanceId) -> Result<(), NoMemory>
    requires { IsLibrary chip.now u.0 }
{
    chip.wired();
    text.append(b" pins")?;
    let cell = chip.cell_of(u);
    for pin in 0..cell.inputs() + cell.outputs() {
        number(text, chip.pin_net(u, pin).0 as usize)?;
    }
    Ok(())
}

// Appends the name of a library instance, its cell's, the number of the cell among those that are used, how
// many these are, and its place in the order.
fn places(text: &mut Text, chip: &Chip, u: InstanceId) -> Result<(), NoMemory>
    requires within { u.0 < length chip.now.parts }
    requires library { IsLibrary chip.now u.0 }
{
    text.append(chip.instance_name(u).as_bytes())?;
    text.push(b' ')?;
    text.append(chip.cell_name(u).as_bytes())?;
    text.append(b" cell")?;
    number(text, chip.cell_number(u))?;
    text.append(b" of")?;
    number(text, chip.cells())?;
    text.append(b" place")?;
    number(text, chip.place(u))
}

// Appends a library instance: its name and its cell's, the number of the cell, its place in the order, the
// nets of its pins, and whether it is there and is found by its name.
fn instance(text: &mut Text, chip: &Chip, u: InstanceId) -> Result<(), NoMemory> {
    if u.0 as usize >= chip.parts() || !chip.is_library(u) {
        return text.append(b"none\n");
    }
    places(text, chip, u)?;
    pins(text, chip, u)?;
    text.append(if is_found(chip, u) {
        b" found\n"
    } else {
        b" lost \n"
    })
}

// Appends a scan instance: its name, its cell's and its data pin's, and the nets of its pins.
fn scan_instance(text: &mut Text, chip: &Chip, u: InstanceId) -> Result<(), NoMemory> {
    if u.0 as usize >= chip.parts() || chip.is_library(u) {
        return text.append(b"none\n");
    }
    text.append(chip.instance_name(u).as_bytes())?;
    text.push(b' ')?;
    text.append(chip.cell_name(u).as_bytes())?;
    text.push(b'/')?;
    text.append(chip.data_name(u).as_bytes())?;
    let pins = [
        ScanPin::D,
        ScanPin::Q,
        ScanPin::Si,
        ScanPin::So,
        ScanPin::Se,
        ScanPin::Ck,
        ScanPin::Hold,
    ];
    for pin in pins {
        number(text, chip.scan_net(u, pin).0 as usize)?;
    }
    text.append(b"\n")
}

// Appends all that the calls of a chip answer.
fn describe(alloc: Global, text: &mut Text, chip: &Chip) -> Result<(), NoMemory> {
    counts(text, chip)?;
    ports(text, chip)?;
    nets(text, chip)?;
    ends(alloc, text, chip)?;
    for k in 0..chip.instances() {
        instance(text, chip, chip.instance(k))?;
    }
    for k in 0..chip.scan_count() {
        scan_instance(text, chip, chip.scan(k))?;
    }
    Ok(())
}

/// All that the calls of a chip answer, a line for each port bit, net and instance.
pub(crate) fn described(alloc: Global, chip: &Chip) -> Result<Text, NoMemory> {
    let mut text = Text::new(alloc);
    match describe(alloc, &mut text, chip) {
        Ok(()) => Ok(text),
        Err(NoMemory) => Err(NoMemory),
    }
}

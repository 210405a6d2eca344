//! What is said of instances.

ghost use Rattle.std.specs.Prelude.{◌≡◌, ◌<◌, ◌≤◌, ◌++◌, ◌-◌, [], codes, decimal, length, take, IfOk, OnOk};
ghost use Rattle.std.specs.Prelude.{slice_index};
ghost use Rattle.std.specs.List.{flat_map};
ghost use Rattle.ca_fault_place.specs.Names.{instance_name, cell_name, constant_name};
ghost use Rattle.ca_fault_place.specs.Place.{arrow_text, cell_text, driver_text, first_name, instance_text};
ghost use Rattle.ca_fault_place.specs.Place.{loop_text, pin_text};

use crate::cells::add_number;
use ca_base::NoMemory;
use ca_lex::Text;
use ca_linked::InstanceList;
use ca_verilog::RawInstance;
use ca_wiring::Driver;
use std::alloc::Global;

// The name of the instance at a place.
fn instance_name(instances: &[RawInstance], u: u32) -> &[u8]
    ensures { result.now ≡ instance_name instances.now u }
{
    match instances.get(u as usize) {
        Some(instance) => instance.name.as_bytes(),
        None => &[],
    }
}

/// The name of its cell.
pub(crate) fn cell_name(instances: &[RawInstance], u: u32) -> &[u8]
    ensures { result.now ≡ cell_name instances.now u }
{
    match instances.get(u as usize) {
        Some(instance) => instance.cell.as_bytes(),
        None => &[],
    }
}

// The instance at a place.
fn instance_text(alloc: Global, instances: &[RawInstance], u: u32) -> Result<Text, NoMemory>
    ensures { IfOk result (λ text. text ≡ instance_text instances.now u) }
{
    let mut text = Text::from_bytes(alloc, b"instance ")?;
    text.append(instance_name(instances, u))?;
    Ok(text)
}

/// The instance and its cell.
pub(crate) fn cell_text(alloc: Global, instances: &[RawInstance], u: u32) -> Result<Text, NoMemory>
    ensures { IfOk result (λ text. text ≡ cell_text instances.now u) }
{
    let mut text = instance_text(alloc, instances, u)?;
    text.append(b", cell ")?;
    text.append(cell_name(instances, u))?;
    Ok(text)
}

/// The instance and a pin.
pub(crate) fn pin_text(
    alloc: Global,
    instances: &[RawInstance],
    u: u32,
    pin: &Text,
) -> Result<Text, NoMemory>
    ensures { IfOk result (λ text. text ≡ pin_text instances.now u pin.now) }
{
    let mut text = instance_text(alloc, instances, u)?;
    text.append(b", pin ")?;
    text.append(pin.as_bytes())?;
    Ok(text)
}

// How a constant is written.
fn constant_name(value: bool) -> &'static [u8]
    ensures { result.now ≡ constant_name value }
{
    if value { b"1'b1" } else { b"1'b0" }
}

/// Appends what drives a net.
pub(crate) fn add_driver(
    text: &mut Text,
    instances: &[RawInstance],
    driver: &Driver,
) -> Result<(), NoMemory>
    ensures { OnOk result (text.new ≡ text.old ++ driver_text instances.now driver.now) }
{
    match driver {
        Driver::Port(_) => text.append(b"input port"),
        Driver::Constant(value) => text.append(constant_name(*value)),
        Driver::Pin { instance, pin } => {
            text.append(instance_name(instances, instance.0))?;
            text.append(b" ")?;
            text.append(pin.as_bytes())
        }
    }
}

// Appends an instance that another follows.
fn add_arrow(text: &mut Text, instances: &[RawInstance], u: u32) -> Result<(), NoMemory>
    ensures { OnOk result (text.new ≡ text.old ++ arrow_text instances.now u) }
{
    text.append(instance_name(instances, u))?;
    text.append(b" -> ")
}

// The first instances of a loop, each before an arrow.
fn arrows(
    alloc: Global,
    instances: &[RawInstance],
    members: &InstanceList,
    count: usize,
) -> Result<Text, NoMemory>
    requires { count ≤ length members.now }
    ensures { IfOk result (λ text. text ≡ flat_map (arrow_text instances.now) (take count members.now)) }
{
    let mut text = Text::new(alloc);
    for k in 0..count {
        add_arrow(&mut text, instances, members.get(k).0)?;
    }
    Ok(text)
}

/// The most instances of a loop that are named.
const MOST_TOLD: usize = 20;

/// A loop, from its first instance to the first again; of a long one the first, and how many there are more.
pub(crate) fn loop_text(
    alloc: Global,
    instances: &[RawInstance],
    members: &InstanceList,
) -> Result<Text, NoMemory>
    ensures { IfOk result (λ text. text ≡ loop_text instances.now members.now) }
{
    let count = members.len();
    if MOST_TOLD < count {
        long_loop(alloc, instances, members)
    } else {
        short_loop(alloc, instances, members)
    }
}

// A loop that is named whole.
fn short_loop(
    alloc: Global,
    instances: &[RawInstance],
    members: &InstanceList,
) -> Result<Text, NoMemory>
    ensures { IfOk result (λ text. text
        ≡ flat_map (arrow_text instances.now) members.now ++ first_name instances.now members.now) }
{
    let count = members.len();
    let mut text = arrows(alloc, instances, members, count)?;
    if 0 < count {
        text.append(instance_name(instances, members.get(0).0))?;
    }
    Ok(text)
}

// The first instances of a loop, and how many there are more.
fn long_loop(
    alloc: Global,
    instances: &[RawInstance],
    members: &InstanceList,
) -> Result<Text, NoMemory>
    requires { 20 < length members.now }
    ensures { IfOk result (λ text. text
        ≡ flat_map (arrow_text instances.now) (take 19 members.now)
        ++ (instance_name instances.now (slice_index members.now 19)
        ++ (codes " and " ++ (decimal (length members.now - 20) ++ codes " more")))) }
{
    let mut text = arrows(alloc, instances, members, 19)?;
    text.append(instance_name(instances, members.get(19).0))?;
    add_rest(&mut text, members.len() - MOST_TOLD)?;
    Ok(text)
}

// Appends how many there are more.
fn add_rest(text: &mut Text, rest: usize) -> Result<(), NoMemory>
    ensures { OnOk result (text.new ≡ text.old ++ (codes " and " ++ (decimal rest ++ codes " more"))) }
{
    text.append(b" and ")?;
    add_number(text, rest)?;
    text.append(b" more")
}

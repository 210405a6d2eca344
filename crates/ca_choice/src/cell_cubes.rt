//! The cubes of a cell: what brings a value to an output, and what lets a change of a pin pass to it.

use crate::cube::Cube;
use crate::points::Points;
use crate::tables::{CellTable, vector_count};
use ca_base::NoMemory;
use ca_cell::MOST_INPUTS;
use ca_net::Trit;
use std::alloc::Global;

// The number of vectors of the most inputs.
const MOST_VECTORS: u16 = 64;

// The cubes of one output.
#[derive(Drop)]
struct OutputCubes {
    zeros: Vec<Cube>,
    ones: Vec<Cube>,
    // for each pin
    passing: Vec<Vec<Cube>>,
}

/// The widest cubes of a cell's input pins. The place of a pin is how many pins follow it.
#[derive(Drop)]
pub(crate) struct CellCubes {
    inputs: usize,
    outputs: Vec<OutputCubes>,
}

impl CellCubes {
    /// The cubes of a cell.
    pub(crate) fn new(alloc: Global, table: &CellTable) -> Result<Self, NoMemory> {
        let mut points = Points::reserve(alloc, usize::from(MOST_VECTORS))?;
        let mut outputs = Vec::new(alloc);
        for output in 0..table.outputs {
            outputs.push(OutputCubes {
                zeros: cubes_of(alloc, &mut points, table, output, Trit::Zero)?,
                ones: cubes_of(alloc, &mut points, table, output, Trit::One)?,
                passing: all_passing(alloc, &mut points, table, output)?,
            })?;
        }
        Ok(CellCubes {
            inputs: table.inputs,
            outputs,
        })
    }

    /// The number of input pins.
    pub(crate) fn inputs(&self) -> usize {
        self.inputs
    }

    /// The cubes that bring the value to the output.
    pub(crate) fn bringing(&self, output: usize, value: bool) -> &[Cube] {
        match self.outputs.get(output) {
            Some(cubes) => { if value { &cubes.ones } else { &cubes.zeros } }
            None => &[],
        }
    }

    /// The cubes of the other pins under which the output follows the pin.
    pub(crate) fn passing(&self, output: usize, pin: usize) -> &[Cube] {
        match self.outputs.get(output) {
            Some(cubes) => match cubes.passing.get(pin) {
                Some(passing) => passing,
                None => &[],
            },
            None => &[],
        }
    }

    /// The place of a pin in the cubes.
    pub(crate) fn place(&self, pin: usize) -> usize {
        place_of(self.inputs, pin)
    }
}

// The place of one of `inputs` pins.
fn place_of(inputs: usize, pin: usize) -> usize {
    inputs.saturating_sub(1).saturating_sub(pin)
}

/// The set of the first `count` places, up to six.
pub(crate) fn first_places(count: usize) -> u16 {
    match count {
        0 => 0,
        1 => 1,
        2 => 3,
        3 => 7,
        4 => 15,
        5 => 31,
        _ => 63,
    }
}

// The cubes that bring the value to the output.
fn cubes_of(
    alloc: Global,
    points: &mut Points,
    table: &CellTable,
    output: usize,
    value: Trit,
) -> Result<Vec<Cube>, NoMemory> {
    points.begin(first_places(table.inputs));
    for vector in 0..vector_count(table.inputs) {
        if table.value(output, vector) == value {
            points.insert(vector);
        }
    }
    let mut cubes = Vec::new(alloc);
    add_widest_cubes(&mut cubes, points)?;
    Ok(cubes)
}

// For each pin the cubes under which the output follows it.
fn all_passing(
    alloc: Global,
    points: &mut Points,
    table: &CellTable,
    output: usize,
) -> Result<Vec<Vec<Cube>>, NoMemory> {
    let mut cubes = Vec::new(alloc);
    for pin in 0..table.inputs {
        cubes.push(passing(alloc, points, table, output, place_of(table.inputs, pin))?)?;
    }
    Ok(cubes)
}

// The cubes under which the output follows the pin of this place: with the same value, and with the opposite
// one. So each other pin on which depends which of both it is has a value in them.
fn passing(
    alloc: Global,
    points: &mut Points,
    table: &CellTable,
    output: usize,
    place: usize,
) -> Result<Vec<Cube>, NoMemory> {
    let mut cubes = Vec::new(alloc);
    add_following(&mut cubes, points, table, output, place, Trit::One)?;
    add_following(&mut cubes, points, table, output, place, Trit::Zero)?;
    Ok(cubes)
}

// Appends the cubes under which the output has this value where the pin is 1, and the opposite one where it
// is 0.
fn add_following(
    cubes: &mut Vec<Cube>,
    points: &mut Points,
    table: &CellTable,
    output: usize,
    place: usize,
    value: Trit,
) -> Result<(), NoMemory> {
    points.begin(first_places(table.inputs));
    let pin = vector_count(place);
    for vector in 0..vector_count(table.inputs) {
        let low = table.value(output, vector & !pin);
        let high = table.value(output, vector | pin);
        if high == value && are_opposite(low, high) {
            points.insert(vector);
        }
    }
    add_widest_cubes(cubes, points)
}

/// Whether one value is 0 and the other is 1.
pub(crate) fn are_opposite(a: Trit, b: Trit) -> bool {
    match (a, b) {
        (Trit::Zero, Trit::One) | (Trit::One, Trit::Zero) => true,
        (Trit::Zero | Trit::X, Trit::Zero | Trit::X)
        | (Trit::One, Trit::One | Trit::X)
        | (Trit::X, Trit::One) => false,
    }
}

// Appends the cubes of the set's points that can't be widened.
fn add_widest_cubes(cubes: &mut Vec<Cube>, points: &Points) -> Result<(), NoMemory> {
    for held in 0..MOST_VECTORS {
        if held & !points.places() == 0 {
            add_widest(cubes, points, held)?;
        }
    }
    Ok(())
}

// Appends those in which these places have a value.
fn add_widest(cubes: &mut Vec<Cube>, points: &Points, held: u16) -> Result<(), NoMemory> {
    for ones in 0..MOST_VECTORS {
        let cube = Cube::new(held, ones);
        if ones & !held == 0 && points.is_widest(cube, MOST_INPUTS) {
            cubes.push(cube)?;
        }
    }
    Ok(())
}

//! The values of a cell's outputs.

ghost use Rattle.std.specs.Prelude.{◌≡◌, ◌<◌, length};

use crate::tables::CellTable;
use ca_base::NoMemory;
use ca_cell::Cell;
use ca_linked::{Chip, InstanceId};
use ca_net::{Network, Trit, Wave};
use ca_response::{pairs, respond};
use ca_settle::Work;
use std::alloc::Global;

// Tables of a number of cells of which nothing is known.
fn no_tables(alloc: Global, count: usize) -> Result<Vec<CellTable>, NoMemory> {
    let mut tables = Vec::new(alloc);
    for _ in 0..count {
        tables.push(CellTable {
            inputs: 0,
            outputs: 0,
            values: Vec::new(alloc),
        })?;
    }
    Ok(tables)
}

/// The table of each cell of the library that an instance is of, by the cell's place in the library; a cell
/// that no instance is of has an empty one.
pub(crate) fn cells_of(alloc: Global, chip: &Chip) -> Result<Vec<CellTable>, NoMemory> {
    chip.wired();
    let mut tables = no_tables(alloc, chip.library_cells())?;
    for u in 0..chip.parts() {
        add_cell(alloc, chip, InstanceId(u as u32), &mut tables)?;
    }
    Ok(tables)
}

// Finds the values of an instance's cell, if it is of a library cell and they aren't there.
fn add_cell(
    alloc: Global,
    chip: &Chip,
    u: InstanceId,
    tables: &mut [CellTable],
) -> Result<(), NoMemory>
    requires { u.0 < length chip.now.parts }
{
    if !chip.is_library(u) {
        return Ok(());
    }
    let place = chip.library_place(u);
    if place < tables.len() && tables[place].outputs == 0 {
        tables[place] = table_of(alloc, chip.cell_of(u))?;
    }
    Ok(())
}

// The values of the cell's outputs for each vector of its inputs.
fn table_of(alloc: Global, cell: &Cell) -> Result<CellTable, NoMemory> {
    let inputs = cell.inputs();
    let outputs = cell.outputs();
    let vectors = 2usize.pow(inputs as u32);
    let mut values = vec![in alloc; Trit::X; outputs * vectors]?;
    for vector in 0..vectors {
        add_vector(alloc, cell, vector, vectors, &mut values)?;
    }
    Ok(CellTable {
        inputs,
        outputs,
        values,
    })
}

// Finds the outputs' values for one vector of a given number.
fn add_vector(
    alloc: Global,
    cell: &Cell,
    vector: usize,
    vectors: usize,
    values: &mut [Trit],
) -> Result<(), NoMemory> {
    let mut pins = vec![in alloc; Trit::Zero; cell.inputs()]?;
    put_digits(&mut pins, vector);
    let mut work = Work::reserve(alloc, cell.node_count(), cell.device_count())?;
    let waves = respond(cell, pairs(&pins, &pins).as_slice(), &mut work);
    put_lasts(values, waves.as_slice(), vector, vectors);
    Ok(())
}

// Puts the digits of a number: the first place has the highest one.
fn put_digits(pins: &mut [Trit], vector: usize)
    ensures { length pins.new ≡ length pins.old }
{
    let mut rest = vector;
    let count = pins.len();
    for after in 0..count {
        pins[count - 1 - after] = if rest % 2 == 0 { Trit::Zero } else { Trit::One };
        rest /= 2;
    }
}

// Puts the last values, output by output.
fn put_lasts(values: &mut [Trit], waves: &[Wave], vector: usize, vectors: usize) {
    for (output, wave) in waves.iter().enumerate() {
        let place = output.saturating_mul(vectors).saturating_add(vector);
        if place < values.len() {
            values[place] = wave.last;
        }
    }
}

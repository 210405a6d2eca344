//! The rows that expose one defect of a cell, found without a matrix.

ghost use Rattle.std.specs.Prelude.{◌≡◌, ◌+◌, ◌*◌, ◌^◌, ◌<◌, ◌++◌, [], ◌∷◌, ◌↔◌, length, IsTrue, IfOk, OnOk};
ghost use Rattle.std.specs.Prelude.{slice_get, IsSomeAnd, if◌then◌else◌};
ghost use Rattle.std.specs.List.{All};
ghost use Rattle.ca_cell.specs.Raw.{is_input, is_output, role_count, circuit_of};
ghost use Rattle.ca_cell.specs.List.{IsDefectOf, defects_of, faulty_of};
ghost use Rattle.ca_cell.specs.Row.{IsBefore};
ghost use Rattle.ca_row_block.specs.Room.{HoldsCellNet};
ghost use Rattle.ca_matrix.specs.code.Rooms.{AreRoomsOf, HasRoomFor};
ghost use Rattle.ca_matrix.specs.code.Filled.{row_count, block_end};
ghost use Rattle.ca_matrix.specs.code.Single.{DifferAt, DifferSomewhere, AreFound};
ghost use Rattle.ca_matrix.specs.Single.{AreExposingRows};

use crate::rooms::Rooms;
use crate::row_number::{row_at, vector_count};
use crate::showing::are_opposite;
use ca_base::NoMemory;
use ca_cell::{Cell, Defect, Overlay, Row, Rows, defects};
use ca_net::Wave;
use ca_planes::LANES;
use ca_row_block::{RowRoom, row_ends, settle_rows};
use std::alloc::Global;

// Whether the first wave at an output ends with 0 or 1, and the second with the opposite.
fn differ_at(good: &[Wave], faulty: &[Wave], output: usize) -> bool
    ensures { IsTrue result ↔ DifferAt good.now faulty.now output }
{
    match good.get(output) {
        None => false,
        Some(wave) => match faulty.get(output) {
            None => false,
            Some(other) => are_opposite(wave.last, other.last),
        },
    }
}

// Whether at some output the first waves end with 0 or 1, and the second with the opposite.
fn differ(good: &[Wave], faulty: &[Wave]) -> bool
    requires { length faulty.now ≡ length good.now }
    ensures { IsTrue result ↔ DifferSomewhere good.now faulty.now }
{
    for output in 0..good.len() {
        if differ_at(good, faulty, output) {
            return true;
        }
    }
    false
}

// Appends a row, if it passed a test.
fn push_if(rows: &mut Rows, passed: bool, row: Row) -> Result<(), NoMemory>
    requires { All (λ earlier. IsBefore earlier row) rows.old }
    ensures { OnOk result (rows.new ≡ rows.old ++ (if passed then row ∷ [] else [])) }
{
    if passed { rows.push(row) } else { Ok(()) }
}

// Appends the rows of a block that expose the defect.
fn push_block(
    cell: &Cell,
    overlay: &Overlay<'_>,
    good: &mut RowRoom,
    faulty: &mut RowRoom,
    rows: &mut Rows,
    block: usize,
) -> Result<(), NoMemory>
    requires cell { overlay.now.raw ≡ cell.now }
    requires block { block * 64 < row_count cell.now }
    requires good { HoldsCellNet (circuit_of cell.now) good.old }
    requires faulty { HoldsCellNet (faulty_of overlay.now.raw overlay.now.defect) faulty.old }
    requires rows { AreFound cell.now overlay.now.defect (block * 64) rows.old }

    ensures good { HoldsCellNet (circuit_of cell.now) good.new }
    ensures faulty { HoldsCellNet (faulty_of overlay.now.raw overlay.now.defect) faulty.new }
    ensures rows { OnOk result
        (AreFound cell.now overlay.now.defect (block_end cell.now (block + 1)) rows.new) }
{
    let vectors = vector_count(cell.inputs());
    settle_rows(cell, block, good);
    settle_rows(overlay, block, faulty);
    for number in block * LANES..(vectors * vectors).min(block * LANES + LANES) {
        let waves = row_ends(cell, good, number - block * LANES);
        let others = row_ends(overlay, faulty, number - block * LANES);
        let passed = differ(waves.as_slice(), others.as_slice());
        push_if(rows, passed, row_at(vectors, number))?;
    }
    Ok(())
}

// The rows that expose the defect, in rooms for the two networks.
fn rows_in(
    alloc: Global,
    cell: &Cell,
    overlay: &Overlay<'_>,
    good: &mut RowRoom,
    faulty: &mut RowRoom,
) -> Result<Rows, NoMemory>
    requires cell { overlay.now.raw ≡ cell.now }
    requires good { HasRoomFor (circuit_of cell.now) good.old }
    requires faulty { HasRoomFor (faulty_of overlay.now.raw overlay.now.defect) faulty.old }
    ensures { IfOk result (AreExposingRows cell.now overlay.now.defect) }
{
    good.load(cell);
    faulty.load(overlay);
    let vectors = vector_count(cell.inputs());
    let mut rows = Rows::new(alloc);
    for block in 0..(vectors * vectors).div_ceil(LANES) {
        push_block(cell, overlay, good, faulty, &mut rows, block)?;
    }
    Ok(rows)
}

// The rows that expose a defect of the cell.
fn rows_of(alloc: Global, cell: &Cell, defect: Defect) -> Result<Rows, NoMemory>
    requires { IsDefectOf cell.now defect }
    ensures { IfOk result (AreExposingRows cell.now defect) }
{
    let mut rooms = Rooms::reserve(alloc, cell)?;
    let overlay = Overlay::new(cell, defect);
    let rows = match defect.new_node() {
        Some(_) => rows_in(alloc, cell, &overlay, &mut rooms.good, &mut rooms.open_cell),
        None => rows_in(alloc, cell, &overlay, &mut rooms.good, &mut rooms.shorted),
    };
    drop(rooms);
    rows
}

/// The rows that expose a defect of the cell, given by its place in the cell's list, in ascending order. It
/// keeps no matrix: in each row the cell and the cell with the defect are settled once, 64 rows at a time.
pub fn exposing(alloc: Global, cell: &Cell, defect: usize) -> Result<Rows, NoMemory>
    requires { defect < length (defects_of cell.now) }
    ensures { IfOk result (λ rows. IsSomeAnd (slice_get (defects_of cell.now) defect)
        (λ listed. AreExposingRows cell.now listed rows)) }
{
    let list = defects(alloc, cell)?;
    let listed = list.as_slice()[defect];
    drop(list);
    rows_of(alloc, cell, listed)
}

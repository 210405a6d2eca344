//! How one cell responds, with a defect or without, in room that was taken before.

ghost use Rattle.std.specs.Prelude.{◌≡◌, length, IfOk};
ghost use Rattle.std.specs.List.{All};
ghost use Rattle.ca_net.specs.Wave.{IsWave};
ghost use Rattle.ca_cell.specs.Raw.{is_input, role_count, circuit_of};
ghost use Rattle.ca_cell.specs.List.{IsDefectOf, faulty_of};
ghost use Rattle.ca_response.specs.Gives.{Gives};
ghost use Rattle.ca_response.specs.Rooms.{AreRoomsOf};

use crate::outputs::{OutWaves, respond};
use crate::table::{MOST_TABLE_INPUTS, Table};
use ca_base::NoMemory;
use ca_cell::{Cell, Defect, Overlay};
use ca_net::{Network, Wave};
use ca_settle::Work;
use std::alloc::Global;

/// The room for a cell, for the cell with one node more, and for the cell with one device more, and the
/// cell's table, if it has few input pins.
#[derive(Drop)]
pub struct Rooms {
    pub(crate) good: Work,
    pub(crate) open_cell: Work,
    pub(crate) shorted: Work,
    pub(crate) table: Option<Table>,
}

impl Rooms {
    /// No room, for no cell.
    pub fn none(alloc: Global) -> Result<Self, NoMemory> {
        Ok(Rooms {
            good: Work::reserve(alloc, 0, 0)?,
            open_cell: Work::reserve(alloc, 0, 0)?,
            shorted: Work::reserve(alloc, 0, 0)?,
            table: None,
        })
    }

    /// Takes the room for the networks of a cell, and builds its table, if it has few input pins.
    pub fn reserve(alloc: Global, cell: &Cell) -> Result<Self, NoMemory>
        ensures { IfOk result (AreRoomsOf cell.now) }
    {
        let nodes = cell.node_count();
        let devices = cell.device_count();
        let mut good = Work::reserve(alloc, nodes, devices)?;
        let table = table_of(alloc, cell, &mut good)?;
        Ok(Rooms {
            good,
            open_cell: Work::reserve(alloc, nodes + 1, devices)?,
            shorted: Work::reserve(alloc, nodes, devices + 1)?,
            table,
        })
    }

    /// How the cell responds: by the table, if there is one. It takes no memory.
    pub fn respond_good(&mut self, cell: &Cell, pins: &[Wave]) -> OutWaves
        requires pins { length pins.now ≡ role_count is_input cell.now.pins }
        requires waves { All IsWave pins.now }
        requires rooms { AreRoomsOf cell.now self.old }

        ensures gives { Gives cell.now (circuit_of cell.now) pins.now result.items }
        ensures waves { All IsWave result.items }
        ensures rooms { AreRoomsOf cell.now self.new }
    {
        match &self.table {
            Some(table) => table.get(pins),
            None => respond(cell, pins, &mut self.good),
        }
    }

    /// How the cell with one of its defects responds. It takes no memory.
    pub fn respond_faulty(&mut self, cell: &Cell, defect: Defect, pins: &[Wave]) -> OutWaves
        requires listed { IsDefectOf cell.now defect }
        requires pins { length pins.now ≡ role_count is_input cell.now.pins }
        requires waves { All IsWave pins.now }
        requires rooms { AreRoomsOf cell.now self.old }

        ensures gives { Gives cell.now (faulty_of cell.now defect) pins.now result.items }
        ensures waves { All IsWave result.items }
        ensures rooms { AreRoomsOf cell.now self.new }
    {
        let overlay = Overlay::new(cell, defect);
        match defect.new_node() {
            Some(_) => respond(&overlay, pins, &mut self.open_cell),
            None => respond(&overlay, pins, &mut self.shorted),
        }
    }
}

ghost use Rattle.ca_settle.specs.Settled.{IsRoomFor};
ghost use Rattle.ca_response.specs.Rooms.{IsTableOfCell};

// The table of a cell, if it has few input pins.
fn table_of(alloc: Global, cell: &Cell, work: &mut Work) -> Result<Option<Table>, NoMemory>
    requires room { IsRoomFor (circuit_of cell.now) work.old }
    ensures ok { IfOk result (IsTableOfCell cell.now) }
    ensures room { IsRoomFor (circuit_of cell.now) work.new }
{
    if cell.inputs() <= MOST_TABLE_INPUTS {
        Ok(Some(Table::build(alloc, cell, work)?))
    } else {
        Ok(None)
    }
}

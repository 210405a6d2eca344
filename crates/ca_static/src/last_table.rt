//! What a static cell ends with.

ghost use Rattle.std.specs.Prelude.{◌^◌, ◌≡◌, ◌<◌, length, IfOk, Some};
ghost use Rattle.ca_cell.specs.Raw.{circuit_of};
ghost use Rattle.ca_settle.specs.Settled.{IsRoomFor};
ghost use Rattle.ca_static.specs.LastTable.{IsTableWhereStatic, entry_at, last_at, IsLastTable};
ghost use Rattle.ca_flips.specs.Static.{IsStatic};

use crate::statics::{is_static, waves_to};
use ca_base::NoMemory;
use ca_cell::Cell;
use ca_net::Trit;
use ca_response::{OutWaves, respond};
use ca_settle::Work;
use std::alloc::Global;
use std::marker::Model;

/// What a static cell ends with at its output pins, for each last vector of its input pins: at most 64
/// entries.
#[derive(Drop)]
pub struct LastTable {
    entries: Vec<OutWaves>,
}

impl Model for LastTable {
    ghost use Rattle.std.specs.Prelude.{List, map};
    ghost use Rattle.ca_net.specs.declared.wave.Wave.{Wave};

    ghost Value = { List (List Wave) };

    ghost view = { λ table. map (λ entry. entry.items) table.entries.items };
}

impl LastTable {
    /// The table of a cell, if it is static.
    pub fn of(alloc: Global, cell: &Cell, work: &mut Work) -> Result<Option<Self>, NoMemory>
        requires room { IsRoomFor (circuit_of cell.now) work.old }
        ensures ok { IfOk result (IsTableWhereStatic cell.now) }
        ensures room { IsRoomFor (circuit_of cell.now) work.new }
    {
        if is_static(cell, work) {
            Ok(Some(LastTable::of_static(alloc, cell, work)?))
        } else {
            Ok(None)
        }
    }

    // The table of a static cell.
    fn of_static(alloc: Global, cell: &Cell, work: &mut Work) -> Result<Self, NoMemory>
        requires is_static { IsStatic cell.now }
        requires room { IsRoomFor (circuit_of cell.now) work.old }
        ensures ok { IfOk result (IsLastTable cell.now) }
        ensures room { IsRoomFor (circuit_of cell.now) work.new }
    {
        let vectors = 2usize.pow(cell.inputs() as u32);
        let mut entries = Vec::new(alloc);
        for number in 0..vectors {
            let pins = waves_to(cell.inputs(), number);
            entries.push(respond(cell, pins.as_slice(), work))?;
        }
        Ok(LastTable { entries })
    }

    /// The last value of an output pin, counted from 0, for the vector of a number.
    pub fn last(&self, number: usize, output: usize) -> Trit
        requires number { number < length self.now }
        requires output { output < length (entry_at self.now number) }
        ensures { result ≡ last_at self.now number output }
    {
        self.entries[number].as_slice()[output].last
    }
}

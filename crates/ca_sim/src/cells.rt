//! How the instances of a chip respond.

ghost use Rattle.std.specs.Prelude.{◌≡◌, ◌<◌, length, IfOk};
ghost use Rattle.std.specs.List.{All};
ghost use Rattle.ca_net.specs.Wave.{IsWave};
ghost use Rattle.ca_response.specs.Gives.{Gives};
ghost use Rattle.ca_flat.specs.Chip.{cell_at, inputs_at, count_of, IsChipDefect};
ghost use Rattle.ca_flat.specs.Flat.{circuit_in, defect_at};
ghost use Rattle.ca_view.specs.Linked.{IsPlaced, place_in};
ghost use Rattle.ca_view.specs.Places.{cell_number};
ghost use Rattle.ca_sim.specs.code.Simulator.{CountsOne};

use crate::cache::{Cache, Entry};
use ca_base::NoMemory;
use ca_cell::Defect;
use ca_flat::ChipDefect;
use ca_net::{Trit, Wave};
use ca_response::{MOST_TABLE_INPUTS, OutWaves, PinWaves, Rooms, copied};
use ca_view::View;
use std::alloc::Global;

// The number of slots of the cache: about a MiB.
const SLOTS: usize = 16_384;

// An odd number with many digits, by which slots are spread.
const MIX: usize = 0x9E37_79B9_7F4A_7C15;

/// The room for the cells of a chip, by their numbers, and the number of evaluations so far.
#[derive(Drop)]
pub struct Cells {
    pub(crate) rooms: Vec<Rooms>,
    pub(crate) cache: Cache,
    pub(crate) evaluated: u64,
}

impl Cells {
    ghost use Rattle.ca_sim.specs.code.Cells.{AreCellRooms, AreCells, AreRoomsTo};

    /// Takes the room for the cells of all instances with a place, and builds their tables.
    pub(crate) fn reserve(alloc: Global, chip: &View) -> Result<Self, NoMemory>
        ensures { IfOk result (AreCells chip.now.core (place_in chip.now.ranks)
            (cell_number chip.now.chip)) }
    {
        let mut rooms = Vec::new(alloc);
        for number in 0..chip.numbers() {
            rooms.push(rooms_for(alloc, chip, number)?)?;
        }
        Ok(Cells {
            rooms,
            cache: Cache::reserve(alloc, SLOTS)?,
            evaluated: 0,
        })
    }

    /// The same room and cache, and no evaluation is counted.
    pub(crate) fn counted_anew(self) -> Self
        ensures count { result.evaluated ≡ 0 }
        ensures rooms { result.rooms.items ≡ self.rooms.items }
        ensures cache { result.cache ≡ self.cache }
    {
        Cells {
            evaluated: 0,
            ..self
        }
    }

    /// How an instance responds, without a look at the cache.
    fn compute(&mut self, chip: &View, u: usize, aim: Option<ChipDefect>, pins: &[Wave]) -> OutWaves
        requires placed { IsPlaced chip.now.core (place_in chip.now.ranks) u }
        requires listed { IsChipDefect chip.now.core aim }
        requires pins { length pins.now ≡ inputs_at chip.now.core u }
        requires waves { All IsWave pins.now }
        requires rooms { AreCellRooms chip.now.core (place_in chip.now.ranks) (cell_number chip.now.chip)
            self.old.rooms.items }

        ensures gives { Gives (cell_at chip.now.core u) (circuit_in chip.now.core aim u) pins.now
            result.items }
        ensures waves { All IsWave result.items }
        ensures rooms { AreCellRooms chip.now.core (place_in chip.now.ranks) (cell_number chip.now.chip)
            self.new.rooms.items }
        ensures cache { self.new.cache ≡ self.old.cache }
        ensures count { self.new.evaluated ≡ self.old.evaluated }
    {
        chip.linked();
        let cell = chip.cell(u);
        let rooms = &mut self.rooms[chip.number(u)];
        match aim {
            Some(aim) if aim.instance as usize == u => rooms.respond_faulty(cell, aim.defect, pins),
            _ => rooms.respond_good(cell, pins),
        }
    }

    /// How an instance responds to waves of its input pins, good or with the defect that is aimed at: by the
    /// table of its cell, or as the cache has it, or computed.
    pub(crate) fn respond(
        &mut self,
        chip: &View,
        u: usize,
        aim: Option<ChipDefect>,
        pins: PinWaves,
    ) -> OutWaves
        requires placed { IsPlaced chip.now.core (place_in chip.now.ranks) u }
        requires listed { IsChipDefect chip.now.core aim }
        requires pins { length pins.items ≡ inputs_at chip.now.core u }
        requires waves { All IsWave pins.items }
        requires cells { AreCells chip.now.core (place_in chip.now.ranks)
            (cell_number chip.now.chip) self.old }

        ensures gives { Gives (cell_at chip.now.core u) (circuit_in chip.now.core aim u) pins.items
            result.items }
        ensures waves { All IsWave result.items }
        ensures cells { AreCells chip.now.core (place_in chip.now.ranks)
            (cell_number chip.now.chip) self.new }
        ensures count { CountsOne self.old.evaluated self.new.evaluated }
    {
        self.evaluated = self.evaluated.saturating_add(1);
        let defect = defect_here(aim, u);
        if defect.is_none() && pins.len() <= MOST_TABLE_INPUTS {
            return self.compute(chip, u, aim, pins.as_slice());
        }
        let number = chip.number(u);
        let slot = slot_of(number, defect, pins.as_slice(), self.cache.slots.len());
        if let Some(outputs) = self
            .cache
            .get(chip, u, slot, number, defect, pins.as_slice())
        {
            return outputs;
        }
        let outputs = self.compute(chip, u, aim, pins.as_slice());
        let entry = Entry {
            number,
            defect,
            pins,
            outputs: copied(&outputs),
        };
        self.cache.put(chip, u, slot, entry);
        outputs
    }
}

ghost use Rattle.ca_sim.specs.code.Cells.{IsOneOf, FitCellsOf};

// The room for the cell of a number, if some instance has it.
fn rooms_for(alloc: Global, chip: &View, number: usize) -> Result<Rooms, NoMemory>
    ensures { IfOk result
        (FitCellsOf chip.now.core (place_in chip.now.ranks) (cell_number chip.now.chip) number) }
{
    chip.linked();
    match instance_with(chip, number) {
        Some(u) => Rooms::reserve(alloc, chip.cell(u)),
        None => Rooms::none(alloc),
    }
}

// Some instance with a place whose cell has the number.
fn instance_with(chip: &View, number: usize) -> Option<usize>
    ensures { IsOneOf chip.now.core (place_in chip.now.ranks) (cell_number chip.now.chip) number result }
{
    for u in 0..chip.instances() {
        if chip.rank(u) > 0 && chip.number(u) == number {
            return Some(u);
        }
    }
    None
}

// The defect of an instance.
pub(crate) fn defect_here(aim: Option<ChipDefect>, u: usize) -> Option<Defect>
    ensures { result ≡ defect_at aim u }
{
    match aim {
        Some(aim) if aim.instance as usize == u => Some(aim.defect),
        _ => None,
    }
}

// The slot of a question: a mix of the cell's number, the defect and the waves. So the defects of an
// instance, which are aimed at one after another, have slots of their own.
fn slot_of(number: usize, defect: Option<Defect>, pins: &[Wave], slots: usize) -> usize
    requires { 0 < slots }
    ensures { result < slots }
{
    let mut mix = number.wrapping_mul(MIX).wrapping_add(defect_digits(defect));
    for pin in pins {
        let wave = 9 * digit(pin.first) + 3 * digit(pin.mid) + digit(pin.last);
        mix = mix.wrapping_mul(31).wrapping_add(wave);
    }
    (mix.wrapping_mul(MIX) >> 32) % slots
}

// A number for a defect; small devices and nodes have different ones.
fn defect_digits(defect: Option<Defect>) -> usize {
    match defect {
        None => 0,
        Some(Defect::OpenDrain(device)) => digits(1, device.0, 0),
        Some(Defect::OpenSource(device)) => digits(2, device.0, 0),
        Some(Defect::OpenGate(device)) => digits(3, device.0, 0),
        Some(Defect::OpenPin(pin)) => digits(4, pin.0, 0),
        Some(Defect::Short(low, high)) => digits(5, low.0, high.0),
    }
}

fn digits(kind: usize, low: u32, high: u32) -> usize {
    kind.wrapping_add(8 * (low as usize))
        .wrapping_add(1024 * (high as usize))
}

fn digit(value: Trit) -> usize
    ensures { result < 3 }
{
    match value {
        Trit::Zero => 0,
        Trit::One => 1,
        Trit::X => 2,
    }
}

//! What cells with a defect give.

ghost use Rattle.std.specs.Prelude.{◌≡◌, ◌<◌, length, IfOk, IfSome, IsTrue};
ghost use Rattle.std.specs.List.{All};
ghost use Rattle.ca_net.specs.Wave.{IsWave};
ghost use Rattle.ca_cell.specs.List.{faulty_of};
ghost use Rattle.ca_response.specs.Gives.{Gives};
ghost use Rattle.ca_flat.specs.Chip.{cell_at, inputs_at, IsDefectIn};
ghost use Rattle.ca_view.specs.Linked.{IsPlaced, IsPlacedDefect, place_in};
ghost use Rattle.ca_view.specs.Places.{cell_number};
ghost use Rattle.ca_sim.specs.code.Cells.{AreCellRooms, FitCellsOf};
ghost use Rattle.ca_sweep.specs.code.Faulty.{AreFaulty, HoldsTrue};

use crate::cells::instance_with;
use ca_base::NoMemory;
use ca_cell::Defect;
use ca_flat::ChipDefect;
use ca_net::{Trit, Wave};
use ca_response::{OutWaves, PinWaves, Rooms, copied};
use ca_view::View;
use std::alloc::Global;

// The least and the greatest number of slots, and how many there are for an instance in between.
const FEWEST_SLOTS: usize = 4_096;

const MOST_SLOTS: usize = 16_384;

const SLOTS_EACH: usize = 4;

// An odd number with many digits, by which slots are spread.
const MIX: usize = 0x9E37_79B9_7F4A_7C15;

/// What a cell with a defect gave.
#[derive(Drop, Debug)]
pub struct Entry {
    pub(crate) number: usize,
    pub(crate) defect: Defect,
    pub(crate) pins: PinWaves,
    pub(crate) outputs: OutWaves,
}

/// The room for the cells of a chip, by their numbers, and slots, each empty or with what a cell gave.
#[derive(Drop)]
pub struct Faulty {
    pub(crate) rooms: Vec<Rooms>,
    pub(crate) slots: Vec<Option<Entry>>,
}

impl Faulty {
    /// Takes the room for the cells of all instances with a place. Nothing is kept yet.
    pub(crate) fn reserve(alloc: Global, chip: &View<'_>) -> Result<Self, NoMemory>
        ensures { IfOk result (AreFaulty chip.now.core (place_in chip.now.ranks)
            (cell_number chip.now.chip)) }
    {
        let rooms = rooms_of(alloc, chip)?;
        Ok(Faulty {
            rooms,
            slots: empty_slots(alloc, slot_count(chip.instances()))?,
        })
    }

    /// What the cell of a defect's instance gives with it, computed.
    pub(crate) fn compute(&mut self, chip: &View<'_>, defect: ChipDefect, pins: &[Wave]) -> OutWaves
        requires defect { IsPlacedDefect chip.now.core (place_in chip.now.ranks) defect }
        requires pins { length pins.now ≡ inputs_at chip.now.core defect.instance }
        requires waves { All IsWave pins.now }
        requires rooms { AreCellRooms chip.now.core (place_in chip.now.ranks) (cell_number chip.now.chip)
            self.old.rooms.items }

        ensures gives { Gives (cell_at chip.now.core defect.instance)
            (faulty_of (cell_at chip.now.core defect.instance) defect.defect) pins.now result.items }
        ensures rooms { AreCellRooms chip.now.core (place_in chip.now.ranks) (cell_number chip.now.chip)
            self.new.rooms.items }
        ensures slots { self.new.slots.items ≡ self.old.slots.items }
    {
        chip.linked();
        let u = defect.instance as usize;
        let cell = chip.cell(u);
        let rooms = &mut self.rooms[chip.number(u)];
        rooms.respond_faulty(cell, defect.defect, pins)
    }

    // What the cell of an instance gives with a defect, if it is in the slot.
    fn get(
        &self,
        chip: &View<'_>,
        defect: ChipDefect,
        slot: usize,
        pins: &[Wave],
    ) -> Option<OutWaves>
        requires defect { IsPlacedDefect chip.now.core (place_in chip.now.ranks) defect }
        requires slot { slot < length self.now.slots.items }
        requires slots { All (HoldsTrue chip.now.core (place_in chip.now.ranks)
            (cell_number chip.now.chip)) self.now.slots.items }

        ensures { IfSome result (λ outputs. Gives (cell_at chip.now.core defect.instance)
            (faulty_of (cell_at chip.now.core defect.instance) defect.defect) pins.now outputs.items) }
    {
        let number = chip.number(defect.instance as usize);
        match &self.slots[slot] {
            Some(entry) => if_same(entry, number, defect.defect, pins),
            None => None,
        }
    }

    /// What the cell of a defect's instance gives with it, for these waves of the input pins. It takes no
    /// memory.
    pub(crate) fn respond(
        &mut self,
        chip: &View<'_>,
        defect: ChipDefect,
        pins: PinWaves,
    ) -> OutWaves
        requires defect { IsPlacedDefect chip.now.core (place_in chip.now.ranks) defect }
        requires pins { length pins.items ≡ inputs_at chip.now.core defect.instance }
        requires waves { All IsWave pins.items }
        requires kept { AreFaulty chip.now.core (place_in chip.now.ranks) (cell_number chip.now.chip)
            self.old }

        ensures gives { Gives (cell_at chip.now.core defect.instance)
            (faulty_of (cell_at chip.now.core defect.instance) defect.defect) pins.items result.items }
        ensures kept { AreFaulty chip.now.core (place_in chip.now.ranks) (cell_number chip.now.chip)
            self.new }
    {
        chip.linked();
        let number = chip.number(defect.instance as usize);
        let slot = slot_of(number, defect.defect, pins.as_slice(), self.slots.len());
        if let Some(outputs) = self.get(chip, defect, slot, pins.as_slice()) {
            return outputs;
        }
        let outputs = self.compute(chip, defect, pins.as_slice());
        self.slots[slot] = Some(Entry {
            number,
            defect: defect.defect,
            pins,
            outputs: copied(&outputs),
        });
        outputs
    }
}

// The room for the cells, by their numbers.
fn rooms_of(alloc: Global, chip: &View<'_>) -> Result<Vec<Rooms>, NoMemory>
    ensures { IfOk result (λ rooms. AreCellRooms chip.now.core (place_in chip.now.ranks)
        (cell_number chip.now.chip) rooms.items) }
{
    let mut rooms = Vec::new(alloc);
    for number in 0..chip.numbers() {
        rooms.push(rooms_for(alloc, chip, number)?)?;
    }
    Ok(rooms)
}

// The room for the cell of a number, if some instance has it.
fn rooms_for(alloc: Global, chip: &View<'_>, number: usize) -> Result<Rooms, NoMemory>
    ensures { IfOk result
        (FitCellsOf chip.now.core (place_in chip.now.ranks) (cell_number chip.now.chip) number) }
{
    chip.linked();
    match instance_with(chip, number) {
        Some(u) => Rooms::reserve(alloc, chip.cell(u)),
        None => Rooms::none(alloc),
    }
}

ghost use Rattle.std.specs.Prelude.{None};

// How many slots there are for this many instances.
fn slot_count(instances: usize) -> usize
    ensures { 0 < result }
{
    instances
        .saturating_mul(SLOTS_EACH)
        .max(FEWEST_SLOTS)
        .min(MOST_SLOTS)
}

// Empty slots.
fn empty_slots(alloc: Global, count: usize) -> Result<Vec<Option<Entry>>, NoMemory>
    ensures count { IfOk result (λ slots. length slots.items ≡ count) }
    ensures empty { IfOk result (λ slots. All (λ slot. slot ≡ None) slots.items) }
{
    let mut slots = Vec::with_capacity(alloc, count)?;
    for _slot in 0..count {
        slots.push(None)?;
    }
    Ok(slots)
}

// What the entry has, if it is for this cell, defect and waves.
fn if_same(entry: &Entry, number: usize, defect: Defect, pins: &[Wave]) -> Option<OutWaves>
    ensures { IfSome result (λ outputs. IsEntry entry.now number defect pins.now outputs.items) }
{
    let same = entry.number == number
        && entry.defect == defect
        && same_waves(entry.pins.as_slice(), pins);
    if same {
        Some(copied(&entry.outputs))
    } else {
        None
    }
}

ghost use Rattle.ca_sweep.specs.code.Faulty.{IsEntry};

// Whether the waves are one.
fn same_wave(a: Wave, b: Wave) -> bool
    ensures { IsTrue result → a ≡ b }
{
    a == b
}

/// Whether the lists have the same waves.
pub(crate) fn same_waves(a: &[Wave], b: &[Wave]) -> bool
    ensures { IsTrue result → a.now ≡ b.now }
{
    if a.len() != b.len() {
        return false;
    }
    for place in 0..a.len() {
        let same = same_wave(a[place], b[place]);
        if !same {
            return false;
        }
    }
    true
}

// The slot of a question: a mix of the cell's number, the defect and the waves.
fn slot_of(number: usize, defect: Defect, pins: &[Wave], slots: usize) -> usize
    requires { 0 < slots }
    ensures { result < slots }
{
    let mut mix = number.wrapping_mul(MIX).wrapping_add(defect_digits(defect));
    for pin in pins {
        let wave = 9 * digit(pin.first) + 3 * digit(pin.mid) + digit(pin.last);
        mix = mix.wrapping_mul(31).wrapping_add(wave);
    }
    (mix.wrapping_mul(MIX) >> 32) % slots
}

// A number for a defect; small devices and nodes have different ones.
fn defect_digits(defect: Defect) -> usize {
    match defect {
        Defect::OpenDrain(device) => digits(1, device.0, 0),
        Defect::OpenSource(device) => digits(2, device.0, 0),
        Defect::OpenGate(device) => digits(3, device.0, 0),
        Defect::OpenPin(pin) => digits(4, pin.0, 0),
        Defect::Short(low, high) => digits(5, low.0, high.0),
    }
}

fn digits(kind: usize, low: u32, high: u32) -> usize {
    kind.wrapping_add(8 * (low as usize))
        .wrapping_add(1024 * (high as usize))
}

fn digit(value: Trit) -> usize
    ensures { result < 3 }
{
    match value {
        Trit::Zero => 0,
        Trit::One => 1,
        Trit::X => 2,
    }
}

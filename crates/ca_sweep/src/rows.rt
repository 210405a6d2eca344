//! Rows of a cell: what each of its defects ends with, for waves of its input pins that occurred.

ghost use Rattle.std.specs.Prelude.{◌≡◌, ◌<◌, length, slice_index, slice_index_or, IfOk, IsTrue, None};
ghost use Rattle.std.specs.List.{All};
ghost use Rattle.std.specs.Option.{ForSome};
ghost use Rattle.ca_net.specs.Wave.{IsWave};
ghost use Rattle.ca_flat.specs.Chip.{cell_at, count_of, inputs_at};
ghost use Rattle.ca_view.specs.Linked.{IsPlaced, place_in};
ghost use Rattle.ca_view.specs.Places.{cell_number};
ghost use Rattle.ca_sweep.specs.code.Faulty.{AreFaulty};
ghost use Rattle.ca_sweep.specs.code.Rows.{AreRows, AreCodes, AreLists, FitsList, IsListOf};
ghost use Rattle.ca_sweep.specs.code.Rows.{IsRowOf, HoldsRow};
ghost use Rattle.ca_sweep.specs.code.Rows.{AreNumbers, IsLoudIn, code_of_lasts};
ghost use Rattle.ca_sweep.specs.code.Digits.{digit_of};
ghost use Rattle.ca_sweep.specs.code.Loud.{AreLoud};

use crate::cells::instance_with;
use crate::codes::{Goods, flips_of_code};
use crate::faulty::{Faulty, same_waves};
use crate::row::{Codes, MOST_CODES, Row};
use crate::sweep::is_none;
use ca_base::NoMemory;
use ca_cell::{Defect, DefectList, defects};
use ca_flat::ChipDefect;
use ca_net::{Trit, Wave};
use ca_planes::{LANES, with_lane};
use ca_response::PinWaves;
use ca_view::View;
use std::alloc::Global;

// The least and the greatest number of slots, and how many there are for an instance in between.
const FEWEST_SLOTS: usize = 4_096;

const MOST_SLOTS: usize = 65_536;

const SLOTS_EACH: usize = 8;

// In how many slots a row may be.
const WAYS: usize = 4;

// An odd number with many digits, by which slots are spread.
const MIX: usize = 0x9E37_79B9_7F4A_7C15;

// A slot, and whether it has the row that was asked for.
#[derive(Clone, Copy, Debug)]
struct Slot {
    slot: usize,
    has_row: bool,
}

/// The defects of the cells, by their numbers, the number of each instance's cell, and slots, each empty or
/// with a row.
#[derive(Drop)]
pub struct Rows {
    pub(crate) lists: Vec<DefectList>,
    pub(crate) numbers: Vec<usize>,
    pub(crate) slots: Vec<Option<Row>>,
}

impl Rows {
    /// Lists the defects of the cells of all instances with a place. No row is kept yet.
    pub(crate) fn reserve(alloc: Global, chip: &View<'_>) -> Result<Self, NoMemory>
        ensures { IfOk result (AreRows chip.now.core (place_in chip.now.ranks)
            (cell_number chip.now.chip)) }
    {
        let lists = lists_of(alloc, chip)?;
        let numbers = numbers_of(alloc, chip)?;
        Ok(Rows {
            lists,
            numbers,
            slots: empty_slots(alloc, slot_count(chip.instances()))?,
        })
    }

    // Whether the slot has the row of the cell of this number for these waves.
    fn is_there(&self, slot: usize, number: usize, pins: &[Wave]) -> bool
        requires { slot < length self.now.slots.items }
        ensures { IsTrue result → ForSome (slice_index_or self.now.slots.items slot None)
            (IsRowFor number pins.now) }
    {
        match &self.slots[slot] {
            Some(row) => row.number == number && same_waves(row.pins.as_slice(), pins),
            None => false,
        }
    }

    // The slot for a row: one of a few that has it, or the first of them that is empty, or else the first.
    fn slot_of(&self, number: usize, pins: &[Wave]) -> Slot
        requires { 0 < length self.now.slots.items }
        ensures within { result.slot < length self.now.slots.items }
        ensures row { IsTrue result.has_row → ForSome (slice_index_or self.now.slots.items result.slot None)
            (IsRowFor number pins.now) }
    {
        let count = self.slots.len();
        let first = mix_of(number, pins) % count;
        for step in 0..WAYS {
            let slot = (first + step) % count;
            if self.is_there(slot, number, pins) {
                return Slot {
                    slot,
                    has_row: true,
                };
            }
            if self.slots[slot].is_none() {
                return Slot {
                    slot,
                    has_row: false,
                };
            }
        }
        Slot {
            slot: first,
            has_row: false,
        }
    }

    /// The number of an instance's cell.
    pub(crate) fn number(&self, chip: &View<'_>, u: usize) -> usize
        requires placed { IsPlaced chip.now.core (place_in chip.now.ranks) u }
        requires rows { AreRows chip.now.core (place_in chip.now.ranks) (cell_number chip.now.chip)
            self.now }
        ensures { result ≡ cell_number chip.now.chip u }
    {
        chip.linked();
        self.numbers[u]
    }

    /// The slot with the row of an instance's cell for these waves of its input pins; the row is found if it
    /// isn't there, for these good last values of its output pins. Takes no memory.
    pub(crate) fn find(
        &mut self,
        chip: &View<'_>,
        faulty: &mut Faulty,
        u: usize,
        pins: PinWaves,
        goods: Goods,
    ) -> usize
        requires placed { IsPlaced chip.now.core (place_in chip.now.ranks) u }
        requires pins { length pins.items ≡ inputs_at chip.now.core u }
        requires waves { All IsWave pins.items }
        requires rows { AreRows chip.now.core (place_in chip.now.ranks) (cell_number chip.now.chip)
            self.old }
        requires faulty { AreFaulty chip.now.core (place_in chip.now.ranks) (cell_number chip.now.chip)
            faulty.old }

        ensures row { IsRowOf (cell_at chip.now.core u) pins.items
            (slice_index_or self.new.slots.items result None) }
        ensures within { result < length self.new.slots.items }
        ensures rows { AreRows chip.now.core (place_in chip.now.ranks) (cell_number chip.now.chip)
            self.new }
        ensures faulty { AreFaulty chip.now.core (place_in chip.now.ranks) (cell_number chip.now.chip)
            faulty.new }
    {
        chip.linked();
        let number = self.number(chip, u);
        let found = self.slot_of(number, pins.as_slice());
        if found.has_row {
            return found.slot;
        }
        let codes = codes_of(chip, faulty, u, &self.lists[number], pins.as_slice());
        let loud = loud_codes(codes.as_slice(), goods);
        self.slots[found.slot] = Some(Row {
            number,
            pins,
            codes,
            goods,
            loud,
        });
        found.slot
    }

    /// The place of a defect in the list of the cell with a number: it is looked for at this place first.
    pub(crate) fn place(&self, number: usize, defect: Defect, hint: usize) -> Option<usize>
        requires { number < length self.now.lists.items }
        ensures { IfSome result (λ place.
            slice_get (slice_index_or self.now.lists.items number []) place ≡ Some defect) }
    {
        place_of(&self.lists[number], defect, hint)
    }

    /// The code for a place of that list, in the row of a slot.
    pub(crate) fn code(&self, slot: usize, place: usize) -> Option<u8>
        requires { slot < length self.now.slots.items }
        ensures { IfSome result (IsCodeIn (slice_index_or self.now.slots.items slot None) place) }
    {
        match &self.slots[slot] {
            Some(row) if place < row.codes.len() => Some(row.codes[place]),
            Some(_) | None => None,
        }
    }

    /// Which of the first codes, this many, flip an output pin that has these good last values, in the row of
    /// a slot: a bit each.
    pub(crate) fn loud(&self, slot: usize, goods: Goods, count: usize) -> Option<u64>
        requires { slot < length self.now.slots.items }
        ensures { IfSome result (IsLoudIn (slice_index_or self.now.slots.items slot None) goods count) }
    {
        match &self.slots[slot] {
            Some(row) if count <= row.codes.len() && row.goods == goods => Some(row.loud),
            Some(_) | None => None,
        }
    }
}

// The place of a defect in a list, looked for at a place first.
fn place_of(list: &DefectList, defect: Defect, hint: usize) -> Option<usize>
    ensures { IfSome result (λ place. slice_get list.now place ≡ Some defect) }
{
    if hint < list.len() && is_same(list.get(hint), defect) {
        return Some(hint);
    }
    for place in 0..list.len() {
        if is_same(list.get(place), defect) {
            return Some(place);
        }
    }
    None
}

/// Whether the defects are one.
pub(crate) fn is_same(one: Defect, other: Defect) -> bool
    ensures { IsTrue result → one ≡ other }
{
    one == other
}

ghost use Rattle.std.specs.Prelude.{slice_get, IfSome, Some, []};
ghost use Rattle.ca_sweep.specs.code.Rows.{IsRowFor, IsCodeIn};

// The codes of the defects of an instance's cell, for these waves of its input pins.
fn codes_of(
    chip: &View<'_>,
    faulty: &mut Faulty,
    u: usize,
    list: &DefectList,
    pins: &[Wave],
) -> Codes
    requires placed { IsPlaced chip.now.core (place_in chip.now.ranks) u }
    requires list { IsListOf (cell_at chip.now.core u) list.now }
    requires pins { length pins.now ≡ inputs_at chip.now.core u }
    requires waves { All IsWave pins.now }
    requires faulty { AreFaulty chip.now.core (place_in chip.now.ranks) (cell_number chip.now.chip)
        faulty.old }

    ensures codes { AreCodes (cell_at chip.now.core u) pins.now result.items }
    ensures faulty { AreFaulty chip.now.core (place_in chip.now.ranks) (cell_number chip.now.chip)
        faulty.new }
{
    chip.linked();
    let mut codes = Codes::new();
    let count = list.len().min(MOST_CODES);
    for place in 0..count {
        let defect = ChipDefect {
            instance: u as u32,
            defect: list.get(place),
        };
        let outputs = faulty.compute(chip, defect, pins);
        codes.push(code_of_lasts(outputs.as_slice()));
    }
    codes
}

// Which of the first 64 codes flip an output pin that has these good last values: a bit each.
fn loud_codes(codes: &[u8], goods: Goods) -> u64
    ensures { AreLoud codes.now goods result }
{
    let mut loud = 0;
    for place in 0..codes.len().min(LANES) {
        let flips = flips_of_code(goods, codes[place]);
        loud = with_lane(loud, place, !is_none(flips));
    }
    loud
}

// The last values of the first two waves as a number.
fn code_of_lasts(outputs: &[Wave]) -> u8
    ensures { result ≡ code_of_lasts outputs.now }
{
    digit_of(last_at(outputs, 0)) + 4 * digit_of(last_at(outputs, 1))
}

ghost use Rattle.ca_response.specs.Gives.{wave_at};

// The last value of a wave, X where there is none.
fn last_at(outputs: &[Wave], output: usize) -> Trit
    ensures { result ≡ (wave_at outputs.now output).last }
{
    if output < outputs.len() {
        outputs[output].last
    } else {
        Trit::X
    }
}

// A value as a number.
fn digit_of(value: Trit) -> u8
    ensures same { result ≡ digit_of value }
    ensures few { result < 3 }
{
    match value {
        Trit::Zero => 0,
        Trit::One => 1,
        Trit::X => 2,
    }
}

// The number of the cell of each instance that has a place, 0 for the others.
fn numbers_of(alloc: Global, chip: &View<'_>) -> Result<Vec<usize>, NoMemory>
    ensures { IfOk result (λ numbers. AreNumbers chip.now.core (place_in chip.now.ranks)
        (cell_number chip.now.chip) numbers.items) }
{
    let mut numbers = Vec::with_capacity(alloc, chip.instances())?;
    for u in 0..chip.instances() {
        numbers.push(number_at(chip, u))?;
    }
    Ok(numbers)
}

// The number of an instance's cell, if it has a place.
fn number_at(chip: &View<'_>, u: usize) -> usize
    requires { u < count_of chip.now.core }
    ensures { IsPlaced chip.now.core (place_in chip.now.ranks) u → result ≡ cell_number chip.now.chip u }
{
    if chip.rank(u) == 0 {
        return 0;
    }
    chip.number(u)
}

/// The defects of the cells, by their numbers.
pub(crate) fn lists_of(alloc: Global, chip: &View<'_>) -> Result<Vec<DefectList>, NoMemory>
    ensures { IfOk result (λ lists. AreLists chip.now.core (place_in chip.now.ranks)
        (cell_number chip.now.chip) lists.items) }
{
    let mut lists = Vec::new(alloc);
    for number in 0..chip.numbers() {
        lists.push(list_for(alloc, chip, number)?)?;
    }
    Ok(lists)
}

// The defects of the cell of a number, if some instance has it.
fn list_for(alloc: Global, chip: &View<'_>, number: usize) -> Result<DefectList, NoMemory>
    ensures { IfOk result
        (FitsList chip.now.core (place_in chip.now.ranks) (cell_number chip.now.chip) number) }
{
    chip.linked();
    match instance_with(chip, number) {
        Some(u) => defects(alloc, chip.cell(u)),
        None => Ok(DefectList::new(alloc)),
    }
}

// How many slots there are for this many instances.
fn slot_count(instances: usize) -> usize
    ensures { 0 < result }
{
    instances
        .saturating_mul(SLOTS_EACH)
        .max(FEWEST_SLOTS)
        .min(MOST_SLOTS)
}

// Empty slots.
fn empty_slots(alloc: Global, count: usize) -> Result<Vec<Option<Row>>, NoMemory>
    ensures count { IfOk result (λ slots. length slots.items ≡ count) }
    ensures empty { IfOk result (λ slots. All (λ slot. slot ≡ None) slots.items) }
{
    let mut slots = Vec::with_capacity(alloc, count)?;
    for _slot in 0..count {
        slots.push(None)?;
    }
    Ok(slots)
}

// A mix of a cell's number and waves of its input pins.
fn mix_of(number: usize, pins: &[Wave]) -> usize {
    let mut mix = number.wrapping_mul(MIX);
    for pin in pins {
        let wave = 9 * digit_of(pin.first) + 3 * digit_of(pin.mid) + digit_of(pin.last);
        mix = mix.wrapping_mul(31).wrapping_add(wave as usize);
    }
    mix.wrapping_mul(MIX) >> 32
}

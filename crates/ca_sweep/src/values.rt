//! Last values of the nets after an instance, found in the order of the instances.

ghost use Rattle.std.specs.Prelude.{◌+◌, ◌≡◌, ◌<◌, length, replicate, false, IsTrue, IfOk, IfSome};
ghost use Rattle.ca_net.specs.declared.trit.Trit.TheVariants.{X};
ghost use Rattle.ca_net.specs.State.{value_at};
ghost use Rattle.ca_flat.specs.Chip.{cell_at, inputs_at, outputs_at, count_of};
ghost use Rattle.ca_flips.specs.Flips.{vector_at};
ghost use Rattle.ca_view.specs.Linked.{IsPlaced, place_in};
ghost use Rattle.ca_view.specs.Places.{cell_number};
ghost use Rattle.ca_static.specs.LastTable.{IsLastTable, last_at};
ghost use Rattle.ca_sweep.specs.Seen.{flipped_outputs};
ghost use Rattle.ca_sweep.specs.Tables.{AreTables};
ghost use Rattle.ca_sweep.specs.code.Changes.{AreRoomy, IsMarked, IsPut, IsWritten, IsNumberOf};
ghost use Rattle.ca_sweep.specs.code.Changes.{IsEvaluatedOut};
ghost use Rattle.ca_places.specs.PlaceSet.{HoldsUpTo};
ghost use Rattle.ca_sweep.specs.code.Held.{IsAtRest, IsHeld, IsGivenBack};

use crate::cells::Tables;
use crate::seen::Flips;
use ca_base::NoMemory;
use ca_net::{State, Trit};
use ca_places::PlaceSet;
use ca_static::LastTable;
use ca_view::View;
use std::alloc::Global;

/// A last value for each net, and the places in the order whose instances are due.
#[derive(Drop, Debug)]
pub struct Values {
    pub(crate) values: State,
    pub(crate) due: PlaceSet,
}

impl Values {
    /// Takes the room for the nets and instances of a chip. No value is known, and nothing is due.
    pub(crate) fn reserve(alloc: Global, chip: &View<'_>) -> Result<Self, NoMemory>
        ensures { IfOk result (IsAtRest chip.now.core (replicate (length chip.now.core.nets) X)) }
    {
        chip.linked();
        Ok(Values {
            values: State::unknown(alloc, chip.nets())?,
            due: PlaceSet::reserve(alloc, chip.instances() + 1)?,
        })
    }

    // Gives a net a value; if that is another one, its readers are due.
    fn put(&mut self, chip: &View<'_>, net: usize, value: Trit)
        requires known { net < length chip.now.core.nets }
        requires room { AreRoomy chip.now.core self.old }
        ensures { IsPut chip.now.core (place_in chip.now.ranks) net value self.old self.new }
    {
        if self.values.get(net) == value {
            return;
        }
        self.values.set(net, value);
        mark_readers(chip, net, &mut self.due);
    }

    /// Gives the output nets of an instance the opposite of their values, where the pins are flipped.
    pub(crate) fn flip(&mut self, chip: &View<'_>, u: usize, flips: Flips)
        requires placed { IsPlaced chip.now.core (place_in chip.now.ranks) u }
        requires room { AreRoomy chip.now.core self.old }
        ensures { IsWritten chip.now.core (place_in chip.now.ranks) u
            (flipped_outputs chip.now.core u (value_at self.old.values) flips) self.old self.new }
    {
        chip.linked();
        let first = chip.inputs_at(u);
        for output in 0..chip.outputs_at(u) {
            let net = chip.pin_net(u, first + output);
            let value = self.values.get(net);
            self.put(chip, net, flipped_if(is_flipped(flips, output), value));
        }
    }

    // Gives the output nets of an instance the last values of an entry of its cell's table.
    fn write(&mut self, chip: &View<'_>, w: usize, table: &LastTable, number: usize)
        requires placed { IsPlaced chip.now.core (place_in chip.now.ranks) w }
        requires room { AreRoomy chip.now.core self.old }
        requires table { IsLastTable (cell_at chip.now.core w) table.now }
        requires number { number < length table.now }
        ensures { IsWritten chip.now.core (place_in chip.now.ranks) w
            (last_at table.now number) self.old self.new }
    {
        chip.linked();
        let first = chip.inputs_at(w);
        for output in 0..chip.outputs_at(w) {
            self.put(
                chip,
                chip.pin_net(w, first + output),
                table.last(number, output),
            );
        }
    }

    // The number of the vector of an instance's input nets, if it is definite.
    fn number_at(&self, chip: &View<'_>, w: usize) -> Option<usize>
        requires placed { IsPlaced chip.now.core (place_in chip.now.ranks) w }
        requires room { AreRoomy chip.now.core self.now }
        ensures { IfSome result (IsNumberOf (inputs_at chip.now.core w)
            (vector_at chip.now.core w (value_at self.now.values))) }
    {
        chip.linked();
        let mut number = 0;
        for pin in 0..chip.inputs_at(w) {
            match self.values.get(chip.pin_net(w, pin)) {
                Trit::Zero => number *= 2,
                Trit::One => number = 2 * number + 1,
                Trit::X => return None,
            }
        }
        Some(number)
    }

    /// Gives the output nets of an instance what its cell ends with by the values of its input nets alone.
    /// Answers false and does nothing where these aren't definite, or the cell isn't static.
    pub(crate) fn evaluate(&mut self, chip: &View<'_>, tables: &Tables, w: usize) -> bool
        requires placed { IsPlaced chip.now.core (place_in chip.now.ranks) w }
        requires room { AreRoomy chip.now.core self.old }
        requires tables { AreTables chip.now.core (place_in chip.now.ranks) (cell_number chip.now.chip)
            tables.now.items }
        ensures evaluated { IsTrue result
            → IsEvaluatedOut chip.now.core (place_in chip.now.ranks) w self.old self.new }
        ensures room { AreRoomy chip.now.core self.new }
        ensures kept { result ≡ false → self.new ≡ self.old }
    {
        let number = match self.number_at(chip, w) {
            Some(number) => number,
            None => return false,
        };
        match &tables[chip.number(w)] {
            Some(table) => {
                self.write(chip, w, table, number);
                true
            }
            None => false,
        }
    }

    // Gives the output nets of an instance their good values.
    fn give_back(&mut self, chip: &View<'_>, lasts: &State, w: usize)
        requires placed { IsPlaced chip.now.core (place_in chip.now.ranks) w }
        requires nets { length lasts.now ≡ length chip.now.core.nets }
        requires room { length self.old.values ≡ length chip.now.core.nets }
        ensures { IsGivenBack chip.now.core w (value_at lasts.now) self.old self.new }
    {
        chip.linked();
        let first = chip.inputs_at(w);
        for output in 0..chip.outputs_at(w) {
            let net = chip.pin_net(w, first + output);
            self.values.set(net, lasts.get(net));
        }
    }

    /// Gives each net that may have another value its good one: the output nets of an instance, and those of
    /// all that are due. Nothing is due any more.
    pub(crate) fn restore(&mut self, chip: &View<'_>, lasts: &State, u: usize)
        requires placed { IsPlaced chip.now.core (place_in chip.now.ranks) u }
        requires nets { length lasts.now ≡ length chip.now.core.nets }
        requires held { IsHeld chip.now.core (place_in chip.now.ranks) u (value_at lasts.now) self.old }
        ensures { IsAtRest chip.now.core lasts.now self.new }
    {
        chip.linked();
        self.give_back(chip, lasts, u);
        let mut from = 0;
        while let Some(place) = self.due.next(from) {
            self.due.remove(place);
            self.give_back(chip, lasts, chip.order(place));
            from = place + 1;
        }
    }
}

/// The instances that read a net become due.
pub(crate) fn mark_readers(chip: &View<'_>, net: usize, due: &mut PlaceSet)
    requires known { net < length chip.now.core.nets }
    requires room { HoldsUpTo due.old (count_of chip.now.core + 1) }
    ensures { IsMarked chip.now.core (place_in chip.now.ranks) net due.old due.new }
{
    chip.linked();
    for k in 0..chip.reader_count(net) {
        due.insert(chip.rank(chip.reader(net, k)));
    }
}

ghost use Rattle.ca_sweep.specs.Seen.{is_flipped, flipped_if};

// Whether an output pin is flipped.
fn is_flipped(flips: Flips, output: usize) -> bool
    ensures { result ≡ is_flipped flips output }
{
    if output == 0 {
        flips.first
    } else {
        flips.second
    }
}

// The opposite of a value, or the value.
fn flipped_if(flipped: bool, value: Trit) -> Trit
    ensures { result ≡ flipped_if flipped value }
{
    match (flipped, value) {
        (true, Trit::Zero) => Trit::One,
        (true, Trit::One) => Trit::Zero,
        (true | false, value) => value,
    }
}

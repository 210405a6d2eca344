//! The waves of one network, of which due instances alone are evaluated again.

ghost use Rattle.std.specs.Prelude.{ℕ, ◌≡◌, ◌≢◌, ◌<◌, ◌≤◌, ◌+◌, ◌⊎◌, ◌↔◌, length, IfOk, IfSome, Some, None};
ghost use Rattle.std.specs.Prelude.{Option};
ghost use Rattle.std.specs.Option.{ForSome};
ghost use Rattle.ca_net.specs.Wave.{pair_of};
ghost use Rattle.ca_flat.specs.Chip.{count_of, outputs_at, IsChipDefect};
ghost use Rattle.ca_flat.specs.Pair.{bit_count};
ghost use Rattle.ca_flat.specs.Codes.{unset_pair};
ghost use Rattle.ca_view.specs.Linked.{Reads, IsPlaced, IsAim, place_in};
ghost use Rattle.ca_view.specs.Places.{cell_number};

use crate::cache::same_waves;
use crate::cells::{Cells, defect_here};
use crate::waves::Waves;
use ca_base::NoMemory;
use ca_flat::ChipDefect;
use ca_net::{State, Wave};
use ca_places::PlaceSet;
use ca_response::{OutWaves, PinWaves};
use ca_view::View;
use std::alloc::Global;

/// A wave for each net, and the places in the order whose instances are due.
#[derive(Drop, Debug)]
pub struct Network {
    pub waves: Waves,
    pub due: PlaceSet,
}

impl Network {
    ghost use Rattle.ca_places.specs.PlaceSet.{Has, HoldsUpTo};
    ghost use Rattle.ca_sim.specs.Network.{IsPut, IsWrittenOut, IsFedAt, IsTurned, IsReady};
    ghost use Rattle.ca_sim.specs.code.Network.{IsSettled};
    ghost use Rattle.ca_sim.specs.Network.{IsTwinAt, IsGiven};
    ghost use Rattle.ca_sim.specs.code.Network.{IsTwin, IsUnderway, IsRestingCopy};
    ghost use Rattle.ca_sim.specs.code.Network.{CountsDue};
    ghost use Rattle.std.specs.Prelude.{IsTrue};
    ghost use Rattle.ca_sim.specs.Current.{input_waves, output_waves, IsCurrent};
    ghost use Rattle.ca_sim.specs.code.Cells.{AreCells};

    /// Takes the room for the waves of a chip's nets. No bit is set, and each instance with a place is due.
    pub(crate) fn reserve(alloc: Global, chip: &View) -> Result<Self, NoMemory>
        ensures { IfOk result
            (IsUnderway chip.now.core (place_in chip.now.ranks) None
            (unset_pair chip.now.core)) }
    {
        chip.linked();
        Ok(Network {
            waves: constant_waves(alloc, chip)?,
            due: all_places(alloc, chip)?,
        })
    }

    /// The same waves, and nothing is due.
    pub(crate) fn copy(&self, alloc: Global, chip: &View) -> Result<Self, NoMemory>
        ensures { IfOk result (IsRestingCopy chip.now.core self.now) }
    {
        chip.linked();
        Ok(Network {
            waves: self.waves.copy(alloc)?,
            due: PlaceSet::reserve(alloc, chip.instances() + 1)?,
        })
    }

    /// Gives a net a wave; if that is another one, its readers are due.
    pub(crate) fn put(&mut self, chip: &View, net: usize, wave: Wave)
        requires known { net < length chip.now.core.nets }
        requires count { length self.old.waves ≡ length chip.now.core.nets }
        requires room { HoldsUpTo self.old.due (count_of chip.now.core + 1) }

        ensures { IsPut chip.now.core (place_in chip.now.ranks) net wave self.old self.new }
    {
        if self.waves.get(net) == wave {
            return;
        }
        self.waves.set(net, wave);
        mark_readers(chip, net, &mut self.due);
    }

    /// Gives the net of a chip input the wave of its two bits.
    pub fn feed(&mut self, chip: &View, input: usize, bits: &State)
        requires known { input < length chip.now.core.inputs }
        requires bits { length bits.now ≡ bit_count chip.now.core }
        requires ready { IsReady chip.now.core (place_in chip.now.ranks) self.old }

        ensures fed { IsFedAt chip.now.core (place_in chip.now.ranks) input bits.now
            self.old self.new }
        ensures ready { IsReady chip.now.core (place_in chip.now.ranks) self.new }
    {
        chip.linked();
        let last = chip.input_count() + input;
        self.put(
            chip,
            chip.input(input),
            Wave::pair(bits.get(input), bits.get(last)),
        );
    }

    /// The instance of a defect becomes due.
    pub fn turn(&mut self, chip: &View, aim: Option<ChipDefect>)
        requires aim { IsAim chip.now.core (place_in chip.now.ranks) aim }
        requires ready { IsReady chip.now.core (place_in chip.now.ranks) self.old }

        ensures { IsTurned chip.now.core (place_in chip.now.ranks) aim self.old self.new }
    {
        chip.linked();
        if let Some(aim) = aim {
            self.due.insert(chip.rank(aim.instance as usize));
        }
    }

    /// Gives the output nets of an instance their waves; the readers of those that change are due.
    pub fn write(&mut self, chip: &View, u: usize, outputs: &[Wave])
        requires placed { IsPlaced chip.now.core (place_in chip.now.ranks) u }
        requires outputs { length outputs.now ≡ outputs_at chip.now.core u }
        requires count { length self.old.waves ≡ length chip.now.core.nets }
        requires room { HoldsUpTo self.old.due (count_of chip.now.core + 1) }

        ensures { IsWrittenOut chip.now.core (place_in chip.now.ranks) u outputs.now
            self.old self.new }
    {
        chip.linked();
        let first = chip.inputs_at(u);
        for output in 0..outputs.len() {
            self.put(chip, chip.pin_net(u, first + output), outputs[output]);
        }
    }

    /// The waves of an instance's input pins.
    pub fn input_waves(&self, chip: &View, u: usize) -> PinWaves
        requires placed { IsPlaced chip.now.core (place_in chip.now.ranks) u }
        requires count { length self.now.waves ≡ length chip.now.core.nets }
        ensures { result.items ≡ input_waves chip.now.core self.now.waves u }
    {
        chip.linked();
        let mut pins = PinWaves::new();
        for pin in 0..chip.inputs_at(u) {
            pins.push(self.waves.get(chip.pin_net(u, pin)));
        }
        pins
    }

    /// The waves of an instance's output pins.
    pub fn output_waves(&self, chip: &View, u: usize) -> OutWaves
        requires placed { IsPlaced chip.now.core (place_in chip.now.ranks) u }
        requires count { length self.now.waves ≡ length chip.now.core.nets }
        ensures { result.items ≡ output_waves chip.now.core self.now.waves u }
    {
        chip.linked();
        let first = chip.inputs_at(u);
        let mut outputs = OutWaves::new();
        for output in 0..chip.outputs_at(u) {
            outputs.push(self.waves.get(chip.pin_net(u, first + output)));
        }
        outputs
    }

    /// Whether an instance gives for its waves at the input pins those that it has at the output pins.
    pub(crate) fn is_current(
        &self,
        chip: &View,
        u: usize,
        aim: Option<ChipDefect>,
        cells: &mut Cells,
    ) -> bool
        requires placed { IsPlaced chip.now.core (place_in chip.now.ranks) u }
        requires listed { IsChipDefect chip.now.core aim }
        requires ready { IsReady chip.now.core (place_in chip.now.ranks) self.now }
        requires cells { AreCells chip.now.core (place_in chip.now.ranks)
            (cell_number chip.now.chip) cells.old }

        ensures current { IsTrue result → IsCurrent chip.now.core aim self.now.waves u }
        ensures cells { AreCells chip.now.core (place_in chip.now.ranks)
            (cell_number chip.now.chip) cells.new }
    {
        let pins = self.input_waves(chip, u);
        let outputs = cells.respond(chip, u, aim, pins);
        same_waves(outputs.as_slice(), self.output_waves(chip, u).as_slice())
    }

    /// What an instance gives for these waves, if it has no defect and has them in this network too, which is
    /// good, and in which it is current.
    pub fn twin_outputs(
        &self,
        chip: &View,
        u: usize,
        aim: Option<ChipDefect>,
        pins: &[Wave],
    ) -> Option<OutWaves>
        requires placed { IsPlaced chip.now.core (place_in chip.now.ranks) u }
        requires twin { IsTwinAt chip.now.core u self.now }
        ensures { IfSome result (λ outputs. IsGiven chip.now.core aim u pins.now outputs.items) }
    {
        if defect_here(aim, u).is_some() {
            return None;
        }
        let same = same_waves(self.input_waves(chip, u).as_slice(), pins);
        if !same {
            return None;
        }
        Some(self.output_waves(chip, u))
    }

    /// Evaluates the instances that are due, in the order, until none is. Where there is a good network
    /// beside this one, and an instance has its waves at the input pins and no defect, the instance has them
    /// at the output pins too.
    pub(crate) fn settle(
        &mut self,
        chip: &View,
        aim: Option<ChipDefect>,
        twin: Option<&Network>,
        cells: &mut Cells,
    )
        requires listed { IsChipDefect chip.now.core aim }
        requires ready { IsReady chip.now.core (place_in chip.now.ranks) self.old }
        requires twin { ForSome twin (λ good. IsTwin chip.now.core good.now) }
        requires cells { AreCells chip.now.core (place_in chip.now.ranks)
            (cell_number chip.now.chip) cells.old }

        ensures settled { IsSettled chip.now.core (place_in chip.now.ranks) aim self.old self.new }
        ensures cells { AreCells chip.now.core (place_in chip.now.ranks)
            (cell_number chip.now.chip) cells.new }
        ensures grows { cells.old.evaluated ≤ cells.new.evaluated }
        ensures count { twin.entry ≡ None → CountsDue self.old cells.old.evaluated cells.new.evaluated }
    {
        chip.linked();
        let mut from = 0;
        while let Some(place) = self.due.next(from) {
            self.due.remove(place);
            let u = chip.order(place);
            let pins = self.input_waves(chip, u);
            let outputs = respond_beside(chip, u, aim, pins, twin, cells);
            self.write(chip, u, outputs.as_slice());
            from = place + 1;
        }
    }
}

ghost use Rattle.ca_places.specs.PlaceSet.{Has, HoldsUpTo};
ghost use Rattle.ca_sim.specs.Marking.{IsMarked};
ghost use Rattle.ca_sim.specs.code.Marking.{HasAllPlaces};
ghost use Rattle.ca_sim.specs.code.Network.{HasConstants};

// The waves of the nets while no bit is set and no instance has been evaluated: those of constants are known.
fn constant_waves(alloc: Global, chip: &View) -> Result<Waves, NoMemory>
    ensures { IfOk result (HasConstants chip.now.core) }
{
    chip.linked();
    let mut waves = Waves::unknown(alloc, chip.nets())?;
    let count = chip.constant_count();
    for k in 0..count {
        // The first constant of a net counts, so it comes last.
        let constant = chip.constant(count - 1 - k);
        waves.set(constant.net, Wave::pair(constant.value, constant.value));
    }
    Ok(waves)
}

// The places of all instances.
fn all_places(alloc: Global, chip: &View) -> Result<PlaceSet, NoMemory>
    ensures { IfOk result (HasAllPlaces chip.now.core (place_in chip.now.ranks)) }
{
    chip.linked();
    let mut due = PlaceSet::reserve(alloc, chip.instances() + 1)?;
    for u in 0..chip.instances() {
        let place = chip.rank(u);
        if place > 0 {
            due.insert(place);
        }
    }
    Ok(due)
}

/// The instances that read a net become due.
pub fn mark_readers(chip: &View, net: usize, due: &mut PlaceSet)
    requires known { net < length chip.now.core.nets }
    requires room { HoldsUpTo due.old (count_of chip.now.core + 1) }
    ensures { IsMarked chip.now.core (place_in chip.now.ranks) net due.old due.new }
{
    chip.linked();
    for k in 0..chip.reader_count(net) {
        due.insert(chip.rank(chip.reader(net, k)));
    }
}

ghost use Rattle.std.specs.List.{All};
ghost use Rattle.ca_net.specs.Wave.{IsWave};
ghost use Rattle.ca_response.specs.Gives.{Gives};
ghost use Rattle.ca_flat.specs.Chip.{cell_at, inputs_at};
ghost use Rattle.ca_flat.specs.Flat.{circuit_in};
ghost use Rattle.ca_sim.specs.Network.{IsTwinAt};
ghost use Rattle.ca_sim.specs.code.Cells.{AreCells};
ghost use Rattle.ca_sim.specs.code.Simulator.{CountsOne};

/// How an instance responds: as in the good network, if it can.
fn respond_beside(
    chip: &View,
    u: usize,
    aim: Option<ChipDefect>,
    pins: PinWaves,
    twin: Option<&Network>,
    cells: &mut Cells,
) -> OutWaves
    requires placed { IsPlaced chip.now.core (place_in chip.now.ranks) u }
    requires listed { IsChipDefect chip.now.core aim }
    requires pins { length pins.items ≡ inputs_at chip.now.core u }
    requires waves { All IsWave pins.items }
    requires twin { ForSome twin (λ good. IsTwinAt chip.now.core u good.now) }
    requires cells { AreCells chip.now.core (place_in chip.now.ranks)
        (cell_number chip.now.chip) cells.old }

    ensures gives { Gives (cell_at chip.now.core u) (circuit_in chip.now.core aim u) pins.items
        result.items }
    ensures waves { All IsWave result.items }
    ensures cells { AreCells chip.now.core (place_in chip.now.ranks)
        (cell_number chip.now.chip) cells.new }
    ensures grows { cells.old.evaluated ≤ cells.new.evaluated }
    ensures count { twin.entry ≡ None → CountsOne cells.old.evaluated cells.new.evaluated }
{
    if let Some(good) = twin {
        if let Some(outputs) = good.twin_outputs(chip, u, aim, pins.as_slice()) {
            return outputs;
        }
    }
    cells.respond(chip, u, aim, pins)
}

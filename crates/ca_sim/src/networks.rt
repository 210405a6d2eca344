//! The two networks of a simulator, the good one and the one with a defect, and the bits that both have.

ghost use Rattle.std.specs.Prelude.{◌≡◌, ◌<◌, ◌≤◌, ◌+◌, length, slice_set, Option, Some, IsTrue};
ghost use Rattle.ca_net.specs.State.{value_at};
ghost use Rattle.ca_flat.specs.Pair.{bit_count};
ghost use Rattle.ca_flat.specs.declared.chip_defect.ChipDefect.{ChipDefect};

use crate::bits::Bits;
use crate::cells::Cells;
use crate::loaded::Loaded;
use crate::network::Network;
use crate::waves::Waves;
use ca_flat::ChipDefect;
use ca_net::{State, Trit};
use ca_view::View;

/// The bits that are set, and the waves of all nets without a defect and with one.
#[derive(Drop, Debug)]
pub struct Networks {
    pub(crate) bits: State,
    pub(crate) good: Network,
    pub(crate) faulty: Network,
}

impl Networks {
    ghost use Rattle.ca_flat.specs.Chip.{IsChipDefect};
    ghost use Rattle.ca_view.specs.Linked.{IsAim, place_in};
    ghost use Rattle.ca_view.specs.Places.{cell_number};
    ghost use Rattle.ca_sim.specs.code.Cells.{AreCells};
    ghost use Rattle.ca_sim.specs.Network.{IsReady, IsAtRest};
    ghost use Rattle.ca_sim.specs.code.Network.{CountsDue, IsUnderway};
    ghost use Rattle.ca_sim.specs.code.Networks.{AreUnderway, AreAtRest, AreReady, MakesReadersDue};
    ghost use Rattle.ca_sim.specs.code.Current.{AreUnset};
    ghost use Rattle.ca_sim.specs.code.Loaded.{AreLoaded};
    ghost use Rattle.ca_flat.specs.Codes.{unset_pair};

    // Gives a chip input two bits, and its net the wave of these in the good network alone.
    fn feed(&mut self, chip: &View, input: usize, first: Trit, last: Trit)
        requires input { input < length chip.now.core.inputs }
        requires bits { length self.old.bits ≡ bit_count chip.now.core }
        requires ready { IsReady chip.now.core (place_in chip.now.ranks) self.old.good }

        ensures bits { self.new.bits ≡ slice_set (slice_set self.old.bits input first)
            (length chip.now.core.inputs + input) last }
        ensures count { length self.new.bits ≡ bit_count chip.now.core }
        ensures ready { IsReady chip.now.core (place_in chip.now.ranks) self.new.good }
        ensures good { IsUnderway chip.now.core (place_in chip.now.ranks) None self.old.bits self.old.good
            → IsUnderway chip.now.core (place_in chip.now.ranks) None self.new.bits self.new.good }
        ensures faulty { self.new.faulty ≡ self.old.faulty }
        ensures due { MakesReadersDue chip.now.core (place_in chip.now.ranks) input first last
            self.old self.new }
    {
        chip.linked();
        self.bits.set(input, first);
        self.bits.set(chip.input_count() + input, last);
        self.good.feed(chip, input, &self.bits);
    }

    /// Gives a chip input two bits.
    pub(crate) fn change(&mut self, chip: &View, input: usize, first: Trit, last: Trit)
        requires input { input < length chip.now.core.inputs }
        requires ready { AreReady chip.now.core (place_in chip.now.ranks) self.old }

        ensures bits { self.new.bits ≡ slice_set (slice_set self.old.bits input first)
            (length chip.now.core.inputs + input) last }
        ensures ready { AreReady chip.now.core (place_in chip.now.ranks) self.new }
        ensures underway { (aim : Option ChipDefect)
            → AreUnderway chip.now.core (place_in chip.now.ranks) aim self.old
            → AreUnderway chip.now.core (place_in chip.now.ranks) aim self.new }
        ensures due { MakesReadersDue chip.now.core (place_in chip.now.ranks) input first last
            self.old self.new }
    {
        chip.linked();
        self.feed(chip, input, first, last);
        self.faulty.feed(chip, input, &self.bits);
    }

    // Gives all chip inputs their bits in the good network.
    fn feed_all<B: Bits>(&mut self, chip: &View, bits: &B)
        requires count { length (B.bits bits.now) ≡ bit_count chip.now.core }
        requires bits { length self.old.bits ≡ bit_count chip.now.core }
        requires ready { IsReady chip.now.core (place_in chip.now.ranks) self.old.good }

        ensures bits { self.new.bits ≡ B.bits bits.now }
        ensures good { IsUnderway chip.now.core (place_in chip.now.ranks) None self.old.bits self.old.good
            → IsUnderway chip.now.core (place_in chip.now.ranks) None self.new.bits self.new.good }
        ensures faulty { self.new.faulty ≡ self.old.faulty }
    {
        chip.linked();
        let inputs = chip.input_count();
        for input in 0..inputs {
            self.feed(chip, input, bits.value(input), bits.value(inputs + input));
        }
    }

    /// Gives all chip inputs their bits, and evaluates the instances that see other ones than under those of
    /// which the waves are there. The faulty network takes over the waves of the good one, so that only what
    /// its defect changes is evaluated there.
    pub(crate) fn load<B: Bits>(
        &mut self,
        chip: &View,
        aim: Option<ChipDefect>,
        bits: &B,
        from: &Loaded,
        cells: &mut Cells,
    )
        requires aim { IsAim chip.now.core (place_in chip.now.ranks) aim }
        requires count { length (B.bits bits.now) ≡ bit_count chip.now.core }
        requires rest { AreAtRest chip.now.core (place_in chip.now.ranks) aim self.old }
        requires from { AreLoaded chip.now.core from.now }
        requires cells { AreCells chip.now.core (place_in chip.now.ranks)
            (cell_number chip.now.chip) cells.old }

        ensures bits { self.new.bits ≡ B.bits bits.now }
        ensures rest { AreAtRest chip.now.core (place_in chip.now.ranks) aim self.new }
        ensures cells { AreCells chip.now.core (place_in chip.now.ranks)
            (cell_number chip.now.chip) cells.new }
    {
        chip.linked();
        copy(&from.bits, &mut self.bits);
        self.good.waves.take_over(&from.waves);
        self.feed_all(chip, bits);
        self.good.settle(chip, None, None, cells);
        self.faulty.waves.take_over(&self.good.waves);
        self.faulty.turn(chip, aim);
        self.faulty.settle(chip, aim, Some(&self.good), cells);
    }

    /// Keeps the bits and the waves of the good network.
    pub(crate) fn keep(&self, chip: &View, loaded: &mut Loaded)
        requires bits { length self.now.bits ≡ bit_count chip.now.core }
        requires rest { IsAtRest chip.now.core (place_in chip.now.ranks) None self.now.bits self.now.good }
        requires loaded { AreLoaded chip.now.core loaded.old }
        ensures { AreLoaded chip.now.core loaded.new }
    {
        chip.linked();
        copy(&self.bits, &mut loaded.bits);
        loaded.waves.take_over(&self.good.waves);
    }

    /// Unsets all bits. The waves of the good network without any are there, and the faulty one takes them
    /// over too, but for its defect.
    pub(crate) fn unset(&mut self, chip: &View, aim: Option<ChipDefect>, unset: &Waves)
        requires aim { IsAim chip.now.core (place_in chip.now.ranks) aim }
        requires rest { AreAtRest chip.now.core (place_in chip.now.ranks) aim self.old }
        requires unset { AreUnset chip.now.core unset.now }

        ensures bits { self.new.bits ≡ unset_pair chip.now.core }
        ensures underway { AreUnderway chip.now.core (place_in chip.now.ranks) aim self.new }
    {
        forget(&mut self.bits);
        self.good.waves.take_over(unset);
        self.faulty.waves.take_over(unset);
        self.faulty.turn(chip, aim);
    }

    /// Evaluates the instances that are due, in the order, until none is.
    pub(crate) fn settle(&mut self, chip: &View, aim: Option<ChipDefect>, cells: &mut Cells)
        requires aim { IsAim chip.now.core (place_in chip.now.ranks) aim }
        requires underway { AreUnderway chip.now.core (place_in chip.now.ranks) aim self.old }
        requires cells { AreCells chip.now.core (place_in chip.now.ranks)
            (cell_number chip.now.chip) cells.old }

        ensures bits { self.new.bits ≡ self.old.bits }
        ensures rest { AreAtRest chip.now.core (place_in chip.now.ranks) aim self.new }
        ensures cells { AreCells chip.now.core (place_in chip.now.ranks)
            (cell_number chip.now.chip) cells.new }
        ensures count { CountsDue self.old.good cells.old.evaluated cells.new.evaluated }
    {
        self.good.settle(chip, None, None, cells);
        self.faulty.settle(chip, aim, Some(&self.good), cells);
    }

    /// The faulty network becomes that of another defect.
    pub(crate) fn aim(
        &mut self,
        chip: &View,
        old: Option<ChipDefect>,
        new: Option<ChipDefect>,
        cells: &mut Cells,
    )
        requires old { IsAim chip.now.core (place_in chip.now.ranks) old }
        requires new { IsAim chip.now.core (place_in chip.now.ranks) new }
        requires rest { AreAtRest chip.now.core (place_in chip.now.ranks) old self.old }
        requires cells { AreCells chip.now.core (place_in chip.now.ranks)
            (cell_number chip.now.chip) cells.old }

        ensures bits { self.new.bits ≡ self.old.bits }
        ensures rest { AreAtRest chip.now.core (place_in chip.now.ranks) new self.new }
        ensures cells { AreCells chip.now.core (place_in chip.now.ranks)
            (cell_number chip.now.chip) cells.new }
    {
        self.faulty.turn(chip, old);
        self.faulty.turn(chip, new);
        self.faulty.settle(chip, new, Some(&self.good), cells);
    }

    /// Whether the instance of the defect that is aimed at gives the same with another of its defects, so
    /// that all waves would stay.
    pub(crate) fn is_alike(
        &self,
        chip: &View,
        old: ChipDefect,
        new: ChipDefect,
        cells: &mut Cells,
    ) -> bool
        requires old { IsAim chip.now.core (place_in chip.now.ranks) (Some old) }
        requires new { IsAim chip.now.core (place_in chip.now.ranks) (Some new) }
        requires rest { AreAtRest chip.now.core (place_in chip.now.ranks) (Some old) self.now }
        requires cells { AreCells chip.now.core (place_in chip.now.ranks)
            (cell_number chip.now.chip) cells.old }

        ensures rest { IsTrue result
            → AreAtRest chip.now.core (place_in chip.now.ranks) (Some new) self.now }
        ensures cells { AreCells chip.now.core (place_in chip.now.ranks)
            (cell_number chip.now.chip) cells.new }
    {
        if old.instance != new.instance {
            return false;
        }
        self.faulty
            .is_current(chip, new.instance as usize, Some(new), cells)
    }
}

ghost use Rattle.std.specs.Prelude.{replicate};

/// Makes all values unknown.
pub fn forget(bits: &mut State)
    ensures { bits.new ≡ replicate (length bits.old) Trit.X }
{
    for bit in 0..bits.len() {
        bits.set(bit, Trit::X);
    }
}

// Takes over values.
fn copy(from: &State, into: &mut State)
    requires { length into.old ≡ length from.now }
    ensures { into.new ≡ from.now }
{
    for bit in 0..into.len() {
        into.set(bit, from.get(bit));
    }
}

//! The simulator of a chip.

ghost use Rattle.std.specs.Prelude.{◌+◌, ◌*◌, ◌^◌, ◌≡◌, ◌≢◌, ◌<◌, ◌⊎◌, length, slice_set, IfOk, None};
ghost use Rattle.ca_net.specs.State.{value_at};
ghost use Rattle.ca_sim.specs.Seen.{value_of};

use crate::bits::Bits;
use crate::cells::Cells;
use crate::loaded::Loaded;
use crate::net_waves::NetWaves;
use crate::network::Network;
use crate::networks::Networks;
use ca_base::NoMemory;
use ca_flat::ChipDefect;
use ca_net::{State, Trit, Wave};
use ca_places::PlaceSet;
use ca_response::{OutWaves, PinWaves};
use ca_view::View;
use std::alloc::Global;
use std::marker::Model;

/// The bits that are set, the defect that is aimed at, and the waves of all nets of a chip without it and
/// with it. All memory is taken by `reserve`.
#[derive(Drop)]
pub struct Sim<'a> {
    chip: &'a View<'a>,
    aim: Option<ChipDefect>,
    networks: Networks,
    // no bit, and the waves of the good network while none is set
    unset: Loaded,
    // the pair that was loaded last
    loaded: Loaded,
    cells: Cells,
    aimed: u64,
}

impl<'a> Model for Sim<'a> {
    ghost use Rattle.ca_sim.specs.Simulator.{Simulator};
    ghost use Rattle.ca_view.specs.Linked.{place_in};
    ghost use Rattle.ca_view.specs.Places.{cell_number};
    ghost use Rattle.ca_sim.specs.code.Kept.{IsKept};

    ghost Value = { Simulator };

    ghost view = { λ sim. record {
      seen = record {
        chip = sim.chip.now.core;
        places = sim.chip.now.ranks;
        aim = sim.aim;
        pair = sim.networks.bits;
        good = sim.networks.good.waves;
        faulty = sim.networks.faulty.waves;
      };
      evaluated = sim.cells.evaluated;
      aimed = sim.aimed;
    } };

    ghost invariant = { λ sim. IsKept sim.chip.now.core (place_in sim.chip.now.ranks)
        (cell_number sim.chip.now.chip) sim.aim sim.networks sim.unset sim.loaded sim.cells };
}

impl<'a> Sim<'a> {
    ghost use Rattle.ca_flat.specs.Codes.{unset_pair};
    ghost use Rattle.std.specs.Prelude.{IsTrue};
    ghost use Rattle.ca_view.specs.Linked.{IsAim, IsPlacedDefect, place_in};
    ghost use Rattle.ca_view.specs.Places.{cell_number};
    ghost use Rattle.ca_sim.specs.Seen.{IsExact, aimed_anew};
    ghost use Rattle.ca_sim.specs.Simulator.{IsFresh, KeepsAim, KeepsPair, KeepsSeen, CountsReaders};
    ghost use Rattle.ca_sim.specs.Simulator.{counted_up};
    ghost use Rattle.std.specs.List.{All};
    ghost use Rattle.ca_net.specs.Wave.{IsWave};
    ghost use Rattle.ca_flat.specs.Chip.{cell_at, inputs_at, IsChipDefect};
    ghost use Rattle.ca_flat.specs.Flat.{circuit_in};
    ghost use Rattle.ca_response.specs.Gives.{Gives};
    ghost use Rattle.ca_view.specs.Linked.{IsPlaced};
    ghost use Rattle.ca_sim.specs.Network.{IsAtRest};

    /// Takes all memory. No bit is set, and no defect is aimed at.
    pub fn reserve(alloc: Global, chip: &'a View<'a>) -> Result<Self, NoMemory>
        ensures { IfOk result (IsFresh chip.now.core chip.now.ranks) }
    {
        chip.linked();
        let bits = State::unknown(alloc, 2 * chip.input_count())?;
        let mut cells = Cells::reserve(alloc, chip)?;
        let mut good = Network::reserve(alloc, chip)?;
        good.settle(chip, None, None, &mut cells);
        let unset = Loaded {
            bits: State::unknown(alloc, 2 * chip.input_count())?,
            waves: good.waves.copy(alloc)?,
        };
        let loaded = Loaded {
            bits: State::unknown(alloc, 2 * chip.input_count())?,
            waves: good.waves.copy(alloc)?,
        };
        let faulty = good.copy(alloc, chip)?;
        Ok(Sim {
            chip,
            aim: None,
            networks: Networks { bits, good, faulty },
            unset,
            loaded,
            cells: cells.counted_anew(),
            aimed: 0,
        })
    }

    /// The chip.
    pub fn chip(&self) -> &'a View<'a>
        ensures core { result.now.core ≡ self.now.seen.chip }
        ensures places { result.now.ranks ≡ self.now.seen.places }
    {
        self.chip
    }

    /// Sets a bit, or unsets it.
    pub fn set(&mut self, bit: u16, value: Option<bool>)
        requires { bit < length self.old.seen.pair }

        ensures pair { self.new.seen.pair ≡ slice_set self.old.seen.pair bit (value_of value) }
        ensures kept { KeepsAim self.old self.new }
        ensures count { CountsReaders self.old bit (value_of value) self.new }
    {
        let chip = self.chip;
        chip.linked();
        let bit = bit as usize;
        let inputs = chip.input_count();
        let input = input_of(bit, inputs);
        let value = trit_of(value);
        let first = chosen(input, bit, value, self.networks.bits.get(input));
        let place = inputs + input;
        let last = chosen(place, bit, value, self.networks.bits.get(place));
        self.networks.change(chip, input, first, last);
        self.networks.settle(chip, self.aim, &mut self.cells);
    }

    /// Gives all bits their values, and evaluates the instances that see other ones than after the call
    /// before: bits that were set or unset in between cost nothing.
    pub fn load<B: Bits>(&mut self, bits: &B)
        requires { length (B.bits bits.now) ≡ length self.old.seen.pair }

        ensures pair { self.new.seen.pair ≡ B.bits bits.now }
        ensures kept { KeepsAim self.old self.new }
    {
        let chip = self.chip;
        self.networks
            .load(chip, self.aim, bits, &self.loaded, &mut self.cells);
        self.networks.keep(chip, &mut self.loaded);
    }

    /// Gives all bits their values as `load` does, and evaluates the instances that see other ones than
    /// while none is set. It is for a pair of which few are: the pair that `load` begins at stays.
    #[tactic(auto, using(crate::proofs::SimLemmas::unset_is_loaded))]
    pub fn load_sparse<B: Bits>(&mut self, bits: &B)
        requires { length (B.bits bits.now) ≡ length self.old.seen.pair }

        ensures pair { self.new.seen.pair ≡ B.bits bits.now }
        ensures kept { KeepsAim self.old self.new }
    {
        let chip = self.chip;
        self.networks
            .load(chip, self.aim, bits, &self.unset, &mut self.cells);
    }

    /// Unsets all bits.
    pub fn clear(&mut self)
        ensures pair { self.new.seen.pair ≡ unset_pair self.old.seen.chip }
        ensures kept { KeepsAim self.old self.new }
    {
        let chip = self.chip;
        self.networks.unset(chip, self.aim, &self.unset.waves);
        self.networks.settle(chip, self.aim, &mut self.cells);
    }

    /// Aims at a defect, or at none. The bits stay.
    pub fn aim(&mut self, defect: Option<ChipDefect>)
        requires { IsAim self.old.seen.chip (place_in self.old.seen.places) defect }

        ensures aim { self.new.seen.aim ≡ defect }
        ensures aimed { self.new.aimed ≡ counted_up self.old.aimed }
        ensures kept { KeepsPair self.old self.new }
    {
        let chip = self.chip;
        self.networks.aim(chip, self.aim, defect, &mut self.cells);
        self.aim = defect;
        self.aimed = self.aimed.saturating_add(1);
    }

    /// Whether the instance of the defect that is aimed at gives the same with this other one of its defects.
    /// Then all waves are those of the flat network with this one too. It is one evaluation.
    pub fn is_alike(&mut self, defect: ChipDefect) -> bool
        requires { IsPlacedDefect self.old.seen.chip (place_in self.old.seen.places) defect }

        ensures alike { IsTrue result → IsExact (aimed_anew self.old.seen defect) }
        ensures kept { KeepsSeen self.old self.new }
    {
        let chip = self.chip;
        match self.aim {
            Some(aim) => self.networks.is_alike(chip, aim, defect, &mut self.cells),
            None => false,
        }
    }

    /// What an instance gives for waves at its input pins, with the defect or without. It is one evaluation.
    pub fn respond(&mut self, u: usize, defect: Option<ChipDefect>, pins: PinWaves) -> OutWaves
        requires placed { IsPlaced self.old.seen.chip (place_in self.old.seen.places) u }
        requires listed { IsChipDefect self.old.seen.chip defect }
        requires pins { length pins.items ≡ inputs_at self.old.seen.chip u }
        requires waves { All IsWave pins.items }

        ensures gives { Gives (cell_at self.old.seen.chip u) (circuit_in self.old.seen.chip defect u)
            pins.items result.items }
        ensures waves { All IsWave result.items }
        ensures kept { KeepsSeen self.old self.new }
    {
        let chip = self.chip;
        self.cells.respond(chip, u, defect, pins)
    }

    /// The network without a defect while no bit is set.
    pub fn unset(&self, alloc: Global) -> Result<Network, NoMemory>
        ensures { IfOk result (IsAtRest self.now.seen.chip (place_in self.now.seen.places) None
            (unset_pair self.now.seen.chip)) }
    {
        let chip = self.chip;
        chip.linked();
        Ok(Network {
            waves: self.unset.waves.copy(alloc)?,
            due: PlaceSet::reserve(alloc, chip.instances() + 1)?,
        })
    }

    /// How often an instance was evaluated since `reserve`, up to the type's greatest value.
    pub fn evaluated(&self) -> u64
        ensures { result ≡ self.now.evaluated }
    {
        self.cells.evaluated
    }

    /// How often was aimed since `reserve`, up to the type's greatest value.
    pub fn aimed(&self) -> u64
        ensures { result ≡ self.now.aimed }
    {
        self.aimed
    }
}

impl NetWaves for Sim<'_> {
    ghost seen = { λ sim. sim.seen };

    fn good(&self, net: usize) -> Wave {
        self.networks.good.waves.get(net)
    }

    fn faulty(&self, net: usize) -> Wave {
        self.networks.faulty.waves.get(net)
    }

    fn bit(&self, bit: usize) -> Option<bool> {
        match self.networks.bits.get(bit) {
            Trit::One => Some(true),
            Trit::Zero => Some(false),
            Trit::X => None,
        }
    }

    fn exact(&self) {
        let _ = &self.aim;
    }
}

/// The chip input of a bit.
pub fn input_of(bit: usize, inputs: usize) -> usize
    requires { bit < 2 * inputs }
    ensures within { result < inputs }
    ensures of { (bit ≡ result) ⊎ (bit ≡ inputs + result) }
{
    if bit < inputs { bit } else { bit - inputs }
}

// The value at a place, where one is given to the bit.
fn chosen(place: usize, bit: usize, value: Trit, old: Trit) -> Trit
    ensures here { place ≡ bit → result ≡ value }
    ensures elsewhere { place ≢ bit → result ≡ old }
{
    if place == bit { value } else { old }
}

/// The value of a bit, X for one that is unset.
pub fn trit_of(value: Option<bool>) -> Trit
    ensures { result ≡ value_of value }
{
    match value {
        Some(true) => Trit::One,
        Some(false) => Trit::Zero,
        None => Trit::X,
    }
}

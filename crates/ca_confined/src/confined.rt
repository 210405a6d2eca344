//! A simulator that is confined to the scope of the defect that is aimed at.

ghost use Rattle.std.specs.Prelude.{◌≡◌, ◌<◌, ◌+◌, ◌*◌, ◌↔◌, length, slice_set};
ghost use Rattle.std.specs.Prelude.{IfOk, IsFalse, IsTrue, Some, None};
ghost use Rattle.ca_net.specs.State.{value_at};
ghost use Rattle.ca_response.specs.Gives.{wave_at};
ghost use Rattle.ca_sim.specs.Seen.{value_of};

use crate::clear::clear;
use crate::scope::Scope;
use crate::settle::settle;
use ca_base::NoMemory;
use ca_flat::ChipDefect;
use ca_net::{State, Trit, Wave};
use ca_places::PlaceSet;
use ca_sim::{Network, Sim, Waves, forget, input_of, trit_of};
use ca_view::View;
use std::alloc::Global;
use std::marker::Model;

/// The waves of a chip without a defect and with the one that is aimed at, for the bits that are set. They
/// are those of the flat networks at the nets that lead to an observed output which the instance of the
/// defect reaches; of other nets nothing is said. All memory is taken by `reserve`. Cells respond by a
/// simulator of the same chip, which is handed over with each call.
#[derive(Drop)]
pub struct Confined<'a> {
    chip: &'a View<'a>,
    aim: Option<ChipDefect>,
    bits: State,
    good: Network,
    faulty: Network,
    // the waves of the good network while no bit is set
    unset: Waves,
    scope: Scope,
    // the instance whose scope it is
    part: Option<u32>,
}

impl<'a> Model for Confined<'a> {
    ghost use Rattle.ca_sim.specs.Seen.{Seen};
    ghost use Rattle.ca_view.specs.Linked.{place_in};
    ghost use Rattle.ca_view.specs.Places.{cell_number};
    ghost use Rattle.ca_confined.specs.code.Kept.{IsKept};

    ghost Value = { Seen };

    ghost view = { λ s. record {
      chip = s.chip.now.core;
      places = s.chip.now.ranks;
      aim = s.aim;
      pair = s.bits;
      good = s.good.waves;
      faulty = s.faulty.waves;
    } };

    ghost invariant = { λ s. IsKept s.chip.now.core (place_in s.chip.now.ranks)
        (cell_number s.chip.now.chip) s.aim s.bits s.good s.faulty s.unset s.scope s.part };
}

impl<'a> Confined<'a> {
    ghost use Rattle.ca_net.specs.Circuit.{IsWellFormed};
    ghost use Rattle.ca_flat.specs.Flat.{flat};
    ghost use Rattle.ca_flat.specs.Pair.{IsShown};
    ghost use Rattle.ca_flat.specs.Codes.{unset_pair};
    ghost use Rattle.ca_flat.specs.declared.chip_defect.ChipDefect.{ChipDefect};
    ghost use Rattle.ca_view.specs.Linked.{IsAim, place_in};
    ghost use Rattle.ca_sim.specs.Seen.{IsWhole};
    ghost use Rattle.ca_sim.specs.Simulator.{KeepsSeen};
    ghost use Rattle.ca_confined.specs.Confined.{KeepsAim, KeepsChip, IsSimOf};

    /// Takes all memory. No bit is set, and no defect is aimed at.
    pub fn reserve(alloc: Global, chip: &'a View<'a>, sim: &Sim) -> Result<Self, NoMemory>
        requires { IsSimOf chip.now.core chip.now.ranks sim.now }
        ensures chip { IfOk result (λ s. s.chip ≡ chip.now.core) }
        ensures places { IfOk result (λ s. s.places ≡ chip.now.ranks) }
        ensures aim { IfOk result (λ s. s.aim ≡ None) }
        ensures pair { IfOk result (λ s. s.pair ≡ unset_pair chip.now.core) }
    {
        chip.linked();
        let good = sim.unset(alloc)?;
        let faulty = sim.unset(alloc)?;
        let unset = good.waves.copy(alloc)?;
        Ok(Confined {
            chip,
            aim: None,
            bits: State::unknown(alloc, 2 * chip.input_count())?,
            good,
            faulty,
            unset,
            scope: Scope::reserve(alloc, chip)?,
            part: None,
        })
    }

    /// Aims at a defect, or at none, and unsets all bits.
    pub fn begin(&mut self, aim: Option<ChipDefect>, sim: &mut Sim)
        requires aim { IsAim self.old.chip (place_in self.old.places) aim }
        requires sim { IsSimOf self.old.chip self.old.places sim.old }

        ensures chip { KeepsChip self.old self.new }
        ensures aim { self.new.aim ≡ aim }
        ensures pair { self.new.pair ≡ unset_pair self.old.chip }
        ensures kept { KeepsSeen sim.old sim.new }
    {
        let chip = self.chip;
        chip.linked();
        turn_to(&mut self.scope, &mut self.part, chip, aim);
        self.aim = aim;
        forget(&mut self.bits);
        restore(&mut self.good, chip, &self.unset);
        restore(&mut self.faulty, chip, &self.unset);
        self.faulty.turn(chip, aim);
        settle(
            &mut self.faulty,
            chip,
            aim,
            Some(&self.good),
            &self.scope.places,
            sim,
        );
    }

    /// Sets a bit, or unsets it.
    pub fn set(&mut self, bit: u16, value: Option<bool>, sim: &mut Sim)
        requires bit { bit < length self.old.pair }
        requires sim { IsSimOf self.old.chip self.old.places sim.old }

        ensures pair { self.new.pair ≡ slice_set self.old.pair bit (value_of value) }
        ensures aim { KeepsAim self.old self.new }
        ensures kept { KeepsSeen sim.old sim.new }
    {
        let chip = self.chip;
        chip.linked();
        let inputs = chip.input_count();
        let place = bit as usize;
        let input = input_of(place, inputs);
        self.bits.set(place, trit_of(value));
        self.good.feed(chip, input, &self.bits);
        self.faulty.feed(chip, input, &self.bits);
        let scope = &self.scope.places;
        settle(&mut self.good, chip, None, None, scope, sim);
        settle(
            &mut self.faulty,
            chip,
            self.aim,
            Some(&self.good),
            scope,
            sim,
        );
    }

    /// Whether the pair shows the defect that is aimed at.
    pub fn is_shown(&self) -> bool
        requires good { IsWellFormed (flat self.now.chip None) }
        requires faulty { IsWellFormed (flat self.now.chip self.now.aim) }
        ensures { (defect : ChipDefect) → self.now.aim ≡ Some defect
            → IsTrue result ↔ IsShown self.now.chip defect self.now.pair }
    {
        is_some_opposite(&self.scope.outputs, &self.good.waves, &self.faulty.waves)
    }

    /// The wave of a net without a defect.
    pub fn good(&self, net: usize) -> Wave
        requires { net < length self.now.chip.nets }
        ensures { result ≡ wave_at self.now.good net }
    {
        self.good.waves.get(net)
    }

    /// The wave of a net with the defect.
    pub fn faulty(&self, net: usize) -> Wave
        requires { net < length self.now.chip.nets }
        ensures { result ≡ wave_at self.now.faulty net }
    {
        self.faulty.waves.get(net)
    }

    /// The value of a bit, if it is set.
    pub fn bit(&self, bit: usize) -> Option<bool>
        requires { bit < length self.now.pair }
        ensures { value_of result ≡ value_at self.now.pair bit }
    {
        match self.bits.get(bit) {
            Trit::One => Some(true),
            Trit::Zero => Some(false),
            Trit::X => None,
        }
    }

    /// There is a wave for each net, and a value for each bit. The call does nothing: it is for the fact.
    pub fn whole(&self)
        ensures { IsWhole self.now }
    {
        let _ = &self.aim;
    }

    /// The bits.
    pub fn pair(&self) -> &State
        ensures { result.now ≡ self.now.pair }
    {
        &self.bits
    }
}

ghost use Rattle.ca_view.specs.Linked.{IsAim, place_in};
ghost use Rattle.ca_sim.specs.code.Current.{AreUnset};
ghost use Rattle.ca_sim.specs.Network.{IsReady, IsAtRest};
ghost use Rattle.ca_flat.specs.Codes.{unset_pair};
ghost use Rattle.ca_confined.specs.code.Scope.{IsScopeRoom};
ghost use Rattle.ca_confined.specs.code.Kept.{IsScopeOf, IsScopeAt};
ghost use Rattle.std.specs.Prelude.{◌^◌};
ghost use Rattle.ca_confined.specs.code.Clear.{AreBelow};
ghost use Rattle.ca_confined.specs.code.Ends.{are_opposite, IsOppositeIn};

// Finds the scope of a defect, if it isn't there.
fn turn_to(scope: &mut Scope, part: &mut Option<u32>, chip: &View, aim: Option<ChipDefect>)
    requires aim { IsAim chip.now.core (place_in chip.now.ranks) aim }
    requires room { IsScopeRoom chip.now.core (place_in chip.now.ranks) scope.old }
    requires at { IsScopeAt chip.now.core (place_in chip.now.ranks) part.old scope.old }
    ensures room { IsScopeRoom chip.now.core (place_in chip.now.ranks) scope.new }
    ensures at { IsScopeAt chip.now.core (place_in chip.now.ranks) part.new scope.new }
    ensures scope { IsScopeOf chip.now.core (place_in chip.now.ranks) aim scope.new }
{
    if let Some(defect) = aim {
        if *part != Some(defect.instance) {
            *part = Some(defect.instance);
            scope.find(chip, defect.instance as usize);
        }
    }
}

// The network takes over the waves without bits, and nothing is due.
fn restore(network: &mut Network, chip: &View, unset: &Waves)
    requires ready { IsReady chip.now.core (place_in chip.now.ranks) network.old }
    requires unset { AreUnset chip.now.core unset.now }
    ensures rest { IsAtRest chip.now.core (place_in chip.now.ranks) None (unset_pair chip.now.core)
        network.new }
    ensures waves { network.new.waves ≡ unset.now }
{
    chip.linked();
    clear(&mut network.due, chip.instances() + 1);
    network.waves.take_over(unset);
}

// Whether the waves end with opposite values at a net of the set.
fn is_some_opposite(outputs: &PlaceSet, good: &Waves, faulty: &Waves) -> bool
    requires few { length good.now < 2 ^ 32 }
    requires good { AreBelow outputs.now (length good.now) }
    requires faulty { AreBelow outputs.now (length faulty.now) }
    ensures some { IsTrue result → IsOppositeIn outputs.now good.now faulty.now }
    ensures none { IsFalse result → IsOppositeIn outputs.now good.now faulty.now → ⊥ }
{
    let mut from = 0;
    while let Some(net) = outputs.next(from) {
        if are_opposite(good.get(net).last, faulty.get(net).last) {
            return true;
        }
        from = net + 1;
    }
    false
}

// Whether one of the values is 0 and the other 1.
fn are_opposite(good: Trit, faulty: Trit) -> bool
    ensures { result ≡ are_opposite good faulty }
{
    match (good, faulty) {
        (Trit::Zero, Trit::One) | (Trit::One, Trit::Zero) => true,
        (Trit::Zero | Trit::X, Trit::Zero | Trit::X)
        | (Trit::One, Trit::One | Trit::X)
        | (Trit::X, Trit::One) => false,
    }
}

//! The observed outputs that an instance reaches, and the instances that lead to them.

ghost use Rattle.std.specs.Prelude.{ℕ, ◌≡◌, ◌<◌, ◌+◌, IfOk};
ghost use Rattle.ca_flat.specs.Chip.{count_of};
ghost use Rattle.ca_view.specs.Linked.{IsPlaced, IsPlace, place_in};
ghost use Rattle.ca_flat.specs.Chain.{IsOutputOf};
ghost use Rattle.ca_confined.specs.code.Scope.{IsScopeRoom, IsScope, IsVisited, IsNoted, IsClosedFrom};
ghost use Rattle.ca_confined.specs.code.Scope.{AddsDrivers};

use crate::clear::clear;
use crate::drivers::drivers_of;
use ca_base::NoMemory;
use ca_places::PlaceSet;
use ca_sim::mark_readers;
use ca_view::View;
use std::alloc::Global;

/// The observed nets that an instance reaches, and the places of the instances that lead to these. All memory
/// is taken by `reserve`.
#[derive(Drop, Debug)]
pub(crate) struct Scope {
    // of each net the place of its driver
    pub(crate) drivers: Vec<usize>,
    // the places of the instances behind the one in hand
    pub(crate) reach: PlaceSet,
    pub(crate) outputs: PlaceSet,
    pub(crate) places: PlaceSet,
}

impl Scope {
    /// The room.
    pub(crate) fn reserve(alloc: Global, chip: &View) -> Result<Self, NoMemory>
        ensures { IfOk result (IsScopeRoom chip.now.core (place_in chip.now.ranks)) }
    {
        chip.linked();
        Ok(Scope {
            drivers: drivers_of(alloc, chip)?,
            reach: PlaceSet::reserve(alloc, chip.instances() + 1)?,
            outputs: PlaceSet::reserve(alloc, chip.nets() + 1)?,
            places: PlaceSet::reserve(alloc, chip.instances() + 1)?,
        })
    }

    /// Finds the scope of an instance.
    pub(crate) fn find(&mut self, chip: &View, u: usize)
        requires placed { IsPlaced chip.now.core (place_in chip.now.ranks) u }
        requires room { IsScopeRoom chip.now.core (place_in chip.now.ranks) self.old }
        ensures room { IsScopeRoom chip.now.core (place_in chip.now.ranks) self.new }
        ensures scope { IsScope chip.now.core (place_in chip.now.ranks) u self.new }
    {
        chip.linked();
        clear(&mut self.reach, chip.instances() + 1);
        clear(&mut self.places, chip.instances() + 1);
        clear(&mut self.outputs, chip.nets() + 1);
        self.visit(chip, u);
        let mut from = 0;
        while let Some(place) = self.reach.next(from) {
            self.visit(chip, chip.order(place));
            from = place + 1;
        }
        self.close(chip);
    }

    // The instances that read an output net of this one are behind it, and its observed nets are reached.
    fn visit(&mut self, chip: &View, u: usize)
        requires placed { IsPlaced chip.now.core (place_in chip.now.ranks) u }
        requires room { IsScopeRoom chip.now.core (place_in chip.now.ranks) self.old }
        ensures room { IsScopeRoom chip.now.core (place_in chip.now.ranks) self.new }
        ensures visited { IsVisited chip.now.core (place_in chip.now.ranks) u self.old self.new }
    {
        chip.linked();
        let first = chip.inputs_at(u);
        for output in 0..chip.outputs_at(u) {
            let net = chip.pin_net(u, first + output);
            mark_readers(chip, net, &mut self.reach);
            self.note(chip, u, net);
        }
    }

    // Notes an output net of an instance, if it is observed.
    fn note(&mut self, chip: &View, u: usize, net: usize)
        requires placed { IsPlaced chip.now.core (place_in chip.now.ranks) u }
        requires net { IsOutputOf chip.now.core u net }
        requires room { IsScopeRoom chip.now.core (place_in chip.now.ranks) self.old }
        ensures room { IsScopeRoom chip.now.core (place_in chip.now.ranks) self.new }
        ensures noted { IsNoted chip.now.core (place_in chip.now.ranks) u net self.old self.new }
    {
        chip.linked();
        if !chip.is_observed(net as u32) {
            return;
        }
        self.outputs.insert(net);
        self.places.insert(chip.rank(u));
    }

    // Adds the drivers of all instances of the scope, the last ones first.
    fn close(&mut self, chip: &View)
        requires room { IsScopeRoom chip.now.core (place_in chip.now.ranks) self.old }
        ensures room { IsScopeRoom chip.now.core (place_in chip.now.ranks) self.new }
        ensures kept { AddsDrivers (count_of chip.now.core + 1) self.old self.new }
        ensures closed { IsClosedFrom chip.now.core (place_in chip.now.ranks) 0 self.new }
    {
        chip.linked();
        let mut place = chip.instances() + 1;
        while place > 0 {
            place -= 1;
            if self.places.window(place) % 2 == 1 {
                self.add_drivers(chip, place);
            }
        }
    }

    // Adds the drivers of an instance of the scope.
    fn add_drivers(&mut self, chip: &View, place: usize)
        requires place { IsPlace chip.now.core (place_in chip.now.ranks) place }
        requires room { IsScopeRoom chip.now.core (place_in chip.now.ranks) self.old }
        ensures room { IsScopeRoom chip.now.core (place_in chip.now.ranks) self.new }
        ensures closed { IsClosedFrom chip.now.core (place_in chip.now.ranks) (place + 1) self.old
            → IsClosedFrom chip.now.core (place_in chip.now.ranks) place self.new }
        ensures kept { AddsDrivers place self.old self.new }
    {
        chip.linked();
        let u = chip.order(place);
        for pin in 0..chip.inputs_at(u) {
            let driver = self.drivers[chip.pin_net(u, pin)];
            add_before(&mut self.places, driver, place);
        }
    }
}

ghost use Rattle.ca_places.specs.PlaceSet.{HoldsUpTo};
ghost use Rattle.ca_confined.specs.code.Scope.{IsAddedBefore};

// Adds a place that isn't 0, if it comes before another.
fn add_before(set: &mut PlaceSet, place: usize, end: usize)
    requires { HoldsUpTo set.old end }
    ensures { IsAddedBefore place end set.old set.new }
{
    if place == 0 || place >= end {
        return;
    }
    set.insert(place);
}

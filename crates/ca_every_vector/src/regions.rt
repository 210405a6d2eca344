//! Regions: chip inputs, and instances whose output nets hang on these alone.

ghost use Rattle.std.specs.Prelude.{◌≡◌, ◌<◌, length, IfOk, IfSome};
ghost use Rattle.std.specs.List.{All};
ghost use Rattle.ca_view.specs.Linked.{IsPlaced, place_in};
ghost use Rattle.ca_every_vector.specs.code.Region.{AreFewInputs, AreNetsIn, IsRegion};

use crate::lists::entry;
use crate::supports::{Support, Supports, input_pins, output_pins};
use crate::vectors::MOST_REGION_BITS;
use ca_base::NoMemory;
use ca_view::View;
use std::alloc::Global;

/// Numbers of chip inputs; instances whose output nets hang on these alone, each after those that drive it;
/// the nets of both; and the instances that are in no region before this one.
#[derive(Drop)]
pub(crate) struct Region {
    pub(crate) inputs: Vec<u16>,
    pub(crate) parts: Vec<u32>,
    pub(crate) nets: Vec<u32>,
    pub(crate) fresh: Vec<u32>,
}

/// What is known of a chip to find its regions, and the instances of the region in hand.
#[derive(Drop)]
pub(crate) struct Regions<'a> {
    chip: &'a View<'a>,
    supports: Supports,
    is_found: Vec<bool>,
    found: Vec<u32>,
}

impl<'a> Regions<'a> {
    /// Finds what the nets of a chip hang on, where these are at most this many inputs.
    pub(crate) fn new(
        alloc: Global,
        chip: &'a View<'a>,
        order: &[Option<usize>],
        most: usize,
    ) -> Result<Self, NoMemory> {
        Ok(Regions {
            chip,
            supports: Supports::new(alloc, chip, order, most)?,
            is_found: vec![in alloc; false; chip.instances()]?,
            found: Vec::new(alloc),
        })
    }

    /// Finds the region of an instance, if its output nets hang on few chip inputs: what it drives belongs to
    /// it as long as the inputs are few, and what drives these instances. Answers the inputs.
    pub(crate) fn find(&mut self, u: u32) -> Result<Option<Support>, NoMemory> {
        self.forget();
        let inputs = match self.supports.before(self.chip, u) {
            Some(inputs) => inputs,
            None => return Ok(None),
        };
        self.take(u)?;
        let inputs = self.add_following(inputs)?;
        self.add_drivers()?;
        Ok(Some(inputs))
    }

    /// The instances of the region that was found last, in no order.
    pub(crate) fn found(&self) -> &[u32] {
        self.found.as_slice()
    }

    // Adds an instance, if it isn't there.
    fn take(&mut self, w: u32) -> Result<(), NoMemory> {
        let w_is_new = match self.is_found.get(w as usize) {
            Some(is_found) => !*is_found,
            None => false,
        };
        if w_is_new {
            self.is_found[w as usize] = true;
            self.found.push(w)?;
        }
        Ok(())
    }

    // Adds what follows, as long as the inputs are few.
    fn add_following(&mut self, inputs: Support) -> Result<Support, NoMemory> {
        let mut inputs = inputs;
        let chip = self.chip;
        for place in 0..chip.instances() {
            match self.found.get(place) {
                Some(w) => {
                    let w = *w;
                    for net in output_pins(chip, w) {
                        inputs = self.add_readers(*net, inputs)?;
                    }
                }
                None => break,
            }
        }
        Ok(inputs)
    }

    // Adds what reads a net.
    fn add_readers(&mut self, net: u32, inputs: Support) -> Result<Support, NoMemory> {
        let mut inputs = inputs;
        let chip = self.chip;
        chip.linked();
        if net as usize >= chip.nets() {
            return Ok(inputs);
        }
        for k in 0..chip.reader_count(net as usize) {
            let reader = chip.reader(net as usize, k);
            if reader < chip.instances() {
                inputs = self.add(reader as u32, inputs)?;
            }
        }
        Ok(inputs)
    }

    // Adds an instance, if the inputs stay few.
    fn add(&mut self, w: u32, inputs: Support) -> Result<Support, NoMemory> {
        if let Some(support) = self.supports.before(self.chip, w) {
            if let Some(all) = inputs.with(&support, self.supports.most) {
                self.take(w)?;
                return Ok(all);
            }
        }
        Ok(inputs)
    }

    // Adds what drives the instances.
    fn add_drivers(&mut self) -> Result<(), NoMemory> {
        let chip = self.chip;
        for place in 0..chip.instances() {
            match self.found.get(place) {
                Some(w) => {
                    let w = *w;
                    for net in input_pins(chip, w) {
                        if let Some(driver) = self.supports.driver(*net) {
                            self.take(driver)?;
                        }
                    }
                }
                None => break,
            }
        }
        Ok(())
    }

    // No instance is found.
    fn forget(&mut self) {
        for place in 0..self.found.len() {
            let w = self.found[place] as usize;
            if w < self.is_found.len() {
                self.is_found[w] = false;
            }
        }
        self.found.clear();
    }
}

/// The region of these inputs and instances.
pub(crate) fn region_of(
    alloc: Global,
    chip: &View<'_>,
    order: &[Option<usize>],
    inputs: &Support,
    found: &[u32],
    tried: &[bool],
) -> Result<Region, NoMemory>
    ensures { IfOk result (IsRegion chip.now.core (place_in chip.now.ranks)) }
{
    let inputs = inputs_of(alloc, chip, inputs)?;
    let parts = parts_of(alloc, chip, order, found)?;
    let nets = nets_of(alloc, chip, &inputs, &parts)?;
    let fresh = fresh_of(alloc, chip, &parts, tried)?;
    Ok(Region {
        inputs,
        parts,
        nets,
        fresh,
    })
}

// The numbers of chip inputs.
fn inputs_of(alloc: Global, chip: &View<'_>, all: &Support) -> Result<Vec<u16>, NoMemory>
    ensures { IfOk result (λ inputs. AreFewInputs chip.now.core inputs.items) }
{
    let mut inputs = Vec::new(alloc);
    for place in 0..MOST_REGION_BITS {
        if let Some(input) = all.get(place) {
            if (input as usize) < chip.input_count() {
                inputs.push(input)?;
            }
        }
    }
    Ok(inputs)
}

// The instances in the order.
fn parts_of(
    alloc: Global,
    chip: &View<'_>,
    order: &[Option<usize>],
    found: &[u32],
) -> Result<Vec<u32>, NoMemory>
    ensures { IfOk result (λ parts. All (IsPlaced chip.now.core (place_in chip.now.ranks)) parts.items) }
{
    let ranks = ranks_of(alloc, chip, found)?;
    let mut parts = Vec::new(alloc);
    for place in 0..ranks.len() {
        if let Some(u) = instance_at(chip, order, ranks[place]) {
            parts.push(u)?;
        }
    }
    Ok(parts)
}

// Their places in the order, ascending.
fn ranks_of(alloc: Global, chip: &View<'_>, found: &[u32]) -> Result<Vec<usize>, NoMemory> {
    let mut ranks = Vec::new(alloc);
    for place in 0..found.len() {
        let w = found[place] as usize;
        if w < chip.instances() {
            ranks.push(chip.rank(w))?;
        }
    }
    ranks.sort()?;
    Ok(ranks)
}

// The instance with a place, if there is one.
fn instance_at(chip: &View<'_>, order: &[Option<usize>], rank: usize) -> Option<u32>
    ensures { IfSome result (IsPlaced chip.now.core (place_in chip.now.ranks)) }
{
    chip.linked();
    if rank >= order.len() {
        return None;
    }
    match order[rank] {
        Some(u) if u < chip.instances() && chip.rank(u) > 0 => Some(u as u32),
        Some(_) | None => None,
    }
}

// The nets of the inputs, and the output nets of the instances.
fn nets_of(
    alloc: Global,
    chip: &View<'_>,
    inputs: &[u16],
    parts: &[u32],
) -> Result<Vec<u32>, NoMemory>
    requires inputs { AreFewInputs chip.now.core inputs.now }
    requires placed { All (IsPlaced chip.now.core (place_in chip.now.ranks)) parts.now }
    ensures { IfOk result (λ nets. AreNetsIn chip.now.core inputs.now parts.now nets.items) }
{
    let mut nets = Vec::new(alloc);
    add_inputs(chip, inputs, &mut nets)?;
    for place in 0..parts.len() {
        add_outputs(chip, entry(parts, place), &mut nets)?;
    }
    Ok(nets)
}

// Adds the nets of the inputs.
fn add_inputs(chip: &View<'_>, inputs: &[u16], nets: &mut Vec<u32>) -> Result<(), NoMemory>
    requires inputs { AreFewInputs chip.now.core inputs.now }
    requires known { All (λ net. net < length chip.now.core.nets) nets.old.items }
    ensures known { OnOk result (All (λ net. net < length chip.now.core.nets) nets.new.items) }
    ensures inputs { OnOk result (AreInputsIn chip.now.core inputs.now nets.new.items (length inputs.now)) }
{
    chip.linked();
    for place in 0..inputs.len() {
        nets.push(input_net(chip, inputs, place) as u32)?;
    }
    Ok(())
}

ghost use Rattle.std.specs.Prelude.{OnOk};
ghost use Rattle.ca_every_vector.specs.code.Region.{AreInputsIn, IsOutIn, IsLonger};

use crate::region::input_net;

// Adds the output nets of an instance.
fn add_outputs(chip: &View<'_>, w: usize, nets: &mut Vec<u32>) -> Result<(), NoMemory>
    requires placed { IsPlaced chip.now.core (place_in chip.now.ranks) w }
    requires known { All (λ net. net < length chip.now.core.nets) nets.old.items }
    ensures known { OnOk result (All (λ net. net < length chip.now.core.nets) nets.new.items) }
    ensures outputs { OnOk result (IsOutIn chip.now.core nets.new.items w) }
    ensures longer { OnOk result (IsLonger nets.old.items nets.new.items) }
{
    chip.linked();
    let first = chip.inputs_at(w);
    for output in 0..chip.outputs_at(w) {
        nets.push(chip.pin_net(w, first + output) as u32)?;
    }
    Ok(())
}

// The instances that weren't tried before.
fn fresh_of(
    alloc: Global,
    chip: &View<'_>,
    parts: &[u32],
    tried: &[bool],
) -> Result<Vec<u32>, NoMemory>
    requires { All (IsPlaced chip.now.core (place_in chip.now.ranks)) parts.now }
    ensures { IfOk result (λ fresh. All (IsPlaced chip.now.core (place_in chip.now.ranks)) fresh.items) }
{
    chip.linked();
    let mut fresh = Vec::new(alloc);
    for place in 0..parts.len() {
        let u = entry(parts, place);
        if u >= tried.len() || !tried[u] {
            fresh.push(u as u32)?;
        }
    }
    Ok(fresh)
}

//! Values of the nets in 64 lanes after an instance, found in the order of the instances.

ghost use Rattle.std.specs.Prelude.{ℕ, ◌≡◌, ◌<◌, length};
ghost use Rattle.ca_planes.specs.Plane.{has_lane};
ghost use Rattle.ca_flat.specs.Chip.{cell_at};
ghost use Rattle.ca_flat.specs.Codes.{bit_trit};
ghost use Rattle.ca_view.specs.Linked.{IsPlaced, place_in};
ghost use Rattle.ca_static.specs.LastTable.{IsLastTable};
ghost use Rattle.ca_sweep.specs.Seen.{flipped_outputs, flipped_if, is_flipped};
ghost use Rattle.ca_sweep.specs.code.Changes.{IsPut, IsWritten, IsEvaluatedOut};
ghost use Rattle.ca_sweep.specs.code.Held.{IsAtRest, IsHeld, IsGivenBack};
ghost use Rattle.ca_sweep.specs.code.Lanes.{AreLanesRoomy, flips_in, goods_in, trits_in, values_in};

use crate::lane_masks::{find_masks, given};
use crate::values::mark_readers;
use ca_places::PlaceSet;
use ca_planes::{either, except};
use ca_static::LastTable;
use ca_view::View;

/// Which output pins of an instance are flipped: for each the lanes in which it is.
#[derive(Clone, Copy, Debug)]
pub(crate) struct LaneFlips {
    pub(crate) first: u64,
    pub(crate) second: u64,
}

/// For each net the lanes in which its value is 1, and the places in the order whose instances are due in
/// some lane.
#[derive(Drop, Debug)]
pub(crate) struct LaneValues {
    pub(crate) ones: Vec<u64>,
    pub(crate) due: PlaceSet,
}

impl LaneValues {
    // Gives a net a value in each lane; if that is another one, its readers are due.
    fn put(&mut self, chip: &View<'_>, net: usize, plane: u64)
        requires known { net < length chip.now.core.nets }
        requires room { AreLanesRoomy chip.now.core self.old }
        ensures put { (lane : ℕ) → IsPut chip.now.core (place_in chip.now.ranks) net
            (bit_trit (has_lane plane lane)) (values_in self.old lane) (values_in self.new lane) }
        ensures room { AreLanesRoomy chip.now.core self.new }
    {
        if self.ones[net] == plane {
            return;
        }
        self.ones[net] = plane;
        mark_readers(chip, net, &mut self.due);
    }

    /// Gives the output nets of an instance the opposite of their values, in the lanes in which the pins are
    /// flipped.
    pub(crate) fn flip(&mut self, chip: &View<'_>, u: usize, flips: LaneFlips)
        requires placed { IsPlaced chip.now.core (place_in chip.now.ranks) u }
        requires room { AreLanesRoomy chip.now.core self.old }
        ensures written { (lane : ℕ) → IsWritten chip.now.core (place_in chip.now.ranks) u
            (flipped_outputs chip.now.core u (goods_in self.old.ones.items lane) (flips_in flips lane))
            (values_in self.old lane) (values_in self.new lane) }
        ensures room { AreLanesRoomy chip.now.core self.new }
    {
        chip.linked();
        let first = chip.inputs_at(u);
        for output in 0..chip.outputs_at(u) {
            let net = chip.pin_net(u, first + output);
            let plane = flipped(self.ones[net], plane_of(flips, output));
            self.put(chip, net, plane);
        }
    }

    /// Gives the output nets of an instance what the table of its cell gives for the values of its input
    /// nets.
    pub(crate) fn evaluate(
        &mut self,
        chip: &View<'_>,
        table: &LastTable,
        masks: &mut Vec<u64>,
        w: usize,
    )
        requires placed { IsPlaced chip.now.core (place_in chip.now.ranks) w }
        requires room { AreLanesRoomy chip.now.core self.old }
        requires table { IsLastTable (cell_at chip.now.core w) table.now }
        requires masks { length masks.old.items ≡ 64 }

        ensures evaluated { (lane : ℕ) → lane < 64
            → IsEvaluatedOut chip.now.core (place_in chip.now.ranks) w
            (values_in self.old lane) (values_in self.new lane) }
        ensures room { AreLanesRoomy chip.now.core self.new }
        ensures masks { length masks.new.items ≡ 64 }
    {
        chip.linked();
        let count = find_masks(&self.ones, chip.input_pins(w as u32), masks);
        let first = chip.inputs_at(w);
        for output in 0..chip.outputs_at(w) {
            let plane = given(masks, count, table, output);
            self.put(chip, chip.pin_net(w, first + output), plane);
        }
    }

    // Gives the output nets of an instance their good values.
    fn give_back(&mut self, chip: &View<'_>, goods: &[u64], w: usize)
        requires placed { IsPlaced chip.now.core (place_in chip.now.ranks) w }
        requires nets { length goods.now ≡ length chip.now.core.nets }
        requires room { length self.old.ones.items ≡ length chip.now.core.nets }
        ensures back { (lane : ℕ) → IsGivenBack chip.now.core w (goods_in goods.now lane)
            (values_in self.old lane) (values_in self.new lane) }
        ensures room { length self.new.ones.items ≡ length chip.now.core.nets }
    {
        chip.linked();
        let first = chip.inputs_at(w);
        for output in 0..chip.outputs_at(w) {
            let net = chip.pin_net(w, first + output);
            self.ones[net] = goods[net];
        }
    }

    /// Gives each net that may have another value its good one: the output nets of an instance, and those of
    /// all that are due. Nothing is due any more.
    pub(crate) fn restore(&mut self, chip: &View<'_>, goods: &[u64], u: usize)
        requires placed { IsPlaced chip.now.core (place_in chip.now.ranks) u }
        requires nets { length goods.now ≡ length chip.now.core.nets }
        requires held { (lane : ℕ) → lane < 64 → IsHeld chip.now.core (place_in chip.now.ranks) u
            (goods_in goods.now lane) (values_in self.old lane) }
        ensures rest { (lane : ℕ) → lane < 64 → IsAtRest chip.now.core (trits_in goods.now lane)
            (values_in self.new lane) }
        ensures room { length self.new.ones.items ≡ length chip.now.core.nets }
    {
        chip.linked();
        self.give_back(chip, goods, u);
        let mut from = 0;
        while let Some(place) = self.due.next(from) {
            self.due.remove(place);
            self.give_back(chip, goods, chip.order(place));
            from = place + 1;
        }
    }
}

// The lanes in which an output pin is flipped.
fn plane_of(flips: LaneFlips, output: usize) -> u64
    ensures { (lane : ℕ) → has_lane result lane ≡ is_flipped (flips_in flips lane) output }
{
    if output == 0 {
        flips.first
    } else {
        flips.second
    }
}

// A plane with the opposite in some lanes.
fn flipped(plane: u64, flips: u64) -> u64
    ensures { (lane : ℕ) → bit_trit (has_lane result lane)
        ≡ flipped_if (has_lane flips lane) (bit_trit (has_lane plane lane)) }
{
    either(except(plane, flips), except(flips, plane))
}

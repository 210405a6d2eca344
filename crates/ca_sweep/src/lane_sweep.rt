//! In which of 64 pairs flips of an instance's output pins are seen at an observed output.

ghost use Rattle.std.specs.Prelude.{ℕ, ◌≡◌, ◌≢◌, ◌<◌, ◌≤◌, ◌^◌, ◌+◌, ◌*◌, length, true, false, IfOk, IsTrue};
ghost use Rattle.ca_net.specs.State.{value_at};
ghost use Rattle.ca_planes.specs.Plane.{has_lane, lane_at};
ghost use Rattle.ca_view.specs.Linked.{IsPlaced, place_in};
ghost use Rattle.ca_sweep.specs.Seen.{AreSameAt, AreUnseen, IsLanedFor, lasts_in, trits_in};

use crate::cells::{Tables, order_of, tables_of};
use crate::clear::are_all_static;
use crate::firsts::firsts_of;
use crate::lane_find::find_lanes;
use crate::lane_goods::{constant_planes, put_bits, settle_lanes};
use crate::lane_values::LaneValues;
use crate::lanes::Lanes;
use crate::pinned::pinned_nets;
use ca_base::NoMemory;
use ca_net::{State, Trit};
use ca_places::PlaceSet;
use ca_planes::{either, has};
use ca_sim::Bits;
use ca_view::View;
use std::alloc::Global;
use std::marker::Model;

/// For each net the lanes in which its good last value is 1, and for each instance the lanes in which flips
/// of its output pins are seen, once they were found. All memory is taken by `reserve`: some 50 bytes for
/// each instance, and 16 for each net.
#[derive(Drop)]
pub struct LaneSweep<'a> {
    chip: &'a View<'a>,
    count: usize,
    firsts: Vec<usize>,
    tables: Tables,
    is_static: bool,
    order: Vec<Option<usize>>,
    pinned: Vec<bool>,
    // for which instances it is to be found
    wanted: Vec<bool>,
    ones: Vec<u64>,
    values: LaneValues,
    masks: Vec<u64>,
    seen: Vec<u64>,
    is_found: bool,
}

impl<'a> Model for LaneSweep<'a> {
    ghost use Rattle.ca_view.specs.Linked.{place_in};
    ghost use Rattle.ca_view.specs.Places.{cell_number};
    ghost use Rattle.ca_sweep.specs.Seen.{Laned};
    ghost use Rattle.ca_sweep.specs.code.Lanes.{AreLanesKept};

    ghost Value = { Laned };

    ghost view = { λ lanes. record {
      chip = lanes.chip.now.core;
      places = lanes.chip.now.ranks;
      pinned = lanes.pinned.items;
      ones = lanes.ones.items;
    } };

    ghost invariant = { λ lanes. AreLanesKept lanes.chip.now.core (place_in lanes.chip.now.ranks)
        (cell_number lanes.chip.now.chip) lanes.count lanes.firsts.items lanes.tables.items
        lanes.is_static lanes.order.items lanes.pinned.items lanes.wanted.items lanes.ones.items
        lanes.values lanes.masks.items lanes.seen.items lanes.is_found };
}

impl<'a> LaneSweep<'a> {
    /// Takes all memory. The nets of the observed outputs come in their order.
    pub fn reserve(alloc: Global, chip: &'a View<'a>, outputs: &[u32]) -> Result<Self, NoMemory>
        requires { outputs.now ≡ chip.now.core.outputs }
        ensures { IfOk result (IsLanedFor chip.now.core chip.now.ranks) }
    {
        chip.linked();
        let firsts = firsts_of(alloc, chip.nets(), outputs)?;
        let tables = tables_of(alloc, chip)?;
        let is_static = are_all_static(chip, &tables);
        Ok(LaneSweep {
            chip,
            count: outputs.len(),
            firsts,
            tables,
            is_static,
            order: order_of(alloc, chip)?,
            pinned: pinned_nets(alloc, chip)?,
            wanted: vec![in alloc; true; chip.instances()]?,
            ones: constant_planes(alloc, chip)?,
            values: LaneValues {
                ones: vec![in alloc; 0u64; chip.nets()]?,
                due: PlaceSet::reserve(alloc, chip.instances() + 1)?,
            },
            masks: vec![in alloc; 0u64; 64]?,
            seen: vec![in alloc; 0u64; 4 * chip.instances()]?,
            is_found: false,
        })
    }

    /// From the next time on when it is found, it is found for the instances alone that are wanted after
    /// this.
    pub(crate) fn want_none(&mut self)
        ensures { self.new ≡ self.old }
    {
        self.wanted.fill(false);
    }

    /// An instance is wanted.
    pub(crate) fn want(&mut self, u: usize)
        requires { IsPlaced self.old.chip (place_in self.old.places) u }
        ensures { self.new ≡ self.old }
    {
        self.chip.linked();
        self.wanted[u] = true;
    }
}

impl Lanes for LaneSweep<'_> {
    ghost laned = { λ lanes. lanes };

    fn set<B: Bits>(&mut self, lane: usize, bits: &B) {
        self.is_found = false;
        put_bits(self.chip, bits, lane, &mut self.ones);
    }

    fn find(&mut self) {
        self.chip.linked();
        if self.is_found {
            return;
        }
        if !self.is_static {
            return;
        }
        settle_lanes(
            self.chip,
            &self.tables,
            &self.order,
            &mut self.masks,
            &mut self.ones,
        );
        self.values.ones.copy_from_slice(&self.ones);
        find_lanes(
            self.chip,
            &self.tables,
            &self.firsts,
            self.count,
            &self.order,
            &self.wanted,
            &self.ones,
            &mut self.values,
            &mut self.masks,
            &mut self.seen,
        );
        self.is_found = true;
    }

    fn agrees(&self, lane: usize, lasts: &State) -> bool {
        agree(&self.pinned, &self.ones, lane, lasts)
    }

    fn is_unseen(&self, u: usize, lane: usize) -> bool {
        self.chip.linked();
        if !self.is_found {
            return false;
        }
        is_unset(&self.seen, u, lane)
    }
}

// Whether a lane has these values at the marked nets.
fn agree(pinned: &[bool], ones: &[u64], lane: usize, lasts: &State) -> bool
    requires lane { lane < 64 }
    requires pinned { length pinned.now ≡ length ones.now }
    requires nets { length lasts.now ≡ length ones.now }
    ensures { IsTrue result → AreSameAt pinned.now (value_at (trits_in ones.now lane))
        (value_at lasts.now) }
{
    for net in 0..ones.len() {
        if !is_same(pinned[net], has(ones[net], lane), lasts.get(net)) {
            return false;
        }
    }
    true
}

// Whether a value is that of a bit, if it has to be.
fn is_same(is_pinned: bool, bit: bool, value: Trit) -> bool
    ensures { IsTrue result → is_pinned ≡ true → bit_trit bit ≡ value }
{
    !is_pinned || value == value_of(bit)
}

// The value of a bit.
fn value_of(bit: bool) -> Trit
    ensures { result ≡ bit_trit bit }
{
    if bit { Trit::One } else { Trit::Zero }
}

// Whether none of the planes of the three choices of an instance with a flip has a lane.
fn is_unset(seen: &[u64], u: usize, lane: usize) -> bool
    requires few { u < 2 ^ 32 }
    requires room { 4 * u + 4 ≤ length seen.now }
    requires lane { lane < 64 }
    ensures one { IsTrue result → lane_at seen.now (4 * u + 1) lane ≡ false }
    ensures other { IsTrue result → lane_at seen.now (4 * u + 2) lane ≡ false }
    ensures both { IsTrue result → lane_at seen.now (4 * u + 3) lane ≡ false }
{
    let any = either(seen[4 * u + 1], either(seen[4 * u + 2], seen[4 * u + 3]));
    !has(any, lane)
}

ghost use Rattle.ca_net.specs.declared.trit.Trit.{Trit};
ghost use Rattle.ca_net.specs.declared.trit.Trit.TheVariants.{X};
ghost use Rattle.ca_flat.specs.Codes.{bit_trit};

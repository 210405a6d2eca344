//! The values of all nets of a chip in 256 lanes.

ghost use Rattle.std.specs.Prelude.{◌≡◌, ◌+◌, ◌^◌, ◌<◌, ◌≤◌, ℕ, true, false, length, IfOk, vec_capacity};
ghost use Rattle.std.specs.List.{All};
ghost use Rattle.ca_cell.specs.declared.rule.TheConstants.{MOST_INPUTS};

use crate::evaluate::{first_values, last_values};
use crate::gather::gather;
use crate::good_rows::GoodRows;
use crate::masks::spread;
use crate::plane::{LANES, Plane};
use crate::screen::suspect_lanes;
use crate::values::Values;
use ca_base::NoMemory;
use ca_cell::{MOST_INPUTS, Rows};
use ca_net::Trit;
use std::alloc::Global;

// The most vectors of a cell's input pins.
const MOST_VECTORS: usize = 64;

/// What each net may be in the first frame and in the last one, in each loaded lane, and the room to evaluate
/// an instance.
#[derive(Drop)]
pub struct Planes {
    pub(crate) loaded: Plane,
    pub(crate) firsts: Vec<Values>,
    pub(crate) lasts: Vec<Values>,
    pub(crate) pins: Vec<Values>,
    pub(crate) first_masks: Vec<Plane>,
    pub(crate) last_masks: Vec<Plane>,
    ghost one_of_each: { length firsts.items ≡ length lasts.items },
    ghost pins_room: { MOST_INPUTS ≤ vec_capacity pins },
    ghost first_room: { 2 ^ MOST_INPUTS ≤ vec_capacity first_masks },
    ghost last_room: { 2 ^ MOST_INPUTS ≤ vec_capacity last_masks },
}

impl Planes {
    ghost use Rattle.ca_net.specs.State.{value_at};
    ghost use Rattle.ca_lanes.specs.Plane.{lane_of};
    ghost use Rattle.ca_lanes.specs.Planes.{net_count, is_loaded, firsts_in, lasts_in, AreEmpty, KeepsLanes};
    ghost use Rattle.ca_lanes.specs.code.Allowed.{lanes_of};
    ghost use Rattle.ca_lanes.specs.Netlist.{ArePinsOf};
    ghost use Rattle.ca_lanes.specs.code.Evaluated.{masks_for, IsEvaluated};
    ghost use Rattle.ca_lanes.specs.Loaded.{trits_for};
    ghost use Rattle.ca_lanes.specs.Screened.{IsScreenable, SaysSuspect};

    /// Takes the room for a chip with `nets` nets: 128 bytes each. No lane is loaded.
    pub fn reserve(alloc: Global, nets: usize) -> Result<Self, NoMemory>
        ensures { IfOk result (AreEmpty nets) }
    {
        let mut firsts = Vec::with_capacity(alloc, nets)?;
        let mut lasts = Vec::with_capacity(alloc, nets)?;
        for net in 0..nets {
            firsts.push_reserved(Values::none());
            lasts.push_reserved(Values::none());
        }
        Ok(Planes {
            loaded: Plane::none(),
            firsts,
            lasts,
            pins: Vec::with_capacity(alloc, MOST_INPUTS)?,
            first_masks: Vec::with_capacity(alloc, MOST_VECTORS)?,
            last_masks: Vec::with_capacity(alloc, MOST_VECTORS)?,
        })
    }

    // Finds the masks of the vectors of these input pins.
    fn find_masks(&mut self, pins: &[u32])
        requires few { length pins.now ≤ MOST_INPUTS }
        requires within { All (λ net. net < net_count self.old) pins.now }
        ensures first { (lane : ℕ) → lanes_of self.new.first_masks.items lane
            ≡ masks_for (is_loaded self.old lane) (firsts_in self.old lane) (length pins.now) pins.now }
        ensures last { (lane : ℕ) → lanes_of self.new.last_masks.items lane
            ≡ masks_for (is_loaded self.old lane) (lasts_in self.old lane) (length pins.now) pins.now }
        ensures first_count { length self.new.first_masks.items ≡ 2 ^ length pins.now }
        ensures last_count { length self.new.last_masks.items ≡ 2 ^ length pins.now }
        ensures loaded { self.new.loaded ≡ self.old.loaded }
        ensures firsts { self.new.firsts ≡ self.old.firsts }
        ensures lasts { self.new.lasts ≡ self.old.lasts }
    {
        gather(&self.firsts, pins, &mut self.pins);
        spread(&self.pins, self.loaded, &mut self.first_masks);
        gather(&self.lasts, pins, &mut self.pins);
        spread(&self.pins, self.loaded, &mut self.last_masks);
    }

    // Evaluates an instance in all lanes: its output nets get what its cell's rows give.
    pub(crate) fn evaluate(&mut self, rows: &GoodRows, pins: &[u32])
        requires pins { ArePinsOf (net_count self.old) rows.now.inputs rows.now.outputs pins.now }
        ensures evaluated { (lane : ℕ) → IsEvaluated rows.now.values.items
            rows.now.inputs rows.now.outputs pins.now (is_loaded self.old lane) rows.now.outputs
            (firsts_in self.old lane) (lasts_in self.old lane)
            (firsts_in self.new lane) (lasts_in self.new lane) }
        ensures loaded { self.new.loaded ≡ self.old.loaded }
        ensures count { net_count self.new ≡ net_count self.old }
    {
        self.find_masks(&pins[..rows.inputs]);
        for output in 0..rows.outputs {
            let net = pins[rows.inputs + output] as usize;
            let first = first_values(&rows.values, rows.outputs, output, &self.first_masks);
            let last = last_values(
                &rows.values,
                &rows.like_next,
                rows.outputs,
                output,
                &self.first_masks,
                &self.last_masks,
            );
            self.firsts[net] = first;
            self.lasts[net] = last;
        }
    }

    /// The lanes whose pair is suspect for the rows: the exposing rows of a defect of an instance with these
    /// nets at its input pins. A lane that isn't loaded isn't set. What the lanes hold stays; the room to
    /// evaluate an instance is written.
    pub fn screen_block(&mut self, pins: &[u32], rows: &Rows) -> Plane
        requires screenable { IsScreenable (net_count self.old) pins.now rows.now }

        ensures suspect { (lane : ℕ) → is_loaded self.old lane ≡ true
            → SaysSuspect pins.now rows.now (firsts_in self.old lane) (lasts_in self.old lane)
            (lane_of result lane) }
        ensures unloaded { (lane : ℕ) → is_loaded self.old lane ≡ false → lane_of result lane ≡ false }
        ensures kept { KeepsLanes self.old self.new }
    {
        self.find_masks(pins);
        suspect_lanes(rows.as_slice(), &self.first_masks, &self.last_masks)
    }

    /// The values of a net in a lane, in the first frame and in the last one.
    pub fn value(&self, net: usize, lane: usize) -> (Trit, Trit)
        requires net { net < net_count self.now }
        requires lane { lane < LANES }

        ensures first { result.0 ≡ value_at (trits_for (firsts_in self.now lane)) net }
        ensures last { result.1 ≡ value_at (trits_for (lasts_in self.now lane)) net }
    {
        (self.firsts[net].value(lane), self.lasts[net].value(lane))
    }
}

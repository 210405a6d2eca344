//! A linked chip and its core as tables.

ghost use Rattle.std.specs.Prelude.{ℕ, ◌+◌, ◌≡◌, ◌<◌, length, slice_index, slice_index_or, slice_get};
ghost use Rattle.std.specs.Prelude.{false, Some, IfOk};
ghost use Rattle.std.specs.List.{All};
ghost use Rattle.ca_linked.specs.Linked.{IsWired};
ghost use Rattle.ca_flat.specs.Chip.{cell_at, inputs_at, outputs_at, net_of, count_of};
ghost use Rattle.ca_view.specs.Linked.{IsLinked, IsPinned, AreReaders, IsPlaced, IsPlace, place_in};
ghost use Rattle.ca_view.specs.NetLists.{AreNetsOf, linked_from, AreWithin, input_nets, output_nets};
ghost use Rattle.ca_view.specs.Places.{cell_number};
ghost use Rattle.ca_view.specs.Readers.{row_at};
ghost use Rattle.ca_view.specs.Constants.{constant_of};
ghost use Rattle.ca_view.specs.View.{IsViewOf};

use crate::constants::{FixedNet, constants_of};
use crate::ends::{input_nets, marks_of, output_nets};
use crate::links::LinkTable;
use crate::nets::core_nets;
use crate::pins::CorePins;
use crate::places::ranks_of;
use crate::readers::rows_of;
use ca_base::NoMemory;
use ca_cell::Cell;
use ca_linked::{Chip, InstanceId, InstanceList};
use std::alloc::Global;
use std::marker::Model;

// Two bits for each input have numbers below 2^15.
const MOST_PATTERN_INPUTS: usize = 16_383;

/// A linked chip, which it borrows, and its core as tables: the rank of each instance, the instances that
/// read each net, the constants, the nets of the pins of each instance, for each net those that it feeds and
/// those that feed it, and the nets of the chip inputs and of the observed outputs. Nets and instances have
/// the numbers of the core.
#[derive(Drop)]
pub struct View<'a> {
    chip: &'a Chip,
    ranks: Vec<usize>,
    readers: Vec<InstanceList>,
    constants: Vec<FixedNet>,
    pins: CorePins,
    onward: LinkTable,
    back: LinkTable,
    observed: Vec<bool>,
    inputs: Vec<u32>,
    outputs: Vec<u32>,
}

impl<'a> Model for View<'a> {
    ghost use Rattle.ca_view.specs.View.{Viewed};
    ghost use Rattle.ca_view.specs.code.View.{viewed_as, IsKept};

    ghost Value = { Viewed };

    ghost view = { λ view. viewed_as view.chip.now view.ranks.items view.readers.items view.constants.items
        view.pins view.onward view.back view.observed.items view.inputs.items view.outputs.items };

    ghost invariant = { λ view. IsKept view.pins (viewed_as view.chip.now view.ranks.items view.readers.items
        view.constants.items view.pins view.onward view.back view.observed.items view.inputs.items
        view.outputs.items) };
}

impl<'a> View<'a> {
    /// The view of a chip. Also answers out of memory for a chip with 2^14 chip inputs: a linked one
    /// has at most 4,096.
    pub fn new(alloc: Global, chip: &'a Chip) -> Result<Self, NoMemory>
        ensures { IfOk result (IsViewOf chip.now) }
    {
        chip.wired();
        if chip.inputs() > MOST_PATTERN_INPUTS {
            return Err(NoMemory);
        }
        let numbers = core_nets(alloc, chip)?;
        let ranks = ranks_of(alloc, chip)?;
        let inputs = input_nets(alloc, chip, &numbers)?;
        let outputs = output_nets(alloc, chip, &numbers)?;
        let observed = marks_of(alloc, numbers.count() as usize, &outputs)?;
        let constants = constants_of(alloc, chip, &numbers)?;
        let readers = rows_of(alloc, chip)?;
        let pins = CorePins::of(alloc, chip, &numbers)?;
        let onward = LinkTable::onward(alloc, &pins)?;
        let back = LinkTable::back(alloc, &pins)?;
        Ok(View {
            chip,
            ranks,
            readers,
            constants,
            pins,
            onward,
            back,
            observed,
            inputs,
            outputs,
        })
    }

    /// The chip.
    pub fn chip(&self) -> &'a Chip
        ensures { result.now ≡ self.now.chip }
    {
        self.chip
    }

    /// The tables are the chip's own. The call does nothing: it is for the facts.
    pub fn viewed(&self)
        ensures wired { IsWired self.now.chip }
        ensures is_view { IsViewOf self.now.chip self.now }
    {
        let _ = &self.chip;
    }

    /// The order is topological, the chip inputs and constants have nets of their own, these are all that
    /// read a net, and the lists are those of the core. The call does nothing: it is for the facts.
    pub fn linked(&self)
        ensures linked { IsLinked self.now.core (place_in self.now.ranks) (cell_number self.now.chip) }
        ensures pinned { IsPinned self.now.core }
        ensures read { (net : ℕ) → net < length self.now.core.nets
            → AreReaders self.now.core net (row_at self.now.readers net) }
        ensures nets { AreNetsOf self.now.core self.now.lists }
    {
        let _ = &self.chip;
    }

    /// The number of nets.
    pub fn nets(&self) -> usize
        ensures { result ≡ length self.now.core.nets }
    {
        self.observed.len()
    }

    /// The number of instances.
    pub fn instances(&self) -> usize
        ensures { result ≡ count_of self.now.core }
    {
        self.chip.parts()
    }

    /// The cell of an instance.
    pub fn cell(&self, u: usize) -> &Cell
        requires { IsPlaced self.now.core (place_in self.now.ranks) u }
        ensures { result.now ≡ cell_at self.now.core u }
    {
        self.chip.cell_of(InstanceId(u as u32))
    }

    /// The number of an instance's input pins.
    pub fn inputs_at(&self, u: usize) -> usize
        requires { IsPlaced self.now.core (place_in self.now.ranks) u }
        ensures { result ≡ inputs_at self.now.core u }
    {
        self.pins.inputs(u).len()
    }

    /// The number of its output pins.
    pub fn outputs_at(&self, u: usize) -> usize
        requires { IsPlaced self.now.core (place_in self.now.ranks) u }
        ensures { result ≡ outputs_at self.now.core u }
    {
        self.pins.outputs(u).len()
    }

    /// A bound of the numbers of cells.
    pub fn numbers(&self) -> usize
        ensures { (u : ℕ) → IsPlaced self.now.core (place_in self.now.ranks) u
            → cell_number self.now.chip u < result }
    {
        self.chip.library_cells()
    }

    /// The number of an instance's cell.
    #[tactic(auto, unfolding(crate::specs::Places::cell_number))]
    pub fn number(&self, u: usize) -> usize
        requires { IsPlaced self.now.core (place_in self.now.ranks) u }
        ensures { result ≡ cell_number self.now.chip u }
    {
        self.chip.library_place(InstanceId(u as u32))
    }

    /// The net of a pin of an instance: the input pins come first.
    pub fn pin_net(&self, u: usize, pin: usize) -> usize
        requires placed { IsPlaced self.now.core (place_in self.now.ranks) u }
        requires within { pin < inputs_at self.now.core u + outputs_at self.now.core u }
        ensures { result ≡ net_of self.now.core u pin }
    {
        let inputs = self.pins.inputs(u);
        if pin < inputs.len() {
            inputs[pin] as usize
        } else {
            self.pins.outputs(u)[pin - inputs.len()] as usize
        }
    }

    /// The nets of an instance's input pins.
    pub fn input_pins(&self, u: u32) -> &[u32]
        requires { u < length self.now.lists.input_pins }
        ensures same { result.now ≡ input_nets self.now.lists u }
        ensures within { All (λ net. net < length self.now.lists.onward) result.now }
    {
        self.pins.inputs(u as usize)
    }

    /// The nets of its output pins.
    pub fn output_pins(&self, u: u32) -> &[u32]
        requires { u < length self.now.lists.output_pins }
        ensures same { result.now ≡ output_nets self.now.lists u }
        ensures within { All (λ net. net < length self.now.lists.onward) result.now }
    {
        self.pins.outputs(u as usize)
    }

    /// The instance of a rank.
    pub fn order(&self, rank: usize) -> usize
        requires { IsPlace self.now.core (place_in self.now.ranks) rank }
        ensures placed { IsPlaced self.now.core (place_in self.now.ranks) result }
        ensures at { place_in self.now.ranks result ≡ rank }
    {
        self.chip.order(rank - 1).0 as usize
    }

    /// The rank of an instance: its place in the order, from 1 on; 0 where it has none.
    pub fn rank(&self, u: usize) -> usize
        requires { u < count_of self.now.core }
        ensures { result ≡ place_in self.now.ranks u }
    {
        self.ranks[u]
    }

    /// The number of instances with an input pin on a net; one may count as often as it has pins there.
    pub fn reader_count(&self, net: usize) -> usize
        requires { net < length self.now.core.nets }
        ensures { result ≡ length (row_at self.now.readers net) }
    {
        self.readers[net].len()
    }

    /// An instance with an input pin on a net.
    pub fn reader(&self, net: usize, k: usize) -> usize
        requires known { net < length self.now.core.nets }
        requires within { k < length (row_at self.now.readers net) }
        ensures { slice_get (row_at self.now.readers net) k ≡ Some result }
    {
        self.readers[net].get(k).0 as usize
    }

    /// The nets that a net feeds: those of the output pins of its readers.
    pub fn onward(&self, net: u32) -> &[u32]
        requires { net < length self.now.lists.onward }
        ensures same { result.now ≡ linked_from self.now.lists.onward net }
        ensures within { AreWithin self.now.lists.onward }
    {
        self.onward.from(net)
    }

    /// The nets that feed a net.
    pub fn back(&self, net: u32) -> &[u32]
        requires { net < length self.now.lists.back }
        ensures same { result.now ≡ linked_from self.now.lists.back net }
        ensures within { AreWithin self.now.lists.back }
    {
        self.back.from(net)
    }

    /// Whether a net is observed.
    pub fn is_observed(&self, net: u32) -> bool
        requires { net < length self.now.lists.onward }
        ensures { result ≡ slice_index_or self.now.lists.observed net false }
    {
        self.observed[net as usize]
    }

    /// The net of each chip input.
    pub fn inputs(&self) -> &[u32]
        ensures same { result.now ≡ self.now.lists.inputs }
        ensures within { All (λ net. net < length self.now.lists.onward) result.now }
        ensures few { length self.now.lists.inputs < 32768 }
    {
        &self.inputs
    }

    /// The number of chip inputs.
    pub fn input_count(&self) -> usize
        ensures { result ≡ length self.now.core.inputs }
    {
        self.inputs.len()
    }

    /// The net of a chip input.
    pub fn input(&self, input: usize) -> usize
        requires { input < length self.now.core.inputs }
        ensures { result ≡ slice_index self.now.core.inputs input }
    {
        self.inputs[input] as usize
    }

    /// The number of constants.
    pub fn constant_count(&self) -> usize
        ensures { result ≡ length self.now.core.constants }
    {
        self.constants.len()
    }

    /// A constant.
    pub fn constant(&self, k: usize) -> FixedNet
        requires { k < length self.now.core.constants }
        ensures { slice_get self.now.core.constants k ≡ Some (constant_of result) }
    {
        self.constants[k]
    }

    /// The number of observed outputs.
    pub fn output_count(&self) -> usize
        ensures { result ≡ length self.now.core.outputs }
    {
        self.outputs.len()
    }

    /// The net that an observed output is on.
    pub fn output(&self, o: usize) -> usize
        requires { o < length self.now.core.outputs }
        ensures within { result < length self.now.core.nets }
        ensures net { result ≡ slice_index self.now.core.outputs o }
    {
        self.outputs[o] as usize
    }
}

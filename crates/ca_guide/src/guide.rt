//! The guide: plain rule-out, and else the next bit.

ghost use Rattle.std.specs.Prelude.{◌≡◌, ◌<◌, ◌≤◌, ◌↔◌, length, IfOk, IsTrue};
ghost use Rattle.std.specs.List.{Contains};
ghost use Rattle.ca_flat.specs.Chip.{count_of};
ghost use Rattle.ca_flat.specs.Pair.{IsOpenPair};
ghost use Rattle.ca_flat.specs.Rows.{ListsExposingRows};
ghost use Rattle.ca_guide.specs.Seen.{pair_of, Covers};
ghost use Rattle.ca_guide.specs.Guide.{HasRoomFor, IsSupport, ShowsPair, IsStep, IsAttempt};
ghost use Rattle.ca_guide.specs.code.Guide.{IsUnsetAnswer};

use crate::number_set::NumberSet;
use crate::open_chain::reaches_output;
use crate::rows::is_some_row_allowed;
use crate::support::find_support;
use crate::waves::NetWaves;
use ca_base::NoMemory;
use ca_cell::Rows;
use ca_flat::ChipDefect;
use ca_view::View;
use std::alloc::Global;
use std::marker::Model;

/// What to do at an open pair.
#[derive(Clone, Copy, Debug, PartialEq, Eq)]
pub enum Step {
    Branch { bit: u16, first: bool },
    RuledOut,
}

/// A bit that might be decided next, and its first value.
#[derive(Clone, Copy, Debug, PartialEq, Eq)]
pub struct Proposal {
    pub bit: u16,
    pub first: bool,
}

/// What to do next in an attempt: a bit is set, the latest one that is set is taken back, or all is given up.
#[derive(Clone, Copy, Debug, PartialEq, Eq)]
pub enum Attempt {
    Set { bit: u16, value: bool },
    TakeBack,
    GiveUp,
}

/// Which bit to decide next. Any answer serves: one that isn't an unset bit of the support is not taken.
pub trait Choice {
    ghost use Rattle.std.specs.Prelude.{◌<◌};
    ghost use Rattle.ca_flat.specs.Chip.{count_of};
    ghost use Rattle.ca_guide.specs.Seen.{Covers};

    /// A bit, and its first value, at a pair that neither its rows nor its chains rule out.
    fn propose<V: NetWaves>(
        &mut self,
        guide: &Guide,
        chip: &View,
        waves: &V,
        rows: &Rows,
        defect: ChipDefect,
    ) -> Proposal
        requires defect { defect.instance < count_of chip.now.core }
        requires covers { Covers chip.now.lists (V.seen waves.now) };

    /// An attempt begins, and no bit is set.
    fn begin(&mut self);

    /// The next step of the attempt. A bit may be taken back at no cost, so nothing is known of the pair but
    /// that it doesn't show the defect.
    fn attempt<V: NetWaves>(
        &mut self,
        guide: &Guide,
        chip: &View,
        waves: &V,
        rows: &Rows,
        defect: ChipDefect,
    ) -> Attempt
        requires defect { defect.instance < count_of chip.now.core }
        requires covers { Covers chip.now.lists (V.seen waves.now) };
}

/// The plainest choice: it leaves the bit to the guide, which takes the lowest unset one, and decides for 0.
/// It attempts nothing.
#[derive(Clone, Copy, Debug, Default)]
pub struct LowestUnset;

impl Choice for LowestUnset {
    fn propose<V: NetWaves>(
        &mut self,
        _guide: &Guide,
        _chip: &View,
        _waves: &V,
        _rows: &Rows,
        _defect: ChipDefect,
    ) -> Proposal {
        Proposal {
            bit: u16::MAX,
            first: false,
        }
    }

    fn begin(&mut self) {}

    fn attempt<V: NetWaves>(
        &mut self,
        _guide: &Guide,
        _chip: &View,
        _waves: &V,
        _rows: &Rows,
        _defect: ChipDefect,
    ) -> Attempt {
        Attempt::GiveUp
    }
}

/// The room of a guide, and the support of the defect that it is aimed at.
#[derive(Drop, Debug)]
pub struct Guide {
    // the nets that a flood has reached
    nets: NumberSet,
    // the observed ones among them
    outputs: NumberSet,
    // the nets that lead to these
    leading: NumberSet,
    support: NumberSet,
}

impl Model for Guide {
    ghost use Rattle.std.specs.Prelude.{◌≡◌, ◌<◌};
    ghost use Rattle.ca_guide.specs.Guide.{Guided};

    ghost Value = { Guided };

    ghost view = { λ guide. record {
      nets = guide.nets.bound;
      bits = guide.support.bound;
      support = guide.support.members;
    } };

    ghost invariant = { λ guide. (guide.outputs.bound ≡ guide.nets.bound)
        × (guide.leading.bound ≡ guide.nets.bound) × (guide.support.bound < 65536) };
}

impl Guide {
    /// Takes the room for a chip. Until the first `aim` the support is open.
    pub fn reserve(alloc: Global, chip: &View) -> Result<Self, NoMemory>
        ensures { IfOk result (HasRoomFor chip.now.lists) }
    {
        chip.linked();
        let nets = chip.nets();
        let bits = 2 * chip.inputs().len();
        Ok(Guide {
            nets: NumberSet::reserve(alloc, nets)?,
            outputs: NumberSet::reserve(alloc, nets)?,
            leading: NumberSet::reserve(alloc, nets)?,
            support: NumberSet::reserve(alloc, bits)?,
        })
    }

    /// Aims at a defect: its support is found.
    pub fn aim(&mut self, chip: &View, defect: ChipDefect)
        requires room { HasRoomFor chip.now.lists self.old }
        requires defect { defect.instance < count_of chip.now.core }
        ensures room { HasRoomFor chip.now.lists self.new }
        ensures support { IsSupport chip.now.core defect self.new.support }
    {
        find_support(
            &mut self.nets,
            &mut self.outputs,
            &mut self.leading,
            &mut self.support,
            chip,
            defect.instance,
        );
    }

    /// The next step at an open pair. It takes no memory. What is said of the step is said under the limits
    /// of the flat networks that the waves are: they are there, but no call hands them out.
    pub fn next<V: NetWaves, P: Choice>(
        &mut self,
        chip: &View,
        waves: &V,
        rows: &Rows,
        defect: ChipDefect,
        choice: &mut P,
    ) -> Step
        requires room { HasRoomFor chip.now.lists self.old }
        requires defect { defect.instance < count_of chip.now.core }
        requires support { IsSupport chip.now.core defect self.old.support }
        requires covers { Covers chip.now.lists (V.seen waves.now) }
        requires is_open { IsOpenPair chip.now.core defect (pair_of (V.seen waves.now)) }
        requires rows { ListsExposingRows chip.now.core defect rows.now }
        ensures same { self.new ≡ self.old }
        ensures step { ShowsPair chip.now.core defect (V.seen waves.now)
            → IsStep chip.now.core defect (pair_of (V.seen waves.now)) result }
    {
        chip.linked();
        if !is_some_row_allowed(waves, chip.input_pins(defect.instance), rows) {
            return Step::RuledOut;
        }
        if !reaches_output(&mut self.nets, chip, waves, defect.instance) {
            return Step::RuledOut;
        }
        let proposal = choice.propose(self, chip, waves, rows, defect);
        match self.unset_bit(waves, proposal.bit) {
            Some(bit) => Step::Branch {
                bit,
                first: proposal.first,
            },
            None => Step::RuledOut,
        }
    }

    /// The next step of an attempt: a bit is set only where it is an unset one of the support.
    pub fn attempt<V: NetWaves, P: Choice>(
        &self,
        chip: &View,
        waves: &V,
        rows: &Rows,
        defect: ChipDefect,
        choice: &mut P,
    ) -> Attempt
        requires room { HasRoomFor chip.now.lists self.now }
        requires defect { defect.instance < count_of chip.now.core }
        requires covers { Covers chip.now.lists (V.seen waves.now) }
        ensures { IsAttempt self.now.support (V.seen waves.now).bits result }
    {
        match choice.attempt(self, chip, waves, rows, defect) {
            Attempt::Set { bit, value } => {
                if self.supports(bit) && waves.bit(bit).is_none() {
                    Attempt::Set { bit, value }
                } else {
                    Attempt::GiveUp
                }
            }
            Attempt::TakeBack => Attempt::TakeBack,
            Attempt::GiveUp => Attempt::GiveUp,
        }
    }

    /// Whether the bit is one of the support.
    pub fn supports(&self, bit: u16) -> bool
        ensures within { IsTrue result → bit < self.now.bits }
        ensures listed { IsTrue result ↔ Contains self.now.support bit }
    {
        self.support.has(u32::from(bit))
    }

    // The wanted bit if it is an unset bit of the support, else the lowest that is.
    fn unset_bit<V: NetWaves>(&self, waves: &V, wanted: u16) -> Option<u16>
        requires { length (V.seen waves.now).bits ≡ self.now.bits }
        ensures { IsUnsetAnswer self.now.support (V.seen waves.now).bits result }
    {
        if self.supports(wanted) {
            if waves.bit(wanted).is_none() {
                return Some(wanted);
            }
        }
        self.first_unset(waves)
    }

    // The first unset bit of the support.
    fn first_unset<V: NetWaves>(&self, waves: &V) -> Option<u16>
        requires { length (V.seen waves.now).bits ≡ self.now.bits }
        ensures { IsUnsetAnswer self.now.support (V.seen waves.now).bits result }
    {
        for place in 0..self.support.len() {
            let bit = self.support.get(place) as u16;
            if waves.bit(bit).is_none() {
                return Some(bit);
            }
        }
        None
    }
}

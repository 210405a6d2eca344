//! Parts of sweeps, which are kept while the good values stay.

ghost use Rattle.std.specs.Prelude.{ℕ, ◌≡◌, ◌+◌, ◌*◌, ◌^◌, ◌<◌, ◌≤◌, length, slice_index_or};
ghost use Rattle.std.specs.Prelude.{IfOk, IfSome, None};
ghost use Rattle.ca_net.specs.declared.trit.Trit.{Trit};
ghost use Rattle.ca_flat.specs.Chip.{Chip, count_of};
ghost use Rattle.ca_sweep.specs.code.Segments.{AreSegments, IsOfAge, IsSegment};

use crate::seen::Flips;
use ca_base::NoMemory;
use std::alloc::Global;

/// Where a sweep is cut: an instance, and which of its output pins have the opposite of the good last value.
#[derive(Clone, Copy, Debug)]
pub struct Cut {
    pub instance: u32,
    pub flips: Flips,
}

/// A part of a sweep: the number of the first observed output with an opposite value in it, or the number of
/// the outputs; and where it is cut, if it is.
#[derive(Clone, Copy, Debug)]
pub struct Segment {
    pub first: u32,
    pub next: Option<Cut>,
}

/// A part, and the age in which it was kept.
#[derive(Clone, Copy, Debug)]
pub struct Aged {
    pub age: u32,
    pub segment: Segment,
}

/// The parts that were found, four for each instance. Those of an age before aren't kept any more.
#[derive(Drop, Debug)]
pub struct Segments {
    pub(crate) slots: Vec<Option<Aged>>,
    pub(crate) age: u32,
}

impl Segments {
    /// Room for the parts of this many instances. None is kept.
    pub(crate) fn reserve(alloc: Global, instances: usize) -> Result<Self, NoMemory>
        requires { instances < 2 ^ 32 }
        ensures { (chip : Chip) (place_of : ℕ → ℕ) (goods : ℕ → Trit) → count_of chip ≡ instances
            → IfOk result (λ segments. AreSegments chip place_of goods segments) }
    {
        Ok(Segments {
            slots: vec![in alloc; None; 4 * instances]?,
            age: 0,
        })
    }

    /// None is kept any more: a new age begins.
    pub(crate) fn forget(&mut self)
        ensures { (chip : Chip) (place_of : ℕ → ℕ) (old new : ℕ → Trit)
            → AreSegments chip place_of old self.old → AreSegments chip place_of new self.new }
    {
        if self.age == u32::MAX {
            empty(&mut self.slots);
            self.age = 0;
        } else {
            self.age += 1;
        }
    }

    /// The part that is kept for an instance some of whose output pins are flipped.
    pub(crate) fn get(&self, u: usize, flips: Flips) -> Option<Segment>
        requires few { u < 2 ^ 32 }
        requires room { 4 * u + 4 ≤ length self.now.slots.items }
        ensures { (chip : Chip) (place_of : ℕ → ℕ) (goods : ℕ → Trit)
            → AreSegments chip place_of goods self.now
            → IfSome result (IsSegment chip place_of goods u flips) }
    {
        segment_of(
            self.slots[4 * u + code_of(flips.first, flips.second)],
            self.age,
        )
    }

    /// Keeps a part.
    pub(crate) fn put(&mut self, u: usize, flips: Flips, segment: Segment)
        requires few { u < 2 ^ 32 }
        requires room { 4 * u + 4 ≤ length self.old.slots.items }
        ensures { (chip : Chip) (place_of : ℕ → ℕ) (goods : ℕ → Trit)
            → AreSegments chip place_of goods self.old
            → IsSegment chip place_of goods u flips segment
            → AreSegments chip place_of goods self.new }
    {
        self.slots[4 * u + code_of(flips.first, flips.second)] = Some(Aged {
            age: self.age,
            segment,
        });
    }
}

// No part.
fn empty(slots: &mut Vec<Option<Aged>>)
    ensures room { length slots.new.items ≡ length slots.old.items }
    ensures none { (place : ℕ) → slice_index_or slots.new.items place None ≡ None }
{
    for place in 0..slots.len() {
        slots[place] = None;
    }
}

// The part in a slot, if it is of this age.
fn segment_of(slot: Option<Aged>, age: u32) -> Option<Segment>
    ensures { IfSome result (IsOfAge slot age) }
{
    match slot {
        Some(aged) if aged.age == age => Some(aged.segment),
        Some(_) | None => None,
    }
}

ghost use Rattle.ca_sweep.specs.code.Faulty.{code_of};

// The number of a choice of output pins.
fn code_of(first: bool, second: bool) -> usize
    ensures same { result ≡ code_of first second }
    ensures few { result < 4 }
{
    match (first, second) {
        (false, false) => 0,
        (true, false) => 1,
        (false, true) => 2,
        (true, true) => 3,
    }
}

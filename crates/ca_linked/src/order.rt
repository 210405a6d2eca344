//! An order of instances in which each comes after those that feed it, or a loop.

ghost use Rattle.std.specs.Prelude.{◌≡◌, ◌<◌, ◌≤◌, ◌↔◌, ◌+◌, ◌-◌, ◌++◌, ℕ, IsTrue, [], ◌∷◌, length, take};
ghost use Rattle.std.specs.Prelude.{drop, replicate, slice_index_or, slice_get, slice_index, slice_set, IfOk};
ghost use Rattle.std.specs.Prelude.{IfErr, OnOk, OnErr, Option, Some, None};
ghost use Rattle.std.specs.List.{Contains, All};
ghost use Rattle.ca_linked.specs.Order.{IsOrder, IsLoop};
ghost use Rattle.ca_linked.specs.declared.order.Mark.TheVariants as mark;
ghost use Rattle.ca_linked.specs.code.Walk.{row_of, IsFeeder, mark_of, IsVisit, IsWalk, AreClosed, HaveRows};
ghost use Rattle.ca_linked.specs.code.Walk.{KeepsReached, IsStep, IsFinish, IsVisited, AreVisited, IsOnTrail};
ghost use Rattle.ca_linked.specs.code.Walk.{IsVisitOf, instance_at, back_from, IsLowestAt, IsTurned};
ghost use Rattle.ca_linked.specs.code.Walk.{IsSortCause};

use crate::instances::InstanceList;
use ca_base::NoMemory;
use std::alloc::{AllocError, AllocFailed, Global};
use std::marker::Model;

/// For each instance those that feed it.
#[derive(Drop)]
pub(crate) struct Feeders {
    rows: Vec<InstanceList>,
}

impl Model for Feeders {
    ghost use Rattle.std.specs.Prelude.{List, ℕ};

    ghost Value = { List (List ℕ) };

    ghost view = { λ feeders. feeders.rows.items };
}

impl Feeders {
    /// The list of no instances.
    pub(crate) fn new(alloc: Global) -> Self
        ensures { result ≡ [] }
    {
        Feeders {
            rows: Vec::new(alloc),
        }
    }

    /// Appends those that feed the next instance.
    pub(crate) fn push(&mut self, row: InstanceList) -> Result<(), NoMemory>
        ensures ok { OnOk result (self.new ≡ self.old ++ row ∷ []) }
        ensures err { OnErr result (self.new ≡ self.old) }
    {
        Ok(self.rows.push(row)?)
    }

    /// The number of instances.
    pub(crate) fn len(&self) -> usize
        ensures { result ≡ length self.now }
    {
        self.rows.len()
    }

    /// Those that feed the instance.
    pub(crate) fn row(&self, u: u32) -> &[u32]
        requires { u < length self.now }
        ensures { result.now ≡ row_of self.now u }
    {
        self.rows[u as usize].as_slice()
    }
}

/// Why there is no order.
#[derive(Drop)]
pub(crate) enum SortFault {
    Loop(InstanceList),
    NoMemory,
}

impl From<NoMemory> for SortFault {
    ghost use Rattle.ca_linked.specs.declared.order.SortFault.TheVariants as fault;

    ghost from_gives = { λ _ e. e ≡ fault.NoMemory };

    fn from(_: NoMemory) -> Self {
        SortFault::NoMemory
    }
}

/// How far the walk has come with an instance: it is new, it is on the trail, or it is in order.
#[derive(Clone, Copy, Debug, PartialEq, Eq)]
pub(crate) enum Mark {
    New,
    Open,
    Done,
}

/// An instance on the trail, and how many of those that feed it are in order.
#[derive(Clone, Copy, Debug)]
pub(crate) struct Visit {
    instance: u32,
    done: usize,
}

/// A walk from instances to those that feed them. Each on the trail feeds the one before.
#[derive(Drop)]
pub(crate) struct Walk {
    marks: Vec<Mark>,
    trail: Vec<Visit>,
    order: Vec<u32>,
}

impl Model for Walk {
    ghost use Rattle.ca_linked.specs.Walk.{WalkState};

    ghost Value = { WalkState };

    ghost view = { λ walk. record {
      marks = walk.marks.items;
      trail = walk.trail.items;
      order =
          walk.order.items;
    } };
}

impl Walk {
    // The walk that has begun nowhere.
    fn begin(alloc: Global, instances: usize) -> Result<Self, NoMemory>
        ensures ok { IfOk result (λ walk. walk ≡ record {
          marks = replicate instances mark.New;
          trail = [];
          order = [];
        }) }
    {
        Ok(Walk {
            marks: vec![in alloc; Mark::New; instances]?,
            trail: Vec::new(alloc),
            order: Vec::new(alloc),
        })
    }

    // Puts an instance on the trail.
    fn enter(&mut self, u: u32) -> Result<(), NoMemory>
        requires { u < length self.old.marks }
        ensures { OnOk result (self.new ≡ record {
          marks = slice_set self.old.marks u mark.Open;
          trail = self.old.trail ++ record { instance = u; done = 0 } ∷ [];
          order = self.old.order;
        }) }
    {
        self.trail.push(Visit {
            instance: u,
            done: 0,
        })?;
        self.marks[u as usize] = Mark::Open;
        Ok(())
    }

    // Counts one more of those that feed the last of the trail.
    fn advance(&mut self, visit: Visit)
        requires some { 0 < length self.old.trail }
        requires few { visit.done < usize.MAX }
        ensures { self.new ≡ record {
          marks = self.old.marks;
          trail = slice_set self.old.trail (length self.old.trail - 1)
              (record { instance = visit.instance; done = visit.done + 1 });
          order = self.old.order;
        } }
    {
        let last = self.trail.len() - 1;
        self.trail[last] = Visit {
            done: visit.done + 1,
            ..visit
        };
    }

    // Takes the last of the trail, which is u, into the order.
    fn leave(&mut self, u: u32) -> Result<(), NoMemory>
        requires some { 0 < length self.old.trail }
        requires within { u < length self.old.marks }
        ensures { OnOk result (self.new ≡ record {
          marks = slice_set self.old.marks u mark.Done;
          trail = take (length self.old.trail - 1) self.old.trail;
          order = self.old.order ++ u ∷ [];
        }) }
    {
        self.order.push(u)?;
        self.trail.pop();
        self.marks[u as usize] = Mark::Done;
        Ok(())
    }

    // The number of visits on the trail.
    fn trail_len(&self) -> usize
        ensures { result ≡ length self.now.trail }
    {
        self.trail.len()
    }

    // The instance at a place of the trail.
    fn instance_at(&self, place: usize) -> u32
        requires { place < length self.now.trail }
        ensures { result ≡ instance_at self.now.trail place }
    {
        self.trail[place].instance
    }

    // The last of the trail.
    fn top(&self) -> Visit
        requires { 0 < length self.now.trail }
        ensures { slice_get self.now.trail (length self.now.trail - 1) ≡ Some result }
    {
        self.trail[self.trail.len() - 1]
    }

    // How far the walk has come with an instance.
    fn mark(&self, u: u32) -> Mark
        requires { u < length self.now.marks }
        ensures { result ≡ mark_of self.now.marks u }
    {
        self.marks[u as usize]
    }

    // Whether the walk hasn't reached an instance.
    fn is_new(&self, u: u32) -> bool
        requires { u < length self.now.marks }
        ensures { IsTrue result ↔ (mark_of self.now.marks u ≡ mark.New) }
    {
        matches!(self.mark(u), Mark::New)
    }

    // Goes on from the last of the trail: to the next that feeds it, or, once all of those are in order, back
    // to the one before. Where the next is on the trail, it is the answer.
    fn step(&mut self, feeders: &Feeders, roots: &[u32]) -> Result<Option<u32>, NoMemory>
        requires walk { IsWalk feeders.now (Contains roots.now) self.old }
        requires closed { AreClosed feeders.now roots.now }
        requires rows { HaveRows feeders.now roots.now }
        requires some { 0 < length self.old.trail }
        ensures { IfOk result (IsStep feeders.now roots.now self.old self.new) }
    {
        let visit = self.top();
        let row = feeders.row(visit.instance);
        if visit.done >= row.len() {
            self.leave(visit.instance)?;
            return Ok(None);
        }
        let feeder = row[visit.done];
        match self.mark(feeder) {
            Mark::New => self.enter(feeder)?,
            Mark::Done => self.advance(visit),
            Mark::Open => return Ok(Some(feeder)),
        }
        Ok(None)
    }

    // Goes on until the trail is left, or until one of the trail is met.
    fn finish(&mut self, feeders: &Feeders, roots: &[u32]) -> Result<Option<u32>, NoMemory>
        requires walk { IsWalk feeders.now (Contains roots.now) self.old }
        requires closed { AreClosed feeders.now roots.now }
        requires rows { HaveRows feeders.now roots.now }
        ensures walk { OnOk result (IsWalk feeders.now (Contains roots.now) self.new) }
        ensures reached { OnOk result (KeepsReached self.old self.new) }
        ensures met { IfOk result (IsFinish feeders.now self.new) }
    {
        'steps: while !self.trail.is_empty() {
            if let Some(feeder) = self.step(feeders, roots)? {
                return Ok(Some(feeder));
            }
        }
        Ok(None)
    }

    // The order, which takes the walk over.
    fn into_order(self) -> InstanceList
        ensures { result ≡ self.order }
    {
        InstanceList::from_vec(self.order)
    }

    // Visits a root, unless it is reached already, and all that lead to it, until one of the trail is met.
    fn visit_one(
        &mut self,
        feeders: &Feeders,
        roots: &[u32],
        root: u32,
    ) -> Result<Option<u32>, NoMemory>
        requires walk { IsWalk feeders.now (Contains roots.now) self.old }
        requires closed { AreClosed feeders.now roots.now }
        requires rows { HaveRows feeders.now roots.now }
        requires begun { self.old.trail ≡ [] }
        requires is_root { Contains roots.now root }
        ensures walk { OnOk result (IsWalk feeders.now (Contains roots.now) self.new) }
        ensures reached { OnOk result (KeepsReached self.old self.new) }
        ensures met { IfOk result (IsVisited feeders.now root self.new) }
    {
        if !self.is_new(root) {
            return Ok(None);
        }
        self.enter(root)?;
        let met = self.finish(feeders, roots)?;
        Ok(met)
    }

    // Visits each of the roots, until one of the trail is met.
    fn visit(&mut self, feeders: &Feeders, roots: &[u32]) -> Result<Option<u32>, NoMemory>
        requires walk { IsWalk feeders.now (Contains roots.now) self.old }
        requires closed { AreClosed feeders.now roots.now }
        requires rows { HaveRows feeders.now roots.now }
        requires begun { self.old.trail ≡ [] }
        ensures walk { OnOk result (IsWalk feeders.now (Contains roots.now) self.new) }
        ensures met { IfOk result (AreVisited feeders.now roots.now self.new) }
    {
        for i in 0..roots.len() {
            if let Some(feeder) = self.visit_one(feeders, roots, roots[i])? {
                return Ok(Some(feeder));
            }
        }
        Ok(None)
    }

    // The place of an instance on the trail.
    fn place_of(&self, u: u32) -> usize
        requires { IsOnTrail self.now.trail u }
        ensures { IsVisitOf self.now.trail u result }
    {
        for place in 0..self.trail_len() {
            if self.instance_at(place) == u {
                return place;
            }
        }
        unreachable!()
    }

    // The instances of the trail from the last back to the one at a place.
    fn back_to(&self, alloc: Global, place: usize) -> Result<Vec<u32>, NoMemory>
        requires { place < length self.now.trail }
        ensures { IfOk result (λ back. back.items ≡ back_from self.now.trail place
            (length self.now.trail - place)) }
    {
        let mut back = Vec::new(alloc);
        let count = self.trail_len();
        for k in 0..count - place {
            back.push(self.instance_at(count - 1 - k))?;
        }
        Ok(back)
    }
}

// The place of the lowest.
fn lowest_place(numbers: &[u32]) -> usize
    requires { 0 < length numbers.now }
    ensures { IsLowestAt numbers.now result }
{
    let mut lowest = 0;
    for k in 0..numbers.len() {
        if numbers[k] < numbers[lowest] {
            lowest = k;
        }
    }
    lowest
}

// The list from its lowest on, and then what is before that.
fn turned(alloc: Global, numbers: &[u32]) -> Result<InstanceList, NoMemory>
    requires { 0 < length numbers.now }
    ensures { IfOk result (IsTurned numbers.now) }
{
    let lowest = lowest_place(numbers);
    let mut turned = Vec::new(alloc);
    turned.extend_from_slice(&numbers[lowest..])?;
    turned.extend_from_slice(&numbers[..lowest])?;
    Ok(InstanceList::from_vec(turned))
}

// An order of the roots in which each comes after those that feed it; or a loop among them.
pub(crate) fn sort(
    alloc: Global,
    feeders: &Feeders,
    roots: &[u32],
) -> Result<InstanceList, SortFault>
    requires closed { AreClosed feeders.now roots.now }
    requires rows { HaveRows feeders.now roots.now }
    ensures ok { IfOk result (IsOrder (IsFeeder feeders.now) (Contains roots.now)) }
    ensures cause { IfErr result (IsSortCause feeders.now) }
{
    let mut walk = Walk::begin(alloc, feeders.len())?;
    match walk.visit(feeders, roots)? {
        None => Ok(walk.into_order()),
        Some(feeder) => {
            let place = walk.place_of(feeder);
            let back = walk.back_to(alloc, place)?;
            Err(SortFault::Loop(turned(alloc, &back)?))
        }
    }
}

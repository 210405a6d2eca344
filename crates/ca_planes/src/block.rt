//! The values of the nodes of a network in 64 lanes.

ghost use Rattle.std.specs.Prelude.{ℕ, ◌≡◌, ◌<◌, IfOk, length, slice_set};
ghost use Rattle.ca_net.specs.State.{value_at};
ghost use Rattle.ca_planes.specs.Trits.{HasNodes, state_in, trit_in};

use crate::trits::Trits;
use ca_base::NoMemory;
use std::alloc::Global;

/// A value for each node of a network in each of 64 lanes, as two planes a node: the lanes in which it may be
/// 0, and those in which it may be 1.
#[derive(Drop, Debug)]
pub struct Block {
    pub zeros: Vec<u64>,
    pub ones: Vec<u64>,
}

impl Block {
    /// Takes the room for this many nodes: 16 bytes a node. As yet each value is 0.
    pub fn reserve(alloc: Global, nodes: usize) -> Result<Self, NoMemory>
        ensures { IfOk result (HasNodes nodes) }
    {
        Ok(Block {
            zeros: vec![in alloc; 0u64; nodes]?,
            ones: vec![in alloc; 0u64; nodes]?,
        })
    }

    /// The number of nodes.
    pub fn len(&self) -> usize
        ensures { result ≡ length self.now.zeros.items }
    {
        self.zeros.len()
    }

    /// The value of a node in each lane.
    pub fn get(&self, node: usize) -> Trits
        requires node { node < length self.now.zeros.items }
        requires room { length self.now.ones.items ≡ length self.now.zeros.items }
        ensures { (lane : ℕ) → trit_in result lane ≡ value_at (state_in self.now lane) node }
    {
        Trits {
            zero: self.zeros[node],
            one: self.ones[node],
        }
    }

    /// Gives a node a value in each lane.
    pub fn set(&mut self, node: usize, value: Trits)
        requires node { node < length self.old.zeros.items }
        requires room { length self.old.ones.items ≡ length self.old.zeros.items }
        ensures states { (lane : ℕ)
            → state_in self.new lane ≡ slice_set (state_in self.old lane) node (trit_in value lane) }
        ensures zeros { length self.new.zeros.items ≡ length self.old.zeros.items }
        ensures ones { length self.new.ones.items ≡ length self.old.ones.items }
    {
        self.zeros[node] = value.zero;
        self.ones[node] = value.one;
    }
}

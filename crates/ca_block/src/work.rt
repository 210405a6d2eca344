//! The room for three limits in 64 lanes.

ghost use Rattle.std.specs.Prelude.{ℕ, ◌≡◌, ◌<◌, IfOk, length};
ghost use Rattle.ca_net.specs.State.{value_at};
ghost use Rattle.ca_planes.specs.Trits.{state_in, trit_in};
ghost use Rattle.ca_block.specs.Work.{HasRoom, HoldsNet};

use crate::groups::Groups;
use crate::touched::Touched;
use ca_base::NoMemory;
use ca_levels::Levels;
use ca_net::Network;
use ca_planes::{Block, Trits};
use std::alloc::Global;

/// The room for the limits of a network in 64 lanes, and the limits that it holds.
#[derive(Drop, Debug)]
pub struct BlockWork {
    pub(crate) first: Block,
    pub(crate) middle: Block,
    pub(crate) last: Block,
    // the state to which a turn leads
    pub(crate) next: Block,
    // the responses of a state, and room for those of the next
    pub(crate) known: Block,
    pub(crate) spare: Block,
    // first limits that are kept for many pairs
    pub(crate) firsts: Block,
    // the values of the inputs while they change
    pub(crate) vector: Block,
    pub(crate) levels: Levels,
    pub(crate) groups: Groups,
    // the groups that a change of values touches
    pub(crate) touched: Touched,
}

impl BlockWork {
    /// Takes the room for a network of this many nodes and devices: 167 bytes a node and 52 a device. No call
    /// takes memory afterwards.
    pub fn reserve(alloc: Global, nodes: usize, devices: usize) -> Result<Self, NoMemory>
        ensures { IfOk result (HasRoom nodes devices) }
    {
        Ok(BlockWork {
            first: Block::reserve(alloc, nodes)?,
            middle: Block::reserve(alloc, nodes)?,
            last: Block::reserve(alloc, nodes)?,
            next: Block::reserve(alloc, nodes)?,
            known: Block::reserve(alloc, nodes)?,
            spare: Block::reserve(alloc, nodes)?,
            firsts: Block::reserve(alloc, nodes)?,
            vector: Block::reserve(alloc, nodes)?,
            levels: Levels::reserve(alloc, nodes, devices)?,
            groups: Groups::reserve(alloc, nodes, devices)?,
            touched: Touched::reserve(alloc, nodes, devices)?,
        })
    }

    /// Leaves in the room what is read of a network, whatever it held: once for all vectors. It takes no
    /// memory.
    pub fn load<N: Network>(&mut self, net: &N)
        requires { HasRoom (length (N.circuit net.now).nodes) (length (N.circuit net.now).devices) self.old }
        ensures { HoldsNet (N.circuit net.now) self.new }
    {
        self.groups.load(net);
        self.levels.load(net, &self.groups.devices);
    }

    /// The last limit of a node in each lane.
    pub fn last_value(&self, node: usize) -> Trits
        requires node { node < length self.now.last.zeros.items }
        requires room { length self.now.last.ones.items ≡ length self.now.last.zeros.items }
        ensures { (lane : ℕ) → trit_in result lane ≡ value_at (state_in self.now.last lane) node }
    {
        self.last.get(node)
    }
}

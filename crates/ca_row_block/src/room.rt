//! The room for 64 rows of a cell's network.

ghost use Rattle.std.specs.Prelude.{◌≡◌, ◌<◌, IfOk, length};
ghost use Rattle.ca_planes.specs.Trits.{HasNodes};
ghost use Rattle.ca_row_block.specs.Rows.{end_at};
ghost use Rattle.ca_row_block.specs.Room.{IsRoomFor, HoldsCellNet};

use crate::digits::{LANE_DIGITS, find_masks};
use crate::load::{Side, load_rows};
use ca_base::NoMemory;
use ca_block::{BlockWork, settle_firsts};
use ca_net::Trit;
use ca_planes::{Block, LANES};
use ca_response::CellNet;
use std::alloc::Global;

/// Room for the limits of a cell's network in 64 rows, and for the vectors of these rows.
#[derive(Drop, Debug)]
pub struct RowRoom {
    pub(crate) work: BlockWork,
    pub(crate) from: Block,
    pub(crate) to: Block,
    // for each digit of a lane's number the lanes that have it
    pub(crate) masks: Vec<u64>,
}

impl RowRoom {
    /// Takes the room for a network of this many nodes and devices. No call takes memory afterwards.
    pub fn reserve(alloc: Global, nodes: usize, devices: usize) -> Result<Self, NoMemory>
        ensures { IfOk result (IsRoomFor nodes devices) }
    {
        let mut masks = vec![in alloc; 0u64; LANE_DIGITS]?;
        find_masks(&mut masks);
        Ok(RowRoom {
            work: BlockWork::reserve(alloc, nodes, devices)?,
            from: Block::reserve(alloc, nodes)?,
            to: Block::reserve(alloc, nodes)?,
            masks,
        })
    }

    /// Leaves in the room what is read of a cell's network, and its first limit for each first vector,
    /// whatever it held: once for all rows. It takes no memory.
    pub fn load<N: CellNet>(&mut self, net: &N)
        requires { IsRoomFor
            (length (N.circuit net.now).nodes) (length (N.circuit net.now).devices) self.old }
        ensures { HoldsCellNet (N.circuit net.now) self.new }
    {
        self.work.load(net);
        let inputs = net.cell().inputs();
        load_rows(Side::Last, &self.masks, inputs, 0, &mut self.from);
        settle_firsts(net, &self.from, &mut self.work);
    }

    /// The value of a node at the end of the row in a lane.
    pub fn end(&self, node: usize, lane: usize) -> Trit
        requires node { node < length self.now.work.last.zeros.items }
        requires room { length self.now.work.last.ones.items ≡ length self.now.work.last.zeros.items }
        requires lane { lane < LANES }
        ensures { result ≡ end_at self.now node lane }
    {
        self.work.last_value(node).value(lane)
    }
}

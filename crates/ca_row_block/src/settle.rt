//! The ends of 64 rows of a cell's network.

ghost use Rattle.std.specs.Prelude.{ℕ, ◌≡◌, ◌+◌, ◌*◌, ◌<◌, length};
ghost use Rattle.ca_cell.specs.Raw.{is_output, role_count};
ghost use Rattle.ca_row_block.specs.Rows.{HoldsRow, AreRowEnds};
ghost use Rattle.ca_row_block.specs.Room.{HoldsCellNet};

use crate::load::{Side, load_rows};
use crate::room::RowRoom;
use ca_block::settle_block;
use ca_net::Wave;
use ca_planes::LANES;
use ca_response::{CellNet, OutWaves};

/// Finds what every run of a cell's network ends with at each output pin, in the 64 rows of a block. It takes
/// no memory.
pub fn settle_rows<N: CellNet>(net: &N, block: usize, room: &mut RowRoom)
    requires { HoldsCellNet (N.circuit net.now) room.old }
    ensures rows { (lane : ℕ) → lane < LANES
        → HoldsRow (N.subcircuit net.now) (N.circuit net.now) (block * 64 + lane) lane room.new }
    ensures room { HoldsCellNet (N.circuit net.now) room.new }
{
    let inputs = net.cell().inputs();
    load_rows(Side::First, &room.masks, inputs, block, &mut room.from);
    load_rows(Side::Last, &room.masks, inputs, block, &mut room.to);
    settle_block(net, &room.from, &room.to, inputs, block, &mut room.work);
}

/// What the output pins end with in a lane, in pin order: the lasts of waves. It takes no memory.
pub fn row_ends<N: CellNet>(net: &N, room: &RowRoom, lane: usize) -> OutWaves
    requires room { HoldsCellNet (N.circuit net.now) room.now }
    requires lane { lane < LANES }
    ensures ends { (number : ℕ) → HoldsRow (N.subcircuit net.now) (N.circuit net.now) number lane room.now
        → AreRowEnds (N.subcircuit net.now) (N.circuit net.now) number result.items }
    ensures count { length result.items ≡ role_count is_output (N.subcircuit net.now).pins }
{
    let cell = net.cell();
    let first = 2 + cell.inputs();
    let mut waves = OutWaves::new();
    for place in 0..cell.outputs() {
        let value = room.end(first + place, lane);
        waves.push(Wave::pair(value, value));
    }
    waves
}

//! The three limits of a network in 64 lanes.

ghost use Rattle.std.specs.Prelude.{ℕ, ◌≡◌, ◌<◌, ◌≤◌, length};
ghost use Rattle.ca_planes.specs.Trits.{HasNodes};
ghost use Rattle.ca_block.specs.Work.{HoldsNet};
ghost use Rattle.ca_block.specs.Limits.{HoldsFirsts, BeginThere, HoldsLimits, HoldsEnds};

use crate::spread::{LANE_DIGITS, spread};
use crate::start::{begin, forget, meet};
use crate::touched::{respond_again, respond_all};
use crate::turns::{fall, rise};
use crate::work::BlockWork;
use ca_net::Network;
use ca_planes::{Block, LANES};

/// Finds the first limit of a network in each lane, from the values that its input nodes have there, and
/// keeps it for many pairs of vectors. It takes no memory.
pub fn settle_firsts<N: Network>(net: &N, from: &Block, work: &mut BlockWork)
    requires from { HasNodes (length (N.circuit net.now).nodes) from.now }
    requires work { HoldsNet (N.circuit net.now) work.old }
    ensures firsts { HoldsFirsts (N.circuit net.now) from.now work.new }
    ensures kept { HoldsNet (N.circuit net.now) work.new }
{
    forget(&mut work.last);
    begin(net, from, &work.last, &mut work.firsts);
    respond_all(
        net,
        &work.firsts,
        &work.groups,
        &mut work.levels,
        &mut work.next,
    );
    rise(
        net,
        &mut work.firsts,
        &mut work.next,
        &mut work.spare,
        &work.groups,
        &mut work.touched,
        &mut work.levels,
    );
}

/// Computes the three limits of a network in each lane, from the values that its input nodes have there at
/// first and at last; what the two blocks have at storage nodes isn't looked at. The first limits are those
/// of the lanes of the kept ones that `source_lane` names. Each phase goes on until a turn of all nodes
/// changes nothing in any lane. It takes no memory.
pub fn settle_block<N: Network>(
    net: &N,
    from: &Block,
    to: &Block,
    power: usize,
    block: usize,
    work: &mut BlockWork,
)
    requires from { HasNodes (length (N.circuit net.now).nodes) from.now }
    requires to { HasNodes (length (N.circuit net.now).nodes) to.now }
    requires work { HoldsNet (N.circuit net.now) work.old }
    requires power { power ≤ LANE_DIGITS }
    requires firsts { BeginThere (N.circuit net.now) from.now power block work.old }

    ensures limits { (lane : ℕ) → lane < LANES
        → HoldsLimits (N.circuit net.now) from.now to.now lane work.new }
    ensures ends { (lane : ℕ) → lane < LANES
        → HoldsEnds (N.circuit net.now) from.now to.now lane work.new }
    ensures kept { HoldsNet (N.circuit net.now) work.new }
    ensures same { work.new.firsts ≡ work.old.firsts }
{
    spread(&work.firsts, power, block, &mut work.first);
    meet(from, to, &mut work.vector);
    begin(net, &work.vector, &work.first, &mut work.middle);
    respond_again(
        net,
        &work.first,
        &work.first,
        &work.middle,
        &work.groups,
        &mut work.touched,
        &mut work.levels,
        &mut work.known,
    );
    fall(
        net,
        &mut work.middle,
        &mut work.next,
        &mut work.known,
        &mut work.spare,
        &work.groups,
        &mut work.touched,
        &mut work.levels,
    );
    begin(net, to, &work.middle, &mut work.last);
    respond_again(
        net,
        &work.middle,
        &work.known,
        &work.last,
        &work.groups,
        &mut work.touched,
        &mut work.levels,
        &mut work.next,
    );
    rise(
        net,
        &mut work.last,
        &mut work.next,
        &mut work.spare,
        &work.groups,
        &mut work.touched,
        &mut work.levels,
    );
}

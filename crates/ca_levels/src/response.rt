//! The responses of all nodes in a block of lanes.

ghost use Rattle.std.specs.Prelude.{ℕ, ◌≡◌, ◌<◌, ◌≤◌, ◌-◌, true, false, length};
ghost use Rattle.ca_net.specs.Circuit.{IsWellFormed};
ghost use Rattle.ca_net.specs.Response.{AreResponses};
ghost use Rattle.ca_planes.specs.Trits.{HasNodes, state_in};
ghost use Rattle.ca_levels.specs.Levels.{HoldsNetwork, with_devices, AreSomeOf};
ghost use Rattle.ca_levels.specs.code.Reached.{AreNotOnes, IsLoaded, AreReached, AreKept, IsSpreadTo};

use crate::advance::{advance, advance_pair, relink};
use crate::levels::Levels;
use ca_net::{Device, INPUT, Network};
use ca_planes::{Block, LANES, not_one};

// Finds the lanes in which the value of each node isn't 1.
fn find_not_ones(from: &Block, not_ones: &mut [u64])
    requires ones { length from.now.ones.items ≡ length from.now.zeros.items }
    requires room { length not_ones.old ≡ length from.now.zeros.items }
    ensures { AreNotOnes from.now not_ones.new }
{
    for node in 0..from.zeros.len() {
        not_ones[node] = not_one(from.zeros[node], from.ones[node]);
    }
}

// Whether no link has a lane: so it is at the strength of an input node, which no device has.
fn is_idle(level: u8, fresh: bool) -> bool
    ensures { result ≡ true → (INPUT ≤ level) × (fresh ≡ false) }
{
    level >= INPUT && !fresh
}

// Whether the level is the lowest strength: no path is blocked by a definite one of that strength.
fn is_lowest(level: u8) -> bool
    ensures { result ≡ true → level ≡ 1 }
{
    level == 1
}

// From the nodes that paths stronger than the level reach finds those that paths of at least its strength
// reach.
fn lower<N: Network>(
    _net: &N,
    devices: &[Device],
    from: &Block,
    level: u8,
    levels: &mut Levels,
    out: &mut Block,
)
    requires well_formed { IsWellFormed (with_devices (N.circuit _net.now) devices.now) }
    requires some { AreSomeOf (N.circuit _net.now) devices.now }
    requires from { HasNodes (length (N.circuit _net.now).nodes) from.now }
    requires level { 0 < level }
    requires scale { level ≤ INPUT }
    requires loaded { IsLoaded (N.circuit _net.now) from.now levels.old }
    requires room { HasNodes (length (N.circuit _net.now).nodes) out.old }
    requires above { AreReached
        (with_devices (N.circuit _net.now) devices.now) from.now level levels.old out.old }
    requires spread { IsSpreadTo devices.now from.now level levels.old out.old }
    ensures loaded { IsLoaded (N.circuit _net.now) from.now levels.new }
    ensures room { HasNodes (length (N.circuit _net.now).nodes) out.new }
    ensures reached { AreReached
        (with_devices (N.circuit _net.now) devices.now) from.now (level - 1) levels.new out.new }
    ensures spread { IsSpreadTo devices.now from.now (level - 1) levels.new out.new }
{
    let given = levels.given[level as usize];
    let fresh = levels.carried[level as usize];
    let idle = is_idle(level, fresh);
    let last = is_lowest(level);
    relink(
        devices,
        from,
        level,
        fresh,
        &mut levels.potential,
        &mut levels.definite,
    );
    advance_pair(
        devices,
        &levels.own,
        level,
        given,
        idle,
        fresh,
        &levels.potential,
        &levels.not_ones,
        &from.ones,
        &levels.stronger,
        &mut out.zeros,
        &mut out.ones,
    );
    advance(
        devices,
        &levels.own,
        level,
        given,
        idle,
        fresh,
        last,
        &levels.definite,
        &levels.all,
        &levels.none,
        &mut levels.stronger,
    );
}

// The same, with nothing to do where no node and no device has the level's strength, as no path then has.
fn descend<N: Network>(
    _net: &N,
    devices: &[Device],
    from: &Block,
    level: u8,
    levels: &mut Levels,
    out: &mut Block,
)
    requires well_formed { IsWellFormed (with_devices (N.circuit _net.now) devices.now) }
    requires some { AreSomeOf (N.circuit _net.now) devices.now }
    requires from { HasNodes (length (N.circuit _net.now).nodes) from.now }
    requires level { 0 < level }
    requires scale { level ≤ INPUT }
    requires loaded { IsLoaded (N.circuit _net.now) from.now levels.old }
    requires room { HasNodes (length (N.circuit _net.now).nodes) out.old }
    requires above { AreReached
        (with_devices (N.circuit _net.now) devices.now) from.now level levels.old out.old }
    requires spread { IsSpreadTo devices.now from.now level levels.old out.old }
    ensures loaded { IsLoaded (N.circuit _net.now) from.now levels.new }
    ensures room { HasNodes (length (N.circuit _net.now).nodes) out.new }
    ensures reached { AreReached
        (with_devices (N.circuit _net.now) devices.now) from.now (level - 1) levels.new out.new }
    ensures spread { IsSpreadTo devices.now from.now (level - 1) levels.new out.new }
{
    if levels.given[level as usize] || levels.carried[level as usize] {
        lower(_net, devices, from, level, levels, out);
    }
}

// Gives each input node what it has in `from`.
fn keep_inputs(own: &[u8], from: &[u64], out: &mut [u64])
    requires from { length from.now ≡ length own.now }
    requires out { length out.old ≡ length own.now }
    ensures { AreKept (length own.now) own.now from.now out.old out.new }
{
    for node in 0..own.len() {
        if own[node] >= INPUT {
            out[node] = from[node];
        }
    }
}

/// Leaves in `out` the response of each node in each lane, in the network with these of its devices alone. It
/// takes no memory.
pub fn respond<N: Network>(
    net: &N,
    devices: &[Device],
    from: &Block,
    levels: &mut Levels,
    out: &mut Block,
)
    requires devices { AreSomeOf (N.circuit net.now) devices.now }
    requires from { HasNodes (length (N.circuit net.now).nodes) from.now }
    requires levels { HoldsNetwork (N.circuit net.now) levels.old }
    requires out { HasNodes (length (N.circuit net.now).nodes) out.old }
    ensures responses { (lane : ℕ) → lane < LANES → AreResponses
        (with_devices (N.circuit net.now) devices.now) (state_in from.now lane) (state_in out.new lane) }
    ensures levels { HoldsNetwork (N.circuit net.now) levels.new }
    ensures out { HasNodes (length (N.circuit net.now).nodes) out.new }
{
    let _nodes = net.node_count();
    find_not_ones(from, &mut levels.not_ones);
    levels.potential.fill(0);
    levels.definite.fill(0);
    levels.stronger.fill(0);
    out.zeros.fill(0);
    out.ones.fill(0);
    for above in 0..INPUT {
        descend(net, devices, from, INPUT - above, levels, out);
    }
    keep_inputs(&levels.own, &from.zeros, &mut out.zeros);
    keep_inputs(&levels.own, &from.ones, &mut out.ones);
}

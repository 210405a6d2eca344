//! Turns of all nodes at once in each lane, up to a state that stays.

ghost use Rattle.std.specs.Prelude.{ℕ, ◌≡◌, ◌<◌, length, IsTrue, ◌↔◌};
ghost use Rattle.ca_net.specs.Circuit.{IsWellFormed};
ghost use Rattle.ca_net.specs.Response.{AreResponses};
ghost use Rattle.ca_planes.specs.Trits.{HasNodes, state_in};
ghost use Rattle.ca_levels.specs.Levels.{HoldsNetwork};
ghost use Rattle.ca_settle.specs.code.Turns.{HasSameValues, IsHeldUp, RisesTo, FallsTo};
ghost use Rattle.ca_block.specs.Groups.{HoldsGroups};
ghost use Rattle.ca_block.specs.Work.{HasTouchedRoom};

use crate::groups::Groups;
use crate::start::meet;
use crate::touched::{Touched, respond_again};
use ca_levels::Levels;
use ca_net::Network;
use ca_planes::{Block, LANES, is_none};
use std::mem;

// Whether both states have the same values in each lane.
fn is_same(state: &Block, other: &Block) -> bool
    requires state { length state.now.ones.items ≡ length state.now.zeros.items }
    requires other { HasNodes (length state.now.zeros.items) other.now }
    ensures { IsTrue result ↔ ((lane : ℕ) → lane < LANES
        → HasSameValues (state_in state.now lane) (state_in other.now lane)) }
{
    for n in 0..state.len() {
        if !is_none(state.get(n).differ(other.get(n))) {
            return false;
        }
    }
    true
}

/// Takes the state of each lane up to where each storage node has its response, from one in which each is at
/// or below it. In `next` are the responses of the state at first.
pub(crate) fn rise<N: Network>(
    net: &N,
    at: &mut Block,
    next: &mut Block,
    spare: &mut Block,
    groups: &Groups,
    touched: &mut Touched,
    levels: &mut Levels,
)
    requires well_formed { IsWellFormed (N.circuit net.now) }
    requires at { HasNodes (length (N.circuit net.now).nodes) at.old }
    requires next { HasNodes (length (N.circuit net.now).nodes) next.old }
    requires spare { HasNodes (length (N.circuit net.now).nodes) spare.old }
    requires groups { HoldsGroups (N.circuit net.now) groups.now }
    requires touched { HasTouchedRoom
        (length (N.circuit net.now).nodes) (length (N.circuit net.now).devices) touched.old }
    requires levels { HoldsNetwork (N.circuit net.now) levels.old }
    requires held { (lane : ℕ) → lane < LANES → IsHeldUp (N.circuit net.now) (state_in at.old lane) }
    requires responses { (lane : ℕ) → lane < LANES → AreResponses (N.circuit net.now)
        (state_in at.old lane) (state_in next.old lane) }

    ensures risen { (lane : ℕ) → lane < LANES
        → RisesTo (N.circuit net.now) (state_in at.old lane) (state_in at.new lane) }
    ensures at { HasNodes (length (N.circuit net.now).nodes) at.new }
    ensures next { HasNodes (length (N.circuit net.now).nodes) next.new }
    ensures spare { HasNodes (length (N.circuit net.now).nodes) spare.new }
    ensures touched { HasTouchedRoom
        (length (N.circuit net.now).nodes) (length (N.circuit net.now).devices) touched.new }
    ensures levels { HoldsNetwork (N.circuit net.now) levels.new }
{
    'rising: while !is_same(at, next) {
        respond_again(net, at, next, next, groups, touched, levels, spare);
        mem::swap(at, next);
        mem::swap(next, spare);
    }
}

/// Takes the state of each lane down to where each storage node is at or below its response. In `known`
/// are the responses of the state, at first and at last.
pub(crate) fn fall<N: Network>(
    net: &N,
    at: &mut Block,
    next: &mut Block,
    known: &mut Block,
    spare: &mut Block,
    groups: &Groups,
    touched: &mut Touched,
    levels: &mut Levels,
)
    requires well_formed { IsWellFormed (N.circuit net.now) }
    requires at { HasNodes (length (N.circuit net.now).nodes) at.old }
    requires next { HasNodes (length (N.circuit net.now).nodes) next.old }
    requires known { HasNodes (length (N.circuit net.now).nodes) known.old }
    requires spare { HasNodes (length (N.circuit net.now).nodes) spare.old }
    requires groups { HoldsGroups (N.circuit net.now) groups.now }
    requires touched { HasTouchedRoom
        (length (N.circuit net.now).nodes) (length (N.circuit net.now).devices) touched.old }
    requires levels { HoldsNetwork (N.circuit net.now) levels.old }
    requires responses { (lane : ℕ) → lane < LANES → AreResponses (N.circuit net.now)
        (state_in at.old lane) (state_in known.old lane) }

    ensures fallen { (lane : ℕ) → lane < LANES
        → FallsTo (N.circuit net.now) (state_in at.old lane) (state_in at.new lane) }
    ensures responses { (lane : ℕ) → lane < LANES → AreResponses (N.circuit net.now)
        (state_in at.new lane) (state_in known.new lane) }
    ensures at { HasNodes (length (N.circuit net.now).nodes) at.new }
    ensures next { HasNodes (length (N.circuit net.now).nodes) next.new }
    ensures known { HasNodes (length (N.circuit net.now).nodes) known.new }
    ensures spare { HasNodes (length (N.circuit net.now).nodes) spare.new }
    ensures touched { HasTouchedRoom
        (length (N.circuit net.now).nodes) (length (N.circuit net.now).devices) touched.new }
    ensures levels { HoldsNetwork (N.circuit net.now) levels.new }
{
    meet(known, at, next);
    'falling: while !is_same(at, next) {
        respond_again(net, at, known, next, groups, touched, levels, spare);
        mem::swap(at, next);
        mem::swap(known, spare);
        meet(known, at, next);
    }
}

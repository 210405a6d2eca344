//! The paths of one kind of at least some strength, from those of more.

ghost use Rattle.std.specs.Prelude.{ℕ, ◌≡◌, ◌+◌, ◌<◌, ◌≤◌, ◌⊎◌, ◌↔◌, true, false, length};
ghost use Rattle.std.specs.List.{All};
ghost use Rattle.ca_net.specs.declared.path_kind.PathKind.TheVariants as path_kind;
ghost use Rattle.ca_net.specs.Circuit.{NamesWithin};
ghost use Rattle.ca_net.specs.Passing.{PassesAt};
ghost use Rattle.ca_relax.specs.code.Spread.{Passes};
ghost use Rattle.ca_planes.specs.Plane.{has_lane, lane_at};
ghost use Rattle.ca_planes.specs.Trits.{HasNodes, state_in, value_in};
ghost use Rattle.ca_levels.specs.Given.{IsGivenByNone, IsCarriedByNone};
ghost use Rattle.ca_levels.specs.code.Come.{AreClosed, AreIdle};
ghost use Rattle.ca_levels.specs.code.Advance.{IsPassing, AreLinked, IsBegun, HaveBegun, IsSpread};
ghost use Rattle.ca_levels.specs.code.Advance.{StayReached};

use crate::close::{close, close_pair};
use ca_net::{Device, DeviceKind, PathKind};
use ca_planes::{ALL_LANES, Block, LANES, either, except, is_one, is_zero, not_one};

// The lanes in which paths of this kind may go through a device whose gate has these values.
fn passing(kind: PathKind, device: DeviceKind, zero: u64, one: u64) -> u64
    ensures { (lane : ℕ) → lane < LANES
        → (has_lane result lane ≡ true) ↔ PassesAt kind device (value_in zero one lane) }
{
    match (device, kind) {
        (DeviceKind::D, _) => ALL_LANES,
        (DeviceKind::N, PathKind::Definite) => is_one(zero, one),
        (DeviceKind::N, PathKind::Potential) => one,
        (DeviceKind::P, PathKind::Definite) => is_zero(one),
        (DeviceKind::P, PathKind::Potential) => not_one(zero, one),
    }
}

// The lanes in which paths of this kind may go through the device, if it has at least this strength.
fn link(device: Device, from: &Block, kind: PathKind, level: u8) -> u64
    requires zeros { device.gate.0 < length from.now.zeros.items }
    requires ones { length from.now.ones.items ≡ length from.now.zeros.items }
    ensures { (lane : ℕ) → lane < LANES
        → (has_lane result lane ≡ true) ↔ IsPassing device (state_in from.now lane) kind level }
{
    if device.strength < level {
        return 0;
    }
    let gate = device.gate.0 as usize;
    passing(kind, device.kind, from.zeros[gate], from.ones[gate])
}

// Leaves the lanes in which paths may go through each device of at least this strength.
fn link_all(devices: &[Device], from: &Block, kind: PathKind, level: u8, links: &mut [u64])
    requires named { All (NamesWithin (length from.now.zeros.items)) devices.now }
    requires ones { length from.now.ones.items ≡ length from.now.zeros.items }
    requires room { length devices.now ≤ length links.old }
    ensures { AreLinked (length devices.now) devices.now from.now kind level links.new }
{
    for i in 0..devices.len() {
        links[i] = link(devices[i], from, kind, level);
    }
}

// The lanes that came before, and those in which paths of exactly this strength begin at a node.
fn begun(own: u8, level: u8, source: u64, blocked: u64, reached: u64) -> u64
    ensures { (lane : ℕ) → (has_lane result lane ≡ true)
        ↔ IsBegun own level (has_lane source lane) (has_lane blocked lane) (has_lane reached lane) }
{
    if own == level {
        either(reached, except(source, blocked))
    } else {
        reached
    }
}

// Adds the lanes in which paths of exactly this strength begin at each node, if some node gives it. Whether
// some node has more.
fn begin(
    own: &[u8],
    level: u8,
    given: bool,
    source: &[u64],
    blocked: &[u64],
    reached: &mut [u64],
) -> bool
    requires given { given ≡ false → IsGivenByNone own.now level }
    requires source { length source.now ≡ length own.now }
    requires blocked { length blocked.now ≡ length own.now }
    requires reached { length reached.old ≡ length own.now }
    ensures begun { HaveBegun (length own.now) own.now level source.now blocked.now reached.old reached.new }
    ensures same { result ≡ false → reached.new ≡ reached.old }
{
    if !given {
        return false;
    }
    let mut more = false;
    for node in 0..own.len() {
        let old = reached[node];
        let new = begun(own[node], level, source[node], blocked[node], old);
        reached[node] = new;
        more = more || new != old;
    }
    more
}

/// From the links of the devices that are stronger than the level makes those of the devices of at least its
/// strength, for paths by which values may pass and for definite ones. Where no device has just this
/// strength, these are the same.
pub(crate) fn relink(
    devices: &[Device],
    from: &Block,
    level: u8,
    fresh: bool,
    potential: &mut [u64],
    definite: &mut [u64],
)
    requires named { All (NamesWithin (length from.now.zeros.items)) devices.now }
    requires ones { length from.now.ones.items ≡ length from.now.zeros.items }
    requires potential_room { length devices.now ≤ length potential.old }
    requires definite_room { length devices.now ≤ length definite.old }
    requires unused { fresh ≡ false → IsCarriedByNone devices.now level }
    requires potential { AreLinked
        (length devices.now) devices.now from.now path_kind.Potential (level + 1) potential.old }
    requires definite { AreLinked
        (length devices.now) devices.now from.now path_kind.Definite (level + 1) definite.old }

    ensures potential { AreLinked
        (length devices.now) devices.now from.now path_kind.Potential level potential.new }
    ensures definite { AreLinked
        (length devices.now) devices.now from.now path_kind.Definite level definite.new }
    ensures potential_same { fresh ≡ false → potential.new ≡ potential.old }
    ensures definite_same { fresh ≡ false → definite.new ≡ definite.old }
{
    if fresh {
        link_all(devices, from, PathKind::Potential, level, potential);
        link_all(devices, from, PathKind::Definite, level, definite);
    }
}

/// From the lanes in which stronger paths reach each node finds those in which paths of at least this
/// strength do: paths from nodes of `source`, through nodes that aren't blocked. `given` says that some node
/// has just this strength, `idle` that no link has a lane, and `fresh` that some device has just this
/// strength: where none has, and no path begins, what was reached stays. `last` says that nobody asks for it:
/// what was reached stays too.
pub(crate) fn advance(
    devices: &[Device],
    own: &[u8],
    level: u8,
    given: bool,
    idle: bool,
    fresh: bool,
    last: bool,
    links: &[u64],
    source: &[u64],
    blocked: &[u64],
    reached: &mut [u64],
)
    requires named { All (NamesWithin (length own.now)) devices.now }
    requires links { length devices.now ≤ length links.now }
    requires source { length source.now ≡ length own.now }
    requires blocked { length blocked.now ≡ length own.now }
    requires reached { length reached.old ≡ length own.now }
    requires given { given ≡ false → IsGivenByNone own.now level }
    requires idle { idle ≡ true → AreIdle devices.now links.now blocked.now }
    requires closed { fresh ≡ false → AreClosed devices.now links.now blocked.now reached.old }
    ensures spread { last ≡ false → IsSpread
        devices.now own.now level links.now source.now blocked.now reached.old reached.new }
    ensures kept { StayReached reached.old reached.new }
{
    if last {
        return;
    }
    let more = begin(own, level, given, source, blocked, reached);
    if !idle && (fresh || more) {
        close(devices, links, blocked, reached);
    }
}

/// The same for the paths by which a value may reach a node, from roots whose value isn't 1 and from those
/// whose value isn't 0.
pub(crate) fn advance_pair(
    devices: &[Device],
    own: &[u8],
    level: u8,
    given: bool,
    idle: bool,
    fresh: bool,
    links: &[u64],
    not_ones: &[u64],
    not_zeros: &[u64],
    blocked: &[u64],
    zeros: &mut [u64],
    ones: &mut [u64],
)
    requires named { All (NamesWithin (length own.now)) devices.now }
    requires links { length devices.now ≤ length links.now }
    requires not_ones { length not_ones.now ≡ length own.now }
    requires not_zeros { length not_zeros.now ≡ length own.now }
    requires blocked { length blocked.now ≡ length own.now }
    requires zeros { length zeros.old ≡ length own.now }
    requires ones { length ones.old ≡ length own.now }
    requires given { given ≡ false → IsGivenByNone own.now level }
    requires idle { idle ≡ true → AreIdle devices.now links.now blocked.now }
    requires zeros_closed { fresh ≡ false → AreClosed devices.now links.now blocked.now zeros.old }
    requires ones_closed { fresh ≡ false → AreClosed devices.now links.now blocked.now ones.old }
    ensures zeros { IsSpread
        devices.now own.now level links.now not_ones.now blocked.now zeros.old zeros.new }
    ensures ones { IsSpread
        devices.now own.now level links.now not_zeros.now blocked.now ones.old ones.new }
{
    let more_zeros = begin(own, level, given, not_ones, blocked, zeros);
    let more_ones = begin(own, level, given, not_zeros, blocked, ones);
    if !idle && (fresh || more_zeros || more_ones) {
        close_pair(devices, links, blocked, zeros, ones);
    }
}

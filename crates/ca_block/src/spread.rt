//! States of some lanes for all lanes.

ghost use Rattle.std.specs.Prelude.{ℕ, ◌≡◌, ◌<◌, ◌≤◌, length};
ghost use Rattle.ca_planes.specs.Trits.{HasNodes, state_in, trit_in};
ghost use Rattle.ca_block.specs.Limits.{source_lane};

use ca_net::Trit;
use ca_planes::{ALL_LANES, Block, LANES, Trits};

/// How many digits the number of a lane has.
pub(crate) const LANE_DIGITS: usize = 6;

// The same value in each lane.
fn everywhere(value: Trit) -> Trits
    ensures { (lane : ℕ) → lane < LANES → trit_in result lane ≡ value }
{
    match value {
        Trit::Zero => Trits {
            zero: ALL_LANES,
            one: 0,
        },
        Trit::One => Trits {
            zero: 0,
            one: ALL_LANES,
        },
        Trit::X => Trits::unknown(),
    }
}

// In each lane the value of the lane from which it begins, where lanes begin from many.
fn gather(values: Trits, power: usize, block: usize) -> Trits
    requires { power ≤ LANE_DIGITS }
    ensures { (lane : ℕ) → lane < LANES
        → trit_in result lane ≡ trit_in values (source_lane power block lane) }
{
    let first = block % LANES * LANES;
    let mut gathered = Trits::unknown();
    for lane in 0..LANES {
        let value = values.value(((first + lane) >> power) % LANES);
        gathered = gathered.with(lane, value);
    }
    gathered
}

// In each lane the value of the lane from which it begins: one lane for all, where a block has one first
// vector.
#[tactic(auto, using(crate::proofs::StateLemmas::one_source))]
fn spread_value(values: Trits, power: usize, block: usize) -> Trits
    requires { power ≤ LANE_DIGITS }
    ensures { (lane : ℕ) → lane < LANES
        → trit_in result lane ≡ trit_in values (source_lane power block lane) }
{
    if power == LANE_DIGITS {
        everywhere(values.value(block % LANES))
    } else {
        gather(values, power, block)
    }
}

/// Gives each lane the state of the lane of `states` from which it begins.
pub(crate) fn spread(states: &Block, power: usize, block: usize, into: &mut Block)
    requires states { length states.now.ones.items ≡ length states.now.zeros.items }
    requires into { HasNodes (length states.now.zeros.items) into.old }
    requires power { power ≤ LANE_DIGITS }
    ensures spread { (lane : ℕ) → lane < LANES
        → state_in into.new lane ≡ state_in states.now (source_lane power block lane) }
    ensures room { HasNodes (length states.now.zeros.items) into.new }
{
    for n in 0..states.len() {
        into.set(n, spread_value(states.get(n), power, block));
    }
}

//! What goals cost at a decision.

use crate::cell_cubes::are_opposite;
use crate::costs::{Costs, NEVER};
use crate::goal::{Frame, Goal, trit_of};
use crate::plan::Plan;
use crate::sight::Sight;
use ca_base::NoMemory;
use ca_net::{Trit, Wave};
use std::alloc::Global;

// A chip input has one bit in a frame.
const ONE_BIT: u32 = 1;

// It has two for a value that stays.
const BOTH_BITS: u32 = 2;

/// The costs of values in one frame, and of those that are stable.
#[derive(Drop)]
pub(crate) struct Prices {
    once: Costs,
    stable: Costs,
}

impl Prices {
    /// The costs of a chip.
    pub(crate) fn new(alloc: Global, plan: &Plan<'_>) -> Result<Self, NoMemory> {
        Ok(Prices {
            once: Costs::new(alloc, plan, ONE_BIT)?,
            stable: Costs::new(alloc, plan, BOTH_BITS)?,
        })
    }

    /// What a value of a net costs in one frame while no bit is set.
    pub(crate) fn unset(&self, net: u32, value: bool) -> u32 {
        self.once.get(net, value)
    }

    /// What the goal costs: nothing where it is met, and it is out of reach where the wave has the opposite.
    pub(crate) fn of<S: Sight>(&self, sight: &S, goal: Goal) -> u32 {
        let wave = sight.good(goal.net);
        let value = trit_of(goal.value);
        match goal.frame {
            Frame::First => price(wave.first, value, self.once.get(goal.net, goal.value)),
            Frame::Last => price(wave.last, value, self.once.get(goal.net, goal.value)),
            Frame::Stable => stable_price(wave, value, self.stable.get(goal.net, goal.value)),
        }
    }
}

// The price of a value where there is this one.
fn price(now: Trit, value: Trit, cost: u32) -> u32 {
    if now == value {
        0
    } else if are_opposite(now, value) {
        NEVER
    } else {
        cost
    }
}

// The price of a stable value where there is this wave.
fn stable_price(wave: Wave, value: Trit, cost: u32) -> u32 {
    if are_opposite(wave.first, value) || are_opposite(wave.last, value) {
        NEVER
    } else if wave.first == value && wave.mid == value && wave.last == value {
        0
    } else {
        cost
    }
}

//! What it costs to bring a net to a value, while no bit is set.

use crate::cube::Cube;
use crate::plan::Plan;
use ca_base::NoMemory;
use ca_net::Trit;
use ca_view::View;
use std::alloc::Global;

/// The cost of what can't be.
pub(crate) const NEVER: u32 = u32::MAX;

// The greatest cost of what can be.
const MOST: u32 = 1_000_000_000;

/// The sum of two costs. What can be stays so.
pub(crate) fn sum(one: u32, other: u32) -> u32 {
    if one == NEVER || other == NEVER {
        NEVER
    } else {
        one.saturating_add(other).min(MOST)
    }
}

/// For each net what 0 and 1 cost.
#[derive(Drop)]
pub(crate) struct Costs {
    zeros: Vec<u32>,
    ones: Vec<u32>,
}

impl Costs {
    /// The costs of a chip, in which a value of a chip input has the given cost.
    pub(crate) fn new(alloc: Global, plan: &Plan<'_>, input_cost: u32) -> Result<Self, NoMemory> {
        let nets = plan.net_count();
        let mut costs = Costs {
            zeros: vec![in alloc; NEVER; nets]?,
            ones: vec![in alloc; NEVER; nets]?,
        };
        for net in plan.view().inputs() {
            costs.put(*net, false, input_cost);
            costs.put(*net, true, input_cost);
        }
        costs.put_constants(plan.view());
        for part in plan.order() {
            costs.add_part(plan, *part);
        }
        Ok(costs)
    }

    /// What it costs to bring the net to the value.
    pub(crate) fn get(&self, net: u32, value: bool) -> u32 {
        let costs = if value { &self.ones } else { &self.zeros };
        match costs.get(net as usize) {
            Some(cost) => *cost,
            None => NEVER,
        }
    }

    // Notes a cost.
    fn put(&mut self, net: u32, value: bool, cost: u32) {
        if value {
            put_at(&mut self.ones, net, cost);
        } else {
            put_at(&mut self.zeros, net, cost);
        }
    }

    // A constant costs nothing.
    fn put_constants(&mut self, view: &View<'_>) {
        for k in 0..view.constant_count() {
            let fixed = view.constant(k);
            if fixed.net <= u32::MAX as usize {
                self.put(fixed.net as u32, fixed.value == Trit::One, 0);
            }
        }
    }

    // Finds the costs of an instance's outputs.
    fn add_part(&mut self, plan: &Plan<'_>, part: u32) {
        for (output, net) in plan.outputs(part).iter().enumerate() {
            let zero = self.least(plan, part, output, false);
            let one = self.least(plan, part, output, true);
            self.put(*net, false, sum(zero, 1));
            self.put(*net, true, sum(one, 1));
        }
    }

    // The least cost of the cubes that bring the value to the instance's output.
    fn least(&self, plan: &Plan<'_>, part: u32, output: usize, value: bool) -> u32 {
        let mut least = NEVER;
        for cube in plan.bringing(part, output, value) {
            least = least.min(self.cube_cost(plan, part, *cube));
        }
        least
    }

    // The cost of a cube: the sum over its pins.
    fn cube_cost(&self, plan: &Plan<'_>, part: u32, cube: Cube) -> u32 {
        let mut cost = 0u32;
        for (pin, net) in plan.inputs(part).iter().enumerate() {
            if let Some(value) = plan.literal(part, cube, pin) {
                cost = sum(cost, self.get(*net, value));
            }
        }
        cost
    }
}

// Notes a cost in a list.
fn put_at(costs: &mut [u32], net: u32, cost: u32) {
    let net = net as usize;
    if net < costs.len() {
        costs[net] = cost;
    }
}

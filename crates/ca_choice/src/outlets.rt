//! What it costs to see a change of a net at an output, while no bit is set.

use crate::costs::{NEVER, sum};
use crate::cube::Cube;
use crate::plan::Plan;
use crate::prices::Prices;
use crate::sight::is_observed;
use ca_base::NoMemory;
use std::alloc::Global;

/// For each net the cost of the cheapest way out.
#[derive(Drop)]
pub(crate) struct Outlets {
    costs: Vec<u32>,
}

impl Outlets {
    /// The costs of a chip.
    pub(crate) fn new(alloc: Global, plan: &Plan<'_>, prices: &Prices) -> Result<Self, NoMemory> {
        let mut outlets = Outlets {
            costs: vec![in alloc; NEVER; plan.net_count()]?,
        };
        let order = plan.order();
        for after in 0..order.len() {
            outlets.pass(plan, prices, order[order.len() - 1 - after]);
        }
        Ok(outlets)
    }

    /// What the cheapest way out of the net costs.
    pub(crate) fn cost(&self, net: u32) -> u32 {
        match self.costs.get(net as usize) {
            Some(cost) => *cost,
            None => NEVER,
        }
    }

    // Settles the costs of an instance's outputs, whose readers have been passed, and leads them on to its
    // pins.
    fn pass(&mut self, plan: &Plan<'_>, prices: &Prices, part: u32) {
        for (output, net) in plan.outputs(part).iter().enumerate() {
            if is_observed(plan.view(), *net) {
                self.offer(*net, 0);
            }
            let onward = sum(self.cost(*net), 1);
            if onward < NEVER {
                self.lead(plan, prices, part, output, onward);
            }
        }
    }

    // Leads a cost of an instance's output on to its pins.
    fn lead(&mut self, plan: &Plan<'_>, prices: &Prices, part: u32, output: usize, onward: u32) {
        for (pin, from) in plan.inputs(part).iter().enumerate() {
            for cube in plan.passing(part, output, pin) {
                let side = side_cost(plan, prices, part, pin, *cube);
                self.offer(*from, sum(onward, side));
            }
        }
    }

    // Takes a cost of a net if it is less than what is there.
    fn offer(&mut self, net: u32, cost: u32) {
        let place = net as usize;
        if place < self.costs.len() && cost < self.costs[place] {
            self.costs[place] = cost;
        }
    }
}

// What the values of an instance's other pins cost.
fn side_cost(plan: &Plan<'_>, prices: &Prices, part: u32, pin: usize, cube: Cube) -> u32 {
    let mut cost = 0u32;
    for (other, net) in plan.inputs(part).iter().enumerate() {
        if other != pin {
            if let Some(value) = plan.literal(part, cube, other) {
                cost = sum(cost, prices.unset(*net, value));
            }
        }
    }
    cost
}

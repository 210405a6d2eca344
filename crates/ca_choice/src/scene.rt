//! A decision: the chip, the costs, the cone of the defect and what is seen.

use crate::cell_cubes::are_opposite;
use crate::cone::Cone;
use crate::costs::{NEVER, sum};
use crate::cube::Cube;
use crate::goal::{Costliest, Frame, Goal, trit_of};
use crate::plan::{Plan, Source};
use crate::prices::Prices;
use crate::sight::Sight;
use crate::wants::Wants;

// What a goal costs more where the plan wants the opposite.
const AGAINST_THE_PLAN: u32 = 100;

/// A bit, and its value.
#[derive(Clone, Copy, Debug)]
pub(crate) struct BitValue {
    pub(crate) bit: usize,
    pub(crate) value: bool,
}

/// All that a decision looks at.
#[derive(Drop)]
pub(crate) struct Scene<'a, S: Sight> {
    pub(crate) plan: &'a Plan<'a>,
    pub(crate) prices: &'a Prices,
    pub(crate) cone: &'a Cone,
    pub(crate) sight: &'a S,
    // what the plan wants
    pub(crate) wants: &'a Wants,
}

impl<'a, S: Sight> Scene<'a, S> {
    /// The same, where a plan wants these.
    pub(crate) fn wanting(&self, wants: &'a Wants) -> Scene<'a, S> {
        Scene {
            plan: self.plan,
            prices: self.prices,
            cone: self.cone,
            sight: self.sight,
            wants,
        }
    }

    /// The price of a goal. What the plan wants otherwise is costlier.
    pub(crate) fn price(&self, goal: Goal) -> u32 {
        let price = self.prices.of(self.sight, goal);
        if 0 < price && self.wants.opposes(goal) {
            sum(price, AGAINST_THE_PLAN)
        } else {
            price
        }
    }

    /// Whether the waves contradict a goal: the good one, or the last value with the defect.
    pub(crate) fn is_lost(&self, goal: Goal) -> bool {
        if self.prices.of(self.sight, goal) == NEVER {
            return true;
        }
        let faulty = self.sight.faulty(goal.net).last;
        goal.frame == Frame::Last && are_opposite(faulty, trit_of(goal.value))
    }

    /// The price of the values that an instance's other pins need in the last frame, without and with the
    /// defect. A value that isn't there costs something.
    pub(crate) fn side_price(&self, part: u32, pin: usize, cube: Cube) -> u32 {
        let mut cost = 0u32;
        for (other, net) in self.plan.inputs(part).iter().enumerate() {
            if other != pin {
                if let Some(value) = self.plan.literal(part, cube, other) {
                    cost = sum(cost, self.side_value_price(*net, value));
                }
            }
        }
        cost
    }

    // The price of one such value.
    fn side_value_price(&self, net: u32, value: bool) -> u32 {
        let wanted = trit_of(value);
        let good = self.sight.good(net).last;
        let faulty = self.sight.faulty(net).last;
        if are_opposite(good, wanted) || are_opposite(faulty, wanted) {
            return NEVER;
        }
        if good == wanted && faulty == wanted {
            return 0;
        }
        let frame = Frame::Last;
        self.price(Goal { frame, net, value }).max(1)
    }

    /// An unset bit that brings the goal nearer, and its value: at each instance the cheapest cube is wanted,
    /// and of it the costliest value.
    pub(crate) fn backtrace(&self, goal: Goal) -> Option<BitValue> {
        let mut goal = goal;
        for _ in 0..self.plan.net_count() {
            match self.plan.source(goal.net) {
                Source::Input(input) => return self.bit_for(input, goal),
                Source::Output { part, output } => match self.goal_before(goal, part, output) {
                    Some(before) => goal = before,
                    None => return None,
                },
                Source::Other => return None,
            }
        }
        None
    }

    // The bit of a chip input for a goal on its net.
    fn bit_for(&self, input: usize, goal: Goal) -> Option<BitValue> {
        let first = input;
        let last = self.plan.input_count().saturating_add(input);
        let bit = match goal.frame {
            Frame::First => first,
            Frame::Last => last,
            Frame::Stable => {
                if self.sight.is_wanted(last) {
                    last
                } else {
                    first
                }
            }
        };
        if self.sight.is_wanted(bit) {
            Some(BitValue {
                bit,
                value: goal.value,
            })
        } else {
            None
        }
    }

    // The costliest goal on the instance's pins that the cheapest cube for the goal wants.
    fn goal_before(&self, goal: Goal, part: u32, output: usize) -> Option<Goal> {
        match self.cheapest(goal, part, output) {
            Some(cube) => self.costliest_of(goal.frame, part, cube),
            None => None,
        }
    }

    // The cheapest cube that brings the goal's value to the instance's output.
    fn cheapest(&self, goal: Goal, part: u32, output: usize) -> Option<Cube> {
        let mut best = None;
        let mut least = NEVER;
        for cube in self.plan.bringing(part, output, goal.value) {
            let price = self.cube_price(goal.frame, part, *cube);
            if price < least {
                least = price;
                best = Some(*cube);
            }
        }
        best
    }

    // The price of a cube: the sum over its pins.
    fn cube_price(&self, frame: Frame, part: u32, cube: Cube) -> u32 {
        let mut cost = 0u32;
        for (pin, net) in self.plan.inputs(part).iter().enumerate() {
            if let Some(value) = self.plan.literal(part, cube, pin) {
                let net = *net;
                cost = sum(cost, self.price(Goal { frame, net, value }));
            }
        }
        cost
    }

    // The costliest goal of a cube.
    fn costliest_of(&self, frame: Frame, part: u32, cube: Cube) -> Option<Goal> {
        let mut costliest = Costliest::new();
        for (pin, net) in self.plan.inputs(part).iter().enumerate() {
            if let Some(value) = self.plan.literal(part, cube, pin) {
                let net = *net;
                let goal = Goal { frame, net, value };
                costliest.offer(goal, self.price(goal));
            }
        }
        costliest.goal()
    }
}

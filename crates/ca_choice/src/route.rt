//! One way out of the chip, found depth first.

use crate::costs::{NEVER, sum};
use crate::cube::Cube;
use crate::goals::Goals;
use crate::outlets::Outlets;
use crate::plan::{Plan, Source};
use crate::prices::Prices;
use crate::scene::Scene;
use crate::sight::{Sight, is_dead, shows};
use crate::ways::{Asked, Piece, add_sides};
use ca_base::NoMemory;
use std::alloc::Global;

// A net of a way, and how many goals there were before it was left.
#[derive(Clone, Copy)]
struct Left {
    net: u32,
    goals: usize,
}

// A piece of a way, and what the way costs from there.
#[derive(Clone, Copy)]
struct Offer {
    piece: Piece,
    cost: u32,
}

/// The room to find a way out, and the costs by which it is found.
#[derive(Drop)]
pub(crate) struct Route {
    outlets: Outlets,
    // the nets of the way so far
    lefts: Vec<Left>,
    count: usize,
    // of each net the number of the last search in which no way led out of it
    failed: Vec<u32>,
    number: u32,
}

impl Route {
    /// The room for a chip, and its costs.
    pub(crate) fn reserve(
        alloc: Global,
        plan: &Plan<'_>,
        prices: &Prices,
    ) -> Result<Self, NoMemory> {
        let none = Left { net: 0, goals: 0 };
        Ok(Route {
            outlets: Outlets::new(alloc, plan, prices)?,
            lefts: vec![in alloc; none; plan.part_count().saturating_add(1)]?,
            count: 0,
            failed: vec![in alloc; 0; plan.net_count()]?,
            number: 0,
        })
    }

    /// The output of the instance that is nearest to an observed one, of those at which the defect shows or
    /// of those at which it still may.
    pub(crate) fn start<S: Sight>(
        &self,
        scene: &Scene<'_, S>,
        part: u32,
        showing: bool,
    ) -> Option<u32> {
        let mut best = None;
        let mut least = NEVER;
        for net in scene.plan.outputs(part) {
            let fits = if showing {
                shows(scene.sight, *net)
            } else {
                !is_dead(scene.sight, *net)
            };
            if fits && self.outlets.cost(*net) < least {
                least = self.outlets.cost(*net);
                best = Some(*net);
            }
        }
        best
    }

    /// Adds the goals of a way out of the net. Whether there is one. Where it comes to a net out of which no
    /// way leads, it turns back.
    pub(crate) fn add_goals<S: Sight>(
        &mut self,
        scene: &Scene<'_, S>,
        start: u32,
        goals: &mut Goals,
    ) -> bool {
        self.number = self.number.wrapping_add(1);
        self.count = 0;
        let mut net = start;
        for _ in 0..self.failed.len().saturating_mul(2).saturating_add(1) {
            if scene.sight.is_observed(net) {
                return true;
            }
            match self.cheapest(scene, net) {
                Some(offer) => {
                    self.leave(net, goals.len());
                    add_sides(scene, offer.piece, Asked::All, goals);
                    net = offer.piece.net;
                }
                None => {
                    self.fail(net);
                    match self.back() {
                        Some(left) => {
                            goals.shorten(left.goals);
                            net = left.net;
                        }
                        None => return false,
                    }
                }
            }
        }
        false
    }

    // Notes that the way leaves a net.
    fn leave(&mut self, net: u32, goals: usize) {
        let count = self.count;
        if count < self.lefts.len() {
            self.lefts[count] = Left { net, goals };
            self.count = count + 1;
        }
    }

    // The net before, if there is one. The way goes on there.
    fn back(&mut self) -> Option<Left> {
        if self.count == 0 {
            return None;
        }
        self.count -= 1;
        match self.lefts.get(self.count) {
            Some(left) => Some(*left),
            None => None,
        }
    }

    // Notes that no way leads out of the net.
    fn fail(&mut self, net: u32) {
        let place = net as usize;
        if place < self.failed.len() {
            self.failed[place] = self.number;
        }
    }

    // Whether a way may lead through the net.
    fn is_open<S: Sight>(&self, scene: &Scene<'_, S>, net: u32) -> bool {
        match self.failed.get(net as usize) {
            Some(number) => {
                *number != self.number
                    && self.outlets.cost(net) < NEVER
                    && !is_dead(scene.sight, net)
            }
            None => false,
        }
    }

    // The cheapest piece that leads on from the net.
    fn cheapest<S: Sight>(&self, scene: &Scene<'_, S>, net: u32) -> Option<Offer> {
        let mut best = None;
        for to in scene.sight.onward(net) {
            if self.is_open(scene, *to) {
                if let Source::Output { part, output } = scene.plan.source(*to) {
                    best = self.cheapest_through(scene, net, *to, part, output, best);
                }
            }
        }
        best
    }

    // The cheapest of a piece and those from the net through an instance to one of its outputs.
    fn cheapest_through<S: Sight>(
        &self,
        scene: &Scene<'_, S>,
        net: u32,
        to: u32,
        part: u32,
        output: usize,
        best: Option<Offer>,
    ) -> Option<Offer> {
        let mut best = best;
        for (pin, from) in scene.plan.inputs(part).iter().enumerate() {
            if *from == net {
                best = self.cheapest_from(
                    scene,
                    net,
                    Way {
                        part,
                        output,
                        pin,
                        to,
                    },
                    best,
                );
            }
        }
        best
    }

    // The cheapest of a piece and those from a pin to an output. Nothing more is wanted where the defect
    // shows at both.
    fn cheapest_from<S: Sight>(
        &self,
        scene: &Scene<'_, S>,
        net: u32,
        way: Way,
        best: Option<Offer>,
    ) -> Option<Offer> {
        let onward = self.outlets.cost(way.to);
        if shows(scene.sight, net) && shows(scene.sight, way.to) {
            return cheaper(best, way.offer(Cube::FREE, onward / 2));
        }
        let mut best = best;
        for cube in scene.plan.passing(way.part, way.output, way.pin) {
            let side = scene.side_price(way.part, way.pin, *cube);
            let cost = sum(sum(onward, 1), side);
            if cost < NEVER {
                best = cheaper(best, way.offer(*cube, cost));
            }
        }
        best
    }
}

// Through an instance from a pin to an output, and the net of that.
#[derive(Clone, Copy)]
struct Way {
    part: u32,
    output: usize,
    pin: usize,
    to: u32,
}

impl Way {
    // The piece under the values of a cube, with a cost.
    fn offer(self, cube: Cube, cost: u32) -> Offer {
        let piece = Piece {
            part: self.part,
            pin: self.pin,
            cube,
            net: self.to,
        };
        Offer { piece, cost }
    }
}

// The cheaper one of two offers, of which the first may be missing.
fn cheaper(best: Option<Offer>, other: Offer) -> Option<Offer> {
    match best {
        Some(offer) => {
            if other.cost < offer.cost {
                Some(other)
            } else {
                Some(offer)
            }
        }
        None => Some(other),
    }
}

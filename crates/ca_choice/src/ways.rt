//! The ways on which a defect can be seen at an output, and their costs.

use crate::cone::Cone;
use crate::costs::{NEVER, sum};
use crate::cube::Cube;
use crate::goal::{Frame, Goal};
use crate::goals::Goals;
use crate::plan::Plan;
use crate::scene::Scene;
use crate::sight::{Sight, is_dead, shows};
use ca_base::NoMemory;
use ca_net::Trit;
use std::alloc::Global;

/// The next piece of a way: through an instance from a pin to an output, under values of the other pins.
#[derive(Clone, Copy)]
pub(crate) struct Piece {
    pub(crate) part: u32,
    pub(crate) pin: usize,
    pub(crate) cube: Cube,
    // the net of the output
    pub(crate) net: u32,
}

/// Which values of a way are asked for.
#[derive(Clone, Copy, Debug, PartialEq, Eq)]
pub(crate) enum Asked {
    /// All that it wants.
    All,
    /// Those at the first instance that wants any.
    Nearest,
    /// One for each other pin on it that has no last value, whether it is wanted or not.
    Unknown,
}

/// For each net of the cone what the cheapest way out costs, and its first piece.
#[derive(Drop)]
pub(crate) struct Ways {
    costs: Vec<u32>,
    pieces: Vec<Option<Piece>>,
}

impl Ways {
    /// The room for a chip.
    pub(crate) fn reserve(alloc: Global, plan: &Plan<'_>) -> Result<Self, NoMemory> {
        Ok(Ways {
            costs: vec![in alloc; NEVER; plan.net_count()]?,
            pieces: vec![in alloc; None; plan.net_count()]?,
        })
    }

    /// Finds the ways out of the cone of a decision, from its end back.
    pub(crate) fn find<S: Sight>(&mut self, scene: &Scene<'_, S>) {
        let cone = scene.cone;
        let count = cone.len();
        for place in 0..count {
            self.clear(scene.plan.outputs(cone.get(place)));
        }
        for after in 0..count {
            self.pass(scene, cone.get(count - 1 - after));
        }
    }

    /// What the cheapest way out of the net costs.
    pub(crate) fn cost(&self, net: u32) -> u32 {
        match self.costs.get(net as usize) {
            Some(cost) => *cost,
            None => NEVER,
        }
    }

    /// Adds values that the way out of the net wants.
    pub(crate) fn add_goals<S: Sight>(
        &self,
        scene: &Scene<'_, S>,
        net: u32,
        asked: Asked,
        goals: &mut Goals,
    ) {
        let mut net = net;
        for _ in 0..scene.cone.len() {
            match self.piece(net) {
                Some(piece) => {
                    add_sides(scene, piece, asked, goals);
                    if asked == Asked::Nearest && 0 < goals.len() {
                        return;
                    }
                    net = piece.net;
                }
                None => return,
            }
        }
    }

    // The first piece of the way out of the net.
    fn piece(&self, net: u32) -> Option<Piece> {
        match self.pieces.get(net as usize) {
            Some(piece) => *piece,
            None => None,
        }
    }

    // Forgets the ways out of the nets.
    fn clear(&mut self, nets: &[u32]) {
        for net in nets {
            self.put(*net, NEVER, None);
        }
    }

    // Notes the way out of a net.
    fn put(&mut self, net: u32, cost: u32, piece: Option<Piece>) {
        let place = net as usize;
        if place < self.costs.len() && place < self.pieces.len() {
            self.costs[place] = cost;
            self.pieces[place] = piece;
        }
    }

    // Settles the ways out of an instance's outputs, and leads the ways of its pins on to them.
    fn pass<S: Sight>(&mut self, scene: &Scene<'_, S>, part: u32) {
        for (output, net) in scene.plan.outputs(part).iter().enumerate() {
            self.settle(scene, *net);
            if self.cost(*net) < NEVER {
                self.lead(scene, part, output, *net);
            }
        }
    }

    // Settles the way out of a net: there is none if it is dead, and it is out if it is observed.
    fn settle<S: Sight>(&mut self, scene: &Scene<'_, S>, net: u32) {
        if is_dead(scene.sight, net) {
            self.put(net, NEVER, None);
        } else if scene.sight.is_observed(net) {
            self.put(net, 0, None);
        }
    }

    // Leads the ways of an instance's pins on to an output.
    fn lead<S: Sight>(&mut self, scene: &Scene<'_, S>, part: u32, output: usize, net: u32) {
        for (pin, from) in scene.plan.inputs(part).iter().enumerate() {
            let from = *from;
            if scene.cone.has_net(from) {
                if shows(scene.sight, from) && shows(scene.sight, net) {
                    let cube = Cube::FREE;
                    self.offer(
                        from,
                        self.cost(net),
                        Piece {
                            part,
                            pin,
                            cube,
                            net,
                        },
                    );
                } else {
                    self.lead_pin(scene, from, part, output, pin, net);
                }
            }
        }
    }

    // Leads the way of a pin on to an output, under each cube under which the output follows it.
    fn lead_pin<S: Sight>(
        &mut self,
        scene: &Scene<'_, S>,
        from: u32,
        part: u32,
        output: usize,
        pin: usize,
        net: u32,
    ) {
        let onward = sum(self.cost(net), 1);
        for cube in scene.plan.passing(part, output, pin) {
            let cube = *cube;
            let cost = sum(onward, scene.side_price(part, pin, cube));
            self.offer(
                from,
                cost,
                Piece {
                    part,
                    pin,
                    cube,
                    net,
                },
            );
        }
    }

    // Takes a way out of a net if it is cheaper than what is there.
    fn offer(&mut self, from: u32, cost: u32, piece: Piece) {
        if cost < self.cost(from) {
            self.put(from, cost, Some(piece));
        }
    }
}

/// Adds the values of the other pins of a piece of a way.
pub(crate) fn add_sides<S: Sight>(
    scene: &Scene<'_, S>,
    piece: Piece,
    asked: Asked,
    goals: &mut Goals,
) {
    for (pin, net) in scene.plan.inputs(piece.part).iter().enumerate() {
        if pin != piece.pin {
            let wanted = if asked == Asked::Unknown {
                Some(cheaper_value(scene, *net))
            } else {
                scene.plan.literal(piece.part, piece.cube, pin)
            };
            if let Some(value) = wanted {
                add_side(scene, *net, value, goals);
            }
        }
    }
}

// The value of a net that costs less in the last frame.
fn cheaper_value<S: Sight>(scene: &Scene<'_, S>, net: u32) -> bool {
    let frame = Frame::Last;
    let zero = scene.price(Goal {
        frame,
        net,
        value: false,
    });
    let one = scene.price(Goal {
        frame,
        net,
        value: true,
    });
    one < zero
}

// Adds a value that is wanted in the last frame, if there is none.
fn add_side<S: Sight>(scene: &Scene<'_, S>, net: u32, value: bool, goals: &mut Goals) {
    if scene.sight.good(net).last == Trit::X {
        let frame = Frame::Last;
        goals.add(Goal { frame, net, value });
    }
}

/// The output of the instance at which the defect shows that has the cheapest way out.
pub(crate) fn showing_output<S: Sight>(
    scene: &Scene<'_, S>,
    ways: &Ways,
    part: u32,
) -> Option<u32> {
    let mut best = None;
    let mut least = NEVER;
    for net in scene.plan.outputs(part) {
        if shows(scene.sight, *net) && ways.cost(*net) < least {
            least = ways.cost(*net);
            best = Some(*net);
        }
    }
    best
}

/// The output of the instance that has the cheapest way out.
pub(crate) fn best_output<S: Sight>(scene: &Scene<'_, S>, ways: &Ways, part: u32) -> Option<u32> {
    let mut best = None;
    let mut least = NEVER;
    for net in scene.plan.outputs(part) {
        if ways.cost(*net) < least {
            least = ways.cost(*net);
            best = Some(*net);
        }
    }
    best
}

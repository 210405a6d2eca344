//! The values that the goals of a plan imply.

use crate::cell_cubes::are_opposite;
use crate::cube::{Cube, Known};
use crate::goal::{Frame, Goal, trit_of};
use crate::goals::Goals;
use crate::plan::Source;
use crate::scene::Scene;
use crate::sight::Sight;
use ca_base::NoMemory;
use ca_net::Trit;
use std::alloc::Global;

// A net in the first or in the last frame.
#[derive(Clone, Copy)]
struct Place {
    net: u32,
    is_last: bool,
}

/// Values that nets without one have to get, in each frame, with what follows from them at the good cells.
#[derive(Drop)]
pub(crate) struct Wants {
    firsts: Vec<Trit>,
    lasts: Vec<Trit>,
    // what has got a value, in its order
    places: Vec<Place>,
    count: usize,
    // how many of these have been looked at
    spread: usize,
}

impl Wants {
    /// The room for `nets` nets. Of others nothing is wanted.
    pub(crate) fn reserve(alloc: Global, nets: usize) -> Result<Self, NoMemory> {
        let none = Place {
            net: 0,
            is_last: false,
        };
        Ok(Wants {
            firsts: vec![in alloc; Trit::X; nets]?,
            lasts: vec![in alloc; Trit::X; nets]?,
            places: vec![in alloc; none; nets.saturating_mul(2)]?,
            count: 0,
            spread: 0,
        })
    }

    /// Takes all values back.
    pub(crate) fn clear(&mut self) {
        for index in 0..self.count {
            if let Some(place) = self.place(index) {
                self.put(place, Trit::X);
            }
        }
        self.count = 0;
        self.spread = 0;
    }

    /// Whether the opposite of the goal is wanted.
    pub(crate) fn opposes(&self, goal: Goal) -> bool {
        let value = trit_of(goal.value);
        let net = goal.net;
        let is_first = are_opposite(
            self.get(Place {
                net,
                is_last: false,
            }),
            value,
        );
        let is_last = are_opposite(self.get(Place { net, is_last: true }), value);
        match goal.frame {
            Frame::First => is_first,
            Frame::Last => is_last,
            Frame::Stable => is_first || is_last,
        }
    }

    /// Wants all goals too. Whether no contradiction is seen.
    pub(crate) fn add_all<S: Sight>(&mut self, scene: &Scene<'_, S>, goals: &Goals) -> bool {
        for place in 0..goals.len() {
            if let Some(goal) = goals.get(place) {
                if !self.add(scene, goal) {
                    return false;
                }
            }
        }
        true
    }

    /// Wants each goal that doesn't contradict.
    pub(crate) fn add_each<S: Sight>(&mut self, scene: &Scene<'_, S>, goals: &Goals) {
        for place in 0..goals.len() {
            if let Some(goal) = goals.get(place) {
                let _ = self.add(scene, goal);
            }
        }
    }

    /// Wants a goal too. Whether no contradiction is seen.
    pub(crate) fn add<S: Sight>(&mut self, scene: &Scene<'_, S>, goal: Goal) -> bool {
        let net = goal.net;
        let first = Place {
            net,
            is_last: false,
        };
        let last = Place { net, is_last: true };
        match goal.frame {
            Frame::First => self.add_at(scene, first, goal.value),
            Frame::Last => self.add_at(scene, last, goal.value),
            Frame::Stable => {
                self.add_at(scene, first, goal.value) && self.add_at(scene, last, goal.value)
            }
        }
    }

    // Wants a value, and what follows from it.
    fn add_at<S: Sight>(&mut self, scene: &Scene<'_, S>, place: Place, value: bool) -> bool {
        if !self.note(scene, place, value) {
            return false;
        }
        for _ in 0..self.places.len() {
            match self.place(self.spread) {
                Some(next) => {
                    self.spread = self.spread.saturating_add(1);
                    if !self.look_around(scene, next) {
                        return false;
                    }
                }
                None => return true,
            }
        }
        true
    }

    // What has got a value as the one of this number.
    fn place(&self, index: usize) -> Option<Place> {
        if index < self.count && index < self.places.len() {
            Some(self.places[index])
        } else {
            None
        }
    }

    // The value that is wanted.
    fn get(&self, place: Place) -> Trit {
        let values = if place.is_last {
            &self.lasts
        } else {
            &self.firsts
        };
        match values.get(place.net as usize) {
            Some(value) => *value,
            None => Trit::X,
        }
    }

    // Puts a value.
    fn put(&mut self, place: Place, value: Trit) {
        let values = if place.is_last {
            &mut self.lasts
        } else {
            &mut self.firsts
        };
        let net = place.net as usize;
        if net < values.len() {
            values[net] = value;
        }
    }

    // The value that there is, or else the one that is wanted.
    fn value<S: Sight>(&self, scene: &Scene<'_, S>, place: Place) -> Trit {
        let wave = scene.sight.good(place.net);
        let now = if place.is_last { wave.last } else { wave.first };
        if now == Trit::X { self.get(place) } else { now }
    }

    // Notes that a value is wanted. Whether there isn't the opposite.
    fn note<S: Sight>(&mut self, scene: &Scene<'_, S>, place: Place, value: bool) -> bool {
        let now = self.value(scene, place);
        let wanted = trit_of(value);
        if now != Trit::X {
            return now == wanted;
        }
        let count = self.count;
        if count < self.places.len() {
            self.places[count] = place;
            self.count = count + 1;
            self.put(place, wanted);
        }
        true
    }

    // Looks at the instance that drives a net, and at those that the net feeds.
    fn look_around<S: Sight>(&mut self, scene: &Scene<'_, S>, place: Place) -> bool {
        if !self.look(scene, place) {
            return false;
        }
        for net in scene.sight.onward(place.net) {
            let next = Place {
                net: *net,
                is_last: place.is_last,
            };
            if !self.look(scene, next) {
                return false;
            }
        }
        true
    }

    // Looks at the instance that drives a net: what its pins give, or what they have to be.
    fn look<S: Sight>(&mut self, scene: &Scene<'_, S>, place: Place) -> bool {
        match scene.plan.source(place.net) {
            Source::Output { part, output } => {
                let known = self.known(scene, place.is_last, part);
                match self.value(scene, place) {
                    Trit::X => self.look_forward(scene, place, part, output, known),
                    now => {
                        let value = now == Trit::One;
                        !is_given(scene, part, output, !value, known)
                            && self.look_back(scene, place, part, output, value, known)
                    }
                }
            }
            _ => true,
        }
    }

    // The values that an instance's pins have, or that are wanted of them.
    fn known<S: Sight>(&self, scene: &Scene<'_, S>, is_last: bool, part: u32) -> Cube {
        let mut known = Known::new();
        for net in scene.plan.inputs(part) {
            let net = *net;
            known = known.with(self.value(scene, Place { net, is_last }));
        }
        known.cube()
    }

    // Wants what the instance's pins give.
    fn look_forward<S: Sight>(
        &mut self,
        scene: &Scene<'_, S>,
        place: Place,
        part: u32,
        output: usize,
        known: Cube,
    ) -> bool {
        if is_given(scene, part, output, false, known) {
            self.note(scene, place, false)
        } else if is_given(scene, part, output, true, known) {
            self.note(scene, place, true)
        } else {
            true
        }
    }

    // Wants what all cubes that can still bring the value have in common. Whether there is such a cube.
    fn look_back<S: Sight>(
        &mut self,
        scene: &Scene<'_, S>,
        place: Place,
        part: u32,
        output: usize,
        value: bool,
        known: Cube,
    ) -> bool {
        match common_cube(scene, part, output, value, known) {
            Some(cube) => self.note_cube(scene, place.is_last, part, cube),
            None => false,
        }
    }

    // Wants the values of a cube.
    fn note_cube<S: Sight>(
        &mut self,
        scene: &Scene<'_, S>,
        is_last: bool,
        part: u32,
        cube: Cube,
    ) -> bool {
        for (pin, net) in scene.plan.inputs(part).iter().enumerate() {
            if let Some(value) = scene.plan.literal(part, cube, pin) {
                let net = *net;
                if !self.note(scene, Place { net, is_last }, value) {
                    return false;
                }
            }
        }
        true
    }
}

// Whether known values of an instance's pins bring the value to its output.
fn is_given<S: Sight>(
    scene: &Scene<'_, S>,
    part: u32,
    output: usize,
    value: bool,
    known: Cube,
) -> bool {
    for cube in scene.plan.bringing(part, output, value) {
        if cube.is_met(known) {
            return true;
        }
    }
    false
}

// What all cubes that bring the value and that no known value opposes have in common, if there are some.
fn common_cube<S: Sight>(
    scene: &Scene<'_, S>,
    part: u32,
    output: usize,
    value: bool,
    known: Cube,
) -> Option<Cube> {
    let mut common = None;
    for cube in scene.plan.bringing(part, output, value) {
        if !cube.is_opposed(known) {
            common = match common {
                Some(before) => Some(cube.common(before)),
                None => Some(*cube),
            };
        }
    }
    common
}

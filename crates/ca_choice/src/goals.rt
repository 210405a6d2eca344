//! The goals of a plan.

use crate::goal::{Costliest, Frame, Goal};
use crate::scene::Scene;
use crate::sight::Sight;
use ca_base::NoMemory;
use std::alloc::Global;

/// The goals of a plan in their order, in a room that is taken once.
#[derive(Drop)]
pub(crate) struct Goals {
    goals: Vec<Goal>,
    count: usize,
}

impl Goals {
    /// The room for `most` goals.
    pub(crate) fn reserve(alloc: Global, most: usize) -> Result<Self, NoMemory> {
        let free = Goal {
            frame: Frame::First,
            net: 0,
            value: false,
        };
        Ok(Goals {
            goals: vec![in alloc; free; most]?,
            count: 0,
        })
    }

    /// Takes all goals out.
    pub(crate) fn clear(&mut self) {
        self.count = 0;
    }

    /// Takes out all but the first `count` goals.
    pub(crate) fn shorten(&mut self, count: usize) {
        if count < self.count {
            self.count = count;
        }
    }

    /// Whether the waves contradict one of the goals.
    pub(crate) fn is_broken<S: Sight>(&self, scene: &Scene<'_, S>) -> bool {
        for place in 0..self.count {
            if let Some(goal) = self.get(place) {
                if scene.is_lost(goal) {
                    return true;
                }
            }
        }
        false
    }

    /// The number of goals.
    pub(crate) fn len(&self) -> usize {
        self.count
    }

    /// Appends a goal, if there is room for it.
    pub(crate) fn add(&mut self, goal: Goal) {
        let count = self.count;
        if count < self.goals.len() {
            self.goals[count] = goal;
            self.count = count + 1;
        }
    }

    /// The goal at this place.
    pub(crate) fn get(&self, place: usize) -> Option<Goal> {
        if place < self.count && place < self.goals.len() {
            Some(self.goals[place])
        } else {
            None
        }
    }

    /// The costliest goal that isn't one of the first frame alone, or else the costliest of those.
    pub(crate) fn costliest<S: Sight>(&self, scene: &Scene<'_, S>) -> Option<Goal> {
        match self.costliest_of(scene, false) {
            Some(goal) => Some(goal),
            None => self.costliest_of(scene, true),
        }
    }

    // The costliest goal of the first frame alone, or of the others.
    fn costliest_of<S: Sight>(&self, scene: &Scene<'_, S>, is_first: bool) -> Option<Goal> {
        let mut costliest = Costliest::new();
        for place in 0..self.count {
            if let Some(goal) = self.get(place) {
                if (goal.frame == Frame::First) == is_first {
                    costliest.offer(goal, scene.price(goal));
                }
            }
        }
        costliest.goal()
    }
}

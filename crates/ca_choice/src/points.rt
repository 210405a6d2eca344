//! Sets of points: values of all places.

use crate::cube::Cube;
use ca_base::NoMemory;
use std::alloc::Global;

/// A set of points. The number of a point is the set of its places that have the value 1, as a binary number.
#[derive(Drop)]
pub(crate) struct Points {
    // the set of the places in use
    places: u16,
    is_member: Vec<bool>,
}

impl Points {
    /// No points, with room for the numbers below `bound`.
    pub(crate) fn reserve(alloc: Global, bound: usize) -> Result<Self, NoMemory> {
        Ok(Points {
            places: 0,
            is_member: vec![in alloc; false; bound]?,
        })
    }

    /// Takes all points out. These places are in use from now on.
    pub(crate) fn begin(&mut self, places: u16) {
        self.places = places;
        for flag in &mut self.is_member {
            *flag = false;
        }
    }

    /// Puts a point in, if there is room for it.
    pub(crate) fn insert(&mut self, point: usize) {
        if point < self.is_member.len() {
            self.is_member[point] = true;
        }
    }

    /// The set of the places in use.
    pub(crate) fn places(&self) -> u16 {
        self.places
    }

    // Whether the point is in the set.
    fn has(&self, point: u16) -> bool {
        let point = usize::from(point);
        point < self.is_member.len() && self.is_member[point]
    }

    /// Whether all points of the cube are in the set.
    pub(crate) fn holds(&self, cube: Cube) -> bool {
        let free = self.places & !cube.held();
        let mut others = 0u16;
        for _ in 0..self.is_member.len() {
            if !self.has(cube.ones() | others) {
                return false;
            }
            // the next subset of the free places
            others = others.wrapping_sub(free) & free;
            if others == 0 {
                return true;
            }
        }
        false
    }

    /// Whether all points of the cube are in the set, but not if one place more is free.
    pub(crate) fn is_widest(&self, cube: Cube, places: usize) -> bool {
        if !self.holds(cube) {
            return false;
        }
        for place in 0..places {
            if cube.literal(place).is_some() && self.holds(cube.without(place)) {
                return false;
            }
        }
        true
    }

    /// The cube in which the place is free too, if all its points are in the set; else the cube.
    pub(crate) fn widened(&self, cube: Cube, place: usize) -> Cube {
        let wider = cube.without(place);
        if self.holds(wider) { wider } else { cube }
    }
}

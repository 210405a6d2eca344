//! Cubes: values of some places.

use ca_net::Trit;

// How many places a cube may speak of.
const MOST_PLACES: usize = 16;

/// Values of some places, while the others are free.
#[derive(Clone, Copy, Debug, PartialEq, Eq)]
pub(crate) struct Cube {
    // the set of the places that have a value
    held: u16,
    // the set of those that have the value 1
    ones: u16,
}

impl Cube {
    /// All places are free.
    pub(crate) const FREE: Cube = Cube { held: 0, ones: 0 };

    /// The places of the first set have a value: 1 where they are in the second set, else 0.
    pub(crate) fn new(held: u16, ones: u16) -> Self {
        Cube {
            held,
            ones: ones & held,
        }
    }

    /// The value of the place, if it has one.
    pub(crate) fn literal(self, place: usize) -> Option<bool> {
        if has(self.held, place) {
            Some(has(self.ones, place))
        } else {
            None
        }
    }

    /// The cube in which the place is free too.
    pub(crate) fn without(self, place: usize) -> Cube {
        Cube::new(self.held & !single(place), self.ones)
    }

    /// The values that both cubes have.
    pub(crate) fn common(self, other: Cube) -> Cube {
        let differing = self.ones ^ other.ones;
        Cube::new(self.held & other.held & !differing, self.ones)
    }

    /// Whether all its values are among the known ones.
    pub(crate) fn is_met(self, known: Cube) -> bool {
        let differing = self.ones ^ known.ones;
        self.held & !known.held == 0 && self.held & differing == 0
    }

    /// Whether one of its values is the opposite of a known one.
    pub(crate) fn is_opposed(self, known: Cube) -> bool {
        let differing = self.ones ^ known.ones;
        self.held & known.held & differing != 0
    }

    /// The set of the places that have a value.
    pub(crate) fn held(self) -> u16 {
        self.held
    }

    /// The set of the places that have the value 1.
    pub(crate) fn ones(self) -> u16 {
        self.ones
    }
}

/// The known values of pins, which are met one after another, the first pin first: the place of a pin is how
/// many follow it.
#[derive(Clone, Copy, Debug)]
pub(crate) struct Known {
    cube: Cube,
}

impl Known {
    /// No pin was met.
    pub(crate) fn new() -> Self {
        Known { cube: Cube::FREE }
    }

    /// One pin more, with this value.
    pub(crate) fn with(self, value: Trit) -> Self {
        let held = (self.cube.held << 1) | bit(value != Trit::X);
        let ones = (self.cube.ones << 1) | bit(value == Trit::One);
        Known {
            cube: Cube { held, ones },
        }
    }

    /// The values.
    pub(crate) fn cube(self) -> Cube {
        self.cube
    }
}

// 1 for yes.
fn bit(is_set: bool) -> u16 {
    if is_set { 1 } else { 0 }
}

// Whether the place is in the set.
fn has(set: u16, place: usize) -> bool {
    place < MOST_PLACES && (set >> place) % 2 == 1
}

// The set of one place.
fn single(place: usize) -> u16 {
    if place < MOST_PLACES { 1 << place } else { 0 }
}

//! The rows that expose a defect, as cubes.

ghost use Rattle.std.specs.Prelude.{◌<◌};

use crate::cell_cubes::first_places;
use crate::costs::NEVER;
use crate::cube::Cube;
use crate::points::Points;
use ca_base::NoMemory;
use ca_cell::{Row, Rows};
use std::alloc::Global;

// The most rows of a cell.
const MOST_ROWS: usize = 4096;

// The places of the last pins are below those of the first pins.
const FIRST_PINS: usize = 6;

/// The widest cubes of the rows of a defect, in a room that is taken once.
#[derive(Drop)]
pub(crate) struct RowCubes {
    points: Points,
    cubes: Vec<Cube>,
    // the price of each at a decision
    prices: Vec<u32>,
    // how many of them there are
    count: usize,
    // the number of input pins
    inputs: usize,
}

impl RowCubes {
    /// The room.
    pub(crate) fn reserve(alloc: Global) -> Result<Self, NoMemory> {
        Ok(RowCubes {
            points: Points::reserve(alloc, MOST_ROWS)?,
            cubes: vec![in alloc; Cube::FREE; MOST_ROWS]?,
            prices: vec![in alloc; NEVER; MOST_ROWS]?,
            count: 0,
            inputs: 0,
        })
    }

    /// Finds the cubes of the rows of a cell with `inputs` inputs. From each row as many places are dropped
    /// as possible, one after another: the first values first.
    pub(crate) fn find(&mut self, rows: &Rows, inputs: usize) {
        self.inputs = inputs;
        self.count = 0;
        let last = first_places(inputs);
        self.points.begin((last << FIRST_PINS) | last);
        for place in 0..rows.len() {
            self.points.insert(point_of(rows.get(place)));
        }
        for place in 0..rows.len() {
            self.add(rows.get(place));
        }
    }

    /// The number of cubes.
    pub(crate) fn len(&self) -> usize {
        self.count
    }

    /// The cube at this place.
    pub(crate) fn get(&self, place: usize) -> Cube {
        match self.cubes.get(place) {
            Some(cube) => *cube,
            None => Cube::FREE,
        }
    }

    /// The price that was noted for the cube at this place.
    pub(crate) fn price(&self, place: usize) -> u32 {
        match self.prices.get(place) {
            Some(price) => *price,
            None => NEVER,
        }
    }

    /// Notes the price of the cube at this place.
    pub(crate) fn put_price(&mut self, place: usize, price: u32) {
        if place < self.prices.len() {
            self.prices[place] = price;
        }
    }

    /// The first value of a pin in a cube.
    pub(crate) fn first(&self, cube: Cube, pin: usize) -> Option<bool> {
        cube.literal(self.place(pin).saturating_add(FIRST_PINS))
    }

    /// The last value of a pin in a cube.
    pub(crate) fn last(&self, cube: Cube, pin: usize) -> Option<bool> {
        cube.literal(self.place(pin))
    }

    // The place of a pin's last value.
    fn place(&self, pin: usize) -> usize {
        self.inputs.saturating_sub(1).saturating_sub(pin)
    }

    // Adds the widest cube that is found from a row, if it is new.
    fn add(&mut self, row: Row) {
        let cube = self.widest(row);
        if self.has(cube) {
            return;
        }
        let count = self.count;
        if count < self.cubes.len() {
            self.cubes[count] = cube;
            self.count = count + 1;
        }
    }

    // The cube of a row with as many places free as can be.
    fn widest(&self, row: Row) -> Cube {
        let mut cube = Cube::new(self.points.places(), point_of(row) as u16);
        for pin in 0..self.inputs {
            cube = self
                .points
                .widened(cube, self.place(pin).saturating_add(FIRST_PINS));
        }
        for pin in 0..self.inputs {
            cube = self.points.widened(cube, self.place(pin));
        }
        cube
    }

    // Whether the cube is there.
    fn has(&self, cube: Cube) -> bool {
        for place in 0..self.count {
            if self.get(place) == cube {
                return true;
            }
        }
        false
    }
}

// The number of a row as a point.
fn point_of(row: Row) -> usize
    ensures { result < 65536 }
{
    usize::from(row.first) * 64 + usize::from(row.last)
}

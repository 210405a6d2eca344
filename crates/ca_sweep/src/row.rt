//! A row: what the defects of a cell end with for waves of its input pins.

ghost use Rattle.ca_sweep.specs.code.Loud.{AreLoud};

use crate::codes::Goods;
use arrayvec::ArrayVec;
use ca_net::Wave;
use ca_response::PinWaves;

/// For how many defects of a cell a row has codes.
pub(crate) const MOST_CODES: usize = 256;

/// A number for each defect of a cell, or for the first ones: the last values that it gives.
pub type Codes = ArrayVec<u8, MOST_CODES>;

/// A cell's number, waves of its input pins, the codes of its defects for these, and which of the first 64
/// codes flip an output pin that has these good last values.
#[derive(Drop, Debug)]
pub struct Row {
    pub(crate) number: usize,
    pub(crate) pins: PinWaves,
    pub(crate) codes: Codes,
    pub(crate) goods: Goods,
    pub(crate) loud: u64,
    ghost loud_are: { AreLoud codes.items goods loud },
}

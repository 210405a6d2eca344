//! What the planes read of a chip.

use crate::constants::Constant;

/// The place of the good rows of its cell, and the net of each pin: the input pins come first.
#[derive(Drop)]
pub struct Instance {
    pub cell: u32,
    pub pins: Vec<u32>,
}

/// The nets of a chip's inputs, its constants, its instances, and an order of them in which each follows
/// those that drive its input pins.
#[derive(Drop)]
pub struct Netlist {
    pub inputs: Vec<u32>,
    pub constants: Vec<Constant>,
    pub instances: Vec<Instance>,
    pub order: Vec<u32>,
}

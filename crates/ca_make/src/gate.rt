//! The gates of a generated chip.

/// The number of chip inputs.
pub const INPUTS: u32 = 8;

/// The greatest number of gates of a generated chip.
pub const MOST_GATES: u32 = 4096;

/// A gate, with the places of the candidates on its input pins, in the order of the pins.
#[derive(Clone, Copy, Debug, PartialEq, Eq)]
pub enum Gate {
    Inv(u32),
    Nand2(u32, u32),
    Nor2(u32, u32),
}

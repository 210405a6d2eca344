//! The rules that a used cell keeps.

ghost use Rattle.std.specs.Prelude.{◌≡◌};
ghost use Rattle.ca_cell.specs.declared.rule.CellFault.TheVariants as fault;

use ca_base::NoMemory;
use ca_net::{DeviceId, NodeId};

/// The most devices that a used cell has.
pub const MOST_DEVICES: usize = 192;

/// The most nodes that a used cell has.
pub const MOST_NODES: usize = 192;

/// The most input pins that a used cell has.
pub const MOST_INPUTS: usize = 6;

/// The most output pins that a used cell has.
pub const MOST_OUTPUTS: usize = 2;

/// A rule that a subcircuit breaks, in the order in which rules are tried.
#[derive(Clone, Copy, Debug, PartialEq, Eq)]
pub enum CellRule {
    /// No pin is for power, or none is for ground.
    NoRail,
    /// There are more devices than `MOST_DEVICES`.
    TooManyDevices { count: usize },
    /// There are more nodes than `MOST_NODES`.
    TooManyNodes { count: usize },
    /// There are more input pins than `MOST_INPUTS`.
    TooManyInputs { count: usize },
    /// No pin is an output.
    NoOutput,
    /// There are more output pins than `MOST_OUTPUTS`.
    TooManyOutputs { count: usize },
    /// The device, the first in order, has its drain on the input pin, or else its source.
    InputDrivesChannel { pin: NodeId, device: DeviceId },
}

/// Why a subcircuit gives no cell.
#[derive(Clone, Copy, Debug, PartialEq, Eq)]
pub enum CellFault {
    Rule(CellRule),
    NoMemory,
}

impl From<NoMemory> for CellFault {
    ghost from_gives = { λ _ e. e ≡ fault.NoMemory };

    fn from(_: NoMemory) -> Self {
        CellFault::NoMemory
    }
}

//! Why a netlist doesn't link.

ghost use Rattle.std.specs.Prelude.{◌≡◌};

use ca_base::NoMemory;
use ca_cell::CellRule;
use ca_lex::Text;
use ca_linked::{InstanceId, InstanceList, NetId};

/// What drives a net: an input port, a constant, or an output pin.
#[derive(Drop)]
pub enum Driver {
    Port(NetId),
    Constant(bool),
    Pin { instance: InstanceId, pin: Text },
}

/// The first rule that a netlist breaks, or a limit that it passes, with the counted quantity.
#[derive(Drop)]
pub enum ChipFault {
    UnknownCell {
        instance: InstanceId,
    },
    Cell {
        instance: InstanceId,
        rule: CellRule,
    },
    UnknownPin {
        instance: InstanceId,
        pin: Text,
    },
    MissingPin {
        instance: InstanceId,
        pin: Text,
    },
    DoubleDriven {
        net: NetId,
        first: Driver,
        second: Driver,
    },
    Undriven {
        net: NetId,
    },
    ControlPin {
        instance: InstanceId,
        pin: Text,
    },
    ControlObserved {
        net: NetId,
    },
    QnUsed {
        instance: InstanceId,
    },
    Loop {
        instances: InstanceList,
    },
    TooManyInstances {
        count: usize,
    },
    TooManyInputs {
        count: usize,
    },
    TooManyOutputs {
        count: usize,
    },
    TooManyDefects {
        count: usize,
    },
    NoMemory,
}

/// The most library instances, chip inputs, observed outputs and chip defects.
pub const MOST_INSTANCES: usize = 32_768;

pub const MOST_CHIP_INPUTS: usize = 4_096;

pub const MOST_CHIP_OUTPUTS: usize = 8_192;

pub const MOST_CHIP_DEFECTS: usize = 1_048_576;

impl From<NoMemory> for ChipFault {
    ghost use Rattle.ca_wiring.specs.declared.fault.ChipFault.TheVariants as fault;

    ghost from_gives = { λ _ e. e ≡ fault.NoMemory };

    fn from(_: NoMemory) -> Self {
        ChipFault::NoMemory
    }
}

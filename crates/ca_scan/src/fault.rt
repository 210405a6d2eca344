//! Why a text is no scan table, and why a chip's scan instances are in no chains.

ghost use Rattle.std.specs.Prelude.{◌≡◌};
ghost use Rattle.ca_scan.specs.declared.fault.ScanFault.TheVariants as scan_fault;
ghost use Rattle.ca_scan.specs.declared.fault.ChainFault.TheVariants as chain_fault;

use ca_base::NoMemory;
use ca_linked::InstanceId;

/// Why a text is no scan table.
#[derive(Clone, Copy, Debug, PartialEq, Eq)]
pub enum ScanFault {
    /// This record, counted from 1, is the first that breaks the form.
    BadScanRow { row: usize },
    NoMemory,
}

impl From<NoMemory> for ScanFault {
    ghost from_gives = { λ _ e. e ≡ scan_fault.NoMemory };

    fn from(_: NoMemory) -> Self {
        ScanFault::NoMemory
    }
}

/// Why there are no chains.
#[derive(Clone, Copy, Debug, PartialEq, Eq)]
pub enum ChainFault {
    /// This scan instance is the first, in netlist order, that is on no whole chain.
    ChainBroken { instance: InstanceId },
    /// Each scan instance is on a whole chain, and there are `count` chains, more than 64.
    TooManyChains { count: usize },
    NoMemory,
}

impl From<NoMemory> for ChainFault {
    ghost from_gives = { λ _ e. e ≡ chain_fault.NoMemory };

    fn from(_: NoMemory) -> Self {
        ChainFault::NoMemory
    }
}

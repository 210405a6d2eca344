//! Why a text gives no library.
ghost use Rattle.std.specs.Prelude.{◌≡◌, option_map};
ghost use Rattle.ca_spice.specs.declared.fault.Refusal.TheVariants as refusal;
ghost use Rattle.ca_spice.specs.declared.fault.SpiceFault.TheVariants as fault;

use ca_base::NoMemory;
use std::alloc::{AllocError, AllocFailed};

/// The rule that a line of a cell netlist breaks.
#[derive(Clone, Copy, Debug, PartialEq, Eq)]
pub enum SpiceKind {
    /// Its first word begins no card.
    UnknownCard,
    /// The card's form is broken.
    BadCard,
    /// A `.ENDS` ends a subcircuit that has a pin without a role.
    NoPinInfo,
    /// A word of a `*.PININFO` names no pin, a pin that has a role, or no role.
    BadRole,
    /// W or L of an M card is missing, or its value is no length.
    BadLength,
    /// A subcircuit, a pin or a device has the name of an earlier one.
    DoubleName,
    /// The text ends in the subcircuit that the line begins.
    Unended,
    /// A word has a byte outside 33 to 126.
    NotText,
}

/// Why a text gives no library.
#[derive(Clone, Copy, Debug, PartialEq, Eq)]
pub enum SpiceFault {
    /// The first faulty line, counted from 1, with the first rule that it breaks. A line is reported by its
    /// first physical line.
    At { line: usize, kind: SpiceKind },
    /// The text has a reading, with `count` subcircuits.
    TooManyCells { count: usize },
    /// There was no memory.
    NoMemory,
}

/// Why a line was not taken.
#[derive(Clone, Copy, Debug, PartialEq, Eq)]
pub(crate) enum Refusal {
    Kind(SpiceKind),
    NoMemory,
}

impl Refusal {
    ghost use Rattle.ca_spice.specs.declared.fault.SpiceFault.TheVariants.{At};
    ghost use Rattle.ca_spice.specs.SpiceFault.{fault_reported};
    ghost use Rattle.ca_spice.specs.code.SpiceFault.{kind_reported};

    /// The fault of the line that was not taken.
    pub(crate) fn at(self, line: usize) -> SpiceFault
        ensures { fault_reported result ≡ option_map (At line) (kind_reported self) }
    {
        match self {
            Refusal::Kind(kind) => SpiceFault::At { line, kind },
            Refusal::NoMemory => SpiceFault::NoMemory,
        }
    }
}

impl From<NoMemory> for SpiceFault {
    ghost from_gives = { λ _ e. e ≡ fault.NoMemory };

    fn from(_: NoMemory) -> Self {
        SpiceFault::NoMemory
    }
}

impl From<NoMemory> for Refusal {
    ghost from_gives = { λ _ e. e ≡ refusal.NoMemory };

    fn from(_: NoMemory) -> Self {
        Refusal::NoMemory
    }
}

impl<T: Drop> From<AllocFailed<T>> for Refusal {
    ghost from_gives = { λ _ e. e ≡ refusal.NoMemory };

    fn from(_: AllocFailed<T>) -> Self {
        Refusal::NoMemory
    }
}

//! Why a text gives no netlist.
ghost use Rattle.std.specs.Prelude.{◌≡◌, option_map};
ghost use Rattle.ca_verilog.specs.declared.fault.Refusal.TheVariants as refusal;
ghost use Rattle.ca_verilog.specs.declared.fault.VerilogFault.TheVariants as fault;

use ca_base::NoMemory;
use ca_token::LexKind;
use std::alloc::{AllocError, AllocFailed};

/// The rule that a token of a gate netlist breaks.
#[derive(Clone, Copy, Debug, PartialEq, Eq)]
pub enum VerilogKind {
    /// The token can't follow, or the text ends too early.
    Syntax,
    /// A name that isn't declared before its use, a header's name without a direction, or a direction for
    /// another name.
    Undeclared,
    /// A name has its place already.
    DoubleName,
    /// Ranges, bits or widths don't fit.
    BadRange,
    /// A part of the larger language.
    Unsupported,
    /// A byte outside comments is neither white space nor from 33 to 126.
    NotText,
}

/// Why a text gives no netlist.
#[derive(Clone, Copy, Debug, PartialEq, Eq)]
pub enum VerilogFault {
    /// The line of the first faulty token, counted from 1, with the first rule that it breaks.
    At { line: usize, kind: VerilogKind },
    /// The text has a reading, with `count` bits.
    TooManyNets { count: usize },
    /// There was no memory.
    NoMemory,
}

/// Why a token was not taken.
#[derive(Clone, Copy, Debug, PartialEq, Eq)]
pub(crate) enum Refusal {
    Kind(VerilogKind),
    NoMemory,
}

impl Refusal {
    ghost use Rattle.ca_verilog.specs.declared.fault.VerilogFault.TheVariants.{At};
    ghost use Rattle.ca_verilog.specs.VerilogFault.{fault_reported};
    ghost use Rattle.ca_verilog.specs.code.VerilogFault.{kind_reported};

    /// The fault of the token that was not taken, which is on this line.
    pub(crate) fn at(self, line: usize) -> VerilogFault
        ensures { fault_reported result ≡ option_map (At line) (kind_reported self) }
    {
        match self {
            Refusal::Kind(kind) => VerilogFault::At { line, kind },
            Refusal::NoMemory => VerilogFault::NoMemory,
        }
    }
}

ghost use Rattle.ca_verilog.specs.VerilogFault.{kind_of};

/// The kind of a fault that no token begins with.
pub(crate) fn kind_of(kind: LexKind) -> VerilogKind
    ensures { result ≡ kind_of kind }
{
    match kind {
        LexKind::Syntax => VerilogKind::Syntax,
        LexKind::Unsupported => VerilogKind::Unsupported,
        LexKind::NotText => VerilogKind::NotText,
    }
}

impl From<NoMemory> for VerilogFault {
    ghost from_gives = { λ _ e. e ≡ fault.NoMemory };

    fn from(_: NoMemory) -> Self {
        VerilogFault::NoMemory
    }
}

impl From<AllocError> for VerilogFault {
    ghost from_gives = { λ _ e. e ≡ fault.NoMemory };

    fn from(_: AllocError) -> Self {
        VerilogFault::NoMemory
    }
}

impl<T: Drop> From<AllocFailed<T>> for VerilogFault {
    ghost from_gives = { λ _ e. e ≡ fault.NoMemory };

    fn from(_: AllocFailed<T>) -> Self {
        VerilogFault::NoMemory
    }
}

impl From<NoMemory> for Refusal {
    ghost from_gives = { λ _ e. e ≡ refusal.NoMemory };

    fn from(_: NoMemory) -> Self {
        Refusal::NoMemory
    }
}

impl<T: Drop> From<AllocFailed<T>> for Refusal {
    ghost from_gives = { λ _ e. e ≡ refusal.NoMemory };

    fn from(_: AllocFailed<T>) -> Self {
        Refusal::NoMemory
    }
}

//! Why a text is no strength table.

ghost use Rattle.std.specs.Prelude.{◌≡◌};
ghost use Rattle.ca_strengths.specs.declared.fault.StrengthFault.TheVariants as fault;

use ca_base::NoMemory;

/// Why a text is no strength table.
#[derive(Clone, Copy, Debug, PartialEq, Eq)]
pub enum StrengthFault {
    /// This record, counted from 1, is the first that breaks the form; the number after the last where one is
    /// missing.
    BadStrengthRow { row: usize },
    NoMemory,
}

impl From<NoMemory> for StrengthFault {
    ghost from_gives = { λ _ e. e ≡ fault.NoMemory };

    fn from(_: NoMemory) -> Self {
        StrengthFault::NoMemory
    }
}

//! Why a text is no log.

ghost use Rattle.std.specs.Prelude.{◌≡◌};
ghost use Rattle.ca_log.specs.declared.fault.LogFault.TheVariants as fault;

use ca_base::NoMemory;

/// Why a text is no log.
#[derive(Clone, Copy, Debug, PartialEq, Eq)]
pub enum LogFault {
    /// This record, counted from 1, is the first that is bad; 1 where there is none.
    BadLogRow { row: usize },
    NoMemory,
}

impl From<NoMemory> for LogFault {
    ghost from_gives = { λ _ e. e ≡ fault.NoMemory };

    fn from(_: NoMemory) -> Self {
        LogFault::NoMemory
    }
}

//! Why a text is no list of tokens.
ghost use Rattle.std.specs.Prelude.{◌≡◌};
ghost use Rattle.ca_token.specs.declared.fault.LexFault.TheVariants as fault;

use ca_base::NoMemory;
use std::alloc::AllocError;

/// The rule that a token breaks.
#[derive(Clone, Copy, Debug, PartialEq, Eq)]
pub enum LexKind {
    /// No token begins so, or the text ends inside one.
    Syntax,
    /// A constant that isn't of one bit, a directive, or a sign of a larger language.
    Unsupported,
    /// A byte outside comments is neither white space nor from 33 to 126.
    NotText,
}

/// The first fault of a text: its token begins at byte `at`, and the byte that breaks the rule is at `place`.
#[derive(Clone, Copy, Debug, PartialEq, Eq)]
pub struct Flaw {
    pub at: usize,
    pub place: usize,
    pub kind: LexKind,
}

/// Why a text gives no list of tokens.
#[derive(Clone, Copy, Debug, PartialEq, Eq)]
pub enum LexFault {
    /// The bytes before `at` are a list of tokens, and the one that begins there breaks a rule on this line.
    At {
        at: usize,
        line: usize,
        kind: LexKind,
    },
    /// There was no memory.
    NoMemory,
}

impl From<NoMemory> for LexFault {
    ghost from_gives = { λ _ e. e ≡ fault.NoMemory };

    fn from(_: NoMemory) -> Self {
        LexFault::NoMemory
    }
}

impl From<AllocError> for LexFault {
    ghost from_gives = { λ _ e. e ≡ fault.NoMemory };

    fn from(_: AllocError) -> Self {
        LexFault::NoMemory
    }
}

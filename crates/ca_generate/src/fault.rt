//! Why the work gave up.

ghost use Rattle.std.specs.Prelude.{◌≡◌};
ghost use Rattle.ca_generate.specs.declared.fault.GenerateFault.TheVariants as fault;

use ca_base::{List, NoMemory};
use ca_pair::Pairs;

/// For each listed pair the place, in the list of defects, of the one for which it was found.
pub type Aims = List<u32>;

/// Why there is no result.
#[derive(Drop, Debug)]
pub enum GenerateFault {
    /// As many pairs are listed as there may be, and one more was found. It comes last.
    TooManyPairs { pairs: Pairs, aims: Aims },
    /// There was no memory.
    NoMemory,
}

impl From<NoMemory> for GenerateFault {
    ghost from_gives = { λ _ e. e ≡ fault.NoMemory };

    fn from(_: NoMemory) -> Self {
        GenerateFault::NoMemory
    }
}

//! Why a reading of tokens stops.
ghost use Rattle.std.specs.Prelude.{◌≡◌};
ghost use Rattle.ca_stil_read.specs.declared.stop.Stop.TheVariants as stop;

use ca_base::NoMemory;

/// The text from the first faulty token on, or out of memory.
#[derive(Drop)]
pub(crate) enum Stop<'a> {
    Stuck(&'a [u8]),
    NoMemory,
}

impl<'a> From<NoMemory> for Stop<'a> {
    ghost from_gives = { λ _ e. e ≡ stop.NoMemory };

    fn from(_: NoMemory) -> Self {
        Stop::NoMemory
    }
}

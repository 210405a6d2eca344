//! Waves that are kept with their bits, from which a pair is loaded.

use crate::waves::Waves;
use ca_net::State;

/// Bits, and the waves of all nets of the good network under them.
#[derive(Drop, Debug)]
pub struct Loaded {
    pub(crate) bits: State,
    pub(crate) waves: Waves,
}

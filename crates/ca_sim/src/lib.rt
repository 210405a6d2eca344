//! The simulator: the waves of all nets for a partial pair, without a defect and with one, of which changed
//! instances alone are evaluated again.
#![tactic(auto)]

mod bits;
mod cache;
mod cells;
mod laws;
mod loaded;
mod net_waves;
mod network;
mod networks;
mod sim;
mod waves;

pub use bits::Bits;
pub use laws::{definite_last_is_end, waves_are_there};
pub use net_waves::NetWaves;
pub use network::{Network, mark_readers};
pub use networks::forget;
pub use sim::{Sim, input_of, trit_of};
pub use waves::Waves;

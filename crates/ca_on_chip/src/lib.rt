//! The commands on a chip that search for nothing: what each finds in its files, and the lines that report
//! it.
#![tactic(auto)]

mod chips;
mod generation;
mod lines;
mod replays;

pub use chips::{FlatChip, SimulatedChip, find_flat, find_simulation};
pub use generation::generation_fault;
pub use lines::{check_line, flatten_line, replay_lines, simulate_lines};
pub use replays::{MAX_ORDER, ReplayedChip, find_replay};

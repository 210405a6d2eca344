//! The commands: what each word of a command line asks for, and how it ends.
#![tactic(auto)]

mod answering;
mod bridges;
mod certificates;
mod files;
mod finished;
mod top;
mod usage;
mod work;

pub use answering::{answer, tell};
pub use ca_fault::{Fault, LimitKind};
pub use ca_generate::{Unwatched, Watch};
pub use ca_on_cell::{PinValue, PinValues};
pub use finished::{Done, Finished};
pub use top::run;

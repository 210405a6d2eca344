//! Logs of failing outputs: the records that a text is, or its first bad one.
#![tactic(auto)]

mod fault;
mod fields;
mod lookup;
mod number;
mod read;
mod record;
mod record_set;

pub use fault::LogFault;
pub use read::read_log;
pub use record::{Log, LogRecord};

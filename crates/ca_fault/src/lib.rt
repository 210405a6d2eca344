//! What commands answer where they don't end well: the faults, their exit statuses, and the line that reports
//! each.
#![tactic(auto)]

mod fault;
mod kinds;
mod pieces;
mod three;

pub use fault::{Fault, LimitKind};

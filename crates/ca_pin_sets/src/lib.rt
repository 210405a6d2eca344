//! Input pins with resistors in front: inner nets that resistors join to an input pin are that pin's node.
#![tactic(auto)]

mod groups;
mod homes;
mod laws;
mod resolving;

pub use laws::{home_is_first_reaching, resolved_stays};
pub use resolving::resolved;

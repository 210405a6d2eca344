//! The command `verify`: what it finds in its files.
#![tactic(auto)]

mod answering;
mod certificates;
mod claimed;
mod laws;
mod verifying;

pub use certificates::MAX_CERT;
pub use laws::certificate_limit;
pub use verifying::{VerifiedChip, find_answer};

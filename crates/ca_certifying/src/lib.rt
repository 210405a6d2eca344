//! The command `certify`: what it finds in its files.
#![tactic(auto)]

mod certified;
mod certifying;
mod summary;

pub use certified::{CertifiedTests, certified_tests};
pub use certifying::{CertifiedChip, find_certificate};
pub use summary::certified_line;

//! What a certificate claims of the defects of a chip, and when a claim stands.
#![tactic(auto)]

mod certificate;
mod claim;
mod laws;

pub use certificate::{Answer, Certificate};
pub use claim::Claim;
pub use laws::standing_claims_are_true;

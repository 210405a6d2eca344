//! The certificate of good verdicts on a linked chip.
#![tactic(auto)]

mod certificate;
mod claims;
mod laws;
mod searched;

pub use certificate::certify;
pub use laws::{good_claims_stand, search_codes_are_claimed, standing_is_yes};

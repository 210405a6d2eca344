//! The law of claims, the contract of a function that does nothing.

ghost use Rattle.ca_claim.specs.Laws.{StandingClaimsAreTrue};

/// Where every claim stands, each says what is so.
pub fn standing_claims_are_true()
    ensures { StandingClaimsAreTrue }
{}

//! Laws of claims, each the contract of a function that does nothing.

ghost use Rattle.ca_certify.specs.Laws.{SearchCodesAreClaimed, GoodClaimsStand, StandingIsYes};

/// A claim may have a code that a search writes.
pub fn search_codes_are_claimed()
    ensures { SearchCodesAreClaimed }
{}

/// Claims that give good verdicts stand, where those that a defect is untestable have whole codes.
pub fn good_claims_stand()
    ensures { GoodClaimsStand }
{}

/// Where every claim stands, a check answers yes.
pub fn standing_is_yes()
    ensures { StandingIsYes }
{}

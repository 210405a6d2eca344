//! The law of claimed codes, the contract of a function that does nothing.

ghost use Rattle.ca_read_code.specs.ClaimedCode.{ClaimedCodesAreCodes};

/// A code that a claim may have is a code.
pub fn claimed_codes_are_codes()
    ensures { ClaimedCodesAreCodes }
{}

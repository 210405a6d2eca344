//! Laws of the definitions, each the contract of a function that does nothing.

ghost use Rattle.ca_code.specs.Filled.{FilledIsShown};
ghost use Rattle.ca_code.specs.Laws.{SearchCodesAreCodes, SearchCodesAreChecked};

/// A code that a search may write is a code.
pub fn search_codes_are_codes()
    ensures { SearchCodesAreCodes }
{}

/// It can't be that a code which a search may write isn't a checked code.
pub fn search_codes_are_checked()
    ensures { SearchCodesAreChecked }
{}

/// Where a partial pair shows the defect, so does the pair that it gives when its unset bits are filled.
pub fn filled_is_shown()
    ensures { FilledIsShown }
{}

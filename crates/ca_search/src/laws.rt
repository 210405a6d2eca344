//! Laws of the definitions, each the contract of a function that does nothing.

ghost use Rattle.ca_search.specs.Ends.{OutcomeIsSearch};
ghost use Rattle.ca_search.specs.FreeWay.{FreeWayIsFront};

/// A free way to a pair that shows the defect is a front.
pub fn free_way_is_front()
    ensures { FreeWayIsFront }
{}

/// What a search answers for a defect is the end of a search for it.
pub fn outcome_is_search()
    ensures { OutcomeIsSearch }
{}

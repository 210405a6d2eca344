//! Laws of candidates, each the contract of a function that does nothing.

ghost use Rattle.ca_diag.specs.Laws.{CauseIsCandidate, CandidatesAreOne};

/// The defect of a chip is a candidate by what a tester logs of it, whatever its runs.
pub fn cause_is_candidate()
    ensures { CauseIsCandidate }
{}

/// There is one list of candidates.
pub fn candidates_are_one()
    ensures { CandidatesAreOne }
{}

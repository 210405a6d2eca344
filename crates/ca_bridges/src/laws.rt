//! A law of the definitions, the contract of a function that does nothing.

ghost use Rattle.ca_bridges.specs.Laws.{ShortsJudgeBridges};

/// Good verdicts on the shorts of merged chips are good for the bridges.
pub fn shorts_judge_bridges()
    ensures { ShortsJudgeBridges }
{}

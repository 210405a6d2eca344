//! Laws of replayed runs, each the contract of a function that does nothing.

ghost use Rattle.ca_replay.specs.Laws.{ReplayIsPairRun, ReplayIsUnique};

/// A replayed run is a pair run.
pub fn replay_is_pair_run()
    ensures { ReplayIsPairRun }
{}

/// A replayed run ends in one state.
pub fn replay_is_unique()
    ensures { ReplayIsUnique }
{}

//! The law of what networks of a cell give.

ghost use Rattle.ca_response.specs.Laws.{GivenIsResponse};

/// What is given is what `respond` answers.
pub fn given_is_response()
    ensures { GivenIsResponse }
{}

//! Laws of the definitions, each the contract of a function that does nothing.

ghost use Rattle.ca_parts.specs.Composition.{ResponsesAreLocal, LimitsCompose};
ghost use Rattle.ca_parts.specs.Composition.{LimitsAreGlued, LimitsAreUnique};
ghost use Rattle.ca_parts.specs.Ends.{EndsAreKept, EndsAreUnique};
ghost use Rattle.ca_parts.specs.Rising.{LimitsRise, LimitsExist, SteadyLimits};

/// The limits of a whole are those of its parts.
pub fn limits_compose()
    ensures { LimitsCompose }
{}

/// Limits of the parts that agree are limits of the whole.
pub fn limits_are_glued()
    ensures { LimitsAreGlued }
{}

/// Limits are determined.
pub fn limits_are_unique()
    ensures { LimitsAreUnique }
{}

/// Limits rise with their waves.
pub fn limits_rise()
    ensures { LimitsRise }
{}

/// There are limits.
pub fn limits_exist()
    ensures { LimitsExist }
{}

/// Where every input stays, the last limit is the first.
pub fn steady_limits()
    ensures { SteadyLimits }
{}

/// What every run ends with is kept where more of the inputs is known.
pub fn ends_are_kept()
    ensures { EndsAreKept }
{}

/// No two different values are what every run ends with.
pub fn ends_are_unique()
    ensures { EndsAreUnique }
{}

/// A storage node of a part responds in the whole as it does in the part.
pub fn responses_are_local()
    ensures { ResponsesAreLocal }
{}

//! Laws of the definitions, each the contract of a function that does nothing.

ghost use Rattle.ca_net.specs.Laws.{ScaleIsOrdered, ResponseRises, SomePathIsUnblocked, LastLimitIsEnd};

/// Each number of the scale is below the next.
pub fn scale_is_ordered()
    ensures { ScaleIsOrdered }
{}

/// A state that is above another has responses above that one's.
pub fn response_rises()
    ensures { ResponseRises }
{}

/// To each node some definite path isn't blocked, so that no response holds for lack of paths.
pub fn some_path_is_unblocked()
    ensures { SomePathIsUnblocked }
{}

/// The last limit of a node is 0 or 1 exactly where every pair run ends with it.
pub fn last_limit_is_end()
    ensures { LastLimitIsEnd }
{}

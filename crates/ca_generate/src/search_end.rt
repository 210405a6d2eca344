//! How a search ends.

use ca_code::Code;
use ca_pair::Pair;

/// What a search has found: a pair that shows the defect, that there is none, or neither within the budget,
/// with the code of what it tried.
#[derive(Drop)]
pub enum SearchEnd {
    Found { pair: Pair },
    Exhausted,
    Spent { code: Code },
}

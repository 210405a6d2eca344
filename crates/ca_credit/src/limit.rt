//! A limit of the list of pairs.

/// How many pairs may be listed.
pub const MOST_PAIRS: usize = 65_536;

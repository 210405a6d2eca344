//! The current decisions of a search, and the numbers of the tokens that it has written.

ghost use Rattle.std.specs.Prelude.{◌+◌, ◌*◌, ◌≤◌, vec_capacity};
ghost use Rattle.ca_code.specs.declared.token.TheConstants.{MOST_PATTERN_BITS};

/// How a search ended.
#[derive(Clone, Copy, Debug, PartialEq, Eq)]
pub enum Outcome {
    Found,
    Exhausted,
    Spent,
}

// A bit that is set, first to one value and then to the opposite.
#[derive(Clone, Copy, Debug, PartialEq, Eq)]
pub(crate) struct Decision {
    pub(crate) bit: u16,
    pub(crate) value: bool,
    pub(crate) is_second: bool,
}

// The room of a search, the numbers of the tokens that it has written, and its current decisions, the oldest
// first.
#[derive(Drop, Debug)]
pub(crate) struct Trail {
    pub(crate) budget: u32,
    pub(crate) bits: usize,
    pub(crate) branches: u32,
    pub(crate) numbers: Vec<u16>,
    pub(crate) decisions: Vec<Decision>,
    ghost few: { bits ≤ MOST_PATTERN_BITS },
    ghost numbers_reserved: { 2 * budget + 1 ≤ vec_capacity numbers },
    ghost decisions_reserved: { budget ≤ vec_capacity decisions },
}

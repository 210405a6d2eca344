//! Defects that a log leaves.

ghost use Rattle.std.specs.Prelude.{◌≡◌, ◌<◌, length, slice_get, Some};

use std::marker::Model;

/// A defect that the log doesn't contradict: its place in the list of the chip's defects, and the number of
/// records of the log at which it predicts a fail.
#[derive(Clone, Copy, Debug, PartialEq, Eq)]
pub struct Candidate {
    pub defect: u32,
    pub explained: u32,
}

/// The candidates, in the order of the defects. They stay where they were gathered.
#[derive(Drop, Debug)]
pub struct Candidates {
    list: Vec<Candidate>,
}

impl Model for Candidates {
    ghost use Rattle.std.specs.Prelude.{List};
    ghost use Rattle.ca_diag.specs.declared.candidate.Candidate.{Candidate};

    ghost Value = { List Candidate };

    ghost view = { λ candidates. candidates.list.items };
}

impl Candidates {
    /// Those that were gathered.
    pub(crate) fn of(list: Vec<Candidate>) -> Self
        ensures { result ≡ list.items }
    {
        Candidates { list }
    }

    /// The number of candidates.
    pub fn len(&self) -> usize
        ensures { result ≡ length self.now }
    {
        self.list.len()
    }

    /// The candidate at this place, counted from 0.
    pub fn get(&self, place: usize) -> Candidate
        requires { place < length self.now }
        ensures { slice_get self.now place ≡ Some result }
    {
        self.list[place]
    }

    /// The candidates as a slice.
    pub fn as_slice(&self) -> &[Candidate]
        ensures { result.now ≡ self.now }
    {
        &self.list
    }
}

//! What the searches before this one came to, at the same instance.

use ca_base::NoMemory;
use ca_cell::Rows;
use ca_guide::Proposal;
use std::alloc::Global;

// The most searches of an instance that are kept, and the most proposals of all these.
const MOST_SEARCHES: usize = 64;

const MOST_PROPOSALS: usize = 8192;

// An odd number by which the rows of a defect are mixed.
const MIX: usize = 0x9E37_79B9_7F4A_7C15;

// A search: a number that is mixed of the defect's rows, and the place and number of its proposals.
#[derive(Clone, Copy)]
struct Searched {
    rows: usize,
    first: usize,
    count: usize,
    // whether an attempt came to nothing before it
    was_attempted: bool,
}

/// The searches of defects of one instance, each with what was proposed in it. Where one has found a pair,
/// the pair is credited to each defect with the same rows, so a defect with the rows of an earlier search can
/// expect to come to nothing too. All memory is taken by `reserve`.
#[derive(Drop)]
pub(crate) struct Past {
    part: Option<u32>,
    searches: Vec<Searched>,
    // how many of them there are
    count: usize,
    proposals: Vec<Proposal>,
    // how many of them there are
    proposed: usize,
    // the rows of the defect in hand
    rows: usize,
    // the search with these rows, and how many of its proposals have been made again
    found: Option<usize>,
    repeated: usize,
}

impl Past {
    /// The room.
    pub(crate) fn reserve(alloc: Global) -> Result<Self, NoMemory> {
        let none = Searched {
            rows: 0,
            first: 0,
            count: 0,
            was_attempted: false,
        };
        let free = Proposal {
            bit: 0,
            first: false,
        };
        Ok(Past {
            part: None,
            searches: vec![in alloc; none; MOST_SEARCHES]?,
            count: 0,
            proposals: vec![in alloc; free; MOST_PROPOSALS]?,
            proposed: 0,
            rows: 0,
            found: None,
            repeated: 0,
        })
    }

    /// Turns to a defect of an instance. Searches of another instance are forgotten.
    pub(crate) fn turn_to(&mut self, part: u32, rows: &Rows) {
        if self.part != Some(part) {
            self.part = Some(part);
            self.count = 0;
            self.proposed = 0;
        }
        self.rows = mixed(rows);
        self.begin();
    }

    /// Begins an attempt or a search for the defect in hand.
    pub(crate) fn begin(&mut self) {
        self.repeated = 0;
        self.found = self.search_with(self.rows);
    }

    /// Whether an attempt for a defect with the same rows came to nothing.
    pub(crate) fn is_hopeless(&self) -> bool {
        match self.found {
            Some(place) => match self.searches.get(place) {
                Some(search) => search.was_attempted,
                None => false,
            },
            None => false,
        }
    }

    /// What was proposed next in the search for a defect with the same rows, if there was one.
    pub(crate) fn next(&mut self) -> Option<Proposal> {
        let place = self.found?;
        let search = match self.searches.get(place) {
            Some(search) => *search,
            None => return None,
        };
        if self.repeated >= search.count {
            return None;
        }
        let place = search.first.saturating_add(self.repeated);
        self.repeated = self.repeated.saturating_add(1);
        match self.proposals.get(place) {
            Some(proposal) => Some(*proposal),
            None => None,
        }
    }

    /// Keeps a proposal of the search in hand, if it is the latest one and there is room.
    pub(crate) fn keep(&mut self, proposal: Proposal, was_attempted: bool) {
        if self.found.is_none() {
            self.add(was_attempted);
        }
        let place = match self.found {
            Some(place) => place,
            None => return,
        };
        if place.saturating_add(1) != self.count || place >= self.searches.len() {
            return;
        }
        let end = self.proposed;
        if end < self.proposals.len() && self.repeated == self.searches[place].count {
            self.proposals[end] = proposal;
            self.proposed = end + 1;
            self.repeated = self.repeated.saturating_add(1);
            self.searches[place].count = self.repeated;
        }
    }

    // Adds a search for the defect in hand.
    fn add(&mut self, was_attempted: bool) {
        let count = self.count;
        if count < self.searches.len() {
            self.searches[count] = Searched {
                rows: self.rows,
                first: self.proposed,
                count: 0,
                was_attempted,
            };
            self.count = count + 1;
            self.found = Some(count);
        }
    }

    // The search for a defect with such rows.
    fn search_with(&self, rows: usize) -> Option<usize> {
        for place in 0..self.count {
            if let Some(search) = self.searches.get(place) {
                if search.rows == rows {
                    return Some(place);
                }
            }
        }
        None
    }
}

// A number of a defect's rows. Two lists with the same one may differ: then a proposal is a poor one.
fn mixed(rows: &Rows) -> usize {
    let mut mix = rows.len();
    for place in 0..rows.len() {
        let row = rows.get(place);
        let point = usize::from(row.first) * 256 + usize::from(row.last);
        mix = mix.wrapping_add(point).wrapping_mul(MIX);
        mix ^= mix >> 29;
    }
    mix
}

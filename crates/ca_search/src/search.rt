//! The search, and what is kept of it.

ghost use Rattle.std.specs.Prelude.{◌≡◌, ◌≤◌, IfOk, IsSome};
ghost use Rattle.ca_flat.specs.Codes.{branch_count};
ghost use Rattle.ca_search.specs.Judged.{IsSameAim};
ghost use Rattle.ca_search.specs.Outcome.{IsOutcome};

use crate::judge::Judge;
use crate::trail::{Outcome, Trail};
use ca_base::NoMemory;
use ca_code::Code;
use std::alloc::Global;
use std::marker::Model;

/// The room of a search for a budget of branches, and the code that it wrote. All room is taken by `reserve`.
#[derive(Drop, Debug)]
pub struct Search {
    trail: Trail,
}

impl Model for Search {
    ghost use Rattle.ca_search.specs.Outcome.{Searched};
    ghost use Rattle.ca_search.specs.code.Steps.{searched_of};

    ghost Value = { Searched };

    ghost view = { λ search. searched_of search.trail };
}

impl Search {
    /// Takes the room for a search with at most `budget` branches.
    pub fn reserve(alloc: Global, budget: u32) -> Result<Self, NoMemory>
        ensures { IfOk result (λ search. search.budget ≡ budget) }
    {
        Ok(Search {
            trail: Trail::reserve(alloc, budget)?,
        })
    }

    /// Searches from the pair of which no bit is set. It places at most `budget` branches.
    pub fn find<J: Judge>(&mut self, judge: &mut J) -> Outcome
        requires aimed { IsSome (J.judged judge.old).aim }
        ensures aim { IsSameAim (J.judged judge.old) (J.judged judge.new) }
        ensures budget { self.new.budget ≡ self.old.budget }
        ensures within { branch_count self.new.code ≤ self.new.budget }
        ensures outcome { IsOutcome (J.judged judge.new) self.new.budget self.new.code result }
    {
        self.trail.find(judge)
    }

    /// The code that the search wrote.
    pub fn keep_code(&self, alloc: Global) -> Result<Code, NoMemory>
        ensures { IfOk result (λ code. code ≡ self.now.code) }
    {
        Code::of(alloc, &self.trail.numbers)
    }
}

//! No attempts: for benches that are asked for no search.

ghost use Rattle.std.specs.Prelude.{◌≡◌};

use ca_cell::Rows;
use ca_flat::ChipDefect;
use ca_guide::{Guide, LowestUnset, NetWaves, Step};
use ca_judge::{Aimed, Attempts};
use ca_sim::Sim;
use ca_view::View;
use std::marker::Model;

/// The plainest choice, which attempts nothing, and so needs no waves of its own.
#[derive(Drop)]
pub struct NoAttempts<'a> {
    view: &'a View<'a>,
}

impl<'a> Model for NoAttempts<'a> {
    ghost use Rattle.std.specs.Prelude.{[], None};
    ghost use Rattle.ca_sim.specs.Seen.{Seen};

    ghost Value = { Seen };

    ghost view = { λ none. record {
      chip = none.view.now.core;
      places = none.view.now.ranks;
      aim = None;
      pair = [];
      good = [];
      faulty = [];
    } };
}

impl<'a> NoAttempts<'a> {
    ghost use Rattle.ca_judge.specs.Attempt.{IsTriedOn};

    /// For this chip.
    pub fn new(view: &'a View<'a>) -> Self
        ensures { IsTriedOn view.now.core view.now.ranks result }
    {
        NoAttempts { view }
    }
}

impl Attempts for NoAttempts<'_> {
    ghost tried = { λ none. none };

    fn begin(&mut self) {
        let _ = &self.view;
    }

    fn next<V: NetWaves>(
        &mut self,
        guide: &mut Guide,
        chip: &View,
        waves: &V,
        rows: &Rows,
        defect: ChipDefect,
    ) -> Step {
        let _ = &self.view;
        guide.next(chip, waves, rows, defect, &mut LowestUnset)
    }

    fn try_ways(&mut self, _aimed: &Aimed<'_>, _sim: &mut Sim<'_>, numbers: &mut Vec<u16>) -> bool {
        let _ = &self.view;
        numbers.clear();
        false
    }
}

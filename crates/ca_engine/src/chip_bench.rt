//! The bench of a linked chip.

ghost use Rattle.std.specs.Prelude.{◌≡◌, ◌<◌, ◌^◌, length, IfOk};
ghost use Rattle.ca_engine.specs.ChipTask.{task_of};

use crate::flip_bench::FlipBench;
use crate::pair_bits::PairBits;
use crate::search_end::end_of;
use ca_base::NoMemory;
use ca_chip_defects::{ChipDefects, chip_defects};
use ca_credit::{ByLasts, Simulator};
use ca_flat::ChipDefect;
use ca_flatten::{flat_is_well_formed, judge_size};
use ca_generate::{Bench, SearchEnd};
use ca_judge::Attempts;
use ca_net::Trit;
use ca_pair::Pair;
use ca_places::PlaceSet;
use ca_rows::ExposableDefects;
use ca_search::{Search, outcome_is_search};
use ca_sim::{NetWaves, definite_last_is_end};
use ca_sweep::{DefectSpans, FlipFinder, Seen};
use ca_view::View;
use std::alloc::Global;
use std::marker::Model;

/// The simulator and the guide of a linked chip, the list of its defects, and the room of a search. Memory is
/// taken by `reserve`, and for a code that is kept. It is for rows, a choice and a finder of any type, so
/// that what drops one has few parts to the prover.
#[derive(Drop)]
pub struct ChipBench<'a, R: ExposableDefects, P: Attempts + Drop, F: FlipFinder + Drop> {
    view: &'a View<'a>,
    judge: FlipBench<'a, R, P, F>,
    rows: &'a R,
    defects: DefectSpans<'a>,
    search: Search,
    aim: Option<ChipDefect>,
}

impl<'a, R: ExposableDefects, P: Attempts + Drop, F: FlipFinder + Drop> Model
    for ChipBench<'a, R, P, F> {
    ghost use Rattle.ca_engine.specs.ChipBench.{Benched};
    ghost use Rattle.ca_engine.specs.code.ChipBench.{IsChipBench};

    ghost Value = { Benched };

    ghost view = { λ bench. record {
      chip = bench.judge.seen.chip;
      defects = bench.defects.list;
      budget = bench.search.budget;
      bits = bench.judge.seen.pair;
      aimed = bench.judge.seen.aim;
      code = bench.search.code;
      aims = bench.judge.aimed;
      evaluated = bench.judge.evaluated;
    } };

    ghost invariant = { λ bench. IsChipBench bench.judge.seen.chip bench.judge.seen.places
        bench.judge.seen.aim (R.chip bench.rows.now) bench.defects
        bench.view.now.core.outputs bench.aim };
}

impl<'a, R: ExposableDefects, P: Attempts + Drop, F: FlipFinder + Drop> ChipBench<'a, R, P, F> {
    ghost use Rattle.std.specs.List.{All};
    ghost use Rattle.ca_judge.specs.Attempt.{IsTriedOn};
    ghost use Rattle.ca_sweep.specs.Seen.{IsForChip};
    ghost use Rattle.ca_view.specs.Linked.{IsPlacedDefect, place_in};
    ghost use Rattle.ca_engine.specs.ChipBench.{IsUnused, task_in};

    /// The bench of a linked chip with a finder of it. Its task is to search for each defect of a library
    /// instance, with at most `budget` branches. No bit is set, and no defect is aimed at. Also answers out
    /// of memory for a chip with 2^32 observed outputs, with 2^32 defects or whose flat network may have 2^32
    /// nodes or devices.
    pub fn reserve(
        alloc: Global,
        view: &'a View<'a>,
        rows: &'a R,
        choice: P,
        finder: F,
        budget: u32,
    ) -> Result<Self, NoMemory>
        requires rows { R.chip rows.now ≡ view.now.core }
        requires choice { IsTriedOn view.now.core view.now.ranks (P.tried choice) }
        requires finder { IsForChip view.now.core view.now.ranks (F.loaded finder) }
        ensures task { IfOk result (λ bench. task_in bench ≡ task_of view.now.chip budget) }
        ensures few { IfOk result (λ bench. length bench.defects < 2 ^ 32) }
        ensures unused { IfOk result IsUnused }
    {
        view.viewed();
        let defects = chip_defects(alloc, view)?;
        let bench = ChipBench::reserve_for(alloc, view, rows, choice, finder, defects, budget)?;
        Ok(bench)
    }

    /// The same for these defects of library instances alone, in this order.
    #[tactic(auto, using(crate::proofs::CoreLemmas::core_can_be_judged))]
    pub fn reserve_for(
        alloc: Global,
        view: &'a View<'a>,
        rows: &'a R,
        choice: P,
        finder: F,
        defects: ChipDefects,
        budget: u32,
    ) -> Result<Self, NoMemory>
        requires rows { R.chip rows.now ≡ view.now.core }
        requires choice { IsTriedOn view.now.core view.now.ranks (P.tried choice) }
        requires finder { IsForChip view.now.core view.now.ranks (F.loaded finder) }
        requires placed { All (IsPlacedDefect view.now.core (place_in view.now.ranks)) defects }

        ensures chip { IfOk result (λ bench. bench.chip ≡ view.now.core) }
        ensures defects { IfOk result (λ bench. bench.defects ≡ defects) }
        ensures budget { IfOk result (λ bench. bench.budget ≡ budget) }
        ensures few { IfOk result (λ bench. length bench.defects < 2 ^ 32) }
        ensures unused { IfOk result IsUnused }
    {
        view.viewed();
        view.linked();
        flat_is_well_formed();
        judge_size(alloc, view.chip())?;
        // The largest comes last: each that is there when memory runs out is dropped once more.
        if view.output_count() > u32::MAX as usize || defects.len() > u32::MAX as usize {
            return Err(NoMemory);
        }
        let defects = DefectSpans::new(alloc, view, defects)?;
        let search = Search::reserve(alloc, budget)?;
        let judge = FlipBench::reserve(alloc, view, rows, choice, finder)?;
        Ok(ChipBench {
            view,
            judge,
            rows,
            defects,
            search,
            aim: None,
        })
    }

    /// How often was aimed at a defect or at none since `reserve`, up to the type's greatest value.
    pub fn aim_count(&self) -> u64
        ensures { result ≡ self.now.aims }
    {
        self.judge.aimed()
    }

    /// How often an instance was evaluated since `reserve`, up to the type's greatest value.
    pub fn evaluation_count(&self) -> u64
        ensures { result ≡ self.now.evaluated }
    {
        self.judge.evaluated()
    }
}

impl<R: ExposableDefects, P: Attempts + Drop, F: FlipFinder + Drop> Simulator
    for ChipBench<'_, R, P, F> {
    ghost use Rattle.ca_engine.specs.ChipBench.{task_in};

    ghost task = { λ bench. task_in bench };

    ghost bits = { λ bench. bench.bits };

    ghost aimed = { λ bench. bench.aimed };

    ghost aimed_in = { λ bench. bench.chip };

    ghost aims = { λ bench. bench.aims };

    fn defect_count(&self) -> usize {
        self.defects.len()
    }

    fn output_count(&self) -> u32 {
        self.view.output_count() as u32
    }

    #[tactic(auto, using(crate::proofs::BenchLemmas::bench_loads, crate::proofs::PairLemmas::count_of_trits))]
    fn load(&mut self, pair: &Pair) {
        self.judge.exact();
        self.judge.load(&PairBits { pair });
    }

    fn by_lasts(&mut self, place: usize) -> ByLasts {
        match self.judge.by_lasts(self.defects.get(place), place) {
            Seen::Undecided => ByLasts::Undecided,
            Seen::Nowhere => ByLasts::Nowhere,
            Seen::At(output) => ByLasts::At(output),
        }
    }

    fn next_to_try(&mut self, places: &PlaceSet, from: usize) -> Option<usize> {
        self.judge.next_to_try(&self.defects, places, from)
    }

    #[tactic(auto, using(crate::proofs::PairLemmas::count_of_trits))]
    fn keep(&mut self, lane: usize, pair: &Pair) {
        self.judge.keep(lane, &PairBits { pair });
    }

    fn turn_to(&mut self, lane: usize) {
        self.judge.turn_to(lane);
    }

    fn may_detect(&self, place: usize) -> bool {
        self.judge.may_show(self.defects.get(place))
    }

    #[tactic(auto, using(crate::proofs::BenchLemmas::bench_aims))]
    fn aim(&mut self, place: usize) {
        let defect = self.defects.get(place);
        self.judge.aim(Some(defect));
        self.aim = Some(defect);
    }

    fn shares_instance(&self, place: usize) -> bool {
        match self.aim {
            Some(aim) => self.defects.get(place).instance == aim.instance,
            None => false,
        }
    }

    fn is_alike(&mut self, place: usize) -> bool {
        definite_last_is_end();
        self.judge.exact();
        self.judge.is_alike(self.defects.get(place))
    }

    #[tactic(auto, using(crate::proofs::BenchLemmas::bench_aims))]
    fn aim_at_none(&mut self) {
        self.judge.aim(None);
        self.aim = None;
    }

    fn good_end(&self, output: u32) -> Trit {
        definite_last_is_end();
        self.judge.exact();
        self.judge.good(self.view.output(output as usize)).last
    }

    fn faulty_end(&self, output: u32) -> Trit {
        definite_last_is_end();
        self.judge.exact();
        self.judge.faulty(self.view.output(output as usize)).last
    }
}

impl<R: ExposableDefects, P: Attempts + Drop, F: FlipFinder + Drop> Bench
    for ChipBench<'_, R, P, F> {
    fn is_exposable(&self, place: usize) -> bool {
        self.rows.is_exposable(self.defects.get(place))
    }

    fn find(&mut self, alloc: Global) -> Result<SearchEnd, NoMemory> {
        outcome_is_search();
        if self.aim.is_none() {
            return Ok(SearchEnd::Exhausted);
        }
        let outcome = self.search.find(&mut self.judge);
        end_of(alloc, &self.judge, &self.search, outcome)
    }
}

//! The tests of pairs that the check of a certificate asks for.

ghost use Rattle.std.specs.Prelude.{◌≡◌, IfOk};
ghost use Rattle.ca_view.specs.Linked.{IsPlacedDefect, place_in};
ghost use Rattle.ca_cert.specs.Tested.{IsDetectingOutput};
ghost use Rattle.ca_examiner.specs.code.ChipExaminer.{KeepsBits};

use crate::chip_examiner::ChipExaminer;
use crate::detect::{detecting_output, may_show};
use crate::pair_bits::PairBits;
use ca_base::{List, NoMemory};
use ca_cert::Tester;
use ca_flat::{ChipDefect, ExposableDefects};
use ca_pair::Pair;
use ca_places::PlaceSet;
use ca_sim::NetWaves;
use ca_sweep::{DefectSpans, FlipFinder, Seen};
use ca_view::View;
use std::alloc::Global;

// The same defects as a list.
fn list_of(alloc: Global, defects: &[ChipDefect]) -> Result<List<ChipDefect>, NoMemory>
    ensures { IfOk result (λ list. list ≡ defects.now) }
{
    let mut list = List::with_room(alloc, defects.len())?;
    for defect in defects {
        list.push(*defect)?;
    }
    Ok(list)
}

impl<R: ExposableDefects, F: FlipFinder + Drop> ChipExaminer<'_, R, F> {
    // Where the bits that are set first detect the defect, by the waves of the chip with it. Afterwards none
    // is aimed at.
    fn look_by_waves(&mut self, defect: ChipDefect) -> Option<u32>
        requires { IsPlacedDefect self.old.seen.chip (place_in self.old.seen.places) defect }
        ensures look { IsDetectingOutput self.old.seen.chip defect self.old.seen.pair result }
        ensures kept { KeepsBits self.old self.new }
    {
        if !may_show(self.chip, &self.sim, self.rows.rows(defect), defect) {
            return None;
        }
        self.defect = None;
        self.sim.aim(Some(defect));
        let output = detecting_output(self.chip, &self.sim, &self.outputs, defect);
        self.sim.aim(None);
        output
    }
}

impl<R: ExposableDefects, F: FlipFinder + Drop> Tester for ChipExaminer<'_, R, F> {
    ghost listed = { λ examiner. examiner.listed };

    fn aim(&mut self, defect: ChipDefect) {
        self.aim_at(defect);
    }

    fn list(&mut self, alloc: Global, defects: &[ChipDefect]) -> Result<(), NoMemory> {
        let list = list_of(alloc, defects)?;
        self.defects = DefectSpans::new(alloc, self.chip, list)?;
        Ok(())
    }

    fn load(&mut self, pair: &Pair) {
        self.sim.exact();
        self.sim.load(&PairBits { pair });
    }

    fn keep(&mut self, lane: usize, pair: &Pair) {
        self.sim.keep(lane, &PairBits { pair });
    }

    fn turn_to(&mut self, lane: usize) {
        self.sim.turn_to(lane);
    }

    fn next(&mut self, places: &PlaceSet, from: usize) -> Option<usize> {
        self.sim.next(&self.defects, places, from)
    }

    fn look(&mut self, place: usize) -> Option<u32> {
        let defect = self.defects.get(place);
        match self.sim.by_lasts(defect, place) {
            Seen::At(output) => Some(output),
            Seen::Nowhere => None,
            Seen::Undecided => self.look_by_waves(defect),
        }
    }

    fn is_exposable(&self, defect: ChipDefect) -> bool {
        self.rows.is_exposable(defect)
    }
}

//! The examiner of codes over the simulator of a chip.

ghost use Rattle.std.specs.Prelude.{◌≡◌, ◌<◌, ◌^◌, length, IfOk};
ghost use Rattle.ca_sweep.specs.Seen.{IsForChip};
ghost use Rattle.ca_examiner.specs.ChipExaminer.{AreNetworks, IsFreshExaminer};

use crate::flip_sim::FlipSim;
use crate::leave::{may_branch, may_go_on, may_leave};
use crate::order::order_of;
use crate::support::mark_leading;
use ca_base::{List, NoMemory};
use ca_flat::{ChipDefect, ExposableDefects};
use ca_read_code::Examiner;
use ca_sim::NetWaves;
use ca_sweep::{DefectSpans, FlipFinder};
use ca_view::View;
use std::alloc::Global;
use std::marker::Model;

/// A simulator of a chip with a finder, the list of defects that was taken over, and the marks of nets by
/// which is seen what may stand at a partial pair. It is for a finder of any type, so that what drops one has
/// few parts to the prover.
#[derive(Drop)]
pub struct ChipExaminer<'a, R: ExposableDefects, F: FlipFinder + Drop> {
    pub(crate) sim: FlipSim<'a, F>,
    pub(crate) chip: &'a View<'a>,
    pub(crate) rows: &'a R,
    pub(crate) defects: DefectSpans<'a>,
    // the observed nets
    pub(crate) outputs: Vec<u32>,
    // the instance at each place of the order
    order: Vec<Option<u32>>,
    // marks of all nets, of the open ones, of those that were reached, and of those that lead to outputs
    all_nets: Vec<bool>,
    open_nets: Vec<bool>,
    marks: Vec<bool>,
    leading: Vec<bool>,
    pub(crate) defect: Option<ChipDefect>,
}

impl<'a, R: ExposableDefects, F: FlipFinder + Drop> Model for ChipExaminer<'a, R, F> {
    ghost use Rattle.std.specs.Prelude.{◌≡◌};
    ghost use Rattle.ca_view.specs.Linked.{place_in};
    ghost use Rattle.ca_examiner.specs.ChipExaminer.{Examining};
    ghost use Rattle.ca_examiner.specs.code.ChipExaminer.{IsChipExaminer, IsListing};

    ghost Value = { Examining };

    ghost view = { λ own. record { seen = own.sim.seen; listed = own.defects.list } };

    ghost invariant = { λ own. (own.sim.seen.chip ≡ own.chip.now.core)
        × (own.sim.seen.places ≡ own.chip.now.ranks)
        × IsChipExaminer (own.chip.now.core) (place_in (own.chip.now.ranks)) own.sim.seen.aim
        (R.chip own.rows.now) own.outputs.items own.order.items own.all_nets.items
        own.open_nets.items own.marks.items own.leading.items own.defect
        × IsListing (own.chip.now.core) (place_in (own.chip.now.ranks)) own.defects };
}

impl<'a, R: ExposableDefects, F: FlipFinder + Drop> ChipExaminer<'a, R, F> {
    /// An examiner of the chip, whose observed nets these are, with a finder of it. No bit is set, no defect
    /// is aimed at, and the list of defects is empty.
    pub fn new(
        alloc: Global,
        chip: &'a View<'a>,
        rows: &'a R,
        finder: F,
        outputs: Vec<u32>,
    ) -> Result<Self, NoMemory>
        requires networks { AreNetworks chip.now.core }
        requires rows { R.chip rows.now ≡ chip.now.core }
        requires finder { IsForChip chip.now.core chip.now.ranks (F.loaded finder) }
        requires outputs { outputs.items ≡ chip.now.core.outputs }
        requires few { length outputs.items < 2 ^ 32 }
        ensures { IfOk result (IsFreshExaminer chip.now.core chip.now.ranks) }
    {
        let nets = chip.nets();
        let defects = DefectSpans::new(alloc, chip, List::new(alloc))?;
        Ok(ChipExaminer {
            sim: FlipSim::reserve(alloc, chip, finder)?,
            chip,
            rows,
            defects,
            outputs,
            order: order_of(alloc, chip)?,
            all_nets: vec![in alloc; true; nets]?,
            open_nets: vec![in alloc; false; nets]?,
            marks: vec![in alloc; false; nets]?,
            leading: vec![in alloc; false; nets]?,
            defect: None,
        })
    }

    /// Aims at a defect, and marks the nets that its code asks for. The bits stay.
    pub(crate) fn aim_at(&mut self, defect: ChipDefect)
        requires { IsPlacedDefect self.old.seen.chip (place_in self.old.seen.places) defect }
        ensures aim { self.new.seen.aim ≡ Some defect }
        ensures kept { KeepsBits self.old self.new }
    {
        mark_leading(
            &mut self.leading,
            &mut self.marks,
            &self.all_nets,
            self.chip,
            &self.order,
            &self.outputs,
            defect.instance as usize,
        );
        self.sim.aim(Some(defect));
        self.defect = Some(defect);
    }
}

ghost use Rattle.std.specs.Prelude.{Some};
ghost use Rattle.ca_view.specs.Linked.{IsPlacedDefect, place_in};
ghost use Rattle.ca_examiner.specs.code.ChipExaminer.{KeepsBits};

impl<R: ExposableDefects, F: FlipFinder + Drop> Examiner for ChipExaminer<'_, R, F> {
    ghost use Rattle.ca_examiner.specs.ChipExaminer.{examined_of};

    ghost examined = { λ examiner. examined_of examiner.seen };

    fn clear(&mut self) {
        self.sim.clear();
    }

    fn set(&mut self, bit: u16, value: Option<bool>) {
        self.sim.exact();
        self.sim.set(bit, value);
    }

    fn may_leave(&mut self) -> bool {
        let Some(defect) = self.defect else {
            return false;
        };
        may_leave(
            &mut self.open_nets,
            &mut self.marks,
            self.chip,
            &self.sim,
            &self.order,
            &self.outputs,
            &self.leading,
            self.rows.rows(defect),
            defect,
        )
    }

    fn may_branch(&self, bit: u16) -> bool {
        let Some(defect) = self.defect else {
            return false;
        };
        may_branch(
            self.chip,
            &self.sim,
            &self.outputs,
            &self.leading,
            bit as usize,
            defect,
        )
    }

    fn may_go_on(&self) -> bool {
        let Some(defect) = self.defect else {
            return false;
        };
        may_go_on(self.chip, &self.sim, &self.outputs, &self.leading, defect)
    }
}

//! The defects of a linked chip, as rows of a report.

ghost use Rattle.std.specs.Prelude.{◌≡◌, ◌<◌, length, slice_get, Some, IfOk};
ghost use Rattle.ca_cell.specs.Name.{name_of};
ghost use Rattle.ca_flat.specs.Chip.{cell_at};
ghost use Rattle.ca_view.specs.Core.{core_of};
ghost use Rattle.ca_chip_report.specs.ChipReport.{reported_of, instance_name, cell_name, IsGateDefect};
ghost use Rattle.ca_chip_report.specs.Grades.{reported_grade};
ghost use Rattle.ca_chip_report.specs.Found.{found_of};
ghost use Rattle.ca_chip_report.specs.code.Rows.{AreRows};
ghost use Rattle.ca_chip_report.specs.code.Kept.{AreRows-prop};

use ca_base::NoMemory;
use ca_credit::{Verdict, Verdicts};
use ca_flat::ChipDefect;
use ca_grade::{Grade, Grades};
use ca_lex::Text;
use ca_linked::{Chip, InstanceId};
use ca_report::ReportRows;
use std::alloc::Global;

/// The name of a defect's instance, as the netlist spells it.
#[tactic(auto, using(crate::proofs::RowLemmas::gate_within, crate::proofs::RowLemmas::name_reported))]
pub fn instance_of(chip: &Chip, defect: ChipDefect) -> &[u8]
    requires { IsGateDefect chip.now defect }
    ensures { instance_name (slice_get chip.now.parts defect.instance) ≡ result.now }
{
    chip.instance_name(InstanceId(defect.instance)).as_bytes()
}

/// The name of its cell, in upper case.
#[tactic(auto, using(crate::proofs::RowLemmas::gate_within, crate::proofs::RowLemmas::cell_reported))]
pub fn cell_of(chip: &Chip, defect: ChipDefect) -> &[u8]
    requires { IsGateDefect chip.now defect }
    ensures { cell_name (slice_get chip.now.parts defect.instance) ≡ result.now }
{
    chip.cell_name(InstanceId(defect.instance)).as_bytes()
}

/// Its name in the cell.
pub fn name_of(alloc: Global, chip: &Chip, defect: ChipDefect) -> Result<Text, NoMemory>
    requires { IsGateDefect chip.now defect }
    ensures { IfOk result (λ name.
        name_of (cell_at (core_of chip.now) defect.instance) defect.defect ≡ name) }
{
    let cell = chip.cell_of(InstanceId(defect.instance));
    ca_cell::defect_name(alloc, cell, defect.defect)
}

// The verdict in a report.
fn reported_of(verdict: &Verdict) -> ca_report::Verdict
    ensures { reported_of verdict.now ≡ result }
{
    match verdict {
        Verdict::Credited { pair, output } => ca_report::Verdict::Credited {
            pair: *pair,
            output: *output,
        },
        Verdict::Unexposable => ca_report::Verdict::Unexposable,
        Verdict::Untestable => ca_report::Verdict::Untestable,
        Verdict::Aborted { .. } => ca_report::Verdict::Aborted,
    }
}

// The grade in a report.
fn reported_grade(grade: Grade) -> ca_report::Verdict
    ensures { reported_grade grade ≡ result }
{
    match grade {
        Grade::Credited { pair, output } => ca_report::Verdict::Credited { pair, output },
        Grade::Unexposable => ca_report::Verdict::Unexposable,
        Grade::Uncredited => ca_report::Verdict::Uncredited,
    }
}

/// What was found of the defects of a chip.
#[derive(Clone, Copy)]
pub(crate) enum Found<'a> {
    Verdicts(&'a Verdicts),
    Grades(&'a Grades),
}

// What is reported of the defect at a place.
fn found_at(found: Found<'_>, k: usize) -> ca_report::Verdict
    requires { k < length (found_of found) }
    ensures { slice_get (found_of found.entry) k ≡ Some result }
{
    match found {
        Found::Verdicts(verdicts) => reported_of(verdicts.get(k)),
        Found::Grades(grades) => reported_grade(grades.get(k)),
    }
}

// The defect at a place.
fn defect_at(defects: &[ChipDefect], k: usize) -> ChipDefect
    requires { k < length defects.now }
    ensures { slice_get defects.now k ≡ Some result }
{
    defects[k]
}

/// The defects of a chip with what was found of them. No name is copied before its row is written.
#[derive(Clone, Copy)]
pub(crate) struct ChipRows<'a> {
    pub(crate) chip: &'a Chip,
    pub(crate) defects: &'a [ChipDefect],
    pub(crate) found: Found<'a>,
    ghost reported: { AreRows chip.now defects.now (found_of found) } by { AreRows-prop _ _ _ },
}

impl ReportRows for ChipRows<'_> {
    ghost use Rattle.ca_chip_report.specs.ChipReport.{rows_of};
    ghost use Rattle.ca_chip_report.specs.Found.{found_of};

    ghost rows = { λ rows. rows_of rows.chip.now rows.defects.now (found_of rows.found) };

    fn len(&self) -> usize {
        self.defects.len()
    }

    fn instance(&self, k: usize) -> &[u8] {
        instance_of(self.chip, defect_at(self.defects, k))
    }

    fn cell(&self, k: usize) -> &[u8] {
        cell_of(self.chip, defect_at(self.defects, k))
    }

    fn defect(&self, alloc: Global, k: usize) -> Result<Text, NoMemory> {
        let name = name_of(alloc, self.chip, defect_at(self.defects, k))?;
        Ok(name)
    }

    fn verdict(&self, k: usize) -> ca_report::Verdict {
        found_at(self.found, k)
    }
}

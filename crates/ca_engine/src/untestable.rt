//! Defects of a linked chip of which is known, before any search or after all, that no pair detects them.

ghost use Rattle.std.specs.Prelude.{ℕ, ◌≡◌, IfOk};
ghost use Rattle.std.specs.List.{All};
ghost use Rattle.ca_flat.specs.Chip.{IsDefectIn};
ghost use Rattle.ca_judge.specs.ChipJudge.{CanBeJudged};
ghost use Rattle.ca_generate.specs.Known.{AreUntestable};
ghost use Rattle.ca_engine.specs.ChipTask.{task_of};
ghost use Rattle.ca_engine.specs.code.Untestable.{AreMarked};

use ca_base::NoMemory;
use ca_cell::Rows;
use ca_chip_defects::{ChipDefects, chip_defects};
use ca_credit::{Verdict, Verdicts};
use ca_every_vector::EveryVector;
use ca_flat::ExposingRows;
use ca_flatten::{flat_is_well_formed, judge_size};
use ca_view::View;
use std::alloc::Global;

/// For each defect of a chip's library instances whether it is known that no pair of the chip detects it: all
/// vectors of the chip are tried, or those of its regions, if they have too many bits.
pub(crate) fn untestable_marks<R: ExposingRows>(
    alloc: Global,
    view: &View<'_>,
    rows: &R,
) -> Result<Vec<bool>, NoMemory>
    requires { R.chip rows.now ≡ view.now.core }
    ensures { IfOk result (λ marks. (budget : ℕ)
        → AreUntestable (task_of view.now.chip budget) marks.items) }
{
    view.viewed();
    flat_is_well_formed();
    judge_size(alloc, view.chip())?;
    let defects = chip_defects(alloc, view)?;
    let table = EveryVector::new(alloc, view)?;
    marks_of(alloc, &table, rows, &defects)
}

/// For each defect of a chip's library instances whether it is known that no pair of the chip detects it, of
/// those that were aborted and some others: all vectors of their instances' regions are tried.
pub(crate) fn marks_after<R: ExposingRows>(
    alloc: Global,
    view: &View<'_>,
    rows: &R,
    verdicts: &Verdicts,
) -> Result<Vec<bool>, NoMemory>
    requires { R.chip rows.now ≡ view.now.core }
    ensures { IfOk result (λ marks. (budget : ℕ)
        → AreUntestable (task_of view.now.chip budget) marks.items) }
{
    view.viewed();
    flat_is_well_formed();
    judge_size(alloc, view.chip())?;
    let defects = chip_defects(alloc, view)?;
    let wanted = wanted_lasts(alloc, view, rows, &defects, verdicts)?;
    let table = EveryVector::of_wanted(alloc, view, &wanted)?;
    marks_of(alloc, &table, rows, &defects)
}

// For each instance the last vectors of the rows that expose its aborted defects.
fn wanted_lasts<R: ExposingRows>(
    alloc: Global,
    view: &View<'_>,
    rows: &R,
    defects: &ChipDefects,
    verdicts: &Verdicts,
) -> Result<Vec<u64>, NoMemory>
    requires rows { R.chip rows.now ≡ view.now.core }
    requires defects { All (IsDefectIn (R.chip rows.now)) defects.now }
{
    let mut wanted = vec![in alloc; 0u64; view.instances()]?;
    for place in 0..defects.len() {
        if is_aborted(verdicts, place) {
            let defect = defects.get(place);
            add_lasts(&mut wanted, defect.instance as usize, rows.rows(defect));
        }
    }
    Ok(wanted)
}

// Whether the defect at a place was aborted.
fn is_aborted(verdicts: &Verdicts, place: usize) -> bool {
    if place >= verdicts.len() {
        return false;
    }
    match verdicts.get(place) {
        Verdict::Aborted { code: _ } => true,
        Verdict::Credited { pair: _, output: _ } | Verdict::Unexposable | Verdict::Untestable =>
            false,
    }
}

// Adds the last vectors of rows to the word of an instance.
fn add_lasts(wanted: &mut [u64], u: usize, rows: &Rows) {
    if u >= wanted.len() {
        return;
    }
    for place in 0..rows.len() {
        let last = rows.get(place).last;
        if last < 64 {
            wanted[u] |= 1 << last;
        }
    }
}

// For each defect of a list whether the table shows that no pair detects it.
fn marks_of<R: ExposingRows>(
    alloc: Global,
    table: &EveryVector<'_>,
    rows: &R,
    defects: &ChipDefects,
) -> Result<Vec<bool>, NoMemory>
    requires table { table.now ≡ R.chip rows.now }
    requires defects { All (IsDefectIn (R.chip rows.now)) defects.now }
    requires judged { CanBeJudged (R.chip rows.now) }
    ensures { IfOk result (λ marks. AreMarked (R.chip rows.now) defects.now marks.items) }
{
    let mut marks = Vec::new(alloc);
    for place in 0..defects.len() {
        let defect = defects.get(place);
        marks.push(table.is_untestable(defect, rows.rows(defect)))?;
    }
    Ok(marks)
}

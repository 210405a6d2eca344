//! The grades of a linked chip's defects by given pairs.

ghost use Rattle.std.specs.Prelude.{◌≡◌, ◌<◌, ◌^◌, length, IfOk, IfErr};
ghost use Rattle.std.specs.List.{All};
ghost use Rattle.ca_chip_stil.specs.ChipStil.{AreOfChip};
ghost use Rattle.ca_view.specs.Core.{core_of};
ghost use Rattle.ca_engine.specs.ChipTask.{task_of};
ghost use Rattle.ca_expected.specs.Expected.{AreExpected};
ghost use Rattle.ca_flat.specs.Pair.{bit_count};
ghost use Rattle.ca_grade.specs.GradeFault.{IsCause};
ghost use Rattle.ca_grade.specs.Graded.{AreGraded};
ghost use Rattle.ca_judge.specs.Attempt.{IsTriedOn};
ghost use Rattle.ca_sweep.specs.Seen.{IsForChip};

use ca_base::List;
use ca_engine::{ChipBench, NoAttempts, reserve_laned};
use ca_generate::Watch;
use ca_grade::{GradeFault, Grades, grade_judged};
use ca_judge::Attempts;
use ca_linked::Chip;
use ca_net::Trit;
use ca_pair::Pair;
use ca_rows::{ChipRows, ExposableDefects};
use ca_scan::Chains;
use ca_sweep::FlipFinder;
use ca_view::View;
use std::alloc::Global;

// The grades by rows, a choice and a finder of any type: so the bench that is dropped here has few parts to
// the prover.
fn graded_by<R: ExposableDefects, P: Attempts + Drop, F: FlipFinder + Drop, T: Watch>(
    alloc: Global,
    view: &View<'_>,
    rows: &R,
    choice: P,
    finder: F,
    pairs: &[Pair],
    expected: &[List<Trit>],
    watch: &mut T,
) -> Result<Grades, GradeFault>
    requires rows { R.chip rows.now ≡ view.now.core }
    requires choice { IsTriedOn view.now.core view.now.ranks (P.tried choice) }
    requires finder { IsForChip view.now.core view.now.ranks (F.loaded finder) }
    requires numbers { length pairs.now < 2 ^ 32 }
    requires bits { All (λ pair. length pair ≡ bit_count (core_of view.now.chip)) pairs.now }
    requires counted { length pairs.now ≡ length expected.now }
    requires values { All (λ values. length values ≡ length (core_of view.now.chip).outputs) expected.now }
    ensures graded { IfOk result (AreGraded (task_of view.now.chip 0) pairs.now) }
    ensures expected { IfOk result (λ grades. AreExpected (core_of view.now.chip) pairs.now expected.now) }
    ensures cause { IfErr result (IsCause (core_of view.now.chip) pairs.now expected.now) }
{
    let mut bench = ChipBench::reserve(alloc, view, rows, choice, finder, 0)?;
    let graded = grade_judged(alloc, &mut bench, pairs, expected, watch);
    drop(bench);
    graded
}

// The same with a finder that has lanes.
fn graded_laned<R: ExposableDefects, T: Watch>(
    alloc: Global,
    view: &View<'_>,
    rows: &R,
    pairs: &[Pair],
    expected: &[List<Trit>],
    watch: &mut T,
) -> Result<Grades, GradeFault>
    requires rows { R.chip rows.now ≡ view.now.core }
    requires numbers { length pairs.now < 2 ^ 32 }
    requires bits { All (λ pair. length pair ≡ bit_count (core_of view.now.chip)) pairs.now }
    requires counted { length pairs.now ≡ length expected.now }
    requires values { All (λ values. length values ≡ length (core_of view.now.chip).outputs) expected.now }
    ensures graded { IfOk result (AreGraded (task_of view.now.chip 0) pairs.now) }
    ensures expected { IfOk result (λ grades. AreExpected (core_of view.now.chip) pairs.now expected.now) }
    ensures cause { IfErr result (IsCause (core_of view.now.chip) pairs.now expected.now) }
{
    let lanes = reserve_laned(alloc, view)?;
    graded_by(
        alloc,
        view,
        rows,
        NoAttempts::new(view),
        lanes,
        pairs,
        expected,
        watch,
    )
}

// The same over the chip's view. Each value is dropped in one place here and below: more places are slow to
// prove.
fn graded_over<T: Watch>(
    alloc: Global,
    view: &View<'_>,
    pairs: &[Pair],
    expected: &[List<Trit>],
    watch: &mut T,
) -> Result<Grades, GradeFault>
    requires numbers { length pairs.now < 2 ^ 32 }
    requires bits { All (λ pair. length pair ≡ bit_count (core_of view.now.chip)) pairs.now }
    requires counted { length pairs.now ≡ length expected.now }
    requires values { All (λ values. length values ≡ length (core_of view.now.chip).outputs) expected.now }
    ensures graded { IfOk result (AreGraded (task_of view.now.chip 0) pairs.now) }
    ensures expected { IfOk result (λ grades. AreExpected (core_of view.now.chip) pairs.now expected.now) }
    ensures cause { IfErr result (IsCause (core_of view.now.chip) pairs.now expected.now) }
{
    view.viewed();
    let rows = ChipRows::new(alloc, view.chip())?;
    let graded = graded_laned(alloc, view, &rows, pairs, expected, watch);
    drop(rows);
    graded
}

/// A grade for each defect of a linked chip's library instances by the pairs, after all expected values were
/// found to be right. The watch is notified after each block of 256 pairs. Also answers out of memory for a
/// chip with 2^32 observed outputs, with 2^32 defects or whose flat network may have 2^32 nodes or devices.
#[tactic(auto, using(crate::proofs::FitLemmas::bits_fit, crate::proofs::FitLemmas::values_fit))]
pub fn grade_chip<T: Watch>(
    alloc: Global,
    chip: &Chip,
    chains: &Chains,
    pairs: &[Pair],
    expected: &[List<Trit>],
    watch: &mut T,
) -> Result<Grades, GradeFault>
    requires numbers { length pairs.now < 2 ^ 32 }
    requires of { AreOfChip chip.now chains.now pairs.now expected.now }
    ensures graded { IfOk result (AreGraded (task_of chip.now 0) pairs.now) }
    ensures expected { IfOk result (λ grades. AreExpected (core_of chip.now) pairs.now expected.now) }
    ensures cause { IfErr result (IsCause (core_of chip.now) pairs.now expected.now) }
{
    let _ = chains;
    let view = View::new(alloc, chip)?;
    let graded = graded_over(alloc, &view, pairs, expected, watch);
    drop(view);
    graded
}

//! The candidates of a linked chip.

ghost use Rattle.ca_judge.specs.Attempt.{IsTriedOn};
ghost use Rattle.ca_sweep.specs.Seen.{IsForChip};
ghost use Rattle.std.specs.Prelude.{◌≡◌, IfOk};
ghost use Rattle.ca_chip_diag.specs.Diagnosed.{CanBeDiagnosed};
ghost use Rattle.ca_diag.specs.Candidates.{AreCandidates};
ghost use Rattle.ca_engine.specs.ChipTask.{task_of};

use ca_base::NoMemory;
use ca_diag::{Candidates, diagnose};
use ca_engine::{ChipBench, NoAttempts, reserve_finder};
use ca_generate::Watch;
use ca_judge::Attempts;
use ca_linked::Chip;
use ca_log::Log;
use ca_pair::Pair;
use ca_rows::{ChipRows, ExposableDefects};
use ca_sweep::FlipFinder;
use ca_view::View;
use std::alloc::Global;

// The candidates by rows, a choice and a finder of any type: so the bench that is dropped here has few parts
// to the prover.
fn diagnosed_by<R: ExposableDefects, P: Attempts + Drop, F: FlipFinder + Drop, T: Watch>(
    alloc: Global,
    view: &View<'_>,
    rows: &R,
    choice: P,
    finder: F,
    pairs: &[Pair],
    log: &Log,
    watch: &mut T,
) -> Result<Candidates, NoMemory>
    requires rows { R.chip rows.now ≡ view.now.core }
    requires choice { IsTriedOn view.now.core view.now.ranks (P.tried choice) }
    requires finder { IsForChip view.now.core view.now.ranks (F.loaded finder) }
    requires log { CanBeDiagnosed view.now.chip pairs.now log.now }
    ensures { IfOk result (AreCandidates (task_of view.now.chip 0) pairs.now log.now) }
{
    let mut bench = ChipBench::reserve(alloc, view, rows, choice, finder, 0)?;
    let candidates = diagnose(alloc, &mut bench, pairs, log, watch);
    drop(bench);
    candidates
}

// The same with a finder.
fn diagnosed_found<R: ExposableDefects, T: Watch>(
    alloc: Global,
    view: &View<'_>,
    rows: &R,
    pairs: &[Pair],
    log: &Log,
    watch: &mut T,
) -> Result<Candidates, NoMemory>
    requires rows { R.chip rows.now ≡ view.now.core }
    requires log { CanBeDiagnosed view.now.chip pairs.now log.now }
    ensures { IfOk result (AreCandidates (task_of view.now.chip 0) pairs.now log.now) }
{
    let finder = reserve_finder(alloc, view)?;
    diagnosed_by(
        alloc,
        view,
        rows,
        NoAttempts::new(view),
        finder,
        pairs,
        log,
        watch,
    )
}

// The same over the chip's view. Each value is dropped in one place here and below: more places are slow to
// prove.
fn diagnosed_over<T: Watch>(
    alloc: Global,
    view: &View<'_>,
    pairs: &[Pair],
    log: &Log,
    watch: &mut T,
) -> Result<Candidates, NoMemory>
    requires { CanBeDiagnosed view.now.chip pairs.now log.now }
    ensures { IfOk result (AreCandidates (task_of view.now.chip 0) pairs.now log.now) }
{
    view.viewed();
    let rows = ChipRows::new(alloc, view.chip())?;
    let candidates = diagnosed_found(alloc, view, &rows, pairs, log, watch);
    drop(rows);
    candidates
}

/// The defects of a linked chip's library instances that the log doesn't contradict, and how much of it each
/// of them explains. The watch is notified after each pair. Also answers out of memory for a chip with 2^32
/// observed outputs, with 2^32 defects or whose flat network may have 2^32 nodes or devices.
pub fn diagnose_chip<T: Watch>(
    alloc: Global,
    chip: &Chip,
    pairs: &[Pair],
    log: &Log,
    watch: &mut T,
) -> Result<Candidates, NoMemory>
    requires { CanBeDiagnosed chip.now pairs.now log.now }
    ensures { IfOk result (AreCandidates (task_of chip.now 0) pairs.now log.now) }
{
    let view = View::new(alloc, chip)?;
    let candidates = diagnosed_over(alloc, &view, pairs, log, watch);
    drop(view);
    candidates
}

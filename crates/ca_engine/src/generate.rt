//! Test generation on a linked chip.

ghost use Rattle.std.specs.Prelude.{ℕ, ◌≡◌, IfOk, IfErr};
ghost use Rattle.ca_credit.specs.Good.{IsGood};
ghost use Rattle.ca_generate.specs.GenerateFault.{IsCause};
ghost use Rattle.ca_generate.specs.declared.fault.GenerateFault.TheVariants as fault;
ghost use Rattle.ca_generate.specs.Known.{AreUntestable};
ghost use Rattle.ca_engine.specs.ChipTask.{task_of};
ghost use Rattle.ca_judge.specs.Attempt.{IsTriedOn};
ghost use Rattle.ca_sweep.specs.Seen.{IsForChip};

use crate::chip_bench::ChipBench;
use crate::finders::reserve_laned;
use crate::untestable::{marks_after, untestable_marks};
use ca_base::NoMemory;
use ca_choice::CheapestWay;
use ca_generate::{GenerateFault, Generated, Watch, generate_knowing, rule_out};
use ca_judge::{Attempts, ScopedChoice};
use ca_linked::Chip;
use ca_rows::{ChipRows, ExposableDefects};
use ca_sweep::FlipFinder;
use ca_view::View;
use std::alloc::Global;

/// Searches for pairs that show the defects of a linked chip, with at most `budget` branches for each: the
/// pairs, their aims, and a verdict for each defect of a library instance. Also answers out of memory for a
/// chip with 2^14 chip inputs, with 2^32 defects or whose flat network may have 2^32 nodes or devices. The
/// watch is notified after each defect's turn.
pub fn generate_chip<T: Watch>(
    alloc: Global,
    chip: &Chip,
    budget: u32,
    watch: &mut T,
) -> Result<Generated, GenerateFault>
    ensures good { IfOk result
        (λ made. IsGood (task_of chip.now budget) made.pairs made.aims made.verdicts) }
    ensures cause { IfErr result (IsCause (task_of chip.now budget)) }
{
    let view = View::new(alloc, chip)?;
    let rows = ChipRows::new(alloc, chip)?;
    let made = generate_over(alloc, &view, &rows, budget, watch);
    drop(rows);
    drop(view);
    made
}

/// The same over the chip's view and rows. Before any search all vectors of the chip are tried, or those of
/// its regions, if they have too many bits; and after all searches those of wider regions, for the defects
/// that are aborted.
pub fn generate_over<T: Watch>(
    alloc: Global,
    view: &View<'_>,
    rows: &ChipRows<'_>,
    budget: u32,
    watch: &mut T,
) -> Result<Generated, GenerateFault>
    requires { rows.now.chip ≡ view.now.chip }

    ensures good { IfOk result
        (λ made. IsGood (task_of view.now.chip budget) made.pairs made.aims made.verdicts) }
    ensures cause { IfErr result (IsCause (task_of view.now.chip budget)) }
{
    view.viewed();
    let untestable = untestable_marks(alloc, view, rows)?;
    let choice = reserve_choice(alloc, view)?;
    let finder = reserve_laned(alloc, view)?;
    let made = generate_by(
        alloc,
        view,
        rows,
        choice,
        finder,
        &untestable,
        budget,
        watch,
    );
    drop(untestable);
    match made {
        Ok(made) => ruled_out(alloc, view, rows, made),
        Err(fault) => Err(fault),
    }
}

// The cheapest way, with room for its attempts.
fn reserve_choice<'a>(
    alloc: Global,
    view: &'a View<'a>,
) -> Result<ScopedChoice<'a, CheapestWay<'a>>, NoMemory>
    ensures { IfOk result (IsTriedOn view.now.core view.now.ranks) }
{
    let cheapest = CheapestWay::reserve(alloc, view)?;
    ScopedChoice::reserve(alloc, view, cheapest)
}

// The same where the aborted defects are untestable of which that is known afterwards.
fn ruled_out(
    alloc: Global,
    view: &View<'_>,
    rows: &ChipRows<'_>,
    made: Generated,
) -> Result<Generated, GenerateFault>
    requires rows { rows.now.chip ≡ view.now.chip }
    ensures good { (budget : ℕ)
        → IsGood (task_of view.now.chip budget) made.pairs made.aims made.verdicts
        → IfOk result (λ new. IsGood (task_of view.now.chip budget) new.pairs new.aims new.verdicts) }
    ensures memory { IfErr result (λ given. given ≡ fault.NoMemory) }
{
    view.viewed();
    let mut made = made;
    match marks_after(alloc, view, rows, &made.verdicts) {
        Ok(marks) => {
            rule_out(&mut made.verdicts, &marks);
            Ok(made)
        }
        Err(NoMemory) => Err(GenerateFault::NoMemory),
    }
}

// The same by rows, a choice and a finder of any type: so the bench that is dropped here has few parts to the
// prover.
fn generate_by<R: ExposableDefects, P: Attempts + Drop, F: FlipFinder + Drop, T: Watch>(
    alloc: Global,
    view: &View<'_>,
    rows: &R,
    choice: P,
    finder: F,
    untestable: &[bool],
    budget: u32,
    watch: &mut T,
) -> Result<Generated, GenerateFault>
    requires rows { R.chip rows.now ≡ view.now.core }
    requires choice { IsTriedOn view.now.core view.now.ranks (P.tried choice) }
    requires finder { IsForChip view.now.core view.now.ranks (F.loaded finder) }
    requires untestable { AreUntestable (task_of view.now.chip budget) untestable.now }

    ensures good { IfOk result
        (λ made. IsGood (task_of view.now.chip budget) made.pairs made.aims made.verdicts) }
    ensures cause { IfErr result (IsCause (task_of view.now.chip budget)) }
{
    let mut bench = ChipBench::reserve(alloc, view, rows, choice, finder, budget)?;
    let made = generate_knowing(alloc, &mut bench, untestable, watch);
    drop(bench);
    made
}

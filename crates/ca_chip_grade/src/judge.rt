//! Whether the values that are expected under given pairs of a linked chip are right.

ghost use Rattle.std.specs.Prelude.{◌≡◌, length, OnOk, IfErr};
ghost use Rattle.std.specs.List.{All};
ghost use Rattle.ca_chip_stil.specs.ChipStil.{AreOfChip};
ghost use Rattle.ca_view.specs.Core.{core_of};
ghost use Rattle.ca_expected.specs.Expected.{AreExpected};
ghost use Rattle.ca_flat.specs.Pair.{bit_count};
ghost use Rattle.ca_grade.specs.GradeFault.{IsCause};
ghost use Rattle.ca_judge.specs.Attempt.{IsTriedOn};
ghost use Rattle.ca_sweep.specs.Seen.{IsForChip};

use ca_base::List;
use ca_credit::Simulator;
use ca_engine::{ChipBench, NoAttempts, reserve_finder};
use ca_expected::first_wrong;
use ca_grade::GradeFault;
use ca_judge::Attempts;
use ca_linked::Chip;
use ca_net::Trit;
use ca_pair::Pair;
use ca_rows::{ChipRows, ExposableDefects};
use ca_scan::Chains;
use ca_sweep::FlipFinder;
use ca_view::View;
use std::alloc::Global;

// The first wrong value as a fault.
fn judged<S: Simulator>(
    sim: &mut S,
    pairs: &[Pair],
    expected: &[List<Trit>],
) -> Result<(), GradeFault>
    requires bits { All (λ pair. length pair ≡ bit_count (S.task sim.old).chip) pairs.now }
    requires counted { length pairs.now ≡ length expected.now }
    requires values { All (λ values. length values ≡ length (S.task sim.old).chip.outputs) expected.now }
    ensures ok { OnOk result (AreExpected (S.task sim.old).chip pairs.now expected.now) }
    ensures cause { IfErr result (IsCause (S.task sim.old).chip pairs.now expected.now) }
{
    match first_wrong(sim, pairs, expected) {
        Some(wrong) => Err(GradeFault::Expected(wrong)),
        None => Ok(()),
    }
}

// The same by rows, a choice and a finder of any type: so the bench that is dropped here has few parts to
// the prover.
fn judged_by<R: ExposableDefects, P: Attempts + Drop, F: FlipFinder + Drop>(
    alloc: Global,
    view: &View<'_>,
    rows: &R,
    choice: P,
    finder: F,
    pairs: &[Pair],
    expected: &[List<Trit>],
) -> Result<(), GradeFault>
    requires rows { R.chip rows.now ≡ view.now.core }
    requires choice { IsTriedOn view.now.core view.now.ranks (P.tried choice) }
    requires finder { IsForChip view.now.core view.now.ranks (F.loaded finder) }
    requires bits { All (λ pair. length pair ≡ bit_count (core_of view.now.chip)) pairs.now }
    requires counted { length pairs.now ≡ length expected.now }
    requires values { All (λ values. length values ≡ length (core_of view.now.chip).outputs) expected.now }
    ensures ok { OnOk result (AreExpected (core_of view.now.chip) pairs.now expected.now) }
    ensures cause { IfErr result (IsCause (core_of view.now.chip) pairs.now expected.now) }
{
    let mut bench = ChipBench::reserve(alloc, view, rows, choice, finder, 0)?;
    let found = judged(&mut bench, pairs, expected);
    drop(bench);
    found
}

// The same with a finder.
fn judged_found<R: ExposableDefects>(
    alloc: Global,
    view: &View<'_>,
    rows: &R,
    pairs: &[Pair],
    expected: &[List<Trit>],
) -> Result<(), GradeFault>
    requires rows { R.chip rows.now ≡ view.now.core }
    requires bits { All (λ pair. length pair ≡ bit_count (core_of view.now.chip)) pairs.now }
    requires counted { length pairs.now ≡ length expected.now }
    requires values { All (λ values. length values ≡ length (core_of view.now.chip).outputs) expected.now }
    ensures ok { OnOk result (AreExpected (core_of view.now.chip) pairs.now expected.now) }
    ensures cause { IfErr result (IsCause (core_of view.now.chip) pairs.now expected.now) }
{
    let finder = reserve_finder(alloc, view)?;
    judged_by(
        alloc,
        view,
        rows,
        NoAttempts::new(view),
        finder,
        pairs,
        expected,
    )
}

// The same over the chip's view.
fn judged_over(
    alloc: Global,
    view: &View<'_>,
    pairs: &[Pair],
    expected: &[List<Trit>],
) -> Result<(), GradeFault>
    requires bits { All (λ pair. length pair ≡ bit_count (core_of view.now.chip)) pairs.now }
    requires counted { length pairs.now ≡ length expected.now }
    requires values { All (λ values. length values ≡ length (core_of view.now.chip).outputs) expected.now }
    ensures ok { OnOk result (AreExpected (core_of view.now.chip) pairs.now expected.now) }
    ensures cause { IfErr result (IsCause (core_of view.now.chip) pairs.now expected.now) }
{
    view.viewed();
    let rows = ChipRows::new(alloc, view.chip())?;
    let found = judged_found(alloc, view, &rows, pairs, expected);
    drop(rows);
    found
}

/// Judges the values that are expected under the pairs: the first that isn't what the good chip ends with is
/// a fault. Also answers out of memory for a chip with 2^32 observed outputs, with 2^32 defects or whose flat
/// network may have 2^32 nodes or devices.
#[tactic(auto, using(crate::proofs::FitLemmas::bits_fit, crate::proofs::FitLemmas::values_fit))]
pub fn judge_chip(
    alloc: Global,
    chip: &Chip,
    chains: &Chains,
    pairs: &[Pair],
    expected: &[List<Trit>],
) -> Result<(), GradeFault>
    requires { AreOfChip chip.now chains.now pairs.now expected.now }
    ensures ok { OnOk result (AreExpected (core_of chip.now) pairs.now expected.now) }
    ensures cause { IfErr result (IsCause (core_of chip.now) pairs.now expected.now) }
{
    let _ = chains;
    let view = View::new(alloc, chip)?;
    let found = judged_over(alloc, &view, pairs, expected);
    drop(view);
    found
}

//! The check of a certificate for a chip that is viewed.

ghost use Rattle.std.specs.Prelude.{◌≡◌, ◌<◌, ◌^◌, length, IfOk};
ghost use Rattle.std.specs.List.{All};
ghost use Rattle.ca_flat.specs.Pair.{bit_count};
ghost use Rattle.ca_view.specs.Linked.{IsPlacedDefect, place_in};
ghost use Rattle.ca_sweep.specs.Seen.{IsForChip};
ghost use Rattle.ca_claim.specs.Stands.{IsAnswer};
ghost use Rattle.ca_claim.specs.Laws.{IsYesTrue};
ghost use Rattle.ca_examiner.specs.ChipExaminer.{AreNetworks};

use crate::chip_examiner::ChipExaminer;
use ca_base::NoMemory;
use ca_cert::check;
use ca_claim::{Answer, Certificate, standing_claims_are_true};
use ca_flat::{ChipDefect, ExposableDefects};
use ca_pair::Pairs;
use ca_sweep::{Finder, FlipFinder, LaneSweep, LanedFinder};
use ca_view::View;
use std::alloc::Global;

// The check by rows and a finder of any type: so what is dropped here has few parts to the prover.
fn check_by<R: ExposableDefects, F: FlipFinder + Drop>(
    alloc: Global,
    chip: &View<'_>,
    rows: &R,
    finder: F,
    outputs: Vec<u32>,
    defects: &[ChipDefect],
    pairs: &Pairs,
    certificate: &Certificate,
) -> Result<Answer, NoMemory>
    requires networks { AreNetworks chip.now.core }
    requires rows { R.chip rows.now ≡ chip.now.core }
    requires finder { IsForChip chip.now.core chip.now.ranks (F.loaded finder) }
    requires outputs { outputs.items ≡ chip.now.core.outputs }
    requires few_outputs { length outputs.items < 2 ^ 32 }
    requires few_pairs { length pairs.now < 2 ^ 32 }
    requires few_claims { length certificate.now.claims < 2 ^ 32 }
    requires bits { All (λ bits. length bits ≡ bit_count chip.now.core) pairs.now }
    requires one_each { length defects.now ≡ length certificate.now.claims }
    requires placed { All (IsPlacedDefect chip.now.core (place_in chip.now.ranks)) defects.now }
    ensures answer { IfOk result (IsAnswer chip.now.core defects.now pairs.now
        certificate.now.budget certificate.now.claims) }
    ensures proves { IfOk result (IsYesTrue chip.now.core defects.now pairs.now
        certificate.now.budget certificate.now.claims) }
{
    chip.linked();
    standing_claims_are_true();
    let mut examiner = ChipExaminer::new(alloc, chip, rows, finder, outputs)?;
    let answer = check(alloc, &mut examiner, defects, pairs, certificate);
    drop(examiner);
    answer
}

// A finder of the chip with lanes, whose observed nets these are.
fn reserve_finder<'a>(
    alloc: Global,
    chip: &'a View<'a>,
    outputs: &Vec<u32>,
) -> Result<LanedFinder<'a>, NoMemory>
    requires outputs { outputs.now.items ≡ chip.now.core.outputs }
    requires few { length outputs.now.items < 2 ^ 32 }
    ensures { IfOk result (IsForChip chip.now.core chip.now.ranks) }
{
    let lanes = LaneSweep::reserve(alloc, chip, outputs)?;
    let finder = Finder::reserve(alloc, chip, outputs.clone()?)?;
    Ok(LanedFinder::new(finder, lanes))
}

/// Whether every claim on these defects of the chip stands, or else the first that doesn't. The outputs are
/// the chip's observed nets.
pub fn check_linked<R: ExposableDefects>(
    alloc: Global,
    chip: &View<'_>,
    rows: &R,
    outputs: Vec<u32>,
    defects: &[ChipDefect],
    pairs: &Pairs,
    certificate: &Certificate,
) -> Result<Answer, NoMemory>
    requires networks { AreNetworks chip.now.core }
    requires rows { R.chip rows.now ≡ chip.now.core }
    requires outputs { outputs.items ≡ chip.now.core.outputs }
    requires few_outputs { length outputs.items < 2 ^ 32 }
    requires few_pairs { length pairs.now < 2 ^ 32 }
    requires few_claims { length certificate.now.claims < 2 ^ 32 }
    requires bits { All (λ bits. length bits ≡ bit_count chip.now.core) pairs.now }
    requires one_each { length defects.now ≡ length certificate.now.claims }
    requires placed { All (IsPlacedDefect chip.now.core (place_in chip.now.ranks)) defects.now }
    ensures answer { IfOk result (IsAnswer chip.now.core defects.now pairs.now
        certificate.now.budget certificate.now.claims) }
    ensures proves { IfOk result (IsYesTrue chip.now.core defects.now pairs.now
        certificate.now.budget certificate.now.claims) }
{
    let finder = reserve_finder(alloc, chip, &outputs)?;
    check_by(
        alloc,
        chip,
        rows,
        finder,
        outputs,
        defects,
        pairs,
        certificate,
    )
}

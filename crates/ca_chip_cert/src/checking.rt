//! The check.

ghost use Rattle.std.specs.Prelude.{◌≡◌, length, IfOk};
ghost use Rattle.std.specs.List.{All};
ghost use Rattle.ca_flat.specs.Pair.{bit_count};
ghost use Rattle.ca_view.specs.Core.{core_of};
ghost use Rattle.ca_claim.specs.Stands.{IsAnswer};
ghost use Rattle.ca_claim.specs.Laws.{IsYesTrue};
ghost use Rattle.ca_chip_cert.specs.Listed.{listed_defects, viewed_defects};

use crate::outputs::output_nets;
use ca_base::NoMemory;
use ca_chip_defects::chip_defects;
use ca_claim::{Answer, Certificate};
use ca_examiner::check_linked;
use ca_flatten::{flat_is_well_formed, judge_size};
use ca_linked::Chip;
use ca_pair::Pairs;
use ca_rows::ChipRows;
use ca_view::View;
use std::alloc::Global;

/// Whether every claim of the certificate on the defects of a linked chip stands for the listed pairs, or
/// else the first that doesn't. Also answers out of memory for a chip with 2^14 chip inputs or 2^32 observed
/// outputs, for 2^32 pairs or claims, and where the flat network may have 2^32 nodes or devices.
pub fn check_chip(
    alloc: Global,
    chip: &Chip,
    pairs: &Pairs,
    certificate: &Certificate,
) -> Result<Answer, NoMemory>
    requires one_each { length certificate.now.claims ≡ length (listed_defects chip.now) }
    requires bits { All (λ bits. length bits ≡ bit_count (core_of chip.now)) pairs.now }
    ensures answer { IfOk result (IsAnswer (core_of chip.now) (listed_defects chip.now) pairs.now
        certificate.now.budget certificate.now.claims) }
    ensures proves { IfOk result (IsYesTrue (core_of chip.now) (listed_defects chip.now) pairs.now
        certificate.now.budget certificate.now.claims) }
{
    let view = View::new(alloc, chip)?;
    let answer = check_viewed(alloc, &view, pairs, certificate);
    drop(view);
    answer
}

// The same over the chip's view.
fn check_viewed(
    alloc: Global,
    view: &View<'_>,
    pairs: &Pairs,
    certificate: &Certificate,
) -> Result<Answer, NoMemory>
    requires one_each { length certificate.now.claims ≡ length (viewed_defects view.now) }
    requires bits { All (λ bits. length bits ≡ bit_count view.now.core) pairs.now }
    ensures answer { IfOk result (IsAnswer view.now.core (viewed_defects view.now) pairs.now
        certificate.now.budget certificate.now.claims) }
    ensures proves { IfOk result (IsYesTrue view.now.core (viewed_defects view.now) pairs.now
        certificate.now.budget certificate.now.claims) }
{
    let rows = ChipRows::new(alloc, view.chip())?;
    let answer = check_over(alloc, view, &rows, pairs, certificate);
    drop(rows);
    answer
}

/// The same over the chip's view and rows.
pub fn check_over(
    alloc: Global,
    view: &View<'_>,
    rows: &ChipRows<'_>,
    pairs: &Pairs,
    certificate: &Certificate,
) -> Result<Answer, NoMemory>
    requires rows { rows.now.chip ≡ view.now.chip }
    requires one_each { length certificate.now.claims ≡ length (viewed_defects view.now) }
    requires bits { All (λ bits. length bits ≡ bit_count view.now.core) pairs.now }
    ensures answer { IfOk result (IsAnswer view.now.core (viewed_defects view.now) pairs.now
        certificate.now.budget certificate.now.claims) }
    ensures proves { IfOk result (IsYesTrue view.now.core (viewed_defects view.now) pairs.now
        certificate.now.budget certificate.now.claims) }
{
    view.viewed();
    flat_is_well_formed();
    judge_size(alloc, view.chip())?;
    let most = u32::MAX as usize;
    if view.output_count() > most || pairs.len() > most || certificate.claims.len() > most {
        return Err(NoMemory);
    }
    let defects = chip_defects(alloc, view)?;
    let outputs = output_nets(alloc, view)?;
    check_linked(
        alloc,
        view,
        rows,
        outputs,
        defects.as_slice(),
        pairs,
        certificate,
    )
}

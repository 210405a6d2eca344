//! The certificate of good verdicts.

ghost use Rattle.std.specs.Prelude.{◌≡◌, length, IfOk};
ghost use Rattle.ca_credit.specs.Good.{IsGood};
ghost use Rattle.ca_judge.specs.Attempt.{IsTriedOn};
ghost use Rattle.ca_judge.specs.ChipJudge.{CanBeJudged};
ghost use Rattle.ca_certify.specs.Verdicts.{verdicts_of, viewed_task};
ghost use Rattle.ca_certify.specs.Proven.{AllStand};
ghost use Rattle.ca_certify.specs.code.Claimed.{AreKnown, AreClaimsOn};

use crate::claims::claims_on;
use ca_base::{List, NoMemory};
use ca_chip_defects::chip_defects;
use ca_choice::CheapestWay;
use ca_claim::{Certificate, Claim};
use ca_credit::Verdicts;
use ca_flat::ExposableDefects;
use ca_flatten::{flat_is_well_formed, judge_size};
use ca_generate::Generated;
use ca_judge::{Attempts, ChipJudge, ScopedChoice};
use ca_rows::ChipRows;
use ca_search::Search;
use ca_view::View;
use std::alloc::Global;

/// A claim on each defect of a linked chip, for what was generated with this budget. For each defect that is
/// untestable one searches for the code that proves it, with the same budget; where that isn't enough the
/// claim is that the search was aborted. Also answers out of memory for a chip whose flat network may have
/// 2^32 nodes or devices.
pub fn certify(
    alloc: Global,
    view: &View<'_>,
    rows: &ChipRows<'_>,
    made: &Generated,
    budget: u32,
) -> Result<Certificate, NoMemory>
    requires rows { rows.now.chip ≡ view.now.chip }
    requires good { IsGood (viewed_task view.now budget)
        made.now.pairs made.now.aims made.now.verdicts }

    ensures good { IfOk result (λ certificate. IsGood (viewed_task view.now budget)
        made.now.pairs made.now.aims (verdicts_of certificate.claims)) }
    ensures stands { IfOk result (λ certificate.
        AllStand (viewed_task view.now budget) made.now.pairs certificate.claims) }
    ensures budget { IfOk result (λ certificate. certificate.budget ≡ budget) }
{
    view.viewed();
    flat_is_well_formed();
    judge_size(alloc, view.chip())?;
    let cheapest = CheapestWay::reserve(alloc, view)?;
    let choice = ScopedChoice::reserve(alloc, view, cheapest)?;
    let claims = claims_by(alloc, view, rows, choice, &made.verdicts, budget)?;
    Ok(Certificate { budget, claims })
}

// The claims, by rows and a choice of any type: so the judge that is dropped here has few parts to the
// prover.
fn claims_by<R: ExposableDefects, P: Attempts + Drop>(
    alloc: Global,
    view: &View<'_>,
    rows: &R,
    choice: P,
    verdicts: &Verdicts,
    budget: u32,
) -> Result<List<Claim>, NoMemory>
    requires rows { R.chip rows.now ≡ view.now.core }
    requires choice { IsTriedOn view.now.core view.now.ranks (P.tried choice) }
    requires judged { CanBeJudged view.now.core }
    requires one_each { length verdicts.now ≡ length (viewed_task view.now budget).defects }
    requires known { AreKnown view.now.core (viewed_task view.now budget).defects verdicts.now }

    ensures claims { IfOk result (AreClaimsOn view.now.core budget
        (viewed_task view.now budget).defects verdicts.now) }
    ensures counted { IfOk result (λ claims. length claims ≡ length verdicts.now) }
{
    view.linked();
    let defects = chip_defects(alloc, view)?;
    let mut search = Search::reserve(alloc, budget)?;
    let mut judge = ChipJudge::reserve(alloc, view, rows, choice)?;
    let claims = claims_on(
        alloc,
        &mut judge,
        &mut search,
        rows,
        defects.as_slice(),
        verdicts,
    );
    drop(judge);
    claims
}

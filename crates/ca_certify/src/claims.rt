//! A claim on each defect of a list with verdicts.

ghost use Rattle.std.specs.Prelude.{◌≡◌, length, IfOk, All};
ghost use Rattle.ca_flat.specs.Chip.{IsDefectIn};
ghost use Rattle.ca_view.specs.Linked.{IsPlacedDefect, place_in};
ghost use Rattle.ca_sim.specs.Simulator.{KeepsChip};
ghost use Rattle.ca_credit.specs.Defects.{IsSearchable};
ghost use Rattle.ca_certify.specs.code.Claimed.{IsKnown, AreKnown, IsClaimOn, IsKnownUntestable};
ghost use Rattle.ca_certify.specs.code.Claimed.{AreClaimsOn, IsProvenClaim};

use crate::searched::searched_claim;
use ca_base::{List, NoMemory};
use ca_claim::Claim;
use ca_credit::{Verdict, Verdicts};
use ca_flat::{ChipDefect, ExposableDefects};
use ca_judge::{Attempts, ChipJudge};
use ca_search::Search;
use std::alloc::Global;

// The claim on an untestable defect.
fn proven_claim<R: ExposableDefects, P: Attempts + Drop>(
    alloc: Global,
    judge: &mut ChipJudge<'_, R, P>,
    search: &mut Search,
    rows: &R,
    defect: ChipDefect,
) -> Result<Claim, NoMemory>
    requires rows { R.chip rows.now ≡ judge.old.seen.chip }
    requires placed { IsPlacedDefect judge.old.seen.chip (place_in judge.old.seen.places) defect }
    requires searchable { IsSearchable judge.old.seen.chip defect }
    requires known { IsKnownUntestable judge.old.seen.chip defect }

    ensures claim { IfOk result (IsProvenClaim judge.old.seen.chip search.old.budget defect) }
    ensures chip { KeepsChip judge.old judge.new }
    ensures budget { search.new.budget ≡ search.old.budget }
{
    let is_exposable = rows.is_exposable(defect);
    prove!(is_exposable);
    judge.aim(Some(defect));
    searched_claim(alloc, judge, search)
}

// The claim on a defect with a verdict.
fn claim_on<R: ExposableDefects, P: Attempts + Drop>(
    alloc: Global,
    judge: &mut ChipJudge<'_, R, P>,
    search: &mut Search,
    rows: &R,
    defect: ChipDefect,
    verdict: &Verdict,
) -> Result<Claim, NoMemory>
    requires rows { R.chip rows.now ≡ judge.old.seen.chip }
    requires placed { IsPlacedDefect judge.old.seen.chip (place_in judge.old.seen.places) defect }
    requires searchable { IsSearchable judge.old.seen.chip defect }
    requires known { IsKnown judge.old.seen.chip defect verdict.now }

    ensures claim { IfOk result (IsClaimOn judge.old.seen.chip search.old.budget defect verdict.now) }
    ensures chip { KeepsChip judge.old judge.new }
    ensures budget { search.new.budget ≡ search.old.budget }
{
    match verdict {
        Verdict::Credited { pair, output } => Ok(Claim::Credited {
            pair: *pair,
            output: *output,
        }),
        Verdict::Unexposable => Ok(Claim::Unexposable),
        Verdict::Untestable => proven_claim(alloc, judge, search, rows, defect),
        Verdict::Aborted { code } => {
            let code = code.copy(alloc)?;
            Ok(Claim::Aborted { code })
        }
    }
}

/// A claim on each defect of a list, of which each has a verdict.
pub(crate) fn claims_on<R: ExposableDefects, P: Attempts + Drop>(
    alloc: Global,
    judge: &mut ChipJudge<'_, R, P>,
    search: &mut Search,
    rows: &R,
    defects: &[ChipDefect],
    verdicts: &Verdicts,
) -> Result<List<Claim>, NoMemory>
    requires rows { R.chip rows.now ≡ judge.old.seen.chip }
    requires placed { All (IsPlacedDefect judge.old.seen.chip (place_in judge.old.seen.places))
        defects.now }
    requires searchable { All (IsSearchable judge.old.seen.chip) defects.now }
    requires one_each { length verdicts.now ≡ length defects.now }
    requires known { AreKnown judge.old.seen.chip defects.now verdicts.now }

    ensures claims { IfOk result
        (AreClaimsOn judge.old.seen.chip search.old.budget defects.now verdicts.now) }
    ensures counted { IfOk result (λ claims. length claims ≡ length verdicts.now) }
{
    let count = verdicts.len();
    let mut claims = List::with_room(alloc, count)?;
    for place in 0..count {
        let verdict = verdicts.get(place);
        claims.push(claim_on(alloc, judge, search, rows, defects[place], verdict)?)?;
    }
    Ok(claims)
}

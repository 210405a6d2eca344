//! The claim that a search for a defect proves.

ghost use Rattle.std.specs.Prelude.{◌≡◌, IfOk, IsSomeAnd};
ghost use Rattle.ca_search.specs.Judged.{IsSameAim};
ghost use Rattle.ca_certify.specs.code.Claimed.{IsHopeless, IsSearchClaim};

use ca_base::NoMemory;
use ca_claim::Claim;
use ca_search::{Judge, Outcome, Search};
use std::alloc::Global;

/// Searches for a pair that shows the untestable defect that is aimed at. There is none: so the search leaves
/// a whole code, or has spent its budget.
pub(crate) fn searched_claim<J: Judge>(
    alloc: Global,
    judge: &mut J,
    search: &mut Search,
) -> Result<Claim, NoMemory>
    requires { IsSomeAnd (J.judged judge.old).aim (IsHopeless (J.judged judge.old).chip) }

    ensures claim { IfOk result (λ claim. IsSomeAnd (J.judged judge.old).aim
        (λ defect. IsSearchClaim (J.judged judge.old).chip search.old.budget defect claim)) }
    ensures aim { IsSameAim (J.judged judge.old) (J.judged judge.new) }
    ensures budget { search.new.budget ≡ search.old.budget }
{
    match search.find(judge) {
        Outcome::Found => unreachable!(),
        Outcome::Exhausted => {
            let code = search.keep_code(alloc)?;
            Ok(Claim::Untestable { code })
        }
        Outcome::Spent => {
            let code = search.keep_code(alloc)?;
            Ok(Claim::Aborted { code })
        }
    }
}

//! How many claims of a certificate are of which kind.

ghost use Rattle.std.specs.Prelude.{◌≡◌, ◌<◌, Some, length, slice_get, IfOk};
ghost use Rattle.ca_certifying.specs.Certified.{is_claim_of, claim_count, claims_summary};
ghost use Rattle.ca_certifying.specs.Certified.{certified_line};

use ca_base::NoMemory;
use ca_chip_report::{Summary, one_if, summary_line};
use ca_claim::Claim;
use ca_lex::Text;
use std::alloc::Global;

// A kind of claim.
#[derive(Clone, Copy)]
enum ClaimKind {
    Credited,
    Unexposable,
    Untestable,
    Aborted,
}

// Whether a claim is of a kind.
fn is_claim_of(claim: &Claim, kind: ClaimKind) -> bool
    ensures { result ≡ is_claim_of kind claim.now }
{
    match (kind, claim) {
        (ClaimKind::Credited, Claim::Credited { .. }) => true,
        (ClaimKind::Unexposable, Claim::Unexposable) => true,
        (ClaimKind::Untestable, Claim::Untestable { .. }) => true,
        (ClaimKind::Aborted, Claim::Aborted { .. }) => true,
        _ => false,
    }
}

// The claim at a place.
fn claim_at(claims: &[Claim], place: usize) -> &Claim
    requires { place < length claims.now }
    ensures { slice_get claims.now place ≡ Some result.now }
{
    &claims[place]
}

// The number of claims of a kind.
fn claim_count(claims: &[Claim], kind: ClaimKind) -> usize
    ensures { result ≡ claim_count kind claims.now }
{
    let mut count = 0;
    for k in 0..claims.len() {
        count += one_if(is_claim_of(claim_at(claims, k), kind));
    }
    count
}

// The summary of a chip's claims and of `pairs` pairs. It looks at each claim once for each of the four
// kinds.
fn claims_summary(claims: &[Claim], pairs: usize) -> Summary
    ensures { result ≡ claims_summary claims.now pairs }
{
    Summary {
        defects: claims.len(),
        credited: claim_count(claims, ClaimKind::Credited),
        unexposable: claim_count(claims, ClaimKind::Unexposable),
        untestable: claim_count(claims, ClaimKind::Untestable),
        aborted: claim_count(claims, ClaimKind::Aborted),
        pairs,
    }
}

/// The line that says how many claims are of which kind, and how many pairs there are.
pub fn certified_line(alloc: Global, claims: &[Claim], pairs: usize) -> Result<Text, NoMemory>
    ensures { IfOk result (λ text. text ≡ certified_line claims.now pairs) }
{
    summary_line(alloc, &claims_summary(claims, pairs))
}

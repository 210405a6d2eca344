//! The defects of whose detections a certificate speaks.

ghost use Rattle.std.specs.Prelude.{◌≡◌, ◌<◌, ◌+◌, length, IfOk};
ghost use Rattle.ca_places.specs.PlaceSet.{HoldsUpTo, IsAsRoomy};
ghost use Rattle.ca_cert.specs.code.Found.{asks};
ghost use Rattle.ca_cert.specs.code.Asked.{AreAsked};

use ca_base::NoMemory;
use ca_claim::Claim;
use ca_places::PlaceSet;
use std::alloc::Global;

// Whether the claim speaks of detections by listed pairs.
fn asks(claim: &Claim) -> bool
    ensures { result ≡ asks claim.now }
{
    match claim {
        Claim::Credited { .. } | Claim::Aborted { .. } => true,
        Claim::Unexposable | Claim::Untestable { .. } => false,
    }
}

// Puts the place into the set, if its claim asks for detections.
fn add_asked(set: &mut PlaceSet, claims: &[Claim], place: usize)
    requires place { place < length claims.now }
    requires room { HoldsUpTo set.old (length claims.now) }
    requires before { AreAsked claims.now place set.old }
    ensures asked { AreAsked claims.now (place + 1) set.new }
    ensures room { IsAsRoomy set.new set.old }
{
    if !asks(&claims[place]) {
        return;
    }
    set.insert(place);
}

/// The places of the claims that speak of detections by listed pairs.
pub(crate) fn asked_places(alloc: Global, claims: &[Claim]) -> Result<PlaceSet, NoMemory>
    ensures asked { IfOk result (AreAsked claims.now (length claims.now)) }
    ensures room { IfOk result (λ set. HoldsUpTo set (length claims.now)) }
{
    let mut set = PlaceSet::reserve(alloc, claims.len())?;
    for place in 0..claims.len() {
        add_asked(&mut set, claims, place);
    }
    Ok(set)
}

//! The check.

ghost use Rattle.std.specs.Prelude.{◌≡◌, ◌<◌, ◌≤◌, ◌^◌, ◌↔◌, length, slice_get, Some, IfOk, IsTrue};
ghost use Rattle.std.specs.List.{All};
ghost use Rattle.ca_flat.specs.Pair.{bit_count};
ghost use Rattle.ca_claim.specs.Stands.{IsAnswer};
ghost use Rattle.std.specs.Prelude.{None};
ghost use Rattle.ca_flat.specs.Codes.{IsWholeBy, IsSpentBy};
ghost use Rattle.ca_read_code.specs.ClaimedCode.{claim_rules};
ghost use Rattle.ca_cert.specs.Tested.{IsTestable, AreTestable, KeepsChip};
ghost use Rattle.ca_cert.specs.code.Standing.{StandsBy};

use crate::detection::{Detection, detections};
use crate::tester::Tester;
use ca_base::NoMemory;
use ca_claim::{Answer, Certificate, Claim};
use ca_code::Code;
use ca_flat::ChipDefect;
use ca_pair::Pairs;
use ca_read_code::{is_spent, is_whole};
use std::alloc::Global;

// Whether the detection that was found is this one.
fn is_credited(found: Option<Detection>, pair: u32, output: u32) -> bool
    ensures { IsTrue result ↔ (found ≡ Some (record { pair = pair; output = output })) }
{
    match found {
        Some(found) => found.pair == pair && found.output == output,
        None => false,
    }
}

// Whether no detection was found.
fn is_undetected(found: Option<Detection>) -> bool
    ensures { IsTrue result ↔ (found ≡ None) }
{
    match found {
        Some(_) => false,
        None => true,
    }
}

// Whether the code is a whole one for the defect.
fn is_whole_for<T: Tester>(
    alloc: Global,
    tester: &mut T,
    code: &Code,
    defect: ChipDefect,
) -> Result<bool, NoMemory>
    requires { IsTestable (T.examined tester.old) defect }
    ensures kept { KeepsChip (T.examined tester.old) (T.examined tester.new) }
    ensures whole { IfOk result (λ whole. IsTrue whole
        ↔ IsWholeBy (claim_rules (T.examined tester.old).chip defect) (T.examined tester.old).chip code.now) }
{
    tester.aim(defect);
    is_whole(alloc, tester, code)
}

// Whether it is spent for the defect.
fn is_spent_for<T: Tester>(
    alloc: Global,
    tester: &mut T,
    code: &Code,
    budget: u32,
    defect: ChipDefect,
) -> Result<bool, NoMemory>
    requires { IsTestable (T.examined tester.old) defect }
    ensures kept { KeepsChip (T.examined tester.old) (T.examined tester.new) }
    ensures spent { IfOk result (λ spent. IsTrue spent
        ↔ IsSpentBy (claim_rules (T.examined tester.old).chip defect) (T.examined tester.old).chip budget
        code.now) }
{
    tester.aim(defect);
    is_spent(alloc, tester, code, budget)
}

// Whether the claim on the defect stands, if this is what was found of its detections.
fn stands<T: Tester>(
    alloc: Global,
    tester: &mut T,
    claim: &Claim,
    found: Option<Detection>,
    budget: u32,
    defect: ChipDefect,
) -> Result<bool, NoMemory>
    requires { IsTestable (T.examined tester.old) defect }
    ensures kept { KeepsChip (T.examined tester.old) (T.examined tester.new) }
    ensures stands { IfOk result (λ stands. IsTrue stands
        ↔ StandsBy (T.examined tester.old).chip found budget defect claim.now) }
{
    match claim {
        Claim::Credited { pair, output } => Ok(is_credited(found, *pair, *output)),
        Claim::Unexposable => Ok(!tester.is_exposable(defect)),
        Claim::Untestable { code } => {
            if !tester.is_exposable(defect) {
                return Ok(false);
            }
            is_whole_for(alloc, tester, code, defect)
        }
        Claim::Aborted { code } => {
            if !is_undetected(found) {
                return Ok(false);
            }
            if !tester.is_exposable(defect) {
                return Ok(false);
            }
            is_spent_for(alloc, tester, code, budget, defect)
        }
    }
}

/// Whether every claim on these defects of the chip stands, or else the first that doesn't.
pub fn check<T: Tester>(
    alloc: Global,
    tester: &mut T,
    defects: &[ChipDefect],
    pairs: &Pairs,
    certificate: &Certificate,
) -> Result<Answer, NoMemory>
    requires few { length pairs.now < 2 ^ 32 }
    requires few_claims { length certificate.now.claims < 2 ^ 32 }
    requires bits { All (λ bits. length bits ≡ bit_count (T.examined tester.old).chip) pairs.now }
    requires defects { length defects.now ≡ length certificate.now.claims }
    requires testable { AreTestable (T.examined tester.old) defects.now }
    ensures { IfOk result (IsAnswer (T.examined tester.old).chip defects.now pairs.now
        certificate.now.budget certificate.now.claims) }
{
    let claims = certificate.claims.as_slice();
    let found = detections(alloc, tester, defects, claims, pairs)?;
    for place in 0..claims.len() {
        let detection = found[place];
        let defect = defects[place];
        if !stands(
            alloc,
            tester,
            &claims[place],
            detection,
            certificate.budget,
            defect,
        )? {
            return Ok(Answer::No {
                defect: place as u32,
            });
        }
    }
    Ok(Answer::Yes)
}

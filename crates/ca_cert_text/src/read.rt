//! A certificate read from its text.

ghost use Rattle.ca_cert_text.specs.CertFault.{Reads};
ghost use Rattle.ca_cert_text.specs.code.Reading.{AreClaimsAt};

use crate::cut::cut;
use crate::fault::CertFault;
use crate::line::{budget_of, claim_of};
use ca_base::List;
use ca_claim::{Certificate, Claim};
use std::alloc::Global;

// The claims of the lines from the second on, or the first of these that isn't of the form.
fn read_claims(alloc: Global, text: &[u8]) -> Result<List<Claim>, CertFault>
    ensures { AreClaimsAt text.now result }
{
    let mut claims = List::new(alloc);
    let mut rest = text;
    for line in 2..usize::MAX {
        if rest.is_empty() {
            return Ok(claims);
        }
        let (words, after) = cut(rest, b'\n');
        let [_, more @ ..] = after else {
            return Err(CertFault::At { line });
        };
        let Some(claim) = claim_of(alloc, words)? else {
            return Err(CertFault::At { line });
        };
        claims.push(claim)?;
        rest = more;
    }
    // No text has that many lines.
    Err(CertFault::NoMemory)
}

/// The certificate that a text is, or the first line of it that isn't of the form: 1 for an empty text.
pub fn read_certificate(alloc: Global, bytes: &[u8]) -> Result<Certificate, CertFault>
    ensures exact { Reads bytes.now result }
{
    let (line, after) = cut(bytes, b'\n');
    let [_, more @ ..] = after else {
        return Err(CertFault::At { line: 1 });
    };
    let Some(budget) = budget_of(line) else {
        return Err(CertFault::At { line: 1 });
    };
    let claims = read_claims(alloc, more)?;
    Ok(Certificate { budget, claims })
}

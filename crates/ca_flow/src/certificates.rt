//! The work of the commands on certificates.
ghost use Rattle.std.specs.Prelude.{◌≡◌, ◌≢◌, ℕ, List, Some, IfOk, IfErr, OnOk};
ghost use Rattle.ca_store.specs.Store.{Nothing};
ghost use Rattle.ca_words.specs.Command.{IsSpelledCertify, IsSpelledVerify};
ghost use Rattle.ca_flow.specs.Fault.{IsWorkCause};
ghost use Rattle.ca_load.specs.Files.{OnlyReads};
ghost use Rattle.ca_flow.specs.Ends.{IsAsked};
ghost use Rattle.ca_flow.specs.code.Work.{HasFiles};

use crate::files::{TwoFiles, two_files};
use crate::finished::Done;
use crate::work::{Work, printed};
use ca_base::NoMemory;
use ca_certifying::{CertifiedChip, CertifiedTests, find_certificate};
use ca_fault::Fault;
use ca_generate::Watch;
use ca_store::Store;
use ca_verifying::{VerifiedChip, find_answer};
use ca_words::{CertifyWords, VerifyWords};
use std::alloc::Global;

/// The work of `certify`.
#[tactic(auto, using(crate::proofs::CertLemmas::certify_asked, crate::proofs::CertLemmas::certify_files, crate::proofs::CertLemmas::certify_cause, crate::proofs::CauseLemmas::no_tests_sink))]
pub(crate) fn certificate_work<'a, S: Store, T: Watch>(
    alloc: Global,
    request: &CertifyWords<'a>,
    store: &mut S,
    watch: &mut T,
) -> Result<Work<'a>, Fault>
    requires closed { S.opened store.old ≡ Nothing }

    ensures asked { IfOk result (λ work. (words : List (List ℕ)) → IsSpelledCertify words request.now
        → IsAsked words (S.files store.old) work.done) }
    ensures file { IfOk result (λ work. (words : List (List ℕ)) → IsSpelledCertify words request.now
        → HasFiles words work.done work.file work.second) }
    ensures cause { IfErr result (λ fault. (words : List (List ℕ)) → IsSpelledCertify words request.now
        → IsWorkCause words (S.files store.old) (S.faults store.old) (S.faults store.new) fault) }
    ensures no_sink { IfErr result (λ fault. fault ≢ Fault.SinkFailed) }
    ensures store { OnlyReads result (S.files store.old) (S.faults store.old)
        (S.files store.new) (S.faults store.new) (S.opened store.new) }
{
    let CertifiedChip { chip, chains, made } = find_certificate(
        alloc,
        &request.files,
        request.budget,
        store,
        watch,
    )?;
    let CertifiedTests {
        pairs,
        aims,
        certificate,
        stil,
        text,
    } = made;
    let done = Done::Certify {
        chip,
        chains,
        pairs,
        aims,
        certificate,
    };
    match two_files(alloc, request.stil, stil, request.cert, text) {
        Ok(TwoFiles { file, second }) => Ok(Work {
            done,
            file: Some(file),
            second: Some(second),
        }),
        Err(NoMemory) => {
            drop(done);
            Err(Fault::NoMemory)
        }
    }
}

/// The work of `verify`.
#[tactic(auto, using(crate::proofs::CertLemmas::verify_asked, crate::proofs::CertLemmas::verify_cause, crate::proofs::CertLemmas::no_verify_sink))]
pub(crate) fn answer_work<'a, S: Store>(
    alloc: Global,
    request: &VerifyWords<'a>,
    store: &mut S,
) -> Result<Work<'a>, Fault>
    requires closed { S.opened store.old ≡ Nothing }

    ensures asked { IfOk result (λ work. (words : List (List ℕ)) → IsSpelledVerify words request.now
        → IsAsked words (S.files store.old) work.done) }
    ensures file { IfOk result (λ work. (words : List (List ℕ)) → IsSpelledVerify words request.now
        → HasFiles words work.done work.file work.second) }
    ensures cause { IfErr result (λ fault. (words : List (List ℕ)) → IsSpelledVerify words request.now
        → IsWorkCause words (S.files store.old) (S.faults store.old) (S.faults store.new) fault) }
    ensures no_sink { IfErr result (λ fault. fault ≢ Fault.SinkFailed) }
    ensures store { OnlyReads result (S.files store.old) (S.faults store.old)
        (S.files store.new) (S.faults store.new) (S.opened store.new) }
{
    let VerifiedChip {
        chip,
        chains,
        pairs,
        certificate,
        answer,
        line,
    } = find_answer(alloc, &request.files, request.stil, request.cert, store)?;
    Ok(printed(Done::Verify {
        chip,
        chains,
        pairs,
        certificate,
        answer,
        line,
    }))
}

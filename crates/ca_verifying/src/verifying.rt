//! What `verify` asks for.
ghost use Rattle.std.specs.Prelude.{◌≡◌, Some, IfErr, IfOk, OnOk};
ghost use Rattle.ca_store.specs.Store.{Nothing};
ghost use Rattle.ca_scan.specs.ChainFault.{AreAllChains};
ghost use Rattle.ca_load.specs.Files.{OnlyReads};
ghost use Rattle.ca_load.specs.Chips.{IsChipOf};
ghost use Rattle.ca_load.specs.Texts.{names_of, OfInputs};
ghost use Rattle.ca_verifying.specs.Verifying.{IsAnswerByFiles, IsVerifiedCause, answer_line};

use crate::answering::{ReportedAnswer, answer_on};
use crate::claimed::{ClaimedChip, load_claimed};
use ca_claim::{Answer, Certificate};
use ca_fault::Fault;
use ca_lex::Text;
use ca_linked::Chip;
use ca_load::FileNames;
use ca_pair::Pairs;
use ca_scan::Chains;
use ca_stil_pairs::StilFile;
use ca_store::Store;
use std::alloc::Global;

/// A chip with its scan chains, the pairs that a file of patterns lists, a certificate, whether its claims
/// stand, and the line that tells it.
#[derive(Drop)]
pub struct VerifiedChip {
    pub chip: Chip,
    pub chains: Chains,
    pub pairs: Pairs,
    pub certificate: Certificate,
    pub answer: Answer,
    pub line: Text,
}

/// Whether the claims of a certificate stand on the defects of the chip that the names give in their files,
/// for the pairs in the file of patterns. No file is opened after that of the certificate, and that one not
/// before all expected values were found to be right.
#[tactic(auto, using(crate::proofs::VerifyLemmas::no_memory, crate::proofs::VerifyLemmas::is_answer))]
pub fn find_answer<S: Store>(
    alloc: Global,
    names: &FileNames<'_>,
    stil: &str,
    cert: &str,
    store: &mut S,
) -> Result<VerifiedChip, Fault>
    requires closed { S.opened store.old ≡ Nothing }

    ensures chip { IfOk result (λ found. OfInputs (S.files store.old) (names_of names.now)
        (λ inputs. IsChipOf inputs found.chip)) }
    ensures chains { IfOk result (λ found. AreAllChains found.chip found.chains) }
    ensures answer { IfOk result (λ found. IsAnswerByFiles (S.files store.old)
        stil.now cert.now
        found.chip found.chains found.pairs found.certificate found.answer) }
    ensures line { IfOk result (λ found. found.line ≡ answer_line found.answer) }
    ensures cause { IfErr result (IsVerifiedCause (names_of names.now) stil.now
        cert.now (S.files store.old) (S.faults store.old) (S.faults store.new)) }
    ensures store { OnlyReads result (S.files store.old) (S.faults store.old)
        (S.files store.new) (S.faults store.new) (S.opened store.new) }
{
    let ClaimedChip {
        chip,
        chains,
        file,
        certificate,
    } = load_claimed(alloc, names, stil, cert, store)?;
    let ReportedAnswer { answer, line } = answer_on(alloc, &chip, &chains, &file, &certificate)?;
    let StilFile { pairs, .. } = file;
    Ok(VerifiedChip {
        chip,
        chains,
        pairs,
        certificate,
        answer,
        line,
    })
}

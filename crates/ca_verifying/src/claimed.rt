//! A chip with its patterns and a certificate, from the files that `verify` names.
ghost use Rattle.std.specs.Prelude.{◌≡◌, Some, IfErr, IfOk, OnOk};
ghost use Rattle.ca_store.specs.Store.{Nothing};
ghost use Rattle.ca_scan.specs.ChainFault.{AreAllChains};
ghost use Rattle.ca_view.specs.Core.{core_of};
ghost use Rattle.ca_chip_stil.specs.ChipStil.{AreOfChip};
ghost use Rattle.ca_expected.specs.Expected.{AreExpected};
ghost use Rattle.ca_load.specs.Files.{OfFile, OnlyReads};
ghost use Rattle.ca_load.specs.Chips.{IsChipOf};
ghost use Rattle.ca_load.specs.Texts.{names_of, OfInputs};
ghost use Rattle.ca_patterns.specs.declared.patterns.TheConstants.{MAX_STIL};
ghost use Rattle.ca_patterns.specs.Patterns.{IsPatternsOf, AreFew};
ghost use Rattle.ca_verifying.specs.declared.certificates.TheConstants.{MAX_CERT};
ghost use Rattle.ca_verifying.specs.Verifying.{IsCertificateIn, HasOneEach, IsVerifiedCause};
ghost use Rattle.ca_verifying.specs.code.Stages.{IsJudgedStage};

use crate::certificates::open_certificate;
use ca_chip_grade::judge_chip;
use ca_claim::Certificate;
use ca_fault::Fault;
use ca_lex::Text;
use ca_linked::Chip;
use ca_load::FileNames;
use ca_patterns::{PatternedChip, load_patterns, value_fault};
use ca_scan::Chains;
use ca_stil_pairs::StilFile;
use ca_store::Store;
use std::alloc::Global;

/// A linked chip with its scan chains, its patterns, and a certificate.
#[derive(Drop)]
pub(crate) struct ClaimedChip {
    pub(crate) chip: Chip,
    pub(crate) chains: Chains,
    pub(crate) file: StilFile,
    pub(crate) certificate: Certificate,
}

/// The chip that the files give, its patterns, and the certificate. All expected values are judged before the
/// file of the certificate is opened.
#[tactic(auto, using(crate::proofs::VerifyLemmas::at_loaded, crate::proofs::VerifyLemmas::at_claimed))]
pub(crate) fn load_claimed<S: Store>(
    alloc: Global,
    names: &FileNames<'_>,
    stil: &str,
    cert: &str,
    store: &mut S,
) -> Result<ClaimedChip, Fault>
    requires closed { S.opened store.old ≡ Nothing }

    ensures chip { IfOk result (λ found. OfInputs (S.files store.old) (names_of names.now)
        (λ inputs. IsChipOf inputs found.chip)) }
    ensures chains { IfOk result (λ found. AreAllChains found.chip found.chains) }
    ensures patterns { IfOk result (λ found. OfFile (S.files store.old) stil.now MAX_STIL
        (IsPatternsOf found.chip found.chains found.file)) }
    ensures fits { IfOk result (λ found.
        AreOfChip found.chip found.chains found.file.pairs found.file.expected) }
    ensures few { IfOk result (λ found. AreFew found.file) }
    ensures right { IfOk result (λ found.
        AreExpected (core_of found.chip) found.file.pairs found.file.expected) }
    ensures of_cert { IfOk result (λ found. OfFile (S.files store.old) cert.now MAX_CERT
        (IsCertificateIn found.certificate)) }
    ensures one_each { IfOk result (λ found. HasOneEach found.chip found.certificate) }
    ensures cause { IfErr result (IsVerifiedCause (names_of names.now) stil.now
        cert.now (S.files store.old) (S.faults store.old) (S.faults store.new)) }
    ensures store { OnlyReads result (S.files store.old) (S.faults store.old)
        (S.files store.new) (S.faults store.new) (S.opened store.new) }
{
    let typed = Text::from_bytes(alloc, cert.as_bytes())?;
    let PatternedChip { chip, chains, file } = load_patterns(alloc, names, stil, store)?;
    let certificate = judged_certificate(alloc, cert, typed, &chip, &chains, &file, store)?;
    Ok(ClaimedChip {
        chip,
        chains,
        file,
        certificate,
    })
}

// The certificate that the file of this name has, once the expected values of the patterns were judged.
#[tactic(auto, using(ca_patterns::proofs::PatternLemmas::is_small, ca_patterns::proofs::PatternLemmas::at_value))]
fn judged_certificate<S: Store>(
    alloc: Global,
    name: &str,
    typed: Text,
    chip: &Chip,
    chains: &Chains,
    file: &StilFile,
    store: &mut S,
) -> Result<Certificate, Fault>
    requires closed { S.opened store.old ≡ Nothing }
    requires typed { typed ≡ name.now }
    requires of { AreOfChip chip.now chains.now file.now.pairs file.now.expected }
    requires few { AreFew file.now }

    ensures right { OnOk result (AreExpected (core_of chip.now) file.now.pairs file.now.expected) }
    ensures of_cert { IfOk result (λ certificate.
        OfFile (S.files store.old) name.now MAX_CERT (IsCertificateIn certificate)) }
    ensures one_each { IfOk result (HasOneEach chip.now) }
    ensures cause { IfErr result (IsJudgedStage chip.now file.now name.now (S.files store.old)
        (S.faults store.old) (S.faults store.new)) }
    ensures store { OnlyReads result (S.files store.old) (S.faults store.old)
        (S.files store.new) (S.faults store.new) (S.opened store.new) }
{
    match judge_chip(
        alloc,
        chip,
        chains,
        file.pairs.as_slice(),
        file.expected.as_slice(),
    ) {
        Ok(()) => open_certificate(alloc, name, typed, chip, store),
        Err(fault) => Err(value_fault(fault)),
    }
}

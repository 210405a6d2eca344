//! The certificate of a chip that a file has.
ghost use Rattle.std.specs.Prelude.{◌≡◌, length, Some, IfErr, IfOk, OnOk};
ghost use Rattle.ca_store.specs.Store.{Nothing};
ghost use Rattle.ca_chip_cert.specs.Listed.{listed_defects, viewed_defects};
ghost use Rattle.ca_load.specs.Files.{OfFile, OnlyReads};
ghost use Rattle.ca_verifying.specs.declared.certificates.TheConstants.{MAX_CERT};
ghost use Rattle.ca_verifying.specs.Verifying.{IsCertificateIn, HasOneEach};
ghost use Rattle.ca_verifying.specs.code.Stages.{IsCountStage, IsCertTextStage, IsCertStage};

use ca_base::NoMemory;
use ca_cert_text::{CertFault, read_certificate};
use ca_chip_defects::chip_defects;
use ca_claim::Certificate;
use ca_fault::Fault;
use ca_lex::Text;
use ca_linked::Chip;
use ca_load::read_input;
use ca_store::Store;
use ca_view::View;
use std::alloc::Global;

/// The greatest number of bytes of a certificate: 256 MiB.
pub const MAX_CERT: usize = 268_435_456;

/// The certificate that the file of this name has, with a claim for each defect of the chip. A fault of the
/// file takes over the name as it was typed.
#[tactic(auto, using(crate::proofs::VerifyLemmas::at_file, crate::proofs::VerifyLemmas::at_text))]
pub(crate) fn open_certificate<S: Store>(
    alloc: Global,
    name: &str,
    typed: Text,
    chip: &Chip,
    store: &mut S,
) -> Result<Certificate, Fault>
    requires closed { S.opened store.old ≡ Nothing }
    requires typed { typed ≡ name.now }

    ensures ok { IfOk result (λ certificate.
        OfFile (S.files store.old) name.now MAX_CERT (IsCertificateIn certificate)) }
    ensures one_each { IfOk result (HasOneEach chip.now) }
    ensures cause { IfErr result (IsCertStage chip.now name.now (S.files store.old)
        (S.faults store.old) (S.faults store.new)) }
    ensures store { OnlyReads result (S.files store.old) (S.faults store.old)
        (S.files store.new) (S.faults store.new) (S.opened store.new) }
{
    let bytes = read_input(alloc, name, typed, MAX_CERT, store)?;
    certificate_in(alloc, chip, bytes.as_bytes())
}

// The certificate of the chip that the bytes are.
#[tactic(auto, using(crate::proofs::VerifyLemmas::at_count))]
fn certificate_in(alloc: Global, chip: &Chip, bytes: &[u8]) -> Result<Certificate, Fault>
    ensures reads { IfOk result (λ certificate. IsCertificateIn certificate bytes.now) }
    ensures one_each { IfOk result (HasOneEach chip.now) }
    ensures cause { IfErr result (IsCertTextStage chip.now bytes.now) }
{
    let certificate = any_certificate_in(alloc, chip, bytes)?;
    with_one_each(alloc, chip, certificate)
}

// The certificate that the bytes are, of whatever chip.
fn any_certificate_in(alloc: Global, chip: &Chip, bytes: &[u8]) -> Result<Certificate, Fault>
    ensures reads { IfOk result (λ certificate. IsCertificateIn certificate bytes.now) }
    ensures cause { IfErr result (IsCertTextStage chip.now bytes.now) }
{
    match read_certificate(alloc, bytes) {
        Ok(certificate) => Ok(certificate),
        Err(CertFault::At { line }) => Err(Fault::Cert { line }),
        Err(CertFault::NoMemory) => Err(Fault::NoMemory),
    }
}

// The certificate, if it has a claim for each defect of the chip.
fn with_one_each(alloc: Global, chip: &Chip, certificate: Certificate) -> Result<Certificate, Fault>
    ensures same { IfOk result (λ kept. kept ≡ certificate) }
    ensures one_each { IfOk result (HasOneEach chip.now) }
    ensures cause { IfErr result (IsCountStage chip.now certificate) }
{
    let claims = certificate.claims.len();
    if defect_count(alloc, chip)? == claims {
        return Ok(certificate);
    }
    drop(certificate);
    Err(Fault::CertChip { claims })
}

// The number of the chip's defects.
fn defect_count(alloc: Global, chip: &Chip) -> Result<usize, NoMemory>
    ensures { IfOk result (λ count. count ≡ length (listed_defects chip.now)) }
{
    let view = View::new(alloc, chip)?;
    let count = viewed_count(alloc, &view);
    drop(view);
    count
}

// The same over the chip's view.
fn viewed_count(alloc: Global, view: &View<'_>) -> Result<usize, NoMemory>
    ensures { IfOk result (λ count. count ≡ length (viewed_defects view.now)) }
{
    let defects = chip_defects(alloc, view)?;
    Ok(defects.len())
}

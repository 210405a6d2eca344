//! Test generation on a linked chip with a certificate, and the texts of both.

ghost use Rattle.std.specs.Prelude.{◌≡◌, length, IfOk, IfErr};
ghost use Rattle.ca_scan.specs.ChainFault.{AreAllChains};
ghost use Rattle.ca_generate.specs.GenerateFault.{IsCause};
ghost use Rattle.ca_credit.specs.Good.{IsGood};
ghost use Rattle.ca_engine.specs.ChipTask.{task_of};
ghost use Rattle.ca_atpg.specs.Atpg.{IsStil};
ghost use Rattle.ca_cert_text.specs.CertText.{certificate_text};
ghost use Rattle.ca_certifying.specs.Certified.{IsCertified};

use ca_atpg::stil_over;
use ca_base::NoMemory;
use ca_cert_text::write_certificate;
use ca_certify::certify;
use ca_claim::Certificate;
use ca_engine::generate_over;
use ca_generate::{Aims, GenerateFault, Generated, Watch};
use ca_lex::Text;
use ca_linked::Chip;
use ca_pair::Pairs;
use ca_rows::ChipRows;
use ca_scan::Chains;
use ca_view::View;
use std::alloc::Global;

/// The listed pairs, for each the place of the defect for which it was found, the certificate, and the texts
/// of the patterns and of the certificate.
#[derive(Drop)]
pub struct CertifiedTests {
    pub pairs: Pairs,
    pub aims: Aims,
    pub certificate: Certificate,
    pub stil: Text,
    pub text: Text,
}

/// Searches for pairs that show the defects of a linked chip, and for proofs of those that have none, with at
/// most `budget` branches for each. The watch is notified after each defect's turn in the search for pairs.
/// Also answers out of memory for a chip with 2^14 chip inputs, with 2^32 defects or whose flat network may
/// have 2^32 nodes or devices.
pub fn certified_tests<T: Watch>(
    alloc: Global,
    chip: &Chip,
    chains: &Chains,
    budget: u32,
    watch: &mut T,
) -> Result<CertifiedTests, GenerateFault>
    requires chains { AreAllChains chip.now chains.now }

    ensures certified { IfOk result
        (λ made. IsCertified budget chip.now made.pairs made.aims made.certificate) }
    ensures stil { IfOk result (λ made. IsStil chip.now chains.now made.pairs made.stil) }
    ensures text { IfOk result (λ made. made.text ≡ certificate_text made.certificate) }
    ensures cause { IfErr result (IsCause (task_of chip.now budget)) }
{
    let view = View::new(alloc, chip)?;
    let rows = ChipRows::new(alloc, chip)?;
    let generated = generate_over(alloc, &view, &rows, budget, watch);
    let certified = certified_by(alloc, chains, &view, &rows, budget, generated);
    drop(rows);
    drop(view);
    certified
}

// What was generated, with its certificate and the texts, or why nothing was.
fn certified_by(
    alloc: Global,
    chains: &Chains,
    view: &View<'_>,
    rows: &ChipRows<'_>,
    budget: u32,
    generated: Result<Generated, GenerateFault>,
) -> Result<CertifiedTests, GenerateFault>
    requires chains { AreAllChains view.now.chip chains.now }
    requires rows { rows.now.chip ≡ view.now.chip }
    requires good { IfOk generated (λ made. IsGood (task_of view.now.chip budget)
        made.pairs made.aims made.verdicts) }
    requires cause { IfErr generated (IsCause (task_of view.now.chip budget)) }

    ensures certified { IfOk result
        (λ made. IsCertified budget view.now.chip made.pairs made.aims made.certificate) }
    ensures stil { IfOk result (λ made. IsStil view.now.chip chains.now made.pairs made.stil) }
    ensures text { IfOk result (λ made. made.text ≡ certificate_text made.certificate) }
    ensures cause { IfErr result (IsCause (task_of view.now.chip budget)) }
{
    let generated = generated?;
    let proved = proved_over(alloc, chains, view, rows, budget, &generated)?;
    Ok(with_proofs(generated, proved))
}

// A certificate, and the texts of the patterns and of it.
#[derive(Drop)]
struct Proved {
    certificate: Certificate,
    stil: Text,
    text: Text,
}

// The certificate of what was generated, with the texts.
fn proved_over(
    alloc: Global,
    chains: &Chains,
    view: &View<'_>,
    rows: &ChipRows<'_>,
    budget: u32,
    made: &Generated,
) -> Result<Proved, NoMemory>
    requires chains { AreAllChains view.now.chip chains.now }
    requires rows { rows.now.chip ≡ view.now.chip }
    requires good { IsGood (task_of view.now.chip budget)
        made.now.pairs made.now.aims made.now.verdicts }

    ensures certified { IfOk result
        (λ proved. IsCertified budget view.now.chip made.now.pairs made.now.aims proved.certificate) }
    ensures stil { IfOk result (λ proved. IsStil view.now.chip chains.now made.now.pairs proved.stil) }
    ensures text { IfOk result (λ proved. proved.text ≡ certificate_text proved.certificate) }
{
    view.viewed();
    let stil = stil_over(alloc, chains, view, rows, &made.pairs)?;
    let certificate = certify(alloc, view, rows, made, budget)?;
    let text = write_certificate(alloc, &certificate)?;
    Ok(Proved {
        certificate,
        stil,
        text,
    })
}

// What was generated, with its certificate and the texts.
fn with_proofs(generated: Generated, proved: Proved) -> CertifiedTests
    ensures pairs { result.pairs ≡ generated.pairs }
    ensures aims { result.aims ≡ generated.aims }
    ensures certificate { result.certificate ≡ proved.certificate }
    ensures stil { result.stil ≡ proved.stil }
    ensures text { result.text ≡ proved.text }
{
    let Generated { pairs, aims, .. } = generated;
    let Proved {
        certificate,
        stil,
        text,
    } = proved;
    CertifiedTests {
        pairs,
        aims,
        certificate,
        stil,
        text,
    }
}

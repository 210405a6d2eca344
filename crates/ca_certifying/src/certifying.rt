//! What `certify` asks for.
ghost use Rattle.std.specs.Prelude.{◌≡◌, Some, IfErr, IfOk, OnOk};
ghost use Rattle.ca_store.specs.Store.{Nothing};
ghost use Rattle.ca_scan.specs.ChainFault.{AreAllChains};
ghost use Rattle.ca_atpg.specs.Atpg.{IsStil};
ghost use Rattle.ca_cert_text.specs.CertText.{certificate_text};
ghost use Rattle.ca_load.specs.Files.{OnlyReads};
ghost use Rattle.ca_load.specs.Texts.{names_of};
ghost use Rattle.ca_on_chip.specs.OnChip.{IsChipOfFiles, IsTestsCause};
ghost use Rattle.ca_certifying.specs.Certified.{IsCertified};

use crate::certified::{CertifiedTests, certified_tests};
use ca_fault::Fault;
use ca_generate::Watch;
use ca_linked::Chip;
use ca_load::{FileNames, Loaded, load};
use ca_on_chip::generation_fault;
use ca_scan::Chains;
use ca_store::Store;
use std::alloc::Global;

/// A chip with its scan chains, and the tests for it with their certificate.
#[derive(Drop)]
pub struct CertifiedChip {
    pub chip: Chip,
    pub chains: Chains,
    pub made: CertifiedTests,
}

/// The tests, with a certificate, of the chip that the names give in their files. The watch is notified after
/// each defect's turn.
#[tactic(auto, using(ca_on_chip::proofs::AskedLemmas::at_tests))]
pub fn find_certificate<S: Store, T: Watch>(
    alloc: Global,
    names: &FileNames<'_>,
    budget: u32,
    store: &mut S,
    watch: &mut T,
) -> Result<CertifiedChip, Fault>
    requires closed { S.opened store.old ≡ Nothing }

    ensures chip { IfOk result (λ found.
        IsChipOfFiles (S.files store.old) (names_of names.now) found.chip) }
    ensures chains { IfOk result (λ found. AreAllChains found.chip found.chains) }
    ensures certified { IfOk result (λ found. IsCertified budget found.chip
        found.made.pairs found.made.aims found.made.certificate) }
    ensures stil { IfOk result (λ found.
        IsStil found.chip found.chains found.made.pairs found.made.stil) }
    ensures text { IfOk result (λ found.
        found.made.text ≡ certificate_text found.made.certificate) }
    ensures cause { IfErr result (IsTestsCause (names_of names.now) budget
        (S.files store.old) (S.faults store.old) (S.faults store.new)) }
    ensures store { OnlyReads result (S.files store.old) (S.faults store.old)
        (S.files store.new) (S.faults store.new) (S.opened store.new) }
{
    let Loaded { chip, chains } = load(alloc, names, store)?;
    match certified_tests(alloc, &chip, &chains, budget, watch) {
        Ok(made) => Ok(CertifiedChip { chip, chains, made }),
        Err(fault) => Err(generation_fault(fault)),
    }
}

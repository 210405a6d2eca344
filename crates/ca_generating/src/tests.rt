//! What `atpg` asks for.
ghost use Rattle.std.specs.Prelude.{◌≡◌, Some, IfErr, IfOk, OnOk};
ghost use Rattle.ca_store.specs.Store.{Nothing};
ghost use Rattle.ca_scan.specs.ChainFault.{AreAllChains};
ghost use Rattle.ca_credit.specs.Good.{IsGood};
ghost use Rattle.ca_engine.specs.ChipTask.{task_of};
ghost use Rattle.ca_atpg.specs.Atpg.{IsStil, report_of};
ghost use Rattle.ca_load.specs.Files.{OnlyReads};
ghost use Rattle.ca_load.specs.Texts.{names_of};
ghost use Rattle.ca_on_chip.specs.OnChip.{IsChipOfFiles, IsTestsCause};

use ca_atpg::{Tested, atpg};
use ca_fault::Fault;
use ca_generate::Watch;
use ca_linked::Chip;
use ca_load::{Loaded, load};
use ca_on_chip::generation_fault;
use ca_scan::Chains;
use ca_store::Store;
use ca_words::AtpgWords;
use std::alloc::Global;

/// A chip with its scan chains, and the tests for it.
#[derive(Drop)]
pub struct TestedChip {
    pub chip: Chip,
    pub chains: Chains,
    pub made: Tested,
}

/// The tests of the chip that the words name in their files. The watch is notified after each defect's turn.
#[tactic(auto, using(ca_on_chip::proofs::AskedLemmas::at_tests))]
pub fn find_tests<S: Store, T: Watch>(
    alloc: Global,
    request: &AtpgWords<'_>,
    store: &mut S,
    watch: &mut T,
) -> Result<TestedChip, Fault>
    requires closed { S.opened store.old ≡ Nothing }

    ensures chip { IfOk result (λ found.
        IsChipOfFiles (S.files store.old) (names_of request.now.files) found.chip) }
    ensures chains { IfOk result (λ found. AreAllChains found.chip found.chains) }
    ensures good { IfOk result (λ found. IsGood (task_of found.chip request.now.budget)
        found.made.pairs found.made.aims found.made.verdicts) }
    ensures stil { IfOk result (λ found.
        IsStil found.chip found.chains found.made.pairs found.made.stil) }
    ensures report { IfOk result (λ found.
        found.made.report ≡ report_of found.chip found.made.verdicts) }
    ensures cause { IfErr result (IsTestsCause (names_of request.now.files) request.now.budget
        (S.files store.old) (S.faults store.old) (S.faults store.new)) }
    ensures store { OnlyReads result (S.files store.old) (S.faults store.old)
        (S.files store.new) (S.faults store.new) (S.opened store.new) }
{
    let Loaded { chip, chains } = load(alloc, &request.files, store)?;
    match atpg(alloc, &chip, &chains, request.budget, watch) {
        Ok(made) => Ok(TestedChip { chip, chains, made }),
        Err(fault) => Err(generation_fault(fault)),
    }
}

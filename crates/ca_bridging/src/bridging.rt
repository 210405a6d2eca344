//! What `bridges` asks for.
ghost use Rattle.std.specs.Prelude.{◌≡◌, Some, IfErr, IfOk, OnOk};
ghost use Rattle.ca_store.specs.Store.{Nothing};
ghost use Rattle.ca_scan.specs.ChainFault.{AreAllChains};
ghost use Rattle.ca_atpg.specs.Atpg.{IsStil};
ghost use Rattle.ca_load.specs.Files.{OnlyReads};
ghost use Rattle.ca_load.specs.Texts.{names_of};
ghost use Rattle.ca_request.specs.Asked.{IsInstanceStage};
ghost use Rattle.ca_on_chip.specs.OnChip.{IsChipOfFiles};
ghost use Rattle.ca_bridge_report.specs.BridgeReport.{bridges_report};
ghost use Rattle.ca_bridging.specs.Bridging.{AreJudgedOf, IsBridgesCause};

use crate::tests::{BridgeTests, bridge_tests};
use ca_fault::Fault;
use ca_generate::Watch;
use ca_linked::Chip;
use ca_load::{Loaded, load};
use ca_request::find_named;
use ca_scan::Chains;
use ca_store::Store;
use ca_words::BridgesWords;
use std::alloc::Global;

/// A chip with its scan chains, and the tests for the bridges of one of its instances.
#[derive(Drop)]
pub struct BridgedChip {
    pub chip: Chip,
    pub chains: Chains,
    pub made: BridgeTests,
}

/// The tests for the bridges of the instance that the words name, of the chip in their files. The watch is
/// notified after the turn of each bridge for which there is a search.
#[tactic(auto, using(crate::proofs::CauseLemmas::at_bridges))]
pub fn find_bridges<S: Store, T: Watch>(
    alloc: Global,
    request: &BridgesWords<'_>,
    store: &mut S,
    watch: &mut T,
) -> Result<BridgedChip, Fault>
    requires closed { S.opened store.old ≡ Nothing }

    ensures chip { IfOk result (λ found.
        IsChipOfFiles (S.files store.old) (names_of request.now.files) found.chip) }
    ensures chains { IfOk result (λ found. AreAllChains found.chip found.chains) }
    ensures judged { IfOk result (λ found. AreJudgedOf request.now.instance.now request.now.budget found.chip
        found.made.bridges found.made.judged.pairs found.made.judged.aims found.made.judged.verdicts) }
    ensures stil { IfOk result (λ found.
        IsStil found.chip found.chains found.made.judged.pairs found.made.stil) }
    ensures report { IfOk result (λ found.
        found.made.report ≡ bridges_report found.chip found.made.bridges found.made.judged.verdicts) }
    ensures cause { IfErr result (IsBridgesCause (names_of request.now.files) request.now.instance.now
        (S.files store.old) (S.faults store.old) (S.faults store.new)) }
    ensures store { OnlyReads result (S.files store.old) (S.faults store.old)
        (S.files store.new) (S.faults store.new) (S.opened store.new) }
{
    let Loaded { chip, chains } = load(alloc, &request.files, store)?;
    let made = bridges_on(
        alloc,
        &chip,
        &chains,
        request.instance,
        request.budget,
        watch,
    )?;
    Ok(BridgedChip { chip, chains, made })
}

// The tests for the bridges of the instance of this name, or why there are none.
fn bridges_on<T: Watch>(
    alloc: Global,
    chip: &Chip,
    chains: &Chains,
    instance: &str,
    budget: u32,
    watch: &mut T,
) -> Result<BridgeTests, Fault>
    requires chains { AreAllChains chip.now chains.now }

    ensures judged { IfOk result (λ made. AreJudgedOf instance.now budget chip.now
        made.bridges made.judged.pairs made.judged.aims made.judged.verdicts) }
    ensures stil { IfOk result (λ made. IsStil chip.now chains.now made.judged.pairs made.stil) }
    ensures report { IfOk result (λ made.
        made.report ≡ bridges_report chip.now made.bridges made.judged.verdicts) }
    ensures cause { IfErr result (IsInstanceStage chip.now instance.now) }
{
    let u = find_named(alloc, chip, instance)?;
    let made = bridge_tests(alloc, chip, chains, u, budget, watch)?;
    Ok(made)
}

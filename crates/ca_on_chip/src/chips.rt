//! What `flatten` and `simulate` ask for.
ghost use Rattle.std.specs.Prelude.{◌≡◌, Some, IfErr, IfOk, OnOk};
ghost use Rattle.std.specs.List.{All};
ghost use Rattle.ca_flat_text.specs.FlatText.{HasLine};
ghost use Rattle.ca_store.specs.Store.{Nothing};
ghost use Rattle.ca_load.specs.Files.{OnlyReads};
ghost use Rattle.ca_load.specs.Texts.{names_of};
ghost use Rattle.ca_request.specs.Asked.{AreBothOrNeither, IsDefectStage};
ghost use Rattle.ca_on_chip.specs.OnChip.{IsTracedChipOf, IsFlatOf, AreEndsOf};
ghost use Rattle.ca_on_chip.specs.OnChip.{IsFlatCause, IsEndsCause};
ghost use Rattle.ca_on_chip.specs.code.OnChip.{IsSimulationStage};

use ca_fault::Fault;
use ca_flatten::{flat_has_lines, flatten};
use ca_linked::Chip;
use ca_load::{Loaded, load};
use ca_net::FlatNet;
use ca_request::{find_defect, find_vectors};
use ca_simulate::{OutputEnds, simulate};
use ca_store::Store;
use ca_words::{ChipWords, SimulateWords};
use std::alloc::Global;

/// A chip and its flat network, good or with a defect.
#[derive(Drop)]
pub struct FlatChip {
    pub chip: Chip,
    pub net: FlatNet,
}

/// A chip, and what its observed outputs settle to.
#[derive(Drop)]
pub struct SimulatedChip {
    pub chip: Chip,
    pub ends: OutputEnds,
}

/// The flat network of the chip that the words name in their files.
#[tactic(auto, using(crate::proofs::AskedLemmas::at_flat))]
pub fn find_flat<S: Store>(
    alloc: Global,
    request: &ChipWords<'_>,
    store: &mut S,
) -> Result<FlatChip, Fault>
    requires closed { S.opened store.old ≡ Nothing }
    requires both { AreBothOrNeither request.now.instance.now request.now.defect.now }

    ensures chip { IfOk result (λ found.
        IsTracedChipOf (S.files store.old) (names_of request.now.files) found.chip) }
    ensures flat { IfOk result (λ found.
        IsFlatOf request.now.instance.now request.now.defect.now found.chip found.net) }
    ensures lines { IfOk result (λ found. All HasLine found.net.devices) }
    ensures cause { IfErr result (IsFlatCause (names_of request.now.files)
        request.now.instance.now request.now.defect.now
        (S.files store.old) (S.faults store.old) (S.faults store.new)) }
    ensures store { OnlyReads result (S.files store.old) (S.faults store.old)
        (S.files store.new) (S.faults store.new) (S.opened store.new) }
{
    let Loaded { chip, .. } = load(alloc, &request.files, store)?;
    let net = flat_of(alloc, &chip, request.instance, request.defect)?;
    Ok(FlatChip { chip, net })
}

// The flat network of a chip, with the defect that the words name, if they name one.
#[tactic(auto, using(crate::proofs::AskedLemmas::is_chip_defect, crate::proofs::AskedLemmas::is_flat, crate::proofs::AskedLemmas::has_lines))]
fn flat_of(alloc: Global, chip: &Chip, instance: &str, defect: &str) -> Result<FlatNet, Fault>
    requires both { AreBothOrNeither instance.now defect.now }

    ensures flat { IfOk result (IsFlatOf instance.now defect.now chip.now) }
    ensures lines { IfOk result (λ net. All HasLine net.devices) }
    ensures cause { IfErr result (IsDefectStage chip.now instance.now defect.now) }
{
    flat_has_lines();
    chip.wired();
    let given = find_defect(alloc, chip, instance, defect)?;
    Ok(flatten(alloc, chip, given)?)
}

/// What the observed outputs of the chip that the words name in their files settle to.
#[tactic(auto, using(crate::proofs::AskedLemmas::at_ends))]
pub fn find_simulation<S: Store>(
    alloc: Global,
    request: &SimulateWords<'_>,
    store: &mut S,
) -> Result<SimulatedChip, Fault>
    requires closed { S.opened store.old ≡ Nothing }
    requires both { AreBothOrNeither request.now.of.instance.now request.now.of.defect.now }

    ensures chip { IfOk result (λ found.
        IsTracedChipOf (S.files store.old) (names_of request.now.of.files) found.chip) }
    ensures ends { IfOk result (λ found. AreEndsOf request.now.of.instance.now request.now.of.defect.now
        request.now.first.now request.now.last.now found.chip found.ends.good.items found.ends.faulty.items) }
    ensures cause { IfErr result (IsEndsCause (names_of request.now.of.files)
        request.now.of.instance.now request.now.of.defect.now request.now.first.now request.now.last.now
        (S.files store.old) (S.faults store.old) (S.faults store.new)) }
    ensures store { OnlyReads result (S.files store.old) (S.faults store.old)
        (S.files store.new) (S.faults store.new) (S.opened store.new) }
{
    let Loaded { chip, .. } = load(alloc, &request.of.files, store)?;
    let ends = ends_of(alloc, &chip, request)?;
    Ok(SimulatedChip { chip, ends })
}

// What the observed outputs of a chip settle to. The vectors are judged before the defect.
#[tactic(auto, using(crate::proofs::AskedLemmas::at_vectors, crate::proofs::AskedLemmas::at_defect, crate::proofs::AskedLemmas::are_ends))]
fn ends_of(alloc: Global, chip: &Chip, request: &SimulateWords<'_>) -> Result<OutputEnds, Fault>
    requires both { AreBothOrNeither request.now.of.instance.now request.now.of.defect.now }

    ensures ends { IfOk result (λ ends. AreEndsOf request.now.of.instance.now request.now.of.defect.now
        request.now.first.now request.now.last.now chip.now ends.good.items ends.faulty.items) }
    ensures cause { IfErr result (IsSimulationStage request.now.of.instance.now request.now.of.defect.now
        request.now.first.now request.now.last.now chip.now) }
{
    let vectors = find_vectors(alloc, chip, request.first, request.last)?;
    let given = find_defect(alloc, chip, request.of.instance, request.of.defect)?;
    Ok(simulate(alloc, chip, given, vectors)?)
}

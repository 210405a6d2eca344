//! What `replay` asks for.
ghost use Rattle.std.specs.Prelude.{◌≡◌, Some, IfErr, IfOk, OnOk};
ghost use Rattle.ca_store.specs.Store.{Nothing};
ghost use Rattle.ca_load.specs.Files.{OfFile, OnlyReads};
ghost use Rattle.ca_load.specs.Texts.{names_of};
ghost use Rattle.ca_request.specs.Asked.{AreBothOrNeither, IsAskedDefect, IsLibraryDefect, FitsInputs};
ghost use Rattle.ca_request.specs.Vectors.{letters_of};
ghost use Rattle.ca_on_chip.specs.OnChip.{IsTracedChipOf};
ghost use Rattle.ca_on_chip.specs.Replay.{AreRunEndsOf, IsRunCause};
ghost use Rattle.ca_on_chip.specs.code.Replay.{IsRunStage};

use ca_fault::Fault;
use ca_lex::Text;
use ca_linked::Chip;
use ca_load::{Loaded, load, read_input};
use ca_net::Trit;
use ca_order::OrderFault;
use ca_request::{find_defect, find_vectors};
use ca_simulate::replay;
use ca_store::Store;
use ca_words::ReplayWords;
use std::alloc::Global;

/// The greatest number of bytes of a file of events: 1 MiB.
pub const MAX_ORDER: usize = 1_048_576;

/// A chip, and what its observed outputs end with in one run, in their order.
#[derive(Drop)]
pub struct ReplayedChip {
    pub chip: Chip,
    pub ends: Vec<Trit>,
}

/// What the observed outputs of the chip that the words name in their files end with in the run whose events
/// stand in the last file. That file is read and judged last.
#[tactic(auto, using(crate::proofs::ReplayLemmas::at_run))]
pub fn find_replay<S: Store>(
    alloc: Global,
    request: &ReplayWords<'_>,
    store: &mut S,
) -> Result<ReplayedChip, Fault>
    requires closed { S.opened store.old ≡ Nothing }
    requires both { AreBothOrNeither request.now.of.of.instance.now request.now.of.of.defect.now }

    ensures chip { IfOk result (λ found.
        IsTracedChipOf (S.files store.old) (names_of request.now.of.of.files) found.chip) }
    ensures ends { IfOk result (λ found. OfFile (S.files store.old) request.now.order.now MAX_ORDER
        (AreRunEndsOf request.now.of.of.instance.now request.now.of.of.defect.now
        request.now.of.first.now request.now.of.last.now found.chip found.ends.items)) }
    ensures cause { IfErr result (IsRunCause (names_of request.now.of.of.files)
        request.now.of.of.instance.now request.now.of.of.defect.now
        request.now.of.first.now request.now.of.last.now request.now.order.now
        (S.files store.old) (S.faults store.old) (S.faults store.new)) }
    ensures store { OnlyReads result (S.files store.old) (S.faults store.old)
        (S.files store.new) (S.faults store.new) (S.opened store.new) }
{
    let typed = Text::from_bytes(alloc, request.order.as_bytes())?;
    let Loaded { chip, .. } = load(alloc, &request.of.of.files, store)?;
    let ends = run_ends(alloc, &chip, request, typed, store)?;
    Ok(ReplayedChip { chip, ends })
}

// What the observed outputs of a chip end with. The vectors are judged before the defect, and both before the
// file, whose faults take over its name as it was typed.
#[tactic(auto, using(crate::proofs::ReplayLemmas::at_vectors, crate::proofs::ReplayLemmas::at_defect, crate::proofs::ReplayLemmas::at_file, crate::proofs::ReplayLemmas::are_ends, crate::proofs::ReplayLemmas::at_line))]
fn run_ends<S: Store>(
    alloc: Global,
    chip: &Chip,
    request: &ReplayWords<'_>,
    typed: Text,
    store: &mut S,
) -> Result<Vec<Trit>, Fault>
    requires closed { S.opened store.old ≡ Nothing }
    requires both { AreBothOrNeither request.now.of.of.instance.now request.now.of.of.defect.now }
    requires typed { typed ≡ request.now.order.now }

    ensures ends { IfOk result (λ ends. OfFile (S.files store.old) request.now.order.now MAX_ORDER
        (AreRunEndsOf request.now.of.of.instance.now request.now.of.of.defect.now
        request.now.of.first.now request.now.of.last.now chip.now ends.items)) }
    ensures cause { IfErr result (IsRunStage request.now.of.of.instance.now request.now.of.of.defect.now
        request.now.of.first.now request.now.of.last.now request.now.order.now chip.now
        (S.files store.old) (S.faults store.old) (S.faults store.new)) }
    ensures store { OnlyReads result (S.files store.old) (S.faults store.old)
        (S.files store.new) (S.faults store.new) (S.opened store.new) }
{
    let vectors = find_vectors(alloc, chip, request.of.first, request.of.last)?;
    let given = find_defect(alloc, chip, request.of.of.instance, request.of.of.defect)?;
    let bytes = read_input(alloc, request.order, typed, MAX_ORDER, store)?;
    match replay(alloc, chip, given, vectors, bytes.as_bytes()) {
        Ok(ends) => Ok(ends),
        Err(OrderFault::At { line }) => Err(Fault::Order { line }),
        Err(OrderFault::NoMemory) => Err(Fault::NoMemory),
    }
}

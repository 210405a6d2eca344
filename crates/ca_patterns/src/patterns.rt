//! The patterns of a chip that a file has.
ghost use Rattle.std.specs.Prelude.{◌≡◌, ◌≤◌, ◌<◌, length, Some, IfErr, IfOk, OnOk};
ghost use Rattle.ca_store.specs.Store.{Nothing};
ghost use Rattle.ca_credit.specs.declared.limit.TheConstants.{MOST_PAIRS};
ghost use Rattle.ca_scan.specs.ChainFault.{AreAllChains};
ghost use Rattle.ca_chip_stil.specs.ChipStil.{AreOfChip};
ghost use Rattle.ca_load.specs.Files.{OfFile, OnlyReads};
ghost use Rattle.ca_fault.specs.declared.fault.LimitKind.TheVariants as limit;
ghost use Rattle.ca_patterns.specs.Patterns.{IsPatternsOf, AreFew};
ghost use Rattle.ca_patterns.specs.Stages.{IsPatternsStage};
ghost use Rattle.ca_patterns.specs.code.Stages.{IsTextStage};

use ca_chip_pairs::read_chip_stil;
use ca_credit::MOST_PAIRS;
use ca_fault::{Fault, LimitKind};
use ca_lex::Text;
use ca_linked::Chip;
use ca_load::read_input;
use ca_scan::Chains;
use ca_stil_pairs::{StilFault, StilFile};
use ca_store::Store;
use std::alloc::Global;

/// The greatest number of bytes of a file of patterns: 256 MiB.
pub const MAX_STIL: usize = 268_435_456;

/// The pairs of a chip, with the values that are expected under each, that the file of this name has. A fault
/// of the file takes over the name as it was typed.
#[tactic(auto, using(crate::proofs::PatternLemmas::at_file, crate::proofs::PatternLemmas::at_text))]
pub fn open_patterns<S: Store>(
    alloc: Global,
    name: &str,
    typed: Text,
    chip: &Chip,
    chains: &Chains,
    store: &mut S,
) -> Result<StilFile, Fault>
    requires closed { S.opened store.old ≡ Nothing }
    requires typed { typed ≡ name.now }
    requires chains { AreAllChains chip.now chains.now }

    ensures ok { IfOk result (λ file.
        OfFile (S.files store.old) name.now MAX_STIL (IsPatternsOf chip.now chains.now file)) }
    ensures fits { IfOk result (λ file. AreOfChip chip.now chains.now file.pairs file.expected) }
    ensures few { IfOk result AreFew }
    ensures cause { IfErr result (IsPatternsStage chip.now chains.now name.now (S.files store.old)
        (S.faults store.old) (S.faults store.new)) }
    ensures store { OnlyReads result (S.files store.old) (S.faults store.old)
        (S.files store.new) (S.faults store.new) (S.opened store.new) }
{
    let bytes = read_input(alloc, name, typed, MAX_STIL, store)?;
    patterns_in(alloc, chip, chains, bytes.as_bytes())
}

// The patterns of a chip that the bytes have.
#[tactic(auto, using(crate::proofs::PatternLemmas::at_count))]
fn patterns_in(alloc: Global, chip: &Chip, chains: &Chains, bytes: &[u8]) -> Result<StilFile, Fault>
    requires { AreAllChains chip.now chains.now }

    ensures reads { IfOk result (λ file. IsPatternsOf chip.now chains.now file bytes.now) }
    ensures fits { IfOk result (λ file. AreOfChip chip.now chains.now file.pairs file.expected) }
    ensures few { IfOk result AreFew }
    ensures cause { IfErr result (IsTextStage chip.now chains.now bytes.now) }
{
    let file = file_in(alloc, chip, chains, bytes)?;
    few_in(file)
}

// The patterns of a chip that the bytes have, however many.
fn file_in(alloc: Global, chip: &Chip, chains: &Chains, bytes: &[u8]) -> Result<StilFile, Fault>
    requires { AreAllChains chip.now chains.now }

    ensures reads { IfOk result (λ file. IsPatternsOf chip.now chains.now file bytes.now) }
    ensures fits { IfOk result (λ file. AreOfChip chip.now chains.now file.pairs file.expected) }
    ensures cause { IfErr result (IsTextStage chip.now chains.now bytes.now) }
{
    match read_chip_stil(alloc, chip, chains, bytes) {
        Ok(file) => Ok(file),
        Err(StilFault::At { line }) => Err(Fault::Stil { line }),
        Err(StilFault::OtherChip) => Err(Fault::StilChip),
        Err(StilFault::NoMemory) => Err(Fault::NoMemory),
    }
}

// The patterns, if they are no more than may be listed.
fn few_in(file: StilFile) -> Result<StilFile, Fault>
    ensures same { IfOk result (λ kept. kept ≡ file) }
    ensures few { IfOk result AreFew }
    ensures many { IfErr result (λ fault. MOST_PAIRS < length file.pairs) }
    ensures cause { IfErr result (λ fault. fault ≡ Fault.Limit limit.Pairs (length file.pairs)) }
{
    let count = file.pairs.len();
    if count <= MOST_PAIRS {
        return Ok(file);
    }
    drop(file);
    Err(Fault::Limit {
        kind: LimitKind::Pairs,
        count,
    })
}

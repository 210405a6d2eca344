//! A chip with its patterns, from the files that a command names.
ghost use Rattle.std.specs.Prelude.{◌≡◌, Some, IfErr, IfOk, OnOk};
ghost use Rattle.ca_store.specs.Store.{Nothing};
ghost use Rattle.ca_scan.specs.ChainFault.{AreAllChains};
ghost use Rattle.ca_chip_stil.specs.ChipStil.{AreOfChip};
ghost use Rattle.ca_load.specs.Files.{OfFile, OnlyReads};
ghost use Rattle.ca_load.specs.Texts.{names_of, OfInputs};
ghost use Rattle.ca_load.specs.Chips.{IsChipOf};
ghost use Rattle.ca_patterns.specs.declared.patterns.TheConstants.{MAX_STIL};
ghost use Rattle.ca_patterns.specs.Patterns.{IsPatternsOf, AreFew, IsLoadedCause};

use crate::patterns::open_patterns;
use ca_fault::Fault;
use ca_lex::Text;
use ca_linked::Chip;
use ca_load::{FileNames, Loaded, load};
use ca_scan::Chains;
use ca_stil_pairs::StilFile;
use ca_store::Store;
use std::alloc::Global;

/// A linked chip with its scan chains and patterns.
#[derive(Drop)]
pub struct PatternedChip {
    pub chip: Chip,
    pub chains: Chains,
    pub file: StilFile,
}

/// The chip that the files give, and its patterns in the file of this name. That file is read last, and its
/// expected values aren't judged.
#[tactic(auto, using(crate::proofs::PatternLemmas::at_loaded))]
pub fn load_patterns<S: Store>(
    alloc: Global,
    names: &FileNames<'_>,
    stil: &str,
    store: &mut S,
) -> Result<PatternedChip, Fault>
    requires closed { S.opened store.old ≡ Nothing }

    ensures chip { IfOk result (λ found. OfInputs (S.files store.old) (names_of names.now)
        (λ inputs. IsChipOf inputs found.chip)) }
    ensures chains { IfOk result (λ found. AreAllChains found.chip found.chains) }
    ensures patterns { IfOk result (λ found. OfFile (S.files store.old) stil.now MAX_STIL
        (IsPatternsOf found.chip found.chains found.file)) }
    ensures fits { IfOk result (λ found.
        AreOfChip found.chip found.chains found.file.pairs found.file.expected) }
    ensures few { IfOk result (λ found. AreFew found.file) }
    ensures cause { IfErr result (IsLoadedCause (names_of names.now) stil.now (S.files store.old)
        (S.faults store.old) (S.faults store.new)) }
    ensures store { OnlyReads result (S.files store.old) (S.faults store.old)
        (S.files store.new) (S.faults store.new) (S.opened store.new) }
{
    let typed = Text::from_bytes(alloc, stil.as_bytes())?;
    let Loaded { chip, chains } = load(alloc, names, store)?;
    let file = open_patterns(alloc, stil, typed, &chip, &chains, store)?;
    Ok(PatternedChip { chip, chains, file })
}

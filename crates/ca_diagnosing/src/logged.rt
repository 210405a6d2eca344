//! A chip with its patterns and a log, from the files that `diagnose` names.
ghost use Rattle.std.specs.Prelude.{◌≡◌, Some, IfErr, IfOk, OnOk};
ghost use Rattle.ca_store.specs.Store.{Nothing};
ghost use Rattle.ca_scan.specs.ChainFault.{AreAllChains};
ghost use Rattle.ca_view.specs.Core.{core_of};
ghost use Rattle.ca_outputs.specs.Outputs.{output_names};
ghost use Rattle.ca_chip_stil.specs.ChipStil.{AreOfChip};
ghost use Rattle.ca_expected.specs.Expected.{AreExpected};
ghost use Rattle.ca_log.specs.LogText.{IsLog};
ghost use Rattle.ca_load.specs.Files.{OfFile, OnlyReads};
ghost use Rattle.ca_load.specs.Chips.{IsChipOf};
ghost use Rattle.ca_load.specs.Texts.{names_of, OfInputs};
ghost use Rattle.ca_patterns.specs.declared.patterns.TheConstants.{MAX_STIL};
ghost use Rattle.ca_patterns.specs.Patterns.{IsPatternsOf, AreFew};
ghost use Rattle.ca_diagnosing.specs.declared.logs.TheConstants.{MAX_LOG};
ghost use Rattle.ca_diagnosing.specs.Diagnosing.{IsLogIn, IsDiagnosedCause};
ghost use Rattle.ca_diagnosing.specs.code.Stages.{IsJudgedStage};

use crate::logs::open_log;
use ca_chip_grade::judge_chip;
use ca_fault::Fault;
use ca_lex::Text;
use ca_linked::Chip;
use ca_log::Log;
use ca_patterns::{PatternedChip, load_patterns, value_fault};
use ca_scan::Chains;
use ca_stil_pairs::StilFile;
use ca_store::Store;
use ca_words::DiagnoseWords;
use std::alloc::Global;

/// A linked chip with its scan chains, its patterns, and a log.
#[derive(Drop)]
pub(crate) struct LoggedChip {
    pub(crate) chip: Chip,
    pub(crate) chains: Chains,
    pub(crate) file: StilFile,
    pub(crate) log: Log,
}

/// The chip that the files give, its patterns, and the log. All expected values are judged before the file of
/// the log is opened.
#[tactic(auto, using(crate::proofs::DiagnoseLemmas::at_loaded, crate::proofs::DiagnoseLemmas::at_logged))]
pub(crate) fn load_logged<S: Store>(
    alloc: Global,
    request: &DiagnoseWords<'_>,
    store: &mut S,
) -> Result<LoggedChip, Fault>
    requires closed { S.opened store.old ≡ Nothing }

    ensures chip { IfOk result (λ found. OfInputs (S.files store.old) (names_of request.now.files)
        (λ inputs. IsChipOf inputs found.chip)) }
    ensures chains { IfOk result (λ found. AreAllChains found.chip found.chains) }
    ensures patterns { IfOk result (λ found. OfFile (S.files store.old) request.now.stil.now MAX_STIL
        (IsPatternsOf found.chip found.chains found.file)) }
    ensures fits { IfOk result (λ found.
        AreOfChip found.chip found.chains found.file.pairs found.file.expected) }
    ensures few { IfOk result (λ found. AreFew found.file) }
    ensures right { IfOk result (λ found.
        AreExpected (core_of found.chip) found.file.pairs found.file.expected) }
    ensures of_log { IfOk result (λ found. OfFile (S.files store.old) request.now.log.now MAX_LOG
        (IsLogIn found.chip found.file.expected found.log)) }
    ensures log { IfOk result (λ found. IsLog (output_names found.chip) found.file.expected found.log) }
    ensures cause { IfErr result (IsDiagnosedCause (names_of request.now.files) request.now.stil.now
        request.now.log.now (S.files store.old) (S.faults store.old) (S.faults store.new)) }
    ensures store { OnlyReads result (S.files store.old) (S.faults store.old)
        (S.files store.new) (S.faults store.new) (S.opened store.new) }
{
    let typed = Text::from_bytes(alloc, request.log.as_bytes())?;
    let PatternedChip { chip, chains, file } = load_patterns(
        alloc,
        &request.files,
        request.stil,
        store,
    )?;
    let log = judged_log(alloc, request.log, typed, &chip, &chains, &file, store)?;
    Ok(LoggedChip {
        chip,
        chains,
        file,
        log,
    })
}

// The log that the file of this name has, once the expected values of the patterns were judged.
#[tactic(auto, using(crate::proofs::DiagnoseLemmas::few_values, ca_patterns::proofs::PatternLemmas::is_small, ca_patterns::proofs::PatternLemmas::at_value))]
fn judged_log<S: Store>(
    alloc: Global,
    name: &str,
    typed: Text,
    chip: &Chip,
    chains: &Chains,
    file: &StilFile,
    store: &mut S,
) -> Result<Log, Fault>
    requires closed { S.opened store.old ≡ Nothing }
    requires typed { typed ≡ name.now }
    requires of { AreOfChip chip.now chains.now file.now.pairs file.now.expected }
    requires few { AreFew file.now }

    ensures right { OnOk result (AreExpected (core_of chip.now) file.now.pairs file.now.expected) }
    ensures of_log { IfOk result (λ log.
        OfFile (S.files store.old) name.now MAX_LOG (IsLogIn chip.now file.now.expected log)) }
    ensures log { IfOk result (IsLog (output_names chip.now) file.now.expected) }
    ensures cause { IfErr result (IsJudgedStage chip.now file.now name.now (S.files store.old)
        (S.faults store.old) (S.faults store.new)) }
    ensures store { OnlyReads result (S.files store.old) (S.faults store.old)
        (S.files store.new) (S.faults store.new) (S.opened store.new) }
{
    match judge_chip(
        alloc,
        chip,
        chains,
        file.pairs.as_slice(),
        file.expected.as_slice(),
    ) {
        Ok(()) => open_log(alloc, name, typed, chip, file.expected.as_slice(), store),
        Err(fault) => Err(value_fault(fault)),
    }
}

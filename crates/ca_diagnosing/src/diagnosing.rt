//! What `diagnose` asks for.
ghost use Rattle.std.specs.Prelude.{◌≡◌, ◌<◌, length, Some, IfErr, IfOk, OnOk};
ghost use Rattle.std.specs.List.{All};
ghost use Rattle.ca_store.specs.Store.{Nothing};
ghost use Rattle.ca_scan.specs.ChainFault.{AreAllChains};
ghost use Rattle.ca_engine.specs.ChipTask.{task_of};
ghost use Rattle.ca_diag.specs.Candidates.{AreCandidates};
ghost use Rattle.ca_chip_diag.specs.Diagnosed.{CanBeDiagnosed};
ghost use Rattle.ca_chip_diag.specs.Texts.{candidates_text, diagnosis_line};
ghost use Rattle.ca_load.specs.Files.{OnlyReads};
ghost use Rattle.ca_load.specs.Chips.{IsChipOf};
ghost use Rattle.ca_load.specs.Texts.{names_of, OfInputs};
ghost use Rattle.ca_diagnosing.specs.Diagnosing.{AreCandidatesByFiles, IsDiagnosedCause};

use crate::logged::{LoggedChip, load_logged};
use ca_base::NoMemory;
use ca_chip_diag::{Texts, diagnose_chip, logged_can_be_diagnosed, texts_of};
use ca_diag::Candidates;
use ca_fault::Fault;
use ca_generate::Watch;
use ca_lex::Text;
use ca_linked::Chip;
use ca_log::Log;
use ca_pair::Pairs;
use ca_scan::Chains;
use ca_stil_pairs::StilFile;
use ca_store::Store;
use ca_words::DiagnoseWords;
use std::alloc::Global;

/// A chip with its scan chains, the pairs that a file of patterns lists, a log of failing outputs, the
/// defects that it leaves, their text, and the line of the counts.
#[derive(Drop)]
pub struct DiagnosedChip {
    pub chip: Chip,
    pub chains: Chains,
    pub pairs: Pairs,
    pub log: Log,
    pub candidates: Candidates,
    pub report: Text,
    pub line: Text,
}

/// The candidates among the defects of the chip that the words name in their files, by the pairs in the file
/// of patterns and the log. No file is opened after that of the log, and that one not before all expected
/// values were found to be right. The watch is notified after each pair.
#[tactic(auto, using(crate::proofs::DiagnoseLemmas::no_memory, crate::proofs::DiagnoseLemmas::are_candidates))]
pub fn find_candidates<S: Store, T: Watch>(
    alloc: Global,
    request: &DiagnoseWords<'_>,
    store: &mut S,
    watch: &mut T,
) -> Result<DiagnosedChip, Fault>
    requires closed { S.opened store.old ≡ Nothing }

    ensures chip { IfOk result (λ found. OfInputs (S.files store.old) (names_of request.now.files)
        (λ inputs. IsChipOf inputs found.chip)) }
    ensures chains { IfOk result (λ found. AreAllChains found.chip found.chains) }
    ensures candidates { IfOk result (λ found. AreCandidatesByFiles (S.files store.old)
        request.now.stil.now request.now.log.now
        found.chip found.chains found.pairs found.log found.candidates) }
    ensures report { IfOk result (λ found.
        found.report ≡ candidates_text found.chip (task_of found.chip 0).defects found.candidates) }
    ensures line { IfOk result (λ found. found.line ≡ diagnosis_line (length found.candidates)
        (length (task_of found.chip 0).defects) (length found.log)) }
    ensures cause { IfErr result (IsDiagnosedCause (names_of request.now.files) request.now.stil.now
        request.now.log.now (S.files store.old) (S.faults store.old) (S.faults store.new)) }
    ensures store { OnlyReads result (S.files store.old) (S.faults store.old)
        (S.files store.new) (S.faults store.new) (S.opened store.new) }
{
    let LoggedChip {
        chip,
        chains,
        file,
        log,
    } = load_logged(alloc, request, store)?;
    logged_can_be_diagnosed();
    let made = candidates_by(alloc, &chip, &file.pairs, &log, watch)?;
    let StilFile { pairs, .. } = file;
    let MadeCandidates {
        candidates,
        report,
        line,
    } = made;
    Ok(DiagnosedChip {
        chip,
        chains,
        pairs,
        log,
        candidates,
        report,
        line,
    })
}

// Candidates and their texts.
#[derive(Drop)]
struct MadeCandidates {
    candidates: Candidates,
    report: Text,
    line: Text,
}

// The candidates of a chip by pairs and a log, with their texts.
#[tactic(auto, using(crate::proofs::DiagnoseLemmas::within))]
fn candidates_by<T: Watch>(
    alloc: Global,
    chip: &Chip,
    pairs: &Pairs,
    log: &Log,
    watch: &mut T,
) -> Result<MadeCandidates, NoMemory>
    requires { CanBeDiagnosed chip.now pairs.now log.now }

    ensures candidates { IfOk result (λ made.
        AreCandidates (task_of chip.now 0) pairs.now log.now made.candidates) }
    ensures report { IfOk result (λ made.
        made.report ≡ candidates_text chip.now (task_of chip.now 0).defects made.candidates) }
    ensures line { IfOk result (λ made. made.line ≡ diagnosis_line (length made.candidates)
        (length (task_of chip.now 0).defects) (length log.now)) }
{
    let candidates = diagnose_chip(alloc, chip, pairs.as_slice(), log, watch)?;
    with_texts(alloc, chip, candidates, log.len())
}

// Candidates with their texts.
fn with_texts(
    alloc: Global,
    chip: &Chip,
    candidates: Candidates,
    records: usize,
) -> Result<MadeCandidates, NoMemory>
    requires { All (λ one. one.defect < length (task_of chip.now 0).defects) candidates }

    ensures candidates { IfOk result (λ made. made.candidates ≡ candidates) }
    ensures report { IfOk result (λ made.
        made.report ≡ candidates_text chip.now (task_of chip.now 0).defects candidates) }
    ensures line { IfOk result (λ made. made.line
        ≡ diagnosis_line (length candidates) (length (task_of chip.now 0).defects) records) }
{
    let Texts {
        candidates: report,
        line,
    } = texts_of(alloc, chip, candidates.as_slice(), records)?;
    Ok(MadeCandidates {
        candidates,
        report,
        line,
    })
}

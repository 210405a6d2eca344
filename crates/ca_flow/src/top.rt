//! The top call.
ghost use Rattle.std.specs.Prelude.{◌≡◌, ◌≢◌, ℕ, List, Some, map, IfOk, IfErr, IsNone, OnOk};
ghost use Rattle.std.specs.String.{string_bytes};
ghost use Rattle.ca_store.specs.Store.{Nothing};
ghost use Rattle.ca_atpg.specs.Atpg.{IsStil, report_of};
ghost use Rattle.ca_words.specs.Words.{IsCommand};
ghost use Rattle.ca_words.specs.Command.{IsSpelled, IsSpelledAtpg, IsSpelledReplay};
ghost use Rattle.ca_words.specs.code.Command.{NamesBoth, IsWhole};
ghost use Rattle.ca_words.specs.Command.{IsSpelledFlatten, IsSpelledMatrix, IsSpelledGrade};
ghost use Rattle.ca_words.specs.Command.{IsSpelledDiagnose};
ghost use Rattle.ca_flow.specs.Fault.{IsWorkCause};
ghost use Rattle.ca_load.specs.Files.{OnlyReads};
ghost use Rattle.ca_flow.specs.Ends.{IsAsked, Ends};
ghost use Rattle.ca_flow.specs.code.Work.{HasFiles};
ghost use Rattle.ca_flow.specs.declared.finished.Done.TheVariants as done;

use crate::bridges::bridges_work;
use crate::certificates::{answer_work, certificate_work};
use crate::files::{TwoFiles, flat_file, matrix_file, text_file, two_files};
use crate::finished::{Done, Finished, finish, refused};
use crate::work::{Work, printed};
use ca_atpg::Tested;
use ca_base::NoMemory;
use ca_diagnosing::{DiagnosedChip, find_candidates};
use ca_fault::Fault;
use ca_generate::Watch;
use ca_generating::{MadeChip, TestedChip, find_made, find_tests};
use ca_grading::{GradedChip, find_grades};
use ca_load::{Loaded, load};
use ca_on_cell::{find_matrix, find_names, find_values};
use ca_on_chip::{FlatChip, ReplayedChip, SimulatedChip, find_flat, find_replay, find_simulation};
use ca_store::{Sink, Store};
use ca_words::{
    AtpgWords, Command, DiagnoseWords, FlattenWords, GradeWords, MatrixWords, ReplayWords, parse,
};
use std::alloc::Global;

/// Does one command, whose words come without the program's name. Nothing is written or printed before all
/// inputs are judged, and all memory is taken before the first file is created and the first byte is
/// printed. Words that are no command's leave the store and the sink uncalled. The watch is notified how far
/// test generation is.
#[tactic(auto, using(crate::proofs::CauseLemmas::is_whole))]
pub fn run<S: Store, W: Sink, T: Watch>(
    alloc: Global,
    words: &[String],
    store: &mut S,
    out: &mut W,
    watch: &mut T,
) -> Finished
    requires closed { S.opened store.old ≡ Nothing }

    ensures ends { Ends (map string_bytes words.now)
        (record {
          files = S.files store.old;
          store_faults = S.faults store.old;
          sink_faults = W.faults out.old;
          bytes = W.bytes out.old;
        })
        (record {
          files = S.files store.new;
          store_faults = S.faults store.new;
          sink_faults = W.faults out.new;
          bytes = W.bytes out.new;
        })
        result }
    ensures bad_words { ¬ (IsCommand (map string_bytes words.now)) → result.fault ≡ Some Fault.BadWords }
    ensures uncalled { result.fault ≡ Some Fault.BadWords → (store.new ≡ store.old) × (out.new ≡ out.old) }
    ensures closed { S.opened store.new ≡ Nothing }
{
    let Some(command) = parse(words) else {
        return refused(Fault::BadWords);
    };
    match work_of(alloc, &command, store, watch) {
        Ok(work) => finish(alloc, work, store, out),
        Err(fault) => refused(fault),
    }
}

// The work of a command, of which nothing is written or printed yet.
#[tactic(auto, using(crate::proofs::CauseLemmas::no_make_sink))]
fn work_of<'a, S: Store, T: Watch>(
    alloc: Global,
    command: &Command<'a>,
    store: &mut S,
    watch: &mut T,
) -> Result<Work<'a>, Fault>
    requires closed { S.opened store.old ≡ Nothing }
    requires whole { IsWhole command.now }

    ensures asked { IfOk result (λ work. (words : List (List ℕ)) → IsSpelled words command.now
        → IsAsked words (S.files store.old) work.done) }
    ensures file { IfOk result (λ work. (words : List (List ℕ)) → IsSpelled words command.now
        → HasFiles words work.done work.file work.second) }
    ensures cause { IfErr result (λ fault. (words : List (List ℕ)) → IsSpelled words command.now
        → IsWorkCause words (S.files store.old) (S.faults store.old) (S.faults store.new) fault) }
    ensures no_sink { IfErr result (λ fault. fault ≢ Fault.SinkFailed) }
    ensures store { OnlyReads result (S.files store.old) (S.faults store.old)
        (S.files store.new) (S.faults store.new) (S.opened store.new) }
{
    match command {
        Command::Respond(request) => Ok(printed(Done::Respond {
            values: find_values(alloc, request, store)?,
        })),
        Command::Pair(request) => Ok(printed(Done::Pair {
            values: find_values(alloc, request, store)?,
        })),
        Command::Defects(request) => Ok(printed(Done::Defects {
            names: find_names(alloc, request, store)?,
        })),
        Command::Matrix(request) => matrix_work(alloc, request, store),
        Command::Check(names) => {
            let Loaded { chip, chains } = load(alloc, names, store)?;
            Ok(printed(Done::Check { chip, chains }))
        }
        Command::Flatten(request) => flat_work(alloc, request, store),
        Command::Simulate(request) => {
            let SimulatedChip { chip, ends } = find_simulation(alloc, request, store)?;
            Ok(printed(Done::Simulate { chip, ends }))
        }
        Command::Atpg(request) => {
            tests_work(alloc, request, find_tests(alloc, request, store, watch)?)
        }
        Command::Replay(request) => replay_work(alloc, request, store),
        Command::Grade(request) => grades_work(alloc, request, store, watch),
        Command::Diagnose(request) => candidates_work(alloc, request, store, watch),
        Command::Certify(request) => certificate_work(alloc, request, store, watch),
        Command::Verify(request) => answer_work(alloc, request, store),
        Command::Bridges(request) => bridges_work(alloc, request, store, watch),
        Command::Make(number) => {
            let MadeChip {
                chip,
                pairs,
                aims,
                verdicts,
            } = find_made(alloc, *number, watch)?;
            Ok(printed(Done::Make {
                chip,
                pairs,
                aims,
                verdicts,
            }))
        }
        Command::Help => Ok(printed(Done::Help)),
        Command::Version => Ok(printed(Done::Version)),
    }
}

// The work of `matrix`.
fn matrix_work<'a, S: Store>(
    alloc: Global,
    request: &MatrixWords<'a>,
    store: &mut S,
) -> Result<Work<'a>, Fault>
    requires closed { S.opened store.old ≡ Nothing }

    ensures asked { IfOk result (λ work. (words : List (List ℕ)) → IsSpelledMatrix words request.now
        → IsAsked words (S.files store.old) work.done) }
    ensures file { IfOk result (λ work. (words : List (List ℕ)) → IsSpelledMatrix words request.now
        → HasFiles words work.done work.file work.second) }
    ensures cause { IfErr result (λ fault. (words : List (List ℕ)) → IsSpelledMatrix words request.now
        → IsWorkCause words (S.files store.old) (S.faults store.old) (S.faults store.new) fault) }
    ensures no_sink { IfErr result (λ fault. fault ≢ Fault.SinkFailed) }
    ensures store { OnlyReads result (S.files store.old) (S.faults store.old)
        (S.files store.new) (S.faults store.new) (S.opened store.new) }
{
    let matrix = find_matrix(alloc, &request.of, store)?;
    let file = matrix_file(alloc, request.out, &matrix)?;
    Ok(Work {
        done: Done::Matrix { matrix },
        file: Some(file),
        second: None,
    })
}

// The work of `flatten`.
fn flat_work<'a, S: Store>(
    alloc: Global,
    request: &FlattenWords<'a>,
    store: &mut S,
) -> Result<Work<'a>, Fault>
    requires closed { S.opened store.old ≡ Nothing }
    requires both { NamesBoth request.now.of }

    ensures asked { IfOk result (λ work. (words : List (List ℕ)) → IsSpelledFlatten words request.now
        → IsAsked words (S.files store.old) work.done) }
    ensures file { IfOk result (λ work. (words : List (List ℕ)) → IsSpelledFlatten words request.now
        → HasFiles words work.done work.file work.second) }
    ensures cause { IfErr result (λ fault. (words : List (List ℕ)) → IsSpelledFlatten words request.now
        → IsWorkCause words (S.files store.old) (S.faults store.old) (S.faults store.new) fault) }
    ensures no_sink { IfErr result (λ fault. fault ≢ Fault.SinkFailed) }
    ensures store { OnlyReads result (S.files store.old) (S.faults store.old)
        (S.files store.new) (S.faults store.new) (S.opened store.new) }
{
    let FlatChip { chip, net } = find_flat(alloc, &request.of, store)?;
    let file = flat_file(alloc, request.out, &net)?;
    Ok(Work {
        done: Done::Flatten { chip, net },
        file: Some(file),
        second: None,
    })
}

// The work of `atpg`, whose tests were found.
#[tactic(auto, using(crate::proofs::CauseLemmas::atpg_files))]
fn tests_work<'a>(
    alloc: Global,
    request: &AtpgWords<'a>,
    found: TestedChip,
) -> Result<Work<'a>, Fault>
    requires stil { IsStil found.chip found.chains found.made.pairs found.made.stil }
    requires report { found.made.report ≡ report_of found.chip found.made.verdicts }

    ensures done { IfOk result (λ work. work.done ≡ done.Atpg found.chip found.chains
        found.made.pairs found.made.aims found.made.verdicts) }
    ensures file { IfOk result (λ work. (words : List (List ℕ)) → IsSpelledAtpg words request.now
        → HasFiles words work.done work.file work.second) }
    ensures cause { IfErr result (λ fault. fault ≡ Fault.NoMemory) }
{
    let TestedChip { chip, chains, made } = found;
    let Tested {
        pairs,
        aims,
        verdicts,
        stil,
        report,
    } = made;
    let done = Done::Atpg {
        chip,
        chains,
        pairs,
        aims,
        verdicts,
    };
    match two_files(alloc, request.stil, stil, request.report, report) {
        Ok(TwoFiles { file, second }) => Ok(Work {
            done,
            file: Some(file),
            second: Some(second),
        }),
        Err(NoMemory) => {
            drop(done);
            Err(Fault::NoMemory)
        }
    }
}

// The work of `replay`.
#[tactic(auto, using(crate::proofs::CauseLemmas::replay_asked, crate::proofs::CauseLemmas::replay_cause, crate::proofs::CauseLemmas::no_run_sink))]
fn replay_work<'a, S: Store>(
    alloc: Global,
    request: &ReplayWords<'a>,
    store: &mut S,
) -> Result<Work<'a>, Fault>
    requires closed { S.opened store.old ≡ Nothing }
    requires both { NamesBoth request.now.of.of }

    ensures asked { IfOk result (λ work. (words : List (List ℕ)) → IsSpelledReplay words request.now
        → IsAsked words (S.files store.old) work.done) }
    ensures file { IfOk result (λ work. (words : List (List ℕ)) → IsSpelledReplay words request.now
        → HasFiles words work.done work.file work.second) }
    ensures cause { IfErr result (λ fault. (words : List (List ℕ)) → IsSpelledReplay words request.now
        → IsWorkCause words (S.files store.old) (S.faults store.old) (S.faults store.new) fault) }
    ensures no_sink { IfErr result (λ fault. fault ≢ Fault.SinkFailed) }
    ensures store { OnlyReads result (S.files store.old) (S.faults store.old)
        (S.files store.new) (S.faults store.new) (S.opened store.new) }
{
    let ReplayedChip { chip, ends } = find_replay(alloc, request, store)?;
    Ok(printed(Done::Replay { chip, ends }))
}

// The work of `grade`.
#[tactic(auto, using(crate::proofs::CauseLemmas::grade_asked, crate::proofs::CauseLemmas::grade_files, crate::proofs::CauseLemmas::grade_cause, crate::proofs::CauseLemmas::no_grade_sink))]
fn grades_work<'a, S: Store, T: Watch>(
    alloc: Global,
    request: &GradeWords<'a>,
    store: &mut S,
    watch: &mut T,
) -> Result<Work<'a>, Fault>
    requires closed { S.opened store.old ≡ Nothing }

    ensures asked { IfOk result (λ work. (words : List (List ℕ)) → IsSpelledGrade words request.now
        → IsAsked words (S.files store.old) work.done) }
    ensures file { IfOk result (λ work. (words : List (List ℕ)) → IsSpelledGrade words request.now
        → HasFiles words work.done work.file work.second) }
    ensures cause { IfErr result (λ fault. (words : List (List ℕ)) → IsSpelledGrade words request.now
        → IsWorkCause words (S.files store.old) (S.faults store.old) (S.faults store.new) fault) }
    ensures no_sink { IfErr result (λ fault. fault ≢ Fault.SinkFailed) }
    ensures store { OnlyReads result (S.files store.old) (S.faults store.old)
        (S.files store.new) (S.faults store.new) (S.opened store.new) }
{
    let GradedChip {
        chip,
        chains,
        pairs,
        grades,
        report,
    } = find_grades(alloc, request, store, watch)?;
    let done = Done::Grade {
        chip,
        chains,
        pairs,
        grades,
    };
    match text_file(alloc, request.report, report) {
        Ok(file) => Ok(Work {
            done,
            file: Some(file),
            second: None,
        }),
        Err(NoMemory) => {
            drop(done);
            Err(Fault::NoMemory)
        }
    }
}

// The work of `diagnose`.
#[tactic(auto, using(crate::proofs::DiagnoseLemmas::diagnose_asked, crate::proofs::DiagnoseLemmas::diagnose_files, crate::proofs::DiagnoseLemmas::diagnose_cause, crate::proofs::DiagnoseLemmas::no_diagnose_sink))]
fn candidates_work<'a, S: Store, T: Watch>(
    alloc: Global,
    request: &DiagnoseWords<'a>,
    store: &mut S,
    watch: &mut T,
) -> Result<Work<'a>, Fault>
    requires closed { S.opened store.old ≡ Nothing }

    ensures asked { IfOk result (λ work. (words : List (List ℕ)) → IsSpelledDiagnose words request.now
        → IsAsked words (S.files store.old) work.done) }
    ensures file { IfOk result (λ work. (words : List (List ℕ)) → IsSpelledDiagnose words request.now
        → HasFiles words work.done work.file work.second) }
    ensures cause { IfErr result (λ fault. (words : List (List ℕ)) → IsSpelledDiagnose words request.now
        → IsWorkCause words (S.files store.old) (S.faults store.old) (S.faults store.new) fault) }
    ensures no_sink { IfErr result (λ fault. fault ≢ Fault.SinkFailed) }
    ensures store { OnlyReads result (S.files store.old) (S.faults store.old)
        (S.files store.new) (S.faults store.new) (S.opened store.new) }
{
    let DiagnosedChip {
        chip,
        chains,
        pairs,
        log,
        candidates,
        report,
        line,
    } = find_candidates(alloc, request, store, watch)?;
    let done = Done::Diagnose {
        chip,
        chains,
        pairs,
        log,
        candidates,
        line,
    };
    match text_file(alloc, request.out, report) {
        Ok(file) => Ok(Work {
            done,
            file: Some(file),
            second: None,
        }),
        Err(NoMemory) => {
            drop(done);
            Err(Fault::NoMemory)
        }
    }
}

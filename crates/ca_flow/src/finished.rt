//! How a command ends.
ghost use Rattle.std.specs.Prelude.{◌≡◌, ◌⊎◌, ℕ, List, Some, IsNone, IfOk};
ghost use Rattle.ca_store.specs.Store.{Nothing};
ghost use Rattle.ca_fault.specs.FaultLine.{status_of};
ghost use Rattle.ca_flow.specs.Finished.{status_reported, IsReported, ReportsSinkFault};
ghost use Rattle.ca_flow.specs.Ends.{IsAsked};
ghost use Rattle.ca_flow.specs.code.Work.{HasFiles, HasPrinted, FailsToPrint, EndsWork};

use crate::usage::{usage, version};
use crate::work::{Work, write_out};
use ca_atpg::summary_text;
use ca_base::NoMemory;
use ca_bridge_report::bridges_line;
use ca_bridge_verdicts::BridgeVerdicts;
use ca_certifying::certified_line;
use ca_chip_grade::grades_line;
use ca_claim::{Answer, Certificate};
use ca_cluster::BridgeList;
use ca_credit::Verdicts;
use ca_diag::Candidates;
use ca_fault::Fault;
use ca_generate::Aims;
use ca_grade::Grades;
use ca_lex::{Names, Text};
use ca_linked::Chip;
use ca_log::Log;
use ca_matrix::Matrix;
use ca_net::{FlatNet, Trit};
use ca_on_cell::{PinValues, lines_of_names, lines_of_values, summary};
use ca_on_chip::{check_line, flatten_line, replay_lines, simulate_lines};
use ca_pair::Pairs;
use ca_scan::Chains;
use ca_simulate::OutputEnds;
use ca_store::{Failed, Sink, Store, write_all};
use std::alloc::Global;

/// The exit status, the fault where the status isn't 0, and what was done where the work was whole.
#[derive(Drop)]
pub struct Finished {
    pub status: u8,
    pub fault: Option<Fault>,
    pub done: Option<Done>,
}

/// The work of a command, from which its lines are printed and its file is written.
#[derive(Drop)]
pub enum Done {
    /// The value to which each output pin of a cell settles under a vector.
    Respond {
        values: PinValues,
    },
    /// The value to which each output pin of a cell, or of one with a defect, settles under a pair of
    /// vectors.
    Pair {
        values: PinValues,
    },
    /// The names of the defects of a cell, in their order.
    Defects {
        names: Names,
    },
    /// The matrix of a cell.
    Matrix {
        matrix: Matrix,
    },
    /// A linked chip, with its scan chains.
    Check {
        chip: Chip,
        chains: Chains,
    },
    /// A linked chip, with its flat network, good or with a defect.
    Flatten {
        chip: Chip,
        net: FlatNet,
    },
    /// A linked chip, and what its observed outputs settle to under a pair of vectors.
    Simulate {
        chip: Chip,
        ends: OutputEnds,
    },
    /// A linked chip with its scan chains, the listed pairs, for each the place of the defect for which it
    /// was found, and a verdict for each defect.
    Atpg {
        chip: Chip,
        chains: Chains,
        pairs: Pairs,
        aims: Aims,
        verdicts: Verdicts,
    },
    /// A linked chip, and what its observed outputs end with in one run.
    Replay {
        chip: Chip,
        ends: Vec<Trit>,
    },
    /// A linked chip with its scan chains, the pairs of a file of patterns, and a grade for each defect.
    Grade {
        chip: Chip,
        chains: Chains,
        pairs: Pairs,
        grades: Grades,
    },
    /// A linked chip with its scan chains, the pairs of a file of patterns, a log of failing outputs, the
    /// defects that it leaves, and the line that reports how many.
    Diagnose {
        chip: Chip,
        chains: Chains,
        pairs: Pairs,
        log: Log,
        candidates: Candidates,
        line: Text,
    },
    /// A linked chip with its scan chains, the listed pairs, for each the place of the defect for which it
    /// was found, and a certificate.
    Certify {
        chip: Chip,
        chains: Chains,
        pairs: Pairs,
        aims: Aims,
        certificate: Certificate,
    },
    /// A linked chip with its scan chains, the pairs of a file of patterns, a certificate, whether its claims
    /// stand, and the line that tells it.
    Verify {
        chip: Chip,
        chains: Chains,
        pairs: Pairs,
        certificate: Certificate,
        answer: Answer,
        line: Text,
    },
    /// A linked chip with its scan chains, the bridges of one of its instances, the listed pairs, for each
    /// the place of the bridge for which it was found, and a verdict for each bridge.
    Bridges {
        chip: Chip,
        chains: Chains,
        bridges: BridgeList,
        pairs: Pairs,
        aims: Aims,
        verdicts: BridgeVerdicts,
    },
    /// A generated chip, the listed pairs, for each the place of the defect for which it was found, and a
    /// verdict for each defect.
    Make {
        chip: Chip,
        pairs: Pairs,
        aims: Aims,
        verdicts: Verdicts,
    },
    /// How the program is used.
    Help,
    /// Which version the program is.
    Version,
}

impl Done {
    // The lines that report the work.
    fn lines(&self, alloc: Global) -> Result<Text, NoMemory>
        ensures { IfOk result (IsReported self.now) }
    {
        match self {
            Done::Respond { values } | Done::Pair { values } => lines_of_values(alloc, values),
            Done::Defects { names } => lines_of_names(alloc, names),
            Done::Matrix { matrix } => summary(alloc, matrix),
            Done::Check { chip, chains } => check_line(alloc, chip, chains),
            Done::Flatten { net, .. } => flatten_line(alloc, net),
            Done::Simulate { chip, ends } => simulate_lines(alloc, chip, ends),
            Done::Atpg {
                pairs,
                verdicts,
                ..
            }
            | Done::Make {
                pairs,
                verdicts,
                ..
            } => summary_text(alloc, verdicts, pairs.len()),
            Done::Replay { chip, ends } => replay_lines(alloc, chip, ends),
            Done::Grade { pairs, grades, .. } => grades_line(alloc, grades, pairs.len()),
            Done::Diagnose { line, .. } | Done::Verify { line, .. } => {
                Text::from_bytes(alloc, line.as_bytes())
            }
            Done::Certify {
                pairs,
                certificate,
                ..
            } => certified_line(alloc, certificate.claims.as_slice(), pairs.len()),
            Done::Bridges {
                pairs,
                verdicts,
                ..
            } => bridges_line(alloc, verdicts, pairs.len()),
            Done::Help => usage(alloc),
            Done::Version => version(alloc),
        }
    }
}

impl Finished {
    /// Drops the end of a command. Where it is dropped otherwise, the prover goes through all that it may
    /// have once more.
    pub fn discard(self) {
        let Finished { done, .. } = self;
        if let Some(done) = done {
            discard_done(done);
        }
    }
}

// Drops the work. Its larger parts are dropped each by a call, so that the end of each is proved once.
fn discard_done(done: Done) {
    match done {
        Done::Respond { .. } | Done::Pair { .. } | Done::Defects { .. } => {}
        Done::Matrix { matrix } => drop(matrix),
        Done::Check { chip, .. } => drop(chip),
        Done::Flatten { chip, .. } => drop(chip),
        Done::Simulate { chip, .. } => drop(chip),
        Done::Atpg {
            chip,
            pairs,
            aims,
            verdicts,
            ..
        } => {
            drop(chip);
            drop(pairs);
            drop(aims);
            drop(verdicts);
        }
        Done::Replay { chip, .. } => drop(chip),
        Done::Grade {
            chip,
            pairs,
            grades,
            ..
        } => {
            drop(chip);
            drop(pairs);
            drop(grades);
        }
        Done::Diagnose {
            chip,
            pairs,
            log,
            candidates,
            ..
        } => {
            drop(chip);
            drop(pairs);
            drop(log);
            drop(candidates);
        }
        Done::Certify {
            chip,
            pairs,
            certificate,
            ..
        } => {
            drop(chip);
            drop(pairs);
            drop(certificate);
        }
        Done::Verify {
            chip,
            pairs,
            certificate,
            ..
        } => {
            drop(chip);
            drop(pairs);
            drop(certificate);
        }
        Done::Bridges {
            chip,
            bridges,
            pairs,
            verdicts,
            ..
        } => {
            drop(chip);
            drop(bridges);
            drop(pairs);
            drop(verdicts);
        }
        Done::Make {
            chip,
            pairs,
            aims,
            verdicts,
        } => {
            drop(chip);
            drop(pairs);
            drop(aims);
            drop(verdicts);
        }
        Done::Help | Done::Version => {}
    }
}

/// The end of a command that was refused before its work was whole.
pub(crate) fn refused(fault: Fault) -> Finished
    ensures fault { result.fault ≡ Some fault }
    ensures status { result.status ≡ status_of fault }
    ensures done { IsNone result.done }
{
    Finished {
        status: fault.status(),
        fault: Some(fault),
        done: None,
    }
}

/// Writes the file of work that is whole, if it has one, and prints its lines. The memory for them is taken
/// before the file is created. Where the writing fails nothing is printed.
pub(crate) fn finish<S: Store, W: Sink>(
    alloc: Global,
    work: Work<'_>,
    store: &mut S,
    out: &mut W,
) -> Finished
    requires closed { S.opened store.old ≡ Nothing }

    ensures ends { (words : List (List ℕ))
        → HasFiles words work.entry.done work.entry.file work.entry.second
        → IsAsked words (S.files store.old) work.entry.done
        → EndsWork words
        (record {
          files = S.files store.old;
          store_faults = S.faults store.old;
          sink_faults = W.faults out.old;
          bytes = W.bytes out.old;
        })
        (record {
          files = S.files store.new;
          store_faults = S.faults store.new;
          sink_faults = W.faults out.new;
          bytes = W.bytes out.new;
        })
        work.entry.done result }
    ensures closed { S.opened store.new ≡ Nothing }
{
    let Work { done, file, second } = work;
    let Ok(text) = done.lines(alloc) else {
        discard_done(done);
        return refused(Fault::NoMemory);
    };
    match write_out(file, second, store) {
        Ok(()) => print_done(done, &text, out),
        Err(fault) => Finished {
            status: fault.status(),
            fault: Some(fault),
            done: Some(done),
        },
    }
}

// Prints the text of work that is whole.
fn print_done<W: Sink>(done: Done, text: &Text, out: &mut W) -> Finished
    ensures status { result.status ≡ status_reported result.fault }
    ensures done { result.done ≡ Some done }
    ensures ends { HasPrinted text.now (W.bytes out.old) (W.bytes out.new) result
        ⊎ FailsToPrint text.now (W.bytes out.old) (W.bytes out.new)
        (W.faults out.old) (W.faults out.new) result }
    ensures count { ReportsSinkFault result.fault (W.faults out.old) (W.faults out.new) }
{
    match write_all(out, text.as_bytes()) {
        Ok(()) => Finished {
            status: 0,
            fault: None,
            done: Some(done),
        },
        Err(Failed) => Finished {
            status: 4,
            fault: Some(Fault::SinkFailed),
            done: Some(done),
        },
    }
}

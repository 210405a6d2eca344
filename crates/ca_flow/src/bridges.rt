//! The work of the command on pin bridges.
ghost use Rattle.std.specs.Prelude.{◌≡◌, ◌≢◌, ℕ, List, Some, IfOk, IfErr, OnOk};
ghost use Rattle.ca_store.specs.Store.{Nothing};
ghost use Rattle.ca_words.specs.Command.{IsSpelledBridges};
ghost use Rattle.ca_flow.specs.Fault.{IsWorkCause};
ghost use Rattle.ca_load.specs.Files.{OnlyReads};
ghost use Rattle.ca_flow.specs.Ends.{IsAsked};
ghost use Rattle.ca_flow.specs.code.Work.{HasFiles};

use crate::files::{TwoFiles, two_files};
use crate::finished::Done;
use crate::work::Work;
use ca_base::NoMemory;
use ca_bridges::Judged;
use ca_bridging::{BridgeTests, BridgedChip, find_bridges};
use ca_fault::Fault;
use ca_generate::Watch;
use ca_store::Store;
use ca_words::BridgesWords;
use std::alloc::Global;

/// The work of `bridges`.
#[tactic(auto, using(crate::proofs::BridgeLemmas::bridges_asked, crate::proofs::BridgeLemmas::bridges_files, crate::proofs::BridgeLemmas::bridges_cause, crate::proofs::BridgeLemmas::no_bridges_sink))]
pub(crate) fn bridges_work<'a, S: Store, T: Watch>(
    alloc: Global,
    request: &BridgesWords<'a>,
    store: &mut S,
    watch: &mut T,
) -> Result<Work<'a>, Fault>
    requires closed { S.opened store.old ≡ Nothing }

    ensures asked { IfOk result (λ work. (words : List (List ℕ)) → IsSpelledBridges words request.now
        → IsAsked words (S.files store.old) work.done) }
    ensures file { IfOk result (λ work. (words : List (List ℕ)) → IsSpelledBridges words request.now
        → HasFiles words work.done work.file work.second) }
    ensures cause { IfErr result (λ fault. (words : List (List ℕ)) → IsSpelledBridges words request.now
        → IsWorkCause words (S.files store.old) (S.faults store.old) (S.faults store.new) fault) }
    ensures no_sink { IfErr result (λ fault. fault ≢ Fault.SinkFailed) }
    ensures store { OnlyReads result (S.files store.old) (S.faults store.old)
        (S.files store.new) (S.faults store.new) (S.opened store.new) }
{
    let BridgedChip { chip, chains, made } = find_bridges(alloc, request, store, watch)?;
    let BridgeTests {
        bridges,
        judged,
        stil,
        report,
    } = made;
    let Judged {
        pairs,
        aims,
        verdicts,
    } = judged;
    let done = Done::Bridges {
        chip,
        chains,
        bridges,
        pairs,
        aims,
        verdicts,
    };
    match two_files(alloc, request.stil, stil, request.report, report) {
        Ok(TwoFiles { file, second }) => Ok(Work {
            done,
            file: Some(file),
            second: Some(second),
        }),
        Err(NoMemory) => {
            drop(done);
            Err(Fault::NoMemory)
        }
    }
}

//! The log of a chip that a file has.
ghost use Rattle.std.specs.Prelude.{◌≡◌, ◌<◌, ◌^◌, length, Some, IfErr, IfOk, OnOk};
ghost use Rattle.std.specs.List.{All};
ghost use Rattle.ca_store.specs.Store.{Nothing};
ghost use Rattle.ca_linked.specs.Linked.{outputs_of};
ghost use Rattle.ca_outputs.specs.Outputs.{output_names};
ghost use Rattle.ca_log.specs.LogText.{IsLog};
ghost use Rattle.ca_load.specs.Files.{OfFile, OnlyReads};
ghost use Rattle.ca_diagnosing.specs.Diagnosing.{IsLogIn};
ghost use Rattle.ca_diagnosing.specs.code.Stages.{IsLogTextStage, IsLogStage};

use ca_base::List;
use ca_chip_diag::read_chip_log;
use ca_fault::Fault;
use ca_lex::Text;
use ca_linked::Chip;
use ca_load::read_input;
use ca_log::{Log, LogFault};
use ca_net::Trit;
use ca_store::Store;
use std::alloc::Global;

/// The greatest number of bytes of a log: 16 MiB.
pub const MAX_LOG: usize = 16_777_216;

/// The log that the file of this name has, of a chip under whose pairs these values are expected. A fault of
/// the file takes over the name as it was typed.
#[tactic(auto, using(crate::proofs::DiagnoseLemmas::at_file, crate::proofs::DiagnoseLemmas::at_text))]
pub(crate) fn open_log<S: Store>(
    alloc: Global,
    name: &str,
    typed: Text,
    chip: &Chip,
    expected: &[List<Trit>],
    store: &mut S,
) -> Result<Log, Fault>
    requires closed { S.opened store.old ≡ Nothing }
    requires typed { typed ≡ name.now }
    requires few { length expected.now < 2 ^ 32 }
    requires values { All (λ values. length values ≡ length (outputs_of chip.now)) expected.now }

    ensures ok { IfOk result (λ log.
        OfFile (S.files store.old) name.now MAX_LOG (IsLogIn chip.now expected.now log)) }
    ensures log { IfOk result (IsLog (output_names chip.now) expected.now) }
    ensures cause { IfErr result (IsLogStage chip.now expected.now name.now (S.files store.old)
        (S.faults store.old) (S.faults store.new)) }
    ensures store { OnlyReads result (S.files store.old) (S.faults store.old)
        (S.files store.new) (S.faults store.new) (S.opened store.new) }
{
    let bytes = read_input(alloc, name, typed, MAX_LOG, store)?;
    log_in(alloc, chip, expected, bytes.as_bytes())
}

// The log that the bytes are.
fn log_in(alloc: Global, chip: &Chip, expected: &[List<Trit>], bytes: &[u8]) -> Result<Log, Fault>
    requires few { length expected.now < 2 ^ 32 }
    requires values { All (λ values. length values ≡ length (outputs_of chip.now)) expected.now }

    ensures reads { IfOk result (λ log. IsLogIn chip.now expected.now log bytes.now) }
    ensures log { IfOk result (IsLog (output_names chip.now) expected.now) }
    ensures cause { IfErr result (IsLogTextStage chip.now expected.now bytes.now) }
{
    match read_chip_log(alloc, chip, expected, bytes) {
        Ok(log) => Ok(log),
        Err(LogFault::BadLogRow { row }) => Err(Fault::Log { row }),
        Err(LogFault::NoMemory) => Err(Fault::NoMemory),
    }
}

//! The work of a command, before it is written and printed.
ghost use Rattle.std.specs.Prelude.{◌≡◌, IfErr, IsNone, IsSomeAnd, OnOk};
ghost use Rattle.ca_store.specs.Store.{Nothing, KeepsCount};
ghost use Rattle.ca_flow.specs.code.Work.{HasWritten, FailsToWrite, HaveBeenWritten, FailToWrite};

use crate::finished::Done;
use ca_fault::Fault;
use ca_lex::Text;
use ca_store::{Store, write_file};

/// The work of a command, with the file that it is to be written to, if there is one, and the second, if
/// there are two.
#[derive(Drop)]
pub(crate) struct Work<'a> {
    pub done: Done,
    pub file: Option<OutFile<'a>>,
    pub second: Option<OutFile<'a>>,
}

/// A file to be written. Its name stands also in memory of its own, since the fault of a failed writing
/// takes none.
#[derive(Drop)]
pub(crate) struct OutFile<'a> {
    pub name: &'a str,
    pub typed: Text,
    pub bytes: Text,
}

// Writes the file, if there is one.
fn write_one<S: Store>(file: Option<OutFile<'_>>, store: &mut S) -> Result<(), Fault>
    requires closed { S.opened store.old ≡ Nothing }

    ensures ok { OnOk result (HasWritten file.entry (S.files store.old) (S.files store.new)) }
    ensures cause { IfErr result (λ fault. IsSomeAnd file.entry (FailsToWrite (S.files store.old)
        (S.files store.new) (S.faults store.old) (S.faults store.new) fault)) }
    ensures count { KeepsCount result (S.faults store.old) (S.faults store.new) }
    ensures closed { S.opened store.new ≡ Nothing }
{
    let Some(file) = file else {
        return Ok(());
    };
    match write_file(store, file.name, file.bytes.as_bytes()) {
        Ok(()) => Ok(()),
        Err(_) => Err(Fault::StoreFailed { name: file.typed }),
    }
}

/// Writes the files, if there are some, one after the other. It takes no memory. The second is not begun
/// where the first failed.
#[tactic(auto, using(crate::proofs::WorkLemmas::were_written, crate::proofs::WorkLemmas::first_fails, crate::proofs::WorkLemmas::second_fails))]
pub(crate) fn write_out<S: Store>(
    file: Option<OutFile<'_>>,
    second: Option<OutFile<'_>>,
    store: &mut S,
) -> Result<(), Fault>
    requires closed { S.opened store.old ≡ Nothing }

    ensures ok { OnOk result
        (HaveBeenWritten file.entry second.entry (S.files store.old) (S.files store.new)) }
    ensures cause { IfErr result (λ fault. FailToWrite (S.files store.old) (S.files store.new)
        (S.faults store.old) (S.faults store.new) fault file.entry second.entry) }
    ensures count { KeepsCount result (S.faults store.old) (S.faults store.new) }
    ensures closed { S.opened store.new ≡ Nothing }
{
    match write_one(file, store) {
        Ok(()) => write_one(second, store),
        Err(fault) => Err(fault),
    }
}

/// Work that is printed alone.
pub(crate) fn printed<'a>(done: Done) -> Work<'a>
    ensures done { result.done ≡ done }
    ensures none { IsNone result.file }
    ensures no_second { IsNone result.second }
{
    Work {
        done,
        file: None,
        second: None,
    }
}

//! The bytes of a named file.
ghost use Rattle.std.specs.Prelude.{◌≡◌, ◌<◌, Some, IfErr, IfOk, OnOk};
ghost use Rattle.ca_store.specs.Store.{Nothing};
ghost use Rattle.ca_store.specs.ReadFault.{IsWhole};
ghost use Rattle.ca_load.specs.Files.{IsReadCause, OnlyReads};

use ca_fault::Fault;
use ca_lex::Text;
use ca_store::{ReadFault, Store, read_file};
use std::alloc::Global;

/// The bytes of the file of this name, which has at most `limit` bytes. A fault takes over the name as it was
/// typed.
pub fn read_input<S: Store>(
    alloc: Global,
    name: &str,
    typed: Text,
    limit: usize,
    store: &mut S,
) -> Result<Text, Fault>
    requires closed { S.opened store.old ≡ Nothing }
    requires typed { typed ≡ name.now }
    requires room { limit < usize.MAX }

    ensures ok { IfOk result (IsWhole (S.files store.old) name.now limit) }
    ensures cause { IfErr result (IsReadCause name.now (S.files store.old) limit
        (S.faults store.old) (S.faults store.new)) }
    ensures store { OnlyReads result (S.files store.old) (S.faults store.old)
        (S.files store.new) (S.faults store.new) (S.opened store.new) }
{
    match read_file(alloc, store, name, limit) {
        Ok(text) => Ok(text),
        Err(ReadFault::StoreFailed) => Err(Fault::StoreFailed { name: typed }),
        Err(ReadFault::TooLong { taken }) => Err(Fault::TooLong { name: typed, taken }),
        Err(ReadFault::NoMemory) => Err(Fault::NoMemory),
    }
}

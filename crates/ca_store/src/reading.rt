//! The bytes of a whole file, up to a limit.
ghost use Rattle.std.specs.Prelude.{◌≡◌, ◌≤◌, ◌<◌, [], length, true, Ok, IfOk, IfErr, OnOk, IsErrOf};
ghost use Rattle.ca_store.specs.Store.{Nothing, IsReading, KeepsCount, Lacks};
ghost use Rattle.ca_store.specs.ReadFault.{IsCause, IsWhole};
ghost use Rattle.ca_store.specs.code.Reading.{IsReadUpTo, IsStop};
ghost use Rattle.ca_store.specs.declared.reading.ReadFault.TheVariants as fault;

use crate::store::{Failed, Store};
use ca_base::NoMemory;
use ca_lex::Text;
use std::alloc::Global;

/// Why a file was not read to its end.
#[derive(Clone, Copy, Debug, PartialEq, Eq)]
pub enum ReadFault {
    /// A call of the store failed.
    StoreFailed,

    /// The file has more bytes than the limit. That many were taken.
    TooLong { taken: usize },

    /// There was no memory for the bytes.
    NoMemory,
}

impl From<Failed> for ReadFault {
    ghost from_gives = { λ _ e. e ≡ fault.StoreFailed };

    fn from(_: Failed) -> Self {
        ReadFault::StoreFailed
    }
}

impl From<NoMemory> for ReadFault {
    ghost from_gives = { λ _ e. e ≡ fault.NoMemory };

    fn from(_: NoMemory) -> Self {
        ReadFault::NoMemory
    }
}

/// Reads a file to its end, or one byte past the limit. Nothing is open afterwards.
#[tactic(auto, using(crate::proofs::Gathers::is_open_in_reading))]
pub fn read_file<S: Store>(
    alloc: Global,
    store: &mut S,
    name: &str,
    limit: usize,
) -> Result<Text, ReadFault>
    requires closed { S.opened store.old ≡ Nothing }
    requires room { limit < usize.MAX }

    ensures ok { IfOk result (IsWhole (S.files store.old) name.now limit) }
    ensures closed { S.opened store.new ≡ Nothing }
    ensures kept { S.files store.new ≡ S.files store.old }
    ensures missing { Lacks (S.files store.old) name.now → IsErrOf result ReadFault.StoreFailed }
    ensures cause { IfErr result
        (IsCause (S.files store.old) name.now limit (S.faults store.old) (S.faults store.new)) }
    ensures count { KeepsCount result (S.faults store.old) (S.faults store.new) }
{
    store.open(name)?;
    let mut text = Text::new(alloc);
    match read_open(store, &mut text, limit) {
        Ok(is_whole) => {
            store.close()?;
            if is_whole {
                Ok(text)
            } else {
                Err(ReadFault::TooLong { taken: limit + 1 })
            }
        }
        Err(ReadFault::NoMemory) => {
            store.close()?;
            Err(ReadFault::NoMemory)
        }
        Err(fault) => Err(fault),
    }
}

// Reads the open file to its end, and answers true, or up to one byte past the limit.
fn read_open<S: Store>(store: &mut S, text: &mut Text, limit: usize) -> Result<bool, ReadFault>
    requires in_reading { IsReading (S.opened store.old) }
    requires empty { text.old ≡ [] }
    requires room { limit < usize.MAX }

    ensures in_reading { OnOk result (IsReading (S.opened store.new)) }
    ensures within { result ≡ Ok true → length text.new ≤ limit }
    ensures read { IfOk result (λ is_whole.
        IsReadUpTo is_whole limit text.new (S.files store.old) (S.opened store.old)) }
    ensures stop { IfErr result
        (IsStop (S.opened store.new) (S.faults store.old) (S.faults store.new)) }
    ensures kept { S.files store.new ≡ S.files store.old }
    ensures count { KeepsCount result (S.faults store.old) (S.faults store.new) }
{
    let mut chunk = [0u8; 4096];
    'chunks: while text.len() <= limit {
        let want = (limit + 1 - text.len()).min(4096);
        let n = store.read(&mut chunk[..want])?;
        if n == 0 {
            return Ok(true);
        }
        text.append(&chunk[..n])?;
    }
    Ok(false)
}

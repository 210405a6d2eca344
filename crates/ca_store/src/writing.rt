//! A whole file, written.
ghost use Rattle.std.specs.Prelude.{◌≡◌, Some, OnOk, OnErr};
ghost use Rattle.ca_store.specs.Store.{Nothing, Rose, KeepsCount};
ghost use Rattle.ca_store.specs.Writing.{ChangesOnly, MayWrite};

use crate::store::{Failed, Store};

/// Writes a file of these bytes, in as many writes as the store asks for, in place of the file of this name
/// where there is one. After `Failed` the file is as it was or holds some of the first bytes. Nothing is open
/// afterwards.
pub fn write_file<S: Store>(store: &mut S, name: &str, bytes: &[u8]) -> Result<(), Failed>
    requires closed { S.opened store.old ≡ Nothing }

    ensures ok { OnOk result
        (ChangesOnly (S.files store.old) (S.files store.new) name.now (Some bytes.now)) }
    ensures err { OnErr result
        (MayWrite (S.files store.old) (S.files store.new) name.now bytes.now) }
    ensures closed { S.opened store.new ≡ Nothing }
    ensures cause { OnErr result (Rose (S.faults store.old) (S.faults store.new)) }
    ensures count { KeepsCount result (S.faults store.old) (S.faults store.new) }
{
    store.create(name)?;
    let mut done = 0;
    'pieces: while done < bytes.len() {
        done += store.write(&bytes[done..])?;
    }
    store.close()
}

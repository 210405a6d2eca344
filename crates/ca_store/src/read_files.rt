//! Which files of the system were read, whatever their names.
ghost use Rattle.std.specs.Prelude.{◌≡◌, ◌++◌, [], ◌∷◌, length, OnOk, OnErr, IsTrue, ◌↔◌};
ghost use Rattle.std.specs.List.{Contains};

use crate::store::Failed;
use std::marker::Model;

/// How many files a store opens for reading at the most.
pub(crate) const MOST_READ: usize = 8;

/// A file of the system, whatever its name: the number of its device, and its own number there.
#[derive(Clone, Copy, Debug, PartialEq, Eq)]
pub(crate) struct FileIdentity {
    pub device: u64,
    pub number: u64,
}

/// The files that were read, in order.
#[derive(Drop, Debug)]
pub(crate) struct ReadFiles {
    files: [FileIdentity; MOST_READ],
    count: usize,
}

impl Model for ReadFiles {
    ghost use Rattle.std.specs.Prelude.{List, ◌≤◌, take};
    ghost use Rattle.ca_store.specs.declared.read_files.FileIdentity.{FileIdentity};

    ghost Value = { List FileIdentity };

    ghost view = { λ read. take read.count read.files };

    ghost invariant = { λ read. read.count ≤ 8 };
}

impl ReadFiles {
    /// No files.
    pub(crate) fn new() -> Self
        ensures { result ≡ [] }
    {
        ReadFiles {
            files: [FileIdentity {
                device: 0,
                number: 0,
            }; MOST_READ],
            count: 0,
        }
    }

    /// Whether the file was read.
    pub(crate) fn has(&self, file: FileIdentity) -> bool
        ensures { IsTrue result ↔ Contains self.now file }
    {
        self.files[..self.count].contains(&file)
    }

    /// Adds a file, unless as many are there as may be.
    pub(crate) fn add(&mut self, file: FileIdentity) -> Result<(), Failed>
        ensures ok { OnOk result (self.new ≡ self.old ++ file ∷ []) }
        ensures err { OnErr result (self.new ≡ self.old) }
        ensures cause { OnErr result (length self.old ≡ 8) }
    {
        if self.count == MOST_READ {
            return Err(Failed);
        }
        self.files[self.count] = file;
        self.count += 1;
        Ok(())
    }
}

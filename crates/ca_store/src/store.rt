//! A store of files, of which at most one is open at a time.
ghost use Rattle.std.specs.Prelude.{◌≡◌, ◌≤◌, ◌<◌, ◌^◌, ℕ, Option, IfOk, OnOk, OnErr};
ghost use Rattle.ca_store.specs.Store.{Files, Opened, Nothing, IsReading, IsWriting, IsOpen, Rose};
ghost use Rattle.ca_store.specs.Store.{KeepsCount, FailsAtMissing, OpensFile, ReadsOn};
ghost use Rattle.ca_store.specs.Writing.{CreatesFile, MayEmpty, WritesOn};
ghost use Rattle.ca_store.specs.Memory.{next_number};

/// A call of a store or a sink failed.
#[derive(Clone, Copy, Debug, PartialEq, Eq)]
pub struct Failed;

/// A store of files. After `Failed` nothing is open.
pub trait Store {
    /// What the names stand for, where that is known.
    ghost files: { Self → Option Files };

    /// What is open. Its name and place mean something where the files are known.
    ghost opened: { Self → Opened };

    /// How often a call failed, up to 2^64 - 1. A name that the known files lack doesn't count.
    ghost faults: { Self → ℕ };

    /// Opens a file for reading, at its start.
    fn open(&mut self, name: &str) -> Result<(), Failed>
        requires { opened self.old ≡ Nothing }

        ensures ok { OnOk result (OpensFile (files self.old) name.now (opened self.new)) }
        ensures err { OnErr result (opened self.new ≡ Nothing) }
        ensures kept { files self.new ≡ files self.old }

        ensures cause { FailsAtMissing result (files self.old) name.now
            (faults self.old) (faults self.new) }
        ensures count { KeepsCount result (faults self.old) (faults self.new) };

    /// Reads next bytes into the front of a buffer, and answers how many. An answer of 0 for a buffer that is
    /// not empty is the end of the file.
    fn read(&mut self, into: &mut [u8]) -> Result<usize, Failed>
        requires { IsReading (opened self.old) }

        ensures ok { IfOk result (λ n.
            ReadsOn n into.new (files self.old) (opened self.old) (opened self.new)) }
        ensures err { OnErr result (opened self.new ≡ Nothing) }
        ensures kept { files self.new ≡ files self.old }
        ensures cause { OnErr result (Rose (faults self.old) (faults self.new)) }
        ensures count { KeepsCount result (faults self.old) (faults self.new) };

    /// Makes a file of no bytes, or empties the file of this name, and opens it for writing.
    fn create(&mut self, name: &str) -> Result<(), Failed>
        requires { opened self.old ≡ Nothing }

        ensures ok { OnOk result
            (CreatesFile (files self.old) (files self.new) name.now (opened self.new)) }
        ensures err { OnErr result (opened self.new ≡ Nothing) }
        ensures kept { OnErr result (MayEmpty (files self.old) (files self.new) name.now) }
        ensures cause { OnErr result (Rose (faults self.old) (faults self.new)) }
        ensures count { KeepsCount result (faults self.old) (faults self.new) };

    /// Appends some of the first bytes, at least one of a piece that is not empty, to the open file, and
    /// answers how many. After `Failed` the file holds what was written to it before.
    fn write(&mut self, from: &[u8]) -> Result<usize, Failed>
        requires { IsWriting (opened self.old) }

        ensures ok { IfOk result (λ n. WritesOn n from.now (files self.old) (files self.new)
            (opened self.old) (opened self.new)) }
        ensures err { OnErr result (opened self.new ≡ Nothing) }
        ensures kept { OnErr result (files self.new ≡ files self.old) }
        ensures cause { OnErr result (Rose (faults self.old) (faults self.new)) }
        ensures count { KeepsCount result (faults self.old) (faults self.new) };

    /// Closes the open file, in reading or in writing. Nothing is open afterwards, whatever the answer.
    fn close(&mut self) -> Result<(), Failed>
        requires { IsOpen (opened self.old) }

        ensures closed { opened self.new ≡ Nothing }
        ensures kept { files self.new ≡ files self.old }
        ensures cause { OnErr result (Rose (faults self.old) (faults self.new)) }
        ensures count { KeepsCount result (faults self.old) (faults self.new) };

    /// The count fits 64 bits.
    ghost bounded: { (store : Self) → faults store < 2 ^ 64 };
}

// One more, up to the greatest count.
pub(crate) fn next(count: u64) -> u64
    ensures next { result ≡ next_number count }
    ensures rose { Rose count result }
    ensures later { count ≤ result }
{
    count.saturating_add(1)
}

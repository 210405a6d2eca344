//! The records of a log that is read.

ghost use Rattle.std.specs.Prelude.{◌≡◌, ◌++◌, ◌∷◌, ◌<◌, ◌^◌, [], false, length, IfOk, OnOk};
ghost use Rattle.ca_log.specs.LogText.{has_record};

use crate::record::{Log, LogRecord};
use ca_base::{List, NoMemory};
use indexmap::IndexSet;
use std::alloc::Global;
use std::marker::Model;

/// Different records in the order in which they were added, fewer than 2^32. One is found without a search
/// through the others. Contracts see a list.
#[derive(Drop)]
pub(crate) struct RecordSet {
    records: IndexSet<LogRecord>,
}

impl Model for RecordSet {
    ghost use Rattle.std.specs.Prelude.{List, ◌<◌, ◌^◌, length};
    ghost use Rattle.ca_log.specs.declared.record.LogRecord.{LogRecord};

    ghost Value = { List LogRecord };

    ghost view = { λ set. set.records.keys };

    ghost invariant = { λ set. length set.records.keys < 2 ^ 32 };
}

impl RecordSet {
    /// The set of no records.
    pub(crate) fn new(alloc: Global) -> Self
        ensures { result ≡ [] }
    {
        RecordSet {
            records: IndexSet::new(alloc),
        }
    }

    /// Whether the record is there.
    pub(crate) fn has(&self, here: LogRecord) -> bool
        ensures { result ≡ has_record here self.now }
    {
        self.records.contains(&here)
    }

    /// Adds a record that isn't there. A set of 2^32 - 1 records answers as though it were out of memory.
    pub(crate) fn add(&mut self, here: LogRecord) -> Result<(), NoMemory>
        requires { has_record here self.old ≡ false }
        ensures added { OnOk result (self.new ≡ self.old ++ here ∷ []) }
    {
        if self.records.len() == u32::MAX as usize {
            return Err(NoMemory);
        }
        self.records.insert(here)?;
        Ok(())
    }

    /// The records as a list.
    pub(crate) fn list(&self, alloc: Global) -> Result<Log, NoMemory>
        ensures log { IfOk result (λ log. log ≡ self.now) }
        ensures few { length self.now < 2 ^ 32 }
    {
        let mut log = List::new(alloc);
        for k in 0..self.records.len() {
            log.push(self.records.as_slice()[k])?;
        }
        Ok(log)
    }
}

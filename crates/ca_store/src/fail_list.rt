//! Which calls of a store or a sink in memory fail.
ghost use Rattle.std.specs.Prelude.{◌≡◌, ◌↔◌, [], ◌∷◌, ◌++◌, Contains, IsTrue, OnOk, OnErr};

use ca_base::NoMemory;
use std::alloc::Global;
use std::marker::Model;

/// A kind of call.
#[derive(Clone, Copy, Debug, PartialEq, Eq)]
pub enum StoreCall {
    Open,
    Read,
    Create,
    Write,
    Close,
}

/// Calls, each given by its kind and its number among the calls of that kind, counted from 1.
#[derive(Drop)]
pub struct FailList {
    calls: Vec<(StoreCall, u32)>,
}

impl Model for FailList {
    ghost use Rattle.ca_store.specs.Memory.{CallList};

    ghost Value = { CallList };

    ghost view = { λ list. list.calls.items };
}

impl FailList {
    /// The list of no calls.
    pub fn new(alloc: Global) -> Self
        ensures { result ≡ [] }
    {
        FailList {
            calls: Vec::new(alloc),
        }
    }

    /// Adds a call at the end.
    pub fn push(&mut self, call: StoreCall, number: u32) -> Result<(), NoMemory>
        ensures ok { OnOk result (self.new ≡ self.old ++ (call, number) ∷ []) }
        ensures err { OnErr result (self.new ≡ self.old) }
    {
        Ok(self.calls.push((call, number))?)
    }

    /// Whether the call of this kind and number is listed.
    pub fn lists(&self, call: StoreCall, number: u64) -> bool
        ensures { IsTrue result ↔ Contains self.now (call, number) }
    {
        self.calls
            .iter()
            .any(|entry| entry.0 == call && u64::from(entry.1) == number)
    }
}

//! A sink in memory, which fails where it is told to.
ghost use Rattle.std.specs.Prelude.{◌≤◌, ◌<◌, ◌^◌, vec_len, vec_capacity};

use crate::fail_list::{FailList, StoreCall};
use crate::sink::Sink;
use crate::store::{Failed, next};
use ca_base::NoMemory;
use std::alloc::Global;

/// Bytes in memory, with room for a number of them. Of the listed calls it looks at `Write` alone.
#[derive(Drop)]
pub struct MemSink {
    bytes: Vec<u8>,
    room: usize,
    fail: FailList,
    writes: u64,
    faults: u64,
    ghost within: { vec_len bytes ≤ room },
    ghost reserved: { room ≤ vec_capacity bytes },
    ghost in_range: { faults < 2 ^ 64 },
}

impl MemSink {
    ghost use Rattle.std.specs.Prelude.{◌≡◌, [], IfOk};
    ghost use Rattle.ca_store.specs.MemSink.{held_by, room_of, fail_of, writes_of, faults_of};

    /// A sink that holds nothing, with memory for `room` bytes, which is all that it ever takes.
    pub fn new(alloc: Global, room: usize, fail: FailList) -> Result<Self, NoMemory>
        ensures bytes { IfOk result (λ sink. held_by sink ≡ []) }
        ensures room { IfOk result (λ sink. room_of sink ≡ room) }
        ensures fail { IfOk result (λ sink. fail_of sink ≡ fail) }
        ensures writes { IfOk result (λ sink. writes_of sink ≡ 0) }
        ensures faults { IfOk result (λ sink. faults_of sink ≡ 0) }
    {
        Ok(MemSink {
            bytes: Vec::with_capacity(alloc, room)?,
            room,
            fail,
            writes: 0,
            faults: 0,
        })
    }

    /// The bytes that it holds.
    pub fn bytes(&self) -> &[u8]
        ensures { result.now ≡ held_by self.now }
    {
        &self.bytes
    }

    /// How many writes failed.
    pub fn faults(&self) -> u64
        ensures { result ≡ faults_of self.now }
    {
        self.faults
    }
}

impl Sink for MemSink {
    ghost use Rattle.std.specs.Prelude.{◌≡◌, Some, IfOk, OnErr};
    ghost use Rattle.ca_store.specs.Store.{Rose, KeepsCount, TakesFirst};
    ghost use Rattle.ca_store.specs.MemSink.{held_by, faults_of, WritesExactly};

    ghost bytes = { λ sink. Some (held_by sink) };

    ghost faults = { λ sink. faults_of sink };

    ghost bounded = { λ sink. sink.in_range };

    fn write(&mut self, from: &[u8]) -> Result<usize, Failed>
        ensures ok { IfOk result (λ n.
            TakesFirst n from.now (Some (held_by self.old)) (Some (held_by self.new))) }
        ensures err { OnErr result (held_by self.new ≡ held_by self.old) }
        ensures cause { OnErr result (Rose (faults_of self.old) (faults_of self.new)) }
        ensures count { KeepsCount result (faults_of self.old) (faults_of self.new) }
        ensures exact { WritesExactly from.now result self.old self.new }
    {
        let faults = self.faults;
        self.writes = next(self.writes);
        let taken = from.len().min(self.room - self.bytes.len());
        if self.fail.lists(StoreCall::Write, self.writes) || taken == 0 && !from.is_empty() {
            self.faults = next(faults);
            return Err(Failed);
        }
        self.bytes.extend_from_slice(&from[..taken]).unwrap();
        Ok(taken)
    }
}

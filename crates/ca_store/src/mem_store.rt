//! A store of files in memory, which fails where it is told to.
ghost use Rattle.std.specs.Prelude.{◌<◌, ◌^◌};
ghost use Rattle.ca_store.specs.code.Memory.{HasOpenFile};

use crate::fail_list::{FailList, StoreCall};
use crate::file_map::FileMap;
use crate::shelf::Shelf;
use crate::store::{Failed, Store, next};
use ca_base::NoMemory;
use std::alloc::Global;

// How many creates may succeed.
const CREATES: usize = 8;

/// Files in memory. A call fails where it is listed. An `open` also fails where there is no file of the name,
/// a `create` where its name doesn't fit the room that is left or eight creates succeeded before, and a
/// `write` of a piece that is not empty where no room is left.
#[derive(Drop)]
pub struct MemStore {
    shelf: Shelf,
    piece: usize,
    fail: FailList,
    mode: Mode,
    opens: u64,
    reads: u64,
    creates: u64,
    writes: u64,
    closes: u64,
    faults: u64,
    ghost piece_some: { 0 < piece },
    ghost at_place: { HasOpenFile shelf.files mode },
    ghost in_range: { faults < 2 ^ 64 },
}

// What is open. A file in writing is the last one of the shelf.
#[derive(Clone, Copy)]
enum Mode {
    Closed,
    InReading(OpenFile),
    InWriting,
}

// The file in reading: its place on the shelf, and the number of bytes read so far.
#[derive(Clone, Copy)]
struct OpenFile {
    file: usize,
    place: usize,
}

impl MemStore {
    ghost use Rattle.std.specs.Prelude.{◌≡◌, ◌<◌, None, Some, IfOk, MatchOption};
    ghost use Rattle.ca_store.specs.Store.{Nothing};
    ghost use Rattle.ca_store.specs.Memory.{files_of};
    ghost use Rattle.ca_store.specs.MemStore.{settings_of, room_of, calls_of, reported_by, opened_by};
    ghost use Rattle.ca_store.specs.MemStore.{faults_of};

    /// A store of these files, with nothing open, and with all the memory that it ever takes. A call gives or
    /// takes up to `piece` bytes. `room` is the number of bytes that created names and written bytes may fill
    /// together: each `create` that succeeds counts its name, whether the file was there or not, and no room
    /// is given back.
    pub fn new(
        alloc: Global,
        files: FileMap,
        piece: usize,
        room: usize,
        fail: FailList,
    ) -> Result<Self, NoMemory>
        requires { 0 < piece }

        ensures files { IfOk result (λ store. reported_by store ≡ files_of files) }
        ensures closed { IfOk result (λ store. opened_by store ≡ Nothing) }
        ensures faults { IfOk result (λ store. faults_of store ≡ 0) }
        ensures settings { IfOk result (λ store.
            settings_of store ≡ record { piece = piece; fail = fail }) }
        ensures room { IfOk result (λ store.
            room_of store ≡ record { bytes = room; creates = 8 }) }
        ensures calls { IfOk result (λ store.
            calls_of store ≡ record { opens = 0; reads = 0; creates = 0; writes = 0; closes = 0 }) }
    {
        Ok(MemStore {
            shelf: Shelf::holding(alloc, files.as_slice(), room, CREATES)?,
            piece,
            fail,
            mode: Mode::Closed,
            opens: 0,
            reads: 0,
            creates: 0,
            writes: 0,
            closes: 0,
            faults: 0,
        })
    }

    /// What the file of this name holds, if there is one.
    pub fn bytes(&self, name: &str) -> Option<&[u8]>
        ensures { MatchOption result (reported_by self.now name.now ≡ None)
            (λ bytes. reported_by self.now name.now ≡ Some bytes.now) }
    {
        match self.shelf.find(name.as_bytes()) {
            Some(file) => Some(self.shelf.bytes(file)),
            None => None,
        }
    }

    /// How many calls failed, those aside that open a missing name.
    pub fn faults(&self) -> u64
        ensures { result ≡ faults_of self.now }
    {
        self.faults
    }
}

impl Store for MemStore {
    ghost use Rattle.std.specs.Prelude.{◌≡◌, Some, IfOk, OnOk, OnErr};
    ghost use Rattle.ca_store.specs.Store.{Nothing, IsReading, IsWriting, IsOpen, Rose, KeepsCount};
    ghost use Rattle.ca_store.specs.Store.{FailsAtMissing, OpensFile, ReadsOn};
    ghost use Rattle.ca_store.specs.Writing.{CreatesFile, MayEmpty, WritesOn};
    ghost use Rattle.ca_store.specs.MemStore.{reported_by, opened_by, faults_of};
    ghost use Rattle.ca_store.specs.MemStore.{OpensExactly, ReadsExactly, CreatesExactly, WritesExactly};
    ghost use Rattle.ca_store.specs.MemStore.{ClosesExactly};

    ghost files = { λ store. Some (reported_by store) };

    ghost opened = { λ store. opened_by store };

    ghost faults = { λ store. faults_of store };

    ghost bounded = { λ store. store.in_range };

    fn open(&mut self, name: &str) -> Result<(), Failed>
        requires { opened_by self.old ≡ Nothing }

        ensures ok { OnOk result
            (OpensFile (Some (reported_by self.old)) name.now (opened_by self.new)) }
        ensures err { OnErr result (opened_by self.new ≡ Nothing) }
        ensures kept { reported_by self.new ≡ reported_by self.old }
        ensures cause { FailsAtMissing result (Some (reported_by self.old)) name.now
            (faults_of self.old) (faults_of self.new) }
        ensures count { KeepsCount result (faults_of self.old) (faults_of self.new) }
        ensures exact { OpensExactly name.now result self.old self.new }
    {
        let faults = self.faults;
        self.opens = next(self.opens);
        let Some(file) = self.shelf.find(name.as_bytes()) else {
            return Err(Failed);
        };
        if self.fail.lists(StoreCall::Open, self.opens) {
            self.faults = next(faults);
            return Err(Failed);
        }
        self.mode = Mode::InReading(OpenFile { file, place: 0 });
        Ok(())
    }

    fn read(&mut self, into: &mut [u8]) -> Result<usize, Failed>
        requires { IsReading (opened_by self.old) }

        ensures ok { IfOk result (λ n.
            ReadsOn n into.new (Some (reported_by self.old)) (opened_by self.old) (opened_by self.new)) }
        ensures err { OnErr result (opened_by self.new ≡ Nothing) }
        ensures kept { reported_by self.new ≡ reported_by self.old }
        ensures cause { OnErr result (Rose (faults_of self.old) (faults_of self.new)) }
        ensures count { KeepsCount result (faults_of self.old) (faults_of self.new) }
        ensures exact { ReadsExactly into.old result self.old self.new }
    {
        let faults = self.faults;
        self.reads = next(self.reads);
        let Mode::InReading(spot) = self.mode else {
            unreachable!()
        };
        if self.fail.lists(StoreCall::Read, self.reads) {
            self.mode = Mode::Closed;
            self.faults = next(faults);
            return Err(Failed);
        }
        let bytes = self.shelf.bytes(spot.file);
        let n = (bytes.len() - spot.place).min(into.len()).min(self.piece);
        into[..n].copy_from_slice(&bytes[spot.place..spot.place + n]);
        self.mode = Mode::InReading(OpenFile {
            file: spot.file,
            place: spot.place + n,
        });
        Ok(n)
    }

    fn create(&mut self, name: &str) -> Result<(), Failed>
        requires { opened_by self.old ≡ Nothing }

        ensures ok { OnOk result (CreatesFile (Some (reported_by self.old)) (Some (reported_by self.new))
            name.now (opened_by self.new)) }
        ensures err { OnErr result (opened_by self.new ≡ Nothing) }
        ensures kept { OnErr result
            (MayEmpty (Some (reported_by self.old)) (Some (reported_by self.new)) name.now) }
        ensures cause { OnErr result (Rose (faults_of self.old) (faults_of self.new)) }
        ensures count { KeepsCount result (faults_of self.old) (faults_of self.new) }
        ensures exact { CreatesExactly name.now result self.old self.new }
    {
        let faults = self.faults;
        self.creates = next(self.creates);
        if self.fail.lists(StoreCall::Create, self.creates)
            || name.len() > self.shelf.room()
            || self.shelf.creates() == 0
        {
            self.faults = next(faults);
            return Err(Failed);
        }
        self.shelf.add(name.as_bytes());
        self.mode = Mode::InWriting;
        Ok(())
    }

    fn write(&mut self, from: &[u8]) -> Result<usize, Failed>
        requires { IsWriting (opened_by self.old) }

        ensures ok { IfOk result (λ n. WritesOn n from.now (Some (reported_by self.old))
            (Some (reported_by self.new)) (opened_by self.old) (opened_by self.new)) }
        ensures err { OnErr result (opened_by self.new ≡ Nothing) }
        ensures kept { OnErr result (reported_by self.new ≡ reported_by self.old) }
        ensures cause { OnErr result (Rose (faults_of self.old) (faults_of self.new)) }
        ensures count { KeepsCount result (faults_of self.old) (faults_of self.new) }
        ensures exact { WritesExactly from.now result self.old self.new }
    {
        let faults = self.faults;
        self.writes = next(self.writes);
        let taken = from.len().min(self.piece).min(self.shelf.room());
        if self.fail.lists(StoreCall::Write, self.writes) || taken == 0 && !from.is_empty() {
            self.mode = Mode::Closed;
            self.faults = next(faults);
            return Err(Failed);
        }
        self.shelf.extend(&from[..taken]);
        Ok(taken)
    }

    fn close(&mut self) -> Result<(), Failed>
        requires { IsOpen (opened_by self.old) }

        ensures closed { opened_by self.new ≡ Nothing }
        ensures kept { reported_by self.new ≡ reported_by self.old }
        ensures cause { OnErr result (Rose (faults_of self.old) (faults_of self.new)) }
        ensures count { KeepsCount result (faults_of self.old) (faults_of self.new) }
        ensures exact { ClosesExactly result self.old self.new }
    {
        let faults = self.faults;
        self.closes = next(self.closes);
        self.mode = Mode::Closed;
        if self.fail.lists(StoreCall::Close, self.closes) {
            self.faults = next(faults);
            return Err(Failed);
        }
        Ok(())
    }
}

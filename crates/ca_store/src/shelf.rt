//! Files in memory, which is taken when they are put there and never given back. Only the last file grows.
ghost use Rattle.std.specs.Prelude.{◌≡◌, ◌≤◌, ◌<◌, ◌+◌, length, drop, IfOk};
ghost use Rattle.ca_store.specs.code.Memory.{bytes_at};
ghost use Rattle.ca_store.specs.code.Arena.{IsPlaceOf, first_start, part, with_file, with_bytes};

use crate::file_map::File;
use ca_base::NoMemory;
use std::alloc::Global;
use std::marker::Model;

// Where a file is: its name from the start to the middle, and its bytes from there up to the next start.
#[derive(Clone, Copy)]
pub(crate) struct Span {
    start: usize,
    middle: usize,
}

// Files in the order of their adding, with room for more. Of two files of one name the later one counts.
#[derive(Drop)]
pub(crate) struct Shelf {
    bytes: Vec<u8>,
    spans: Vec<Span>,
    room: usize,
    creates: usize,
}

impl Model for Shelf {
    ghost use Rattle.std.specs.Prelude.{◌+◌, ◌≤◌, length, vec_len, vec_capacity};
    ghost use Rattle.ca_store.specs.Arena.{Shelved};
    ghost use Rattle.ca_store.specs.code.Arena.{files_in, IsLaid};

    ghost Value = { Shelved };

    ghost view = { λ shelf. record {
      files = files_in shelf.bytes.items shelf.spans.items;
      room = shelf.room;
      creates = shelf.creates;
    } };

    ghost invariant = { λ shelf. IsLaid (length shelf.bytes.items) shelf.spans.items
        × (vec_len shelf.bytes + shelf.room ≤ vec_capacity shelf.bytes)
        × (vec_len shelf.spans + shelf.creates ≤ vec_capacity shelf.spans) };
}

impl Shelf {
    // A shelf of these files, with room for `room` more bytes and `creates` more files.
    pub(crate) fn holding(
        alloc: Global,
        files: &[File],
        room: usize,
        creates: usize,
    ) -> Result<Self, NoMemory>
        ensures { IfOk result (λ shelf.
            shelf ≡ record { files = files.now; room = room; creates = creates }) }
    {
        let mut bytes = Vec::new(alloc);
        let mut spans = Vec::new(alloc);
        for file in files {
            let start = bytes.len();
            bytes.extend_from_slice(file.name.as_bytes())?;
            let middle = bytes.len();
            spans.push(Span { start, middle })?;
            bytes.extend_from_slice(file.bytes.as_bytes())?;
        }
        bytes.reserve(room)?;
        spans.reserve(creates)?;
        Ok(Shelf {
            bytes,
            spans,
            room,
            creates,
        })
    }

    // How many bytes may still be added.
    pub(crate) fn room(&self) -> usize
        ensures { result ≡ self.now.room }
    {
        self.room
    }

    // How many files may still be added.
    pub(crate) fn creates(&self) -> usize
        ensures { result ≡ self.now.creates }
    {
        self.creates
    }

    // The place of the file that a name stands for.
    pub(crate) fn find(&self, name: &[u8]) -> Option<usize>
        ensures { IsPlaceOf self.now.files name.now result }
    {
        let mut place = self.spans.len();
        while place > 0 {
            place -= 1;
            let span = self.spans[place];
            if part_of(&self.bytes, span.start, span.middle) == name {
                return Some(place);
            }
        }
        None
    }

    // The bytes of the file at a place.
    pub(crate) fn bytes(&self, place: usize) -> &[u8]
        requires { place < length self.now.files }
        ensures { result.now ≡ bytes_at self.now.files place }
    {
        let span = self.spans[place];
        let end = end_of(&self.spans, place, self.bytes.len());
        part_of(&self.bytes, span.middle, end)
    }

    // Adds a file of no bytes.
    pub(crate) fn add(&mut self, name: &[u8])
        requires room { length name.now ≤ self.old.room }
        requires creates { 0 < self.old.creates }
        ensures { self.new ≡ with_file self.old name.now }
    {
        let start = self.bytes.len();
        self.bytes.extend_from_slice(name).unwrap();
        let middle = self.bytes.len();
        self.spans.push(Span { start, middle }).unwrap();
        self.room -= name.len();
        self.creates -= 1;
    }

    // Adds bytes to the last file.
    pub(crate) fn extend(&mut self, more: &[u8])
        requires room { length more.now ≤ self.old.room }
        ensures { self.new ≡ with_bytes self.old more.now }
    {
        self.bytes.extend_from_slice(more).unwrap();
        self.room -= more.len();
    }
}

// Where the bytes of the file at a place end.
fn end_of(spans: &[Span], place: usize, end: usize) -> usize
    requires { place < length spans.now }
    ensures { result ≡ first_start end (drop (place + 1) spans.now) }
{
    match spans.get(place + 1) {
        Some(next) => next.start,
        None => end,
    }
}

// The bytes from one place on, up to another.
fn part_of(bytes: &[u8], start: usize, end: usize) -> &[u8]
    requires ordered { start ≤ end }
    requires within { end ≤ length bytes.now }
    ensures { result.now ≡ part bytes.now start end }
{
    &bytes[start..end]
}

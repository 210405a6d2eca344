//! Libraries of cells by name.

ghost use Rattle.std.specs.Prelude.{◌≡◌, ◌+◌, ◌<◌, ◌≤◌, ◌^◌, [], ◌∷◌, ◌++◌, length, map, take, ◌↔◌, IsTrue};
ghost use Rattle.std.specs.Prelude.{IsSome};
ghost use Rattle.std.specs.Prelude.{IsNone, IfSome, IsSomeAnd, slice_get, IfOk, IfErr, OnOk, OnErr};
ghost use Rattle.std.specs.List.{All};
ghost use Rattle.std.specs.Option.{option_copied};
ghost use Rattle.ca_lex.specs.Words.{upper_case};
ghost use Rattle.ca_cell.specs.declared.library.LibraryFault.TheVariants as fault;

use crate::cell::Cell;
use crate::raw::RawCell;
use crate::rule::{CellFault, CellRule};
use ca_base::NoMemory;
use ca_lex::Text;
use indexmap::IndexMap;
use std::alloc::{AllocError, Global};
use std::marker::Model;

/// The most cells that are added to a library by name.
pub const MOST_CELLS: usize = 1024;

/// A subcircuit of a library: a cell, or a subcircuit that breaks a rule, with the first rule that it breaks.
#[derive(Drop)]
pub enum Entry {
    Sound(Cell),
    Refused(RawCell, CellRule),
}

impl Entry {
    ghost use Rattle.ca_cell.specs.Rules.{IsRaw, KeepsRules};
    ghost use Rattle.ca_cell.specs.Library.{raw_of, IsEntry};

    /// The entry of a subcircuit. Memory is taken only for that of a cell.
    pub fn of(alloc: Global, raw: RawCell) -> Result<Self, NoMemory>
        requires { IsRaw raw }
        ensures ok { IfOk result (λ entry. raw_of entry ≡ raw) }
        ensures entry { IfOk result IsEntry }
        ensures err { OnErr result (KeepsRules raw) }
    {
        match Cell::check(alloc, &raw) {
            Ok(cell) => Ok(Entry::Sound(cell)),
            Err(CellFault::Rule(rule)) => Ok(Entry::Refused(raw, rule)),
            Err(CellFault::NoMemory) => Err(NoMemory),
        }
    }

    // An entry of its own that is the same.
    fn copy(&self, alloc: Global) -> Result<Self, NoMemory>
        ensures { IfOk result (λ entry. entry ≡ self.now) }
    {
        match self {
            Entry::Sound(cell) => Ok(Entry::Sound(cell.copy(alloc)?)),
            Entry::Refused(raw, rule) => Ok(Entry::Refused(raw.copy(alloc)?, *rule)),
        }
    }
}

/// Why an entry wasn't added. The library is as it was, and the entry is dropped.
#[derive(Clone, Copy, Debug, PartialEq, Eq)]
pub enum LibraryFault {
    /// The library has an entry of that name.
    DoubleName,
    /// The library has the most cells, or more; the count is one more than its cells.
    TooManyCells { count: usize },
    /// There was no memory.
    NoMemory,
}

impl From<AllocError> for LibraryFault {
    ghost from_gives = { λ _ e. e ≡ fault.NoMemory };

    fn from(_: AllocError) -> Self {
        LibraryFault::NoMemory
    }
}

impl From<NoMemory> for LibraryFault {
    ghost from_gives = { λ _ e. e ≡ fault.NoMemory };

    fn from(_: NoMemory) -> Self {
        LibraryFault::NoMemory
    }
}

/// Cells by name, in the order in which they were added. Names are kept with their letters in upper case.
#[derive(Drop)]
pub struct Library {
    alloc: Global,
    entries: IndexMap<Vec<u8>, Entry>,
}

impl Model for Library {
    ghost use Rattle.std.specs.Prelude.{List, ◌<◌, ◌^◌, length};
    ghost use Rattle.ca_cell.specs.Library.{Named};
    ghost use Rattle.ca_cell.specs.code.Entries.{named_entries, AllUpperCase, AllEntries};

    ghost Value = { List Named };

    ghost view = { λ library. named_entries library.entries.entries };

    ghost invariant = { λ library. AllUpperCase library.entries.entries × AllEntries library.entries.entries
        × (length library.entries.entries < 2 ^ 32) };
}

impl Library {
    ghost use Rattle.ca_cell.specs.Library.{Named, IsEntry, IsCause, entry_of, IsPlaceOf, HasOneMore};

    /// The library of no cells.
    pub fn new(alloc: Global) -> Result<Self, NoMemory>
        ensures ok { IfOk result (λ library. library ≡ []) }
    {
        Ok(Library {
            alloc,
            entries: IndexMap::new(alloc),
        })
    }

    /// The number of cells.
    pub fn len(&self) -> usize
        ensures count { result ≡ length self.now }
        ensures most { result < 2 ^ 32 }
    {
        self.entries.len()
    }

    /// The entry of a name, which may be in any case.
    pub fn get(&self, name: &[u8]) -> Option<&Entry>
        ensures found { option_copied result ≡ entry_of self.now (upper_case name.now) }
        ensures entry { IfSome result (λ entry. IsEntry entry.now) }
    {
        // A name that is kept as it stands needs no search.
        match self.find(name) {
            Some(entry) => Some(entry),
            None => self.search(name),
        }
    }

    // The entry that is kept under this name.
    fn find(&self, name: &[u8]) -> Option<&Entry>
        ensures found { option_copied result ≡ entry_of self.now name.now }
        ensures upper { IsSome result → upper_case name.now ≡ name.now }
        ensures entry { IfSome result (λ entry. IsEntry entry.now) }
    {
        self.entries.get(name)
    }

    // The first entry that is kept under this name in upper case.
    fn search(&self, name: &[u8]) -> Option<&Entry>
        ensures found { option_copied result ≡ entry_of self.now (upper_case name.now) }
        ensures entry { IfSome result (λ entry. IsEntry entry.now) }
    {
        for i in 0..self.entries.len() {
            if let Some((key, entry)) = self.entries.get_index(i) {
                if is_upper_case(key, name) {
                    return Some(entry);
                }
            }
        }
        None
    }

    /// The place of the entry of a name, which may be in any case, in the order in which entries were added.
    pub fn place(&self, name: &[u8]) -> Option<usize>
        ensures some { IfSome result (IsPlaceOf self.now (upper_case name.now)) }
        ensures none { IsNone result → IsNone (entry_of self.now (upper_case name.now)) }
    {
        match self.kept_place(name) {
            Some(place) => Some(place),
            None => self.search_place(name),
        }
    }

    // The place of the entry that is kept under this name.
    fn kept_place(&self, name: &[u8]) -> Option<usize>
        ensures some { IfSome result (IsPlaceOf self.now name.now) }
        ensures upper { IsSome result → upper_case name.now ≡ name.now }
    {
        match self.entries.get_full(name) {
            Some((place, _, _)) => Some(place),
            None => None,
        }
    }

    // The place of the first entry that is kept under this name in upper case.
    fn search_place(&self, name: &[u8]) -> Option<usize>
        ensures some { IfSome result (IsPlaceOf self.now (upper_case name.now)) }
        ensures none { IsNone result → IsNone (entry_of self.now (upper_case name.now)) }
    {
        for i in 0..self.entries.len() {
            if let Some((key, _)) = self.entries.get_index(i) {
                if is_upper_case(key, name) {
                    return Some(i);
                }
            }
        }
        None
    }

    /// The entry at a place, in the order in which entries were added.
    pub fn entry(&self, place: usize) -> &Entry
        requires { place < length self.now }
        ensures at { IsSomeAnd (slice_get self.now place) (λ named. named.entry ≡ result.now) }
        ensures entry { IsEntry result.now }
    {
        match self.entries.get_index(place) {
            Some((_, entry)) => entry,
            None => unreachable!(),
        }
    }

    /// Adds an entry under a name.
    pub fn add(&mut self, name: Text, entry: Entry) -> Result<(), LibraryFault>
        requires { IsEntry entry }
        ensures ok { OnOk result (self.new ≡ self.old
            ++ record { name = upper_case name; entry = entry } ∷ []) }
        ensures fresh { OnOk result (IsNone (entry_of self.old (upper_case name))) }
        ensures err { OnErr result (self.new ≡ self.old) }
        ensures cause { IfErr result (IsCause self.old name) }
    {
        let key = name.as_bytes().to_ascii_uppercase(self.alloc)?;
        if self.find(&key).is_some() {
            return Err(LibraryFault::DoubleName);
        }
        let count = self.len();
        if count >= MOST_CELLS {
            return Err(LibraryFault::TooManyCells { count: count + 1 });
        }
        self.insert(key, entry)?;
        Ok(())
    }

    // Adds an entry under a name that is kept as it stands.
    fn insert(&mut self, key: Vec<u8>, entry: Entry) -> Result<(), NoMemory>
        requires upper { upper_case key.items ≡ key.items }
        requires fresh { IsNone (entry_of self.old key.items) }
        requires room { length self.old + 1 < 2 ^ 32 }
        requires entry { IsEntry entry }
        ensures ok { OnOk result (self.new ≡ self.old ++ record { name = key.items; entry = entry } ∷ []) }
        ensures err { OnErr result (self.new ≡ self.old) }
    {
        self.entries.insert(key, entry)?;
        Ok(())
    }

    // The name of the entry at a place.
    fn name(&self, place: usize) -> &[u8]
        requires { place < length self.now }
        ensures at { IsSomeAnd (slice_get self.now place) (λ named. named.name ≡ result.now) }
        ensures upper { upper_case result.now ≡ result.now }
        ensures new { IsNone (entry_of (take place self.now) result.now) }
    {
        // No two names are the same.
        let _ = self.entries.len();
        match self.entries.get_index(place) {
            Some((name, _)) => name,
            None => unreachable!(),
        }
    }

    // Adds a copy of the entry at a place of another library, where it has those before it.
    fn push_copy(&mut self, other: &Library, place: usize) -> Result<(), NoMemory>
        requires within { place < length other.now }
        requires few { length other.now < 2 ^ 32 }
        requires before { self.old ≡ take place other.now }
        ensures { OnOk result (self.new ≡ take (place + 1) other.now) }
    {
        let key = other.name(place).to_ascii_uppercase(self.alloc)?;
        let entry = other.entry(place).copy(self.alloc)?;
        self.insert(key, entry)
    }

    // A library of its own with the same entries.
    fn copy(&self, alloc: Global) -> Result<Self, NoMemory>
        ensures { IfOk result (λ library. library ≡ self.now) }
    {
        let mut library = Library::new(alloc)?;
        for place in 0..self.len() {
            library.push_copy(self, place)?;
        }
        Ok(library)
    }

    // The length of the longest name.
    fn longest(&self) -> usize
        ensures { All (λ named. length named.name ≤ result) self.now }
    {
        let mut most = 0;
        for place in 0..self.len() {
            most = greater(most, self.name(place).len());
        }
        most
    }

    // A name that no entry has: it is longer than all names.
    fn new_name(&self, alloc: Global) -> Result<Vec<u8>, NoMemory>
        ensures upper { IfOk result (λ key. upper_case key.items ≡ key.items) }
        ensures fresh { IfOk result (λ key. IsNone (entry_of self.now key.items)) }
    {
        let mut name = vec![in alloc; b' '; self.longest()]?;
        name.push(b' ')?;
        Ok(name)
    }

    /// A library of its own with the same entries, and after them a cell under a name that none of them has.
    /// It may have more cells than `add` allows. Also answers out of memory where it would have 2^32 entries.
    pub fn with_cell(&self, alloc: Global, cell: Cell) -> Result<Self, NoMemory>
        ensures { IfOk result (HasOneMore self.now cell) }
    {
        if self.len() >= u32::MAX as usize {
            return Err(NoMemory);
        }
        let name = self.new_name(alloc)?;
        let mut library = self.copy(alloc)?;
        let _raw = cell.raw();
        library.insert(name, Entry::Sound(cell))?;
        Ok(library)
    }
}

// The greater of two numbers.
fn greater(a: usize, b: usize) -> usize
    ensures { (a ≤ result) × (b ≤ result) }
{
    if a < b { b } else { a }
}

// Whether a name gives the key, once its letters are in upper case.
fn is_upper_case(key: &[u8], name: &[u8]) -> bool
    ensures { IsTrue result ↔ (key.now ≡ upper_case name.now) }
{
    key.len() == name.len()
        && key
            .iter()
            .zip(name)
            .all(|(kept, byte)| *kept == byte.to_ascii_uppercase())
}

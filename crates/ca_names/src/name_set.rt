//! Different names in the order in which they were added.
ghost use Rattle.std.specs.Prelude.{◌≡◌, ◌<◌, ◌^◌, [], length, map, IfOk, OnOk, OnErr};
ghost use Rattle.std.specs.List.{IsDistinct};
ghost use Rattle.std.specs.Str.{bytes_eq};
ghost use Rattle.ca_names.specs.Names.{has_name, place_of, with_name, place_with};

use ca_base::NoMemory;
use ca_lex::{Names, Text};
use indexmap::IndexSet;
use std::alloc::Global;
use std::marker::Model;

/// The most names of a set.
const MOST_NAMES: usize = u32::MAX as usize;

/// Different names in the order in which they were added, fewer than 2^32. A name is found without a search
/// through the others. Contracts see a list.
#[derive(Drop)]
pub struct NameSet {
    names: IndexSet<Vec<u8>>,
}

impl Model for NameSet {
    ghost use Rattle.std.specs.Prelude.{ℕ, List, ◌<◌, ◌^◌, length, map};

    ghost Value = { List (List ℕ) };

    ghost view = { λ set. map (λ name. name.items) set.names.keys };

    ghost invariant = { λ set. length set.names.keys < 2 ^ 32 };
}

impl NameSet {
    /// The set of no names.
    pub fn new(alloc: Global) -> Self
        ensures { result ≡ [] }
    {
        NameSet {
            names: IndexSet::new(alloc),
        }
    }

    /// The number of names.
    pub fn len(&self) -> usize
        ensures count { result ≡ length self.now }
        ensures few { result < 2 ^ 32 }
        ensures distinct { IsDistinct bytes_eq self.now }
    {
        self.names.len()
    }

    pub fn has(&self, name: &[u8]) -> bool
        ensures { result ≡ has_name name.now self.now }
    {
        self.names.contains(name)
    }

    /// The place of a name, counted from 0.
    pub fn place_of(&self, name: &[u8]) -> Option<u32>
        ensures { result ≡ place_of name.now self.now }
    {
        match self.names.get_index_of(name) {
            Some(place) => Some(place as u32),
            None => None,
        }
    }

    /// The names as a slice.
    pub fn as_slice(&self) -> &[Vec<u8>]
        ensures { map (λ name. name.items) result.now ≡ self.now }
    {
        self.names.as_slice()
    }

    /// Adds a name, if it isn't there, and answers its place. A set of 2^32 - 1 names answers as though it
    /// were out of memory. The set is as it was after an error.
    pub fn add(&mut self, alloc: Global, name: &[u8]) -> Result<u32, NoMemory>
        ensures names { OnOk result (self.new ≡ with_name name.now self.old) }
        ensures place { IfOk result (λ place. place ≡ place_with name.now self.old) }
        ensures within { IfOk result (λ place. place < length self.new) }
        ensures few { OnOk result (length self.new < 2 ^ 32) }
        ensures err { OnErr result (self.new ≡ self.old) }
    {
        if self.names.len() == MOST_NAMES {
            return Err(NoMemory);
        }
        let key = name.to_vec(alloc)?;
        let (place, _) = self.names.insert_full(key)?;
        Ok(place as u32)
    }

    /// The names as a list.
    pub fn list(&self, alloc: Global) -> Result<Names, NoMemory>
        ensures { IfOk result (λ names. names ≡ self.now) }
    {
        let mut names = Names::new(alloc);
        let mut rest = self.names.as_slice();
        'names: while let [name, more @ ..] = rest {
            names.push(Text::from_bytes(alloc, name)?)?;
            rest = more;
        }
        Ok(names)
    }
}

//! Sets of places.

ghost use Rattle.std.specs.Prelude.{ℕ, ◌+◌, ◌^◌, ◌≡◌, ◌≢◌, ◌<◌, ◌≤◌, ◌⊎◌, ◌↔◌, IfOk, length};

use ca_base::NoMemory;
use std::alloc::Global;

/// A set of places below a bound, a bit for each.
#[derive(Drop, Debug)]
pub struct PlaceSet {
    pub(crate) words: Vec<u64>,
    ghost few: { length words.items ≤ 2 ^ 58 },
}

impl PlaceSet {
    ghost use Rattle.ca_places.specs.PlaceSet.{Has, HoldsUpTo, HasRoomFor, IsAsRoomy, IsNext};

    /// The empty set, with room for `places` places: eight bytes for 64 places.
    pub fn reserve(alloc: Global, places: usize) -> Result<Self, NoMemory>
        ensures room { IfOk result (λ set. HasRoomFor set places) }
        ensures none { IfOk result (λ set. (place : ℕ) → ¬ (Has set place)) }
    {
        Ok(PlaceSet {
            words: vec![in alloc; 0u64; places / 64 + 1]?,
        })
    }

    /// Puts a place into the set.
    pub fn insert(&mut self, place: usize)
        requires { HoldsUpTo self.old (place + 1) }
        ensures here { Has self.new place }
        ensures others { (other : ℕ) → other ≢ place → Has self.new other ↔ Has self.old other }
        ensures room { IsAsRoomy self.new self.old }
    {
        self.words[place / 64] |= 1 << (place % 64);
    }

    /// Takes a place out of the set.
    pub fn remove(&mut self, place: usize)
        requires { HoldsUpTo self.old (place + 1) }
        ensures here { ¬ (Has self.new place) }
        ensures others { (other : ℕ) → other ≢ place → Has self.new other ↔ Has self.old other }
        ensures room { IsAsRoomy self.new self.old }
    {
        self.words[place / 64] &= !(1 << (place % 64));
    }

    /// The first place of the set at or past this one.
    pub fn next(&self, from: usize) -> Option<usize>
        ensures { IsNext self.now from result }
    {
        let first = from / 64;
        if first >= self.words.len() {
            return None;
        }
        let rest = self.words[first] & (u64::MAX << (from % 64));
        if rest != 0 {
            return Some(64 * first + rest.trailing_zeros() as usize);
        }
        for place in first + 1..self.words.len() {
            let word = self.words[place];
            if word != 0 {
                return Some(64 * place + word.trailing_zeros() as usize);
            }
        }
        None
    }

    /// The 64 places from this one on: bit k is set where the set has the place k past it.
    pub fn window(&self, from: usize) -> u64
        ensures { (k : ℕ) → k < 64 → (bit_at result k ≡ 1) ↔ Has self.now (from + k) }
    {
        let first = from / 64;
        let shift = from % 64;
        let low = word_at(&self.words, first) >> shift;
        if shift == 0 {
            return low;
        }
        low | word_at(&self.words, first + 1) << (64 - shift)
    }

    /// Takes over the places of a set with as many words.
    pub fn take_over(&mut self, other: &PlaceSet)
        requires { IsAsRoomy self.old other.now }
        ensures same { (place : ℕ) → Has self.new place ↔ Has other.now place }
        ensures room { IsAsRoomy self.new self.old }
    {
        self.words.copy_from_slice(&other.words);
    }
}

// The word at a place of a list, 0 past its end.
fn word_at(words: &[u64], place: usize) -> u64
    ensures { result ≡ slice_index words.now place }
{
    if place < words.len() { words[place] } else { 0 }
}

ghost use Rattle.std.specs.Prelude.{slice_index};
ghost use Rattle.std.specs.Int.{bit_at};

//! A pair of vectors of a chip.

ghost use Rattle.std.specs.Prelude.{ℕ, ◌≡◌, ◌≢◌, ◌++◌, ◌<◌, ◌/◌, [], ◌∷◌, length, slice_get};
ghost use Rattle.std.specs.Prelude.{◌≤◌, ◌*◌, OnOk, OnErr, IsTrue, ◌↔◌, Some, vec_len};
ghost use Rattle.std.specs.Int.{bit_at};
ghost use Rattle.ca_pair.specs.code.Bits.{bit_in};

use ca_base::{List, NoMemory};
use std::alloc::Global;
use std::marker::Model;

/// The pattern bits of a chip, all of them set: those of the first vector, and then those of the second. They
/// are in words, one bit each.
#[derive(Drop, Debug)]
pub struct Pair {
    words: Vec<u64>,
    len: usize,
}

/// Pairs in order.
pub type Pairs = List<Pair>;

impl Model for Pair {
    ghost use Rattle.std.specs.Prelude.{List, Bool, ◌≤◌, ◌*◌, vec_len};
    ghost use Rattle.ca_pair.specs.code.Bits.{bits_from};

    ghost Value = { List Bool };

    ghost view = { λ pair. bits_from pair.words.items 0 pair.len };

    ghost invariant = { λ pair. pair.len ≤ 64 * vec_len pair.words };
}

impl Pair {
    /// No bits. It takes no memory.
    pub fn new(alloc: Global) -> Self
        ensures { result ≡ [] }
    {
        Pair {
            words: Vec::new(alloc),
            len: 0,
        }
    }

    /// Appends a bit. Also answers out of memory where there are as many bits as a `usize` counts.
    pub fn push(&mut self, bit: bool) -> Result<(), NoMemory>
        ensures ok { OnOk result (self.new ≡ self.old ++ bit ∷ []) }
        ensures err { OnErr result (self.new ≡ self.old) }
    {
        if self.len == usize::MAX {
            return Err(NoMemory);
        }
        make_room(&mut self.words, self.len)?;
        put(&mut self.words, self.len, bit);
        self.len += 1;
        Ok(())
    }

    /// The number of bits.
    pub fn len(&self) -> usize
        ensures { result ≡ length self.now }
    {
        self.len
    }

    /// A bit.
    pub fn get(&self, bit: usize) -> bool
        requires { bit < length self.now }
        ensures { slice_get self.now bit ≡ Some result }
    {
        bit_of(&self.words, bit)
    }
}

// Appends a word where `bits` bits fill the words.
fn make_room(words: &mut Vec<u64>, bits: usize) -> Result<(), NoMemory>
    requires { bits ≤ 64 * vec_len words.old }
    ensures room { OnOk result (bits / 64 < length words.new.items) }
    ensures same { OnOk result ((place : ℕ) → place < bits
        → bit_in words.new.items place ≡ bit_in words.old.items place) }
    ensures err { OnErr result (words.new.items ≡ words.old.items) }
{
    if bits / 64 == words.len() {
        words.push(0)?;
    }
    Ok(())
}

// The bit at a place.
fn bit_of(words: &[u64], place: usize) -> bool
    requires { place / 64 < length words.now }
    ensures { result ≡ bit_in words.now place }
{
    (words[place / 64] >> (place % 64)) & 1 == 1
}

// Gives the bit at a place a value.
fn put(words: &mut Vec<u64>, place: usize, bit: bool)
    requires { place / 64 < length words.old.items }
    ensures here { bit_in words.new.items place ≡ bit }
    ensures others { (other : ℕ) → other ≢ place
        → bit_in words.new.items other ≡ bit_in words.old.items other }
    ensures count { length words.new.items ≡ length words.old.items }
{
    words[place / 64] = with_bit(words[place / 64], place % 64, bit);
}

// The word with a bit set or cleared.
fn with_bit(word: u64, place: usize, bit: bool) -> u64
    requires { place < 64 }
    ensures here { IsTrue bit ↔ (bit_at result place ≡ 1) }
    ensures others { (other : ℕ) → other < 64 → other ≢ place → bit_at result other ≡ bit_at word other }
{
    if bit {
        word | (1 << place)
    } else {
        word & !(1 << place)
    }
}

//! Sets of numbers below a bound that are cleared in the time of their size.

ghost use Rattle.std.specs.Prelude.{◌≡◌, ◌<◌, ◌≤◌, ◌↔◌, [], length, slice_get, IsTrue, IfOk, Some};
ghost use Rattle.std.specs.List.{All, Contains};
ghost use Rattle.ca_guide.specs.NumberSet.{none_below, IsInsert};

use ca_base::NoMemory;
use std::alloc::Global;
use std::marker::Model;

/// Numbers below a bound, each once, in the order in which they came. All room is taken at the start.
#[derive(Drop, Debug)]
pub struct NumberSet {
    is_member: Vec<bool>,
    numbers: Vec<u32>,
}

impl Model for NumberSet {
    ghost use Rattle.std.specs.Prelude.{◌≤◌, vec_len, vec_capacity};
    ghost use Rattle.ca_guide.specs.NumberSet.{Numbers};
    ghost use Rattle.ca_guide.specs.code.NumberSet.{AreFlags};

    ghost Value = { Numbers };

    ghost view = { λ set. record { bound = vec_len set.is_member; members = set.numbers.items } };

    ghost invariant = { λ set. AreFlags set.is_member.items set.numbers.items
        × (vec_len set.is_member ≤ vec_capacity set.numbers) };
}

impl NumberSet {
    /// Takes the room for numbers below `bound`: five bytes each.
    pub fn reserve(alloc: Global, bound: usize) -> Result<Self, NoMemory>
        ensures { IfOk result (λ set. set ≡ none_below bound) }
    {
        Ok(NumberSet {
            is_member: vec![in alloc; false; bound]?,
            numbers: Vec::with_capacity(alloc, bound)?,
        })
    }

    /// How many numbers are in the set.
    pub fn len(&self) -> usize
        ensures count { result ≡ length self.now.members }
        ensures within { length self.now.members ≤ self.now.bound }
    {
        self.numbers.len()
    }

    /// The number at this place, counted from 0.
    pub fn get(&self, place: usize) -> u32
        requires { place < length self.now.members }
        ensures same { slice_get self.now.members place ≡ Some result }
        ensures within { result < self.now.bound }
    {
        self.numbers[place]
    }

    /// The numbers as a slice.
    pub fn as_slice(&self) -> &[u32]
        ensures same { result.now ≡ self.now.members }
        ensures within { All (λ number. number < self.now.bound) self.now.members }
    {
        &self.numbers
    }

    /// Whether the number is in the set.
    pub fn has(&self, number: u32) -> bool
        ensures within { IsTrue result → number < self.now.bound }
        ensures member { IsTrue result ↔ Contains self.now.members number }
    {
        let place = number as usize;
        place < self.is_member.len() && self.is_member[place]
    }

    /// Appends the number, if it isn't in the set. The answer is whether it is new.
    pub fn insert(&mut self, number: u32) -> bool
        requires { number < self.old.bound }
        ensures { IsInsert result self.old self.new number }
    {
        let place = number as usize;
        if self.is_member[place] {
            return false;
        }
        self.is_member[place] = true;
        self.numbers.push_reserved(number);
        true
    }

    /// Takes all numbers out.
    pub fn clear(&mut self)
        ensures { self.new ≡ none_below self.old.bound }
    {
        for number in &self.numbers {
            self.is_member[*number as usize] = false;
        }
        self.numbers.clear();
    }
}

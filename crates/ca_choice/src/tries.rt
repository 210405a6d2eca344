//! The bits of an attempt, and how often it may turn back.

use crate::scene::BitValue;
use ca_base::NoMemory;
use ca_guide::Attempt;
use std::alloc::Global;

// How often an attempt may turn back.
const MOST_TURNS: u32 = 400;

// How many attempts are left out at most after one that came to nothing.
const MOST_WAITS: u32 = 3;

// A bit that is set, and whether its other value was tried before.
#[derive(Clone, Copy)]
struct Tried {
    found: BitValue,
    is_second: bool,
}

/// The bits of an attempt, in a room that is taken once.
#[derive(Drop)]
pub(crate) struct Tries {
    tried: Vec<Tried>,
    count: usize,
    // whether the last bit is being taken back
    is_turning: bool,
    // how often may still be turned back
    turns: u32,
    // how many attempts came to nothing since the last that didn't, up to a bound, and how many more are left
    // out
    fails: u32,
    waits: u32,
    has_begun: bool,
    is_given_up: bool,
    // whether the attempt before came to nothing, and wasn't left out
    was_given_up: bool,
}

impl Tries {
    /// The room for a number of bits.
    pub(crate) fn reserve(alloc: Global, bits: usize) -> Result<Self, NoMemory> {
        let none = Tried {
            found: BitValue {
                bit: 0,
                value: false,
            },
            is_second: false,
        };
        Ok(Tries {
            tried: vec![in alloc; none; bits]?,
            count: 0,
            is_turning: false,
            turns: MOST_TURNS,
            fails: 0,
            waits: 0,
            has_begun: false,
            is_given_up: false,
            was_given_up: false,
        })
    }

    /// Begins an attempt. The more of those before came to nothing, the less it may turn back.
    pub(crate) fn begin(&mut self) {
        self.was_given_up = self.is_given_up && self.waits == 0;
        if self.has_begun {
            self.note();
        }
        self.count = 0;
        self.is_turning = false;
        self.turns = MOST_TURNS / self.fails.max(1);
        self.has_begun = false;
        self.is_given_up = false;
    }

    // Notes how the last attempt ended. After one that came to nothing as many are left out as did so in a
    // row.
    fn note(&mut self) {
        if self.waits > 0 {
            self.waits -= 1;
        } else if self.is_given_up {
            self.fails = self.fails.saturating_add(1).min(MOST_WAITS);
            self.waits = self.fails;
        } else {
            self.fails = 0;
        }
    }

    /// Whether the attempt before this one came to nothing, and wasn't left out.
    pub(crate) fn was_given_up(&self) -> bool {
        self.was_given_up
    }

    /// Sets a bit.
    pub(crate) fn set(&mut self, found: BitValue) -> Attempt {
        self.put(found, false)
    }

    /// Turns back, if that may still be.
    pub(crate) fn turn_back(&mut self) -> Attempt {
        if self.turns == 0 {
            return self.give_up();
        }
        self.turns -= 1;
        self.is_turning = true;
        self.take_back()
    }

    /// What follows where the last bit was taken back: its other value, or the bit before is taken back too.
    /// An attempt that is left out is given up.
    pub(crate) fn turned(&mut self) -> Option<Attempt> {
        self.has_begun = true;
        if self.waits > 0 {
            return Some(self.give_up());
        }
        if !self.is_turning || self.count == 0 {
            return None;
        }
        self.count -= 1;
        match self.tried.get(self.count) {
            Some(last) => {
                let last = *last;
                if last.is_second {
                    return Some(self.take_back());
                }
                self.is_turning = false;
                let BitValue { bit, value } = last.found;
                let value = !value;
                Some(self.put(BitValue { bit, value }, true))
            }
            None => None,
        }
    }

    // Takes the last bit back, if there is one.
    fn take_back(&mut self) -> Attempt {
        if self.count == 0 {
            return self.give_up();
        }
        Attempt::TakeBack
    }

    // Ends the attempt.
    fn give_up(&mut self) -> Attempt {
        self.is_given_up = true;
        Attempt::GiveUp
    }

    // Appends a bit.
    fn put(&mut self, found: BitValue, is_second: bool) -> Attempt {
        let count = self.count;
        if count >= self.tried.len() || found.bit > u16::MAX as usize {
            return self.give_up();
        }
        self.tried[count] = Tried { found, is_second };
        self.count = count + 1;
        Attempt::Set {
            bit: found.bit as u16,
            value: found.value,
        }
    }
}

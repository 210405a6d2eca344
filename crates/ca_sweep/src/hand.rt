//! The instance in hand: the slot of its row, and answers for codes of its defects.

ghost use Rattle.std.specs.Prelude.{ℕ, ◌≡◌, true, false, List, slice_index_or, IfOk, IfSome, IsTrue, None};
ghost use Rattle.std.specs.Prelude.{Option};
ghost use Rattle.ca_net.specs.declared.trit.Trit.{Trit};
ghost use Rattle.ca_net.specs.declared.wave.Wave.{Wave};
ghost use Rattle.ca_flat.specs.Chip.{Chip};
ghost use Rattle.ca_sweep.specs.declared.row.Row.{Row};
ghost use Rattle.ca_sweep.specs.code.Coded.{IsSeenCoded};
ghost use Rattle.ca_sweep.specs.code.Hand.{IsHand};
ghost use Rattle.ca_sweep.specs.code.Rows.{AreGoodsAt};

use crate::codes::Goods;
use crate::seen::Seen;
use ca_base::NoMemory;
use ca_net::Trit;
use std::alloc::Global;

// How many codes there are: those of two last values.
const CODES: usize = 11;

/// An instance, if one is in hand, the number of its cell, the slot of the row for the good waves of its
/// input pins, the good last values of its output pins, and what was found of its defects with each code.
#[derive(Drop, Debug)]
pub struct Hand {
    pub(crate) is_full: bool,
    pub(crate) instance: usize,
    pub(crate) number: usize,
    pub(crate) slot: usize,
    pub(crate) goods: Goods,
    pub(crate) answers: Vec<Option<Seen>>,
}

impl Hand {
    /// No instance is in hand.
    pub(crate) fn reserve(alloc: Global) -> Result<Self, NoMemory>
        ensures { IfOk result (λ hand. hand.is_full ≡ false) }
    {
        Ok(Hand {
            is_full: false,
            instance: 0,
            number: 0,
            slot: 0,
            goods: Goods {
                first: Trit::X,
                second: Trit::X,
            },
            answers: vec![in alloc; None; CODES]?,
        })
    }

    /// No instance is in hand any more.
    pub(crate) fn clear(&mut self)
        ensures { self.new.is_full ≡ false }
    {
        self.is_full = false;
    }

    /// This instance is in hand, and no answer is kept.
    pub(crate) fn take(&mut self, instance: usize, number: usize, slot: usize, goods: Goods)
        ensures instance { self.new.instance ≡ instance }
        ensures number { self.new.number ≡ number }
        ensures slot { self.new.slot ≡ slot }
        ensures goods { self.new.goods ≡ goods }
        ensures none { (code : ℕ) → slice_index_or self.new.answers.items code None ≡ None }
    {
        self.is_full = true;
        self.instance = instance;
        self.number = number;
        self.slot = slot;
        self.goods = goods;
        empty(&mut self.answers);
    }

    /// Whether this instance is in hand.
    pub(crate) fn has(&self, instance: usize) -> bool
        ensures full { IsTrue result → self.now.is_full ≡ true }
        ensures instance { IsTrue result → self.now.instance ≡ instance }
    {
        self.is_full && self.instance == instance
    }

    /// The good last values of the output pins of an instance, if that is in hand.
    pub(crate) fn goods(&self, instance: usize) -> Option<Goods>
        ensures { (chip : Chip) (number_of : ℕ → ℕ) (goods : ℕ → Trit) (waves : List Wave)
            (slots : List (Option Row)) → IsHand chip number_of goods waves slots self.now
            → IfSome result (AreGoodsAt chip goods instance) }
    {
        if self.has(instance) {
            Some(self.goods)
        } else {
            None
        }
    }

    /// The answer that is kept for a code of an instance, if that is in hand.
    pub(crate) fn get(&self, instance: usize, code: u8) -> Option<Seen>
        ensures { (chip : Chip) (number_of : ℕ → ℕ) (goods : ℕ → Trit) (waves : List Wave)
            (slots : List (Option Row)) → IsHand chip number_of goods waves slots self.now
            → IfSome result (IsSeenCoded chip goods instance code) }
    {
        let place = code as usize;
        if self.has(instance) && place < self.answers.len() {
            self.answers[place]
        } else {
            None
        }
    }

    /// Keeps an answer for a code of an instance, if that is in hand and there is room.
    pub(crate) fn put(&mut self, instance: usize, code: u8, seen: Seen)
        ensures { (chip : Chip) (number_of : ℕ → ℕ) (goods : ℕ → Trit) (waves : List Wave)
            (slots : List (Option Row)) → IsHand chip number_of goods waves slots self.old
            → IsSeenCoded chip goods instance code seen
            → IsHand chip number_of goods waves slots self.new }
    {
        let place = code as usize;
        if self.has(instance) && place < self.answers.len() {
            self.answers[place] = Some(seen);
        }
    }
}

// No answer.
fn empty(answers: &mut Vec<Option<Seen>>)
    ensures { (code : ℕ) → slice_index_or answers.new.items code None ≡ None }
{
    for code in 0..answers.len() {
        answers[code] = None;
    }
}

//! What a search asks: how a partial pair stands, and which bit to decide next.

use ca_guide::Step;

/// How a partial pair stands.
#[derive(Clone, Copy, Debug, PartialEq, Eq)]
pub enum Standing {
    Shown,
    Settled,
    Open,
}

/// The simulator of a chip and the guide of the defect that is aimed at, as one.
pub trait Judge {
    ghost use Rattle.std.specs.Prelude.{◌≡◌, ◌<◌, ◌≤◌, ◌+◌, ◌*◌, slice_set, IsSome, IsTrue, [], length};
    ghost use Rattle.std.specs.Prelude.{vec_capacity};
    ghost use Rattle.ca_flat.specs.Pair.{bit_count};
    ghost use Rattle.ca_flat.specs.Codes.{unset_pair};
    ghost use Rattle.ca_guide.specs.Seen.{set_trit};
    ghost use Rattle.ca_code.specs.declared.token.TheConstants.{MOST_PATTERN_BITS};
    ghost use Rattle.ca_search.specs.Judged.{Judged, with_pair, IsOpenFor, IsStanding, IsStep, IsFlatFor};
    ghost use Rattle.ca_search.specs.Judged.{IsSameAim, IsFoundWay};
    ghost use Rattle.ca_code.specs.Tokens.{tokens_of};

    /// The chip, the defect that is aimed at, and the bits that are set.
    ghost judged: { Self → Judged };

    /// The number of pattern bits.
    fn bit_count(&self) -> usize
        ensures count { result ≡ bit_count (judged self.now).chip }
        ensures few { result ≤ MOST_PATTERN_BITS };

    /// The flat networks are networks.
    fn flat(&self)
        ensures { IsFlatFor (judged self.now).chip (judged self.now).aim };

    /// Unsets all bits.
    fn clear(&mut self)
        ensures { judged self.new ≡ with_pair (judged self.old) (unset_pair (judged self.old).chip) };

    /// Sets a bit, or unsets it.
    fn set(&mut self, bit: u16, value: Option<bool>)
        requires { bit < bit_count (judged self.old).chip }
        ensures { judged self.new
            ≡ with_pair (judged self.old) (slice_set (judged self.old).pair bit (set_trit value)) };

    /// How the partial pair stands.
    fn standing(&self) -> Standing
        requires { IsSome (judged self.now).aim }
        ensures { IsStanding (judged self.now) result };

    /// What to do at an open pair.
    fn next(&mut self) -> Step
        requires { IsOpenFor (judged self.old).chip (judged self.old).aim (judged self.old).pair }
        ensures same { judged self.new ≡ judged self.old }
        ensures step { IsStep (judged self.old) result };

    /// Looks for a pair that shows the defect, on a way with no more bits than the budget has branches, from
    /// the pair of which no bit is set; bits are set and taken back without a code. Whether such a pair is in
    /// hand then, with the tokens of the way to it. Else any pair may be in hand, and any tokens are there.
    fn attempt(&mut self, numbers: &mut Vec<u16>, budget: u32) -> bool
        requires aimed { IsSome (judged self.old).aim }
        requires none { numbers.old.items ≡ [] }
        requires room { 2 * budget + 1 ≤ vec_capacity numbers.old }
        ensures aim { IsSameAim (judged self.old) (judged self.new) }
        ensures found { IsTrue result → IsFoundWay (judged self.new) (tokens_of numbers.new.items) }
        ensures within { length numbers.new.items ≤ budget }
        ensures room { vec_capacity numbers.old ≤ vec_capacity numbers.new };
}

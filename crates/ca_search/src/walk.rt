//! The steps of a search, and the code that is written meanwhile.

ghost use Rattle.std.specs.Prelude.{◌≡◌, ◌+◌, ◌*◌, ◌<◌, ◌≤◌, length, IfOk, IsSome};
ghost use Rattle.ca_flat.specs.Codes.{branch_count};
ghost use Rattle.ca_search.specs.Judged.{IsSameAim};
ghost use Rattle.ca_search.specs.code.Judged.{MayLeaveHere, MayDecideHere};
ghost use Rattle.ca_code.specs.Tokens.{tokens_of};
ghost use Rattle.ca_search.specs.Outcome.{IsOutcome};
ghost use Rattle.ca_search.specs.code.Steps.{Follows, TrailStands, IsEmptied, IsSameRoom};
ghost use Rattle.ca_search.specs.code.Steps.{IsMove, IsTurn, IsLeft};

use crate::judge::{Judge, Standing};
use crate::trail::{Decision, Outcome, Trail};
use ca_base::NoMemory;
use ca_code::packed;
use ca_flat::Token;
use ca_guide::Step;
use std::alloc::Global;

// What to do at a pair.
#[derive(Clone, Copy, Debug, PartialEq, Eq)]
pub(crate) enum Move {
    Stop,
    Leave,
    Branch { bit: u16, first: bool },
}

// What to do at the pair in hand.
fn decide<J: Judge>(judge: &mut J) -> Move
    requires { IsSome (J.judged judge.old).aim }
    ensures same { J.judged judge.new ≡ J.judged judge.old }
    ensures lawful { IsMove (J.judged judge.old) result }
{
    match judge.standing() {
        Standing::Shown => Move::Stop,
        Standing::Settled => Move::Leave,
        Standing::Open => match judge.next() {
            Step::RuledOut => Move::Leave,
            Step::Branch { bit, first } => Move::Branch { bit, first },
        },
    }
}

impl Trail {
    /// Takes the room for `budget` branches.
    pub(crate) fn reserve(alloc: Global, budget: u32) -> Result<Self, NoMemory>
        ensures { IfOk result (λ trail. trail.budget ≡ budget) }
    {
        Ok(Trail {
            budget,
            bits: 0,
            branches: 0,
            numbers: Vec::with_capacity(alloc, 2 * (budget as usize) + 1)?,
            decisions: Vec::with_capacity(alloc, budget as usize)?,
        })
    }

    /// Searches from the pair of which no bit is set: first by an attempt, and where that comes to nothing,
    /// with a code.
    pub(crate) fn find<J: Judge>(&mut self, judge: &mut J) -> Outcome
        requires aimed { IsSome (J.judged judge.old).aim }
        ensures aim { IsSameAim (J.judged judge.old) (J.judged judge.new) }
        ensures budget { self.new.budget ≡ self.old.budget }
        ensures within { branch_count (tokens_of self.new.numbers.items) ≤ self.new.budget }
        ensures outcome { IsOutcome (J.judged judge.new) self.new.budget
            (tokens_of self.new.numbers.items) result }
    {
        self.empty(judge);
        if judge.attempt(&mut self.numbers, self.budget) {
            judge.flat();
            return Outcome::Found;
        }
        self.empty(judge);
        judge.clear();
        self.search(judge)
    }

    // Takes back all tokens and decisions.
    fn empty<J: Judge>(&mut self, judge: &J)
        ensures emptied { IsEmptied (J.judged judge.now) self.new }
        ensures budget { self.new.budget ≡ self.old.budget }
    {
        self.numbers.clear();
        self.decisions.clear();
        self.branches = 0;
        self.bits = judge.bit_count();
    }

    // Searches with a code.
    fn search<J: Judge>(&mut self, judge: &mut J) -> Outcome
        requires aimed { IsSome (J.judged judge.old).aim }
        requires stands { TrailStands (J.judged judge.old) self.old }
        ensures aim { IsSameAim (J.judged judge.old) (J.judged judge.new) }
        ensures budget { self.new.budget ≡ self.old.budget }
        ensures within { branch_count (tokens_of self.new.numbers.items) ≤ self.new.budget }
        ensures outcome { IsOutcome (J.judged judge.new) self.new.budget
            (tokens_of self.new.numbers.items) result }
    {
        'deciding: loop {
            match decide(judge) {
                Move::Stop => return Outcome::Found,
                Move::Leave => {
                    if !self.leave(judge) {
                        return Outcome::Exhausted;
                    }
                }
                Move::Branch { bit, first } => {
                    if self.branches == self.budget {
                        return Outcome::Spent;
                    }
                    self.branch(judge, bit, first);
                }
            }
        }
    }

    // Decides the bit.
    fn branch<J: Judge>(&mut self, judge: &mut J, bit: u16, first: bool)
        requires stands { TrailStands (J.judged judge.old) self.old }
        requires may { MayDecideHere (J.judged judge.old) bit }
        requires unspent { self.old.branches < self.old.budget }
        ensures stands { TrailStands (J.judged judge.new) self.new }
        ensures aim { IsSameAim (J.judged judge.old) (J.judged judge.new) }
        ensures room { IsSameRoom self.old self.new }
        ensures longer { length self.new.numbers.items ≡ length self.old.numbers.items + 1 }
    {
        self.numbers
            .push_reserved(packed(Token::Branch { bit, first }));
        self.decisions.push_reserved(Decision {
            bit,
            value: first,
            is_second: false,
        });
        self.branches += 1;
        judge.set(bit, Some(first));
    }

    // Ends the tree at the pair in hand, and goes on to the next one, if there is one.
    fn leave<J: Judge>(&mut self, judge: &mut J) -> bool
        requires stands { TrailStands (J.judged judge.old) self.old }
        requires leaf { MayLeaveHere (J.judged judge.old) }
        ensures left { IsLeft result (J.judged judge.new) self.new }
        ensures aim { IsSameAim (J.judged judge.old) (J.judged judge.new) }
        ensures room { IsSameRoom self.old self.new }
        ensures within { branch_count (tokens_of self.new.numbers.items) ≤ self.new.budget }
        ensures longer { length self.new.numbers.items ≡ length self.old.numbers.items + 1 }
    {
        self.numbers.push_reserved(packed(Token::Leaf));
        self.turn(judge)
    }

    // Turns the latest first decision to its opposite, and takes back those after it; else takes back all.
    fn turn<J: Judge>(&mut self, judge: &mut J) -> bool
        requires { Follows (J.judged judge.old) self.old.decisions.items }
        ensures turned { IsTurn result (J.judged judge.old) (J.judged judge.new) self.old.decisions.items
            self.new.decisions.items }
        ensures aim { IsSameAim (J.judged judge.old) (J.judged judge.new) }
        ensures room { IsSameRoom self.old self.new }
        ensures branches { self.new.branches ≡ self.old.branches }
        ensures numbers { self.new.numbers.items ≡ self.old.numbers.items }
        ensures fewer { length self.new.decisions.items ≤ length self.old.decisions.items }
    {
        while let Some(decision) = self.decisions.pop() {
            if decision.is_second {
                judge.set(decision.bit, None);
            } else {
                self.decisions.push_reserved(Decision {
                    bit: decision.bit,
                    value: !decision.value,
                    is_second: true,
                });
                judge.set(decision.bit, Some(!decision.value));
                return true;
            }
        }
        false
    }
}

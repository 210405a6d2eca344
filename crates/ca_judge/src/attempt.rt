//! Attempts: ways to a pair that shows a defect, on which bits are taken back without a code.

ghost use Rattle.std.specs.Prelude.{◌≡◌, ◌<◌, ◌≤◌, length, vec_capacity, IsTrue};
ghost use Rattle.ca_flat.specs.Pair.{IsShown};
ghost use Rattle.ca_search.specs.FreeWay.{MaySet};
ghost use Rattle.ca_sim.specs.Simulator.{KeepsSeen};
ghost use Rattle.ca_confined.specs.Confined.{IsSimOf};
ghost use Rattle.ca_judge.specs.Attempt.{IsAimed, IsOnWay};

use crate::attempt_waves::AttemptWaves;
use ca_cell::Rows;
use ca_code::{packed, unpacked};
use ca_confined::Confined;
use ca_flat::{ChipDefect, Token};
use ca_guide::{Attempt, Choice, Guide};
use ca_sim::Sim;
use ca_view::View;

/// What an attempt is for: a defect, its rows and its support, and how many bits a way may have.
#[derive(Drop)]
pub struct Aimed<'a> {
    pub view: &'a View<'a>,
    pub guide: &'a Guide,
    pub rows: &'a Rows,
    pub defect: ChipDefect,
    pub most: u32,
}

/// Looks for a pair that shows the defect, in this many steps at most. Whether it is in hand.
pub(crate) fn attempt<P: Choice>(
    aimed: &Aimed<'_>,
    confined: &mut Confined,
    sim: &mut Sim,
    choice: &mut P,
    numbers: &mut Vec<u16>,
    steps: u32,
) -> bool
    requires aimed { IsAimed aimed.now.view.now.core aimed.now.view.now.lists aimed.now.guide.now
        aimed.now.defect }
    requires way { IsOnWay aimed.now.view.now.core aimed.now.defect aimed.now.most confined.old
        numbers.old.items }
    requires sim { IsSimOf confined.old.chip confined.old.places sim.old }
    requires room { aimed.now.most ≤ vec_capacity numbers.old }
    ensures way { IsOnWay aimed.now.view.now.core aimed.now.defect aimed.now.most confined.new
        numbers.new.items }
    ensures shown { IsTrue result
        → IsShown aimed.now.view.now.core aimed.now.defect confined.new.pair }
    ensures places { confined.new.places ≡ confined.old.places }
    ensures kept { KeepsSeen sim.old sim.new }
    ensures room { vec_capacity numbers.old ≤ vec_capacity numbers.new }
{
    for _ in 0..steps {
        if confined.is_shown() {
            return true;
        }
        if !step(aimed, confined, sim, choice, numbers) {
            return false;
        }
    }
    false
}

// The next step. Whether there was one.
fn step<P: Choice>(
    aimed: &Aimed<'_>,
    confined: &mut Confined,
    sim: &mut Sim,
    choice: &mut P,
    numbers: &mut Vec<u16>,
) -> bool
    requires aimed { IsAimed aimed.now.view.now.core aimed.now.view.now.lists aimed.now.guide.now
        aimed.now.defect }
    requires way { IsOnWay aimed.now.view.now.core aimed.now.defect aimed.now.most confined.old
        numbers.old.items }
    requires unshown { IsShown aimed.now.view.now.core aimed.now.defect confined.old.pair → ⊥ }
    requires sim { IsSimOf confined.old.chip confined.old.places sim.old }
    requires room { aimed.now.most ≤ vec_capacity numbers.old }
    ensures way { IsOnWay aimed.now.view.now.core aimed.now.defect aimed.now.most confined.new
        numbers.new.items }
    ensures places { confined.new.places ≡ confined.old.places }
    ensures kept { KeepsSeen sim.old sim.new }
    ensures room { vec_capacity numbers.old ≤ vec_capacity numbers.new }
{
    confined.whole();
    let waves = AttemptWaves {
        confined: &*confined,
    };
    match aimed
        .guide
        .attempt(aimed.view, &waves, aimed.rows, aimed.defect, choice)
    {
        Attempt::Set { bit, value } => {
            if numbers.len() >= aimed.most as usize {
                return false;
            }
            set(aimed, confined, sim, numbers, bit, value);
            true
        }
        Attempt::TakeBack => take_back(aimed, confined, sim, numbers),
        Attempt::GiveUp => false,
    }
}

/// Sets the bit.
pub(crate) fn set(
    aimed: &Aimed<'_>,
    confined: &mut Confined,
    sim: &mut Sim,
    numbers: &mut Vec<u16>,
    bit: u16,
    value: bool,
)
    requires aimed { IsAimed aimed.now.view.now.core aimed.now.view.now.lists aimed.now.guide.now
        aimed.now.defect }
    requires way { IsOnWay aimed.now.view.now.core aimed.now.defect aimed.now.most confined.old
        numbers.old.items }
    requires unshown { IsShown aimed.now.view.now.core aimed.now.defect confined.old.pair → ⊥ }
    requires may { MaySet aimed.now.view.now.core aimed.now.defect confined.old.pair bit }
    requires unspent { length numbers.old.items < aimed.now.most }
    requires sim { IsSimOf confined.old.chip confined.old.places sim.old }
    requires room { aimed.now.most ≤ vec_capacity numbers.old }
    ensures way { IsOnWay aimed.now.view.now.core aimed.now.defect aimed.now.most confined.new
        numbers.new.items }
    ensures places { confined.new.places ≡ confined.old.places }
    ensures kept { KeepsSeen sim.old sim.new }
    ensures room { vec_capacity numbers.old ≤ vec_capacity numbers.new }
{
    confined.whole();
    numbers.push_reserved(packed(Token::Branch { bit, first: value }));
    confined.set(bit, Some(value), sim);
}

/// Unsets the bit that was set last. Whether there is one.
pub(crate) fn take_back(
    aimed: &Aimed<'_>,
    confined: &mut Confined,
    sim: &mut Sim,
    numbers: &mut Vec<u16>,
) -> bool
    requires way { IsOnWay aimed.now.view.now.core aimed.now.defect aimed.now.most confined.old
        numbers.old.items }
    requires sim { IsSimOf confined.old.chip confined.old.places sim.old }
    ensures way { IsOnWay aimed.now.view.now.core aimed.now.defect aimed.now.most confined.new
        numbers.new.items }
    ensures places { confined.new.places ≡ confined.old.places }
    ensures kept { KeepsSeen sim.old sim.new }
    ensures room { vec_capacity numbers.old ≤ vec_capacity numbers.new }
{
    let _ = &aimed.most;
    confined.whole();
    match numbers.pop() {
        Some(number) => match unpacked(number) {
            Token::Branch { bit, first: _ } => {
                confined.set(bit, None, sim);
                true
            }
            Token::Leaf => false,
        },
        None => false,
    }
}

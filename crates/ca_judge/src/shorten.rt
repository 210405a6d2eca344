//! Ways that are made shorter: the bits that aren't needed any more, once later ones are set, are unset.

ghost use Rattle.std.specs.Prelude.{◌≡◌, ◌+◌, ◌*◌, ◌≤◌, length, vec_capacity, IsTrue};
ghost use Rattle.ca_flat.specs.Pair.{IsShown};
ghost use Rattle.ca_view.specs.Linked.{IsAim, place_in};
ghost use Rattle.ca_sim.specs.Simulator.{KeepsSeen};
ghost use Rattle.ca_confined.specs.Confined.{IsSimOf, KeepsAim};
ghost use Rattle.ca_judge.specs.Attempt.{IsAimed, IsAimedAt, IsOnWay};
ghost use Rattle.ca_judge.specs.code.Attempt.{IsReadyFor, KeepsAttempt};

use crate::attempt::{Aimed, attempt, set};
use crate::exchange::exchange;
use crate::further::set_further;
use arrayvec::ArrayVec;
use ca_code::unpacked;
use ca_confined::Confined;
use ca_flat::Token;
use ca_guide::Choice;
use ca_sim::Sim;

// The most steps of an attempt.
const MOST_STEPS: u32 = 8192;

// The most bits that a way which is made shorter may have past the others.
const MOST_MORE: u32 = 64;

// The most bits past those that a way may have, of which some are exchanged.
const MOST_OVER: usize = 8;

// Further bits are set where a way has fewer than this part of the bits that it may have.
const FEW_PART: usize = 4;

/// The most bits that may be left of a way.
pub(crate) const MOST_NEEDED: usize = 256;

/// The numbers of the tokens whose bits are needed, the last of the way first.
pub(crate) type Needed = ArrayVec<u16, MOST_NEEDED>;

/// Looks for a pair that shows the defect. A way to it may have up to twice the bits at first, and is made
/// shorter then; where it has few, further bits are set. Whether the pair is in hand.
pub(crate) fn short_attempt<P: Choice>(
    aimed: &Aimed<'_>,
    confined: &mut Confined,
    sim: &mut Sim,
    choice: &mut P,
    numbers: &mut Vec<u16>,
) -> bool
    requires aimed { IsAimed aimed.now.view.now.core aimed.now.view.now.lists aimed.now.guide.now
        aimed.now.defect }
    requires way { IsOnWay aimed.now.view.now.core aimed.now.defect aimed.now.most confined.old
        numbers.old.items }
    requires placed { IsAim confined.old.chip (place_in confined.old.places) confined.old.aim }
    requires sim { IsSimOf confined.old.chip confined.old.places sim.old }
    requires room { 2 * aimed.now.most + 1 ≤ vec_capacity numbers.old }
    ensures way { IsTrue result → IsOnWay aimed.now.view.now.core aimed.now.defect aimed.now.most
        confined.new numbers.new.items }
    ensures shown { IsTrue result
        → IsShown aimed.now.view.now.core aimed.now.defect confined.new.pair }
    ensures within { length numbers.new.items ≤ aimed.now.most }
    ensures aim { KeepsAim confined.old confined.new }
    ensures kept { KeepsSeen sim.old sim.new }
    ensures room { vec_capacity numbers.old ≤ vec_capacity numbers.new }
{
    let longer = lengthened(aimed);
    if !attempt(&longer, confined, sim, choice, numbers, MOST_STEPS) {
        numbers.clear();
        return false;
    }
    if numbers.len() > aimed.most as usize && !shorten(aimed, confined, sim, choice, numbers) {
        numbers.clear();
        return false;
    }
    if numbers.len() >= aimed.most as usize / FEW_PART {
        return true;
    }
    set_further(aimed, confined, sim, numbers)
}

/// The same aim, where a way may have up to twice the bits.
pub(crate) fn lengthened<'a>(aimed: &Aimed<'a>) -> Aimed<'a>
    ensures view { result.view.now ≡ aimed.now.view.now }
    ensures guide { result.guide.now ≡ aimed.now.guide.now }
    ensures defect { result.defect ≡ aimed.now.defect }
    ensures least { aimed.now.most ≤ result.most }
    ensures most { result.most ≤ 2 * aimed.now.most }
{
    Aimed {
        view: aimed.view,
        guide: aimed.guide,
        rows: aimed.rows,
        defect: aimed.defect,
        most: aimed.most.saturating_add(aimed.most.min(MOST_MORE)),
    }
}

// Makes the way to a pair that shows the defect shorter: bits that aren't needed are unset, some of those
// that are too many are exchanged, and what is left is set anew, one by one. Whether a pair that shows it is
// in hand then.
fn shorten<P: Choice>(
    aimed: &Aimed<'_>,
    confined: &mut Confined,
    sim: &mut Sim,
    choice: &mut P,
    numbers: &mut Vec<u16>,
) -> bool
    requires aimed { IsAimed aimed.now.view.now.core aimed.now.view.now.lists aimed.now.guide.now
        aimed.now.defect }
    requires ready { IsReadyFor aimed.now.view.now.core aimed.now.defect confined.old sim.old }
    requires shown { IsShown aimed.now.view.now.core aimed.now.defect confined.old.pair }
    requires room { 2 * aimed.now.most ≤ vec_capacity numbers.old }
    ensures way { IsTrue result → IsOnWay aimed.now.view.now.core aimed.now.defect aimed.now.most
        confined.new numbers.new.items }
    ensures shown { IsTrue result
        → IsShown aimed.now.view.now.core aimed.now.defect confined.new.pair }
    ensures kept { KeepsAttempt confined.old confined.new sim.old sim.new }
    ensures room { vec_capacity numbers.old ≤ vec_capacity numbers.new }
{
    let mut needed = Needed::new();
    let most = aimed.most as usize;
    if !unset_needless(
        aimed,
        confined,
        sim,
        numbers.as_slice(),
        most + MOST_OVER,
        &mut needed,
    ) {
        return false;
    }
    if !exchange(aimed, confined, sim, choice, numbers, &mut needed) {
        return false;
    }
    follow_anew(aimed, confined, sim, needed.as_slice(), numbers)
}

/// Unsets the bits that aren't needed, beginning with the one that was set last, and notes the others.
/// Whether these are no more than `most`.
pub(crate) fn unset_needless(
    aimed: &Aimed<'_>,
    confined: &mut Confined,
    sim: &mut Sim,
    numbers: &[u16],
    most: usize,
    needed: &mut Needed,
) -> bool
    requires aimed { IsAimed aimed.now.view.now.core aimed.now.view.now.lists aimed.now.guide.now
        aimed.now.defect }
    requires at { IsAimedAt aimed.now.view.now.core aimed.now.defect confined.old }
    requires shown { IsShown aimed.now.view.now.core aimed.now.defect confined.old.pair }
    requires sim { IsSimOf confined.old.chip confined.old.places sim.old }
    ensures shown { IsShown aimed.now.view.now.core aimed.now.defect confined.new.pair }
    ensures aim { KeepsAim confined.old confined.new }
    ensures kept { KeepsSeen sim.old sim.new }
{
    for number in numbers.iter().rev() {
        if is_needed(aimed, confined, sim, *number) {
            if needed.is_full() || needed.len() >= most {
                return false;
            }
            needed.push(*number);
        }
    }
    true
}

// Unsets the bit of a token, and sets it again if the defect is no longer shown. Whether it is set then.
fn is_needed(aimed: &Aimed<'_>, confined: &mut Confined, sim: &mut Sim, number: u16) -> bool
    requires aimed { IsAimed aimed.now.view.now.core aimed.now.view.now.lists aimed.now.guide.now
        aimed.now.defect }
    requires at { IsAimedAt aimed.now.view.now.core aimed.now.defect confined.old }
    requires shown { IsShown aimed.now.view.now.core aimed.now.defect confined.old.pair }
    requires sim { IsSimOf confined.old.chip confined.old.places sim.old }
    ensures needed { IsTrue result → confined.new.pair ≡ confined.old.pair }
    ensures shown { IsShown aimed.now.view.now.core aimed.now.defect confined.new.pair }
    ensures aim { KeepsAim confined.old confined.new }
    ensures kept { KeepsSeen sim.old sim.new }
{
    confined.whole();
    let Token::Branch { bit, first: _ } = unpacked(number) else {
        return false;
    };
    if !aimed.guide.supports(bit) {
        return false;
    }
    let value = confined.bit(bit as usize);
    confined.set(bit, None, sim);
    if confined.is_shown() {
        return false;
    }
    confined.set(bit, value, sim);
    true
}

/// Sets the bits of the tokens one by one, from the pair of which none is set, until the defect is shown.
/// Whether it is.
pub(crate) fn follow_anew(
    aimed: &Aimed<'_>,
    confined: &mut Confined,
    sim: &mut Sim,
    tokens: &[u16],
    numbers: &mut Vec<u16>,
) -> bool
    requires aimed { IsAimed aimed.now.view.now.core aimed.now.view.now.lists aimed.now.guide.now
        aimed.now.defect }
    requires ready { IsReadyFor aimed.now.view.now.core aimed.now.defect confined.old sim.old }
    requires room { aimed.now.most ≤ vec_capacity numbers.old }
    ensures way { IsOnWay aimed.now.view.now.core aimed.now.defect aimed.now.most confined.new
        numbers.new.items }
    ensures shown { IsTrue result
        → IsShown aimed.now.view.now.core aimed.now.defect confined.new.pair }
    ensures kept { KeepsAttempt confined.old confined.new sim.old sim.new }
    ensures room { vec_capacity numbers.old ≤ vec_capacity numbers.new }
{
    numbers.clear();
    confined.begin(Some(aimed.defect), sim);
    follow(aimed, confined, sim, tokens, numbers)
}

// Sets the bits of the tokens one by one, until the defect is shown. Whether it is.
fn follow(
    aimed: &Aimed<'_>,
    confined: &mut Confined,
    sim: &mut Sim,
    tokens: &[u16],
    numbers: &mut Vec<u16>,
) -> bool
    requires aimed { IsAimed aimed.now.view.now.core aimed.now.view.now.lists aimed.now.guide.now
        aimed.now.defect }
    requires way { IsOnWay aimed.now.view.now.core aimed.now.defect aimed.now.most confined.old
        numbers.old.items }
    requires sim { IsSimOf confined.old.chip confined.old.places sim.old }
    requires room { aimed.now.most ≤ vec_capacity numbers.old }
    ensures way { IsOnWay aimed.now.view.now.core aimed.now.defect aimed.now.most confined.new
        numbers.new.items }
    ensures shown { IsTrue result
        → IsShown aimed.now.view.now.core aimed.now.defect confined.new.pair }
    ensures places { confined.new.places ≡ confined.old.places }
    ensures kept { KeepsSeen sim.old sim.new }
    ensures room { vec_capacity numbers.old ≤ vec_capacity numbers.new }
{
    for number in tokens {
        if confined.is_shown() {
            return true;
        }
        if !follow_token(aimed, confined, sim, *number, numbers) {
            return false;
        }
    }
    confined.is_shown()
}

/// Sets the bit of a token, if it may be set. Whether it was.
pub(crate) fn follow_token(
    aimed: &Aimed<'_>,
    confined: &mut Confined,
    sim: &mut Sim,
    number: u16,
    numbers: &mut Vec<u16>,
) -> bool
    requires aimed { IsAimed aimed.now.view.now.core aimed.now.view.now.lists aimed.now.guide.now
        aimed.now.defect }
    requires way { IsOnWay aimed.now.view.now.core aimed.now.defect aimed.now.most confined.old
        numbers.old.items }
    requires unshown { IsShown aimed.now.view.now.core aimed.now.defect confined.old.pair → ⊥ }
    requires sim { IsSimOf confined.old.chip confined.old.places sim.old }
    requires room { aimed.now.most ≤ vec_capacity numbers.old }
    ensures way { IsOnWay aimed.now.view.now.core aimed.now.defect aimed.now.most confined.new
        numbers.new.items }
    ensures places { confined.new.places ≡ confined.old.places }
    ensures kept { KeepsSeen sim.old sim.new }
    ensures room { vec_capacity numbers.old ≤ vec_capacity numbers.new }
{
    confined.whole();
    let Token::Branch { bit, first } = unpacked(number) else {
        return false;
    };
    if !aimed.guide.supports(bit) || confined.bit(bit as usize).is_some() {
        return false;
    }
    if numbers.len() >= aimed.most as usize {
        return false;
    }
    set(aimed, confined, sim, numbers, bit, first);
    true
}

//! Needed bits of a way that are exchanged for others, so that fewer are needed.

ghost use Rattle.std.specs.Prelude.{◌≡◌, ◌<◌, ◌*◌, ◌≤◌, length, vec_capacity};
ghost use Rattle.arrayvec.specs.ArrayVec.{array_vec_len};
ghost use Rattle.ca_judge.specs.Attempt.{IsAimed};
ghost use Rattle.ca_judge.specs.code.Attempt.{IsReadyFor, KeepsAttempt};

use crate::attempt::{Aimed, attempt};
use crate::shorten::{MOST_NEEDED, Needed, follow_anew, lengthened, unset_needless};
use ca_code::{packed, unpacked};
use ca_confined::Confined;
use ca_flat::Token;
use ca_guide::Choice;
use ca_sim::{Sim, input_of};
use ca_view::View;

// The most steps in which other bits are found for those of a group.
const MOST_STEPS: u32 = 40;

/// Exchanges needed bits for others, as long as more are needed than a way may have: for each in turn it is
/// tried whether its opposite and other bits do without its group. Whether no more are needed then.
pub(crate) fn exchange<P: Choice>(
    aimed: &Aimed<'_>,
    confined: &mut Confined,
    sim: &mut Sim,
    choice: &mut P,
    numbers: &mut Vec<u16>,
    needed: &mut Needed,
) -> bool
    requires aimed { IsAimed aimed.now.view.now.core aimed.now.view.now.lists aimed.now.guide.now
        aimed.now.defect }
    requires ready { IsReadyFor aimed.now.view.now.core aimed.now.defect confined.old sim.old }
    requires room { 2 * aimed.now.most ≤ vec_capacity numbers.old }
    ensures kept { KeepsAttempt confined.old confined.new sim.old sim.new }
    ensures room { vec_capacity numbers.old ≤ vec_capacity numbers.new }
{
    let longer = lengthened(aimed);
    for place in 0..MOST_NEEDED {
        if needed.len() <= aimed.most as usize {
            return true;
        }
        if place >= needed.len() {
            return false;
        }
        exchange_at(&longer, confined, sim, choice, numbers, needed, place);
    }
    false
}

// Sets the needed bits anew, without the group of the one at this place and with the opposite of that bit,
// and looks for bits with which the defect is shown again. Where fewer are needed then, they are the needed
// ones.
fn exchange_at<P: Choice>(
    aimed: &Aimed<'_>,
    confined: &mut Confined,
    sim: &mut Sim,
    choice: &mut P,
    numbers: &mut Vec<u16>,
    needed: &mut Needed,
    place: usize,
)
    requires aimed { IsAimed aimed.now.view.now.core aimed.now.view.now.lists aimed.now.guide.now
        aimed.now.defect }
    requires ready { IsReadyFor aimed.now.view.now.core aimed.now.defect confined.old sim.old }
    requires room { aimed.now.most ≤ vec_capacity numbers.old }
    requires place { place < array_vec_len needed.old }
    ensures kept { KeepsAttempt confined.old confined.new sim.old sim.new }
    ensures room { vec_capacity numbers.old ≤ vec_capacity numbers.new }
{
    let mut tokens = Needed::new();
    turn_group(aimed, needed, place, &mut tokens);
    choice.begin();
    follow_anew(aimed, confined, sim, tokens.as_slice(), numbers);
    if !attempt(aimed, confined, sim, choice, numbers, MOST_STEPS) {
        return;
    }
    let mut fewer = Needed::new();
    if unset_needless(
        aimed,
        confined,
        sim,
        numbers.as_slice(),
        needed.len() - 1,
        &mut fewer,
    ) {
        take_over(needed, &fewer);
    }
}

// The one list becomes the other.
fn take_over(needed: &mut Needed, others: &Needed)
    ensures { needed.new.items ≡ others.now.items }
{
    needed.clear();
    for number in others.as_slice() {
        needed.push(*number);
    }
}

// Notes the needed bits in the order in which they were set, without the group of the one at this place, and
// then the opposite of that one.
fn turn_group(aimed: &Aimed<'_>, needed: &Needed, place: usize, tokens: &mut Needed)
    requires aimed { IsAimed aimed.now.view.now.core aimed.now.view.now.lists aimed.now.guide.now
        aimed.now.defect }
    requires place { place < array_vec_len needed.now }
{
    let Token::Branch { bit, first } = unpacked(needed[place]) else {
        return;
    };
    if !aimed.guide.supports(bit) {
        return;
    }
    for number in needed.as_slice().iter().rev() {
        if !is_in_group(aimed.view, bit, *number) {
            note(tokens, *number);
        }
    }
    note(tokens, packed(Token::Branch { bit, first: !first }));
}

// Appends a number, if there is room.
fn note(tokens: &mut Needed, number: u16) {
    if !tokens.is_full() {
        tokens.push(number);
    }
}

// Whether the bit of a token is in the group of a bit: it is that one, or they are read together.
fn is_in_group(view: &View, bit: u16, number: u16) -> bool {
    match unpacked(number) {
        Token::Branch {
            bit: other,
            first: _,
        } => { other == bit || are_read_together(view, bit as usize, other as usize) }
        Token::Leaf => false,
    }
}

// Whether both bits are of one vector, and some instance reads the nets of both.
fn are_read_together(view: &View, bit: usize, other: usize) -> bool {
    view.linked();
    let inputs = view.input_count();
    if bit >= 2 * inputs || other >= 2 * inputs || (bit < inputs) != (other < inputs) {
        return false;
    }
    let net = view.input(input_of(bit, inputs));
    let other_net = view.input(input_of(other, inputs));
    is_read_with(view, net, other_net as u32)
}

// Whether some instance reads both nets.
fn is_read_with(view: &View, net: usize, other: u32) -> bool
    requires { net < length view.now.core.nets }
{
    view.linked();
    for k in 0..view.reader_count(net) {
        if view.input_pins(view.reader(net, k) as u32).contains(&other) {
            return true;
        }
    }
    false
}

//! Further bits of a way, by which its pair may show other defects too.

ghost use Rattle.std.specs.Prelude.{◌≡◌, ◌<◌, ◌≤◌, vec_capacity, IfSome, IsTrue};
ghost use Rattle.ca_code.specs.declared.token.TheConstants.{MOST_PATTERN_BITS};
ghost use Rattle.ca_flat.specs.Pair.{IsShown};
ghost use Rattle.ca_sim.specs.Simulator.{KeepsSeen};
ghost use Rattle.ca_confined.specs.Confined.{IsSimOf};
ghost use Rattle.ca_judge.specs.Attempt.{IsAimed, IsOnWay};

use crate::attempt::{Aimed, take_back};
use crate::shorten::follow_token;
use ca_code::{MOST_PATTERN_BITS, packed, unpacked};
use ca_confined::Confined;
use ca_flat::Token;
use ca_sim::Sim;
use ca_view::View;

// The most bits that are looked at.
const MOST_LOOKS: u32 = 1024;

// An odd number, by which numbers are mixed.
const MIX: u64 = 6_364_136_223_846_793_005;

/// Sets further bits of the support to 1 before the last bit of a way, as long as it may have more: unset
/// bits of a listed pair are 0, so bits that are 1 make it another pair. Whether the defect is shown at the
/// end.
pub(crate) fn set_further(
    aimed: &Aimed<'_>,
    confined: &mut Confined,
    sim: &mut Sim,
    numbers: &mut Vec<u16>,
) -> bool
    requires aimed { IsAimed aimed.now.view.now.core aimed.now.view.now.lists aimed.now.guide.now
        aimed.now.defect }
    requires way { IsOnWay aimed.now.view.now.core aimed.now.defect aimed.now.most confined.old
        numbers.old.items }
    requires sim { IsSimOf confined.old.chip confined.old.places sim.old }
    requires room { aimed.now.most ≤ vec_capacity numbers.old }
    ensures way { IsOnWay aimed.now.view.now.core aimed.now.defect aimed.now.most confined.new
        numbers.new.items }
    ensures shown { IsTrue result
        → IsShown aimed.now.view.now.core aimed.now.defect confined.new.pair }
    ensures places { confined.new.places ≡ confined.old.places }
    ensures kept { KeepsSeen sim.old sim.new }
    ensures room { vec_capacity numbers.old ≤ vec_capacity numbers.new }
{
    let start = mixed(numbers.as_slice());
    let last = match numbers.last() {
        Some(number) => *number,
        None => return confined.is_shown(),
    };
    if !take_back(aimed, confined, sim, numbers) {
        return false;
    }
    set_ones(aimed, confined, sim, last, numbers, start);
    if confined.is_shown() {
        return true;
    }
    follow_token(aimed, confined, sim, last, numbers);
    confined.is_shown()
}

// Sets bits to 1, but not that of the last token, as long as the defect isn't shown and one more may be set
// after them.
fn set_ones(
    aimed: &Aimed<'_>,
    confined: &mut Confined,
    sim: &mut Sim,
    last: u16,
    numbers: &mut Vec<u16>,
    start: u64,
)
    requires aimed { IsAimed aimed.now.view.now.core aimed.now.view.now.lists aimed.now.guide.now
        aimed.now.defect }
    requires way { IsOnWay aimed.now.view.now.core aimed.now.defect aimed.now.most confined.old
        numbers.old.items }
    requires sim { IsSimOf confined.old.chip confined.old.places sim.old }
    requires room { aimed.now.most ≤ vec_capacity numbers.old }
    ensures way { IsOnWay aimed.now.view.now.core aimed.now.defect aimed.now.most confined.new
        numbers.new.items }
    ensures places { confined.new.places ≡ confined.old.places }
    ensures kept { KeepsSeen sim.old sim.new }
    ensures room { vec_capacity numbers.old ≤ vec_capacity numbers.new }
{
    let mut mix = start;
    for _ in 0..MOST_LOOKS {
        if confined.is_shown() {
            return;
        }
        if numbers.len() + 1 >= aimed.most as usize {
            return;
        }
        mix = mix.wrapping_mul(MIX).wrapping_add(1);
        if let Some(bit) = bit_of(aimed.view, last, start, mix) {
            let token = packed(Token::Branch { bit, first: true });
            follow_token(aimed, confined, sim, token, numbers);
        }
    }
}

// Whether a token sets the bit.
fn is_of(number: u16, bit: u16) -> bool {
    match unpacked(number) {
        Token::Branch {
            bit: other,
            first: _,
        } => other == bit,
        Token::Leaf => false,
    }
}

// A number that is mixed of those of a list.
fn mixed(numbers: &[u16]) -> u64 {
    let mut mix = 1;
    for number in numbers {
        mix = mix_of(mix, *number);
    }
    mix
}

// The same with one number more.
fn mix_of(mix: u64, number: u16) -> u64 {
    mix.wrapping_add(number as u64).wrapping_mul(MIX)
}

// The bit that a number stands for, unless it is that of the last token or stays 0: of four bits one does,
// whichever number stands for it.
fn bit_of(view: &View, last: u16, start: u64, mix: u64) -> Option<u16>
    ensures { IfSome result (λ bit. bit < MOST_PATTERN_BITS) }
{
    view.linked();
    let bits = 2 * view.input_count() as u64;
    if bits == 0 {
        return None;
    }
    let bit = match u16::try_from((mix >> 33) % bits) {
        Ok(bit) => bit,
        Err(_) => return None,
    };
    if bit as usize >= MOST_PATTERN_BITS || (mix_of(start, bit) >> 40) % 4 == 0 {
        return None;
    }
    if is_of(last, bit) {
        return None;
    }
    Some(bit)
}
